// Works a list of encoded calls. Paper 01, section Lists of calls; paper 02, request 2026-03.
#![tactic(auto)]

ghost use Rattle.std.specs.Prelude.{◌*◌, ◌≤◌, length};
ghost use Rattle.contracts.specs.Journal.{journaled};
ghost use Rattle.call_one.specs.Lending.{lends};
ghost use Rattle.call_list.specs.inner.Next.{NextFits};
ghost use Rattle.call_list.specs.Working.{Worked, Stopped};

use call_one::work_one;
use journal::{put_record, record_at};
use journal_rules::{newest_place, record_place};
use logic::Move;

// How many numbers say a call, and how many an answer.
const CALL: usize = 7;

const ANSWER: usize = 10;

// Whether a next call is whole and its answer has room.
fn next_fits(calls: &[u32], answers: &[u32], worked: usize) -> bool
    requires { (7 * worked ≤ length calls.now) × (10 * worked ≤ length answers.now) }
    ensures { NextFits result calls.now answers.now worked }
{
    if calls.len() - CALL * worked < CALL {
        return false;
    }
    if answers.len() - ANSWER * worked < ANSWER {
        return false;
    }
    true
}

// Works call after call up to the first that is not whole, whose tag is unknown or whose answer has no room; how many it worked. What a
// call makes goes into the journal.
pub fn work(
    table: &[u8],
    masks: &mut [u64],
    cells: &mut [u32],
    scratch: &mut [u32],
    journal: &mut [Move],
    count: &mut usize,
    list: &mut [[u32; 5]],
    calls: &[u32],
    answers: &mut [u32],
) -> usize
    ensures run { Worked table.now calls.now (lends (journaled masks.old cells.old journal.old count.old) scratch.old list.old answers.old) result (lends (journaled masks.new cells.new journal.new count.new) scratch.new list.new answers.new) }
    ensures stopped { Stopped calls.now (length answers.old) result }
{
    let mut worked = 0;
    while next_fits(calls, &answers[..], worked) {
        let from = CALL * worked;
        let to = ANSWER * worked;
        let at = *count;
        let newest = record_at(&journal[..], newest_place(at));
        let Some(recorded) = work_one(
            table,
            masks,
            cells,
            scratch,
            journal.len(),
            count,
            newest,
            list,
            &calls[from..],
            &mut answers[to..],
        ) else {
            return worked;
        };
        put_record(journal, record_place(at, *count, journal.len()), recorded);
        worked += 1;
    }
    worked
}
