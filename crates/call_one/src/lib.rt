// Works one encoded call. Paper 01, section Lists of calls; paper 02, requests 2026-03 and 2026-05.
#![tactic(auto)]

ghost use Rattle.std.specs.Prelude.{◌≡◌, ◌≤◌, length};
ghost use Rattle.contracts.specs.Journal.{journaled};
ghost use Rattle.call_one.specs.Lending.{lends};
ghost use Rattle.call_one.specs.inner.Steps.{OneOver};

use call_best::best_moves;
use call_improve::improve;
use call_move::make_move;
use call_numbers::{is_test, move_of, tell_counted, tell_improved, tell_moved};
use call_test::port_test;
use call_trial::trial;
use call_undo::undo;
use journal_rules::chosen_of;
use logic::{Move, wide};

// One call by its tag: 1 a move, 2 a trial, 3 improve, 4 the best moves, 5 undo, 6 a port put in test, 7 one taken out. Any other tag is
// unknown: nothing is written for it, and it has no record. The journal is lent by value, its length and its newest record; the record
// that goes into it if the record count was raised is the caller's to write, at the old count.
pub fn work_one(
    table: &[u8],
    masks: &mut [u64],
    cells: &mut [u32],
    scratch: &mut [u32],
    room: usize,
    count: &mut usize,
    newest: Move,
    list: &mut [[u32; 5]],
    call: &[u32],
    answer: &mut [u32],
) -> Option<Move>
    requires { (7 ≤ length call.now) × (10 ≤ length answer.old) }
    ensures { OneOver result table.now call.now room newest count.old (λ records. lends (journaled masks.old cells.old records count.old) scratch.old list.old answer.old) count.new (λ records. lends (journaled masks.new cells.new records count.new) scratch.new list.new answer.new) }
{
    let tag = call[0];
    let m = move_of(call);
    let lent = wide(call[6]).min(scratch.len());
    if tag == 1 {
        tell_moved(make_move(table, masks, cells, room, count, m), answer);
        return Some(m);
    }
    if tag == 2 {
        tell_moved(
            trial(table, &masks[..], &cells[..], &mut scratch[0..lent], m),
            answer,
        );
        return Some(m);
    }
    if tag == 3 {
        let a = improve(
            table,
            masks,
            cells,
            &mut scratch[0..lent],
            room,
            count,
            m.kind,
        );
        tell_improved(a, answer);
        let chosen = chosen_of(a);
        return Some(chosen);
    }
    if tag == 4 {
        let listed = wide(m.s).min(list.len());
        tell_counted(
            best_moves(
                table,
                &masks[..],
                &cells[..],
                &mut scratch[0..lent],
                m.kind,
                &mut list[0..listed],
            ),
            answer,
        );
        return Some(m);
    }
    if tag == 5 {
        tell_moved(undo(table, masks, cells, room, count, newest), answer);
        return Some(m);
    }
    if is_test(tag) {
        tell_moved(port_test(table, masks, cells, tag == 6, m.p), answer);
        return Some(m);
    }
    None
}
