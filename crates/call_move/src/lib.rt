// The call move. Paper 01, section One move; paper 02, request 2026-03.
#![tactic(auto)]

ghost use Rattle.table_format.specs.Decode.{decode};
ghost use Rattle.contracts.specs.State.{tables};
ghost use Rattle.contracts.specs.Journal.{count_after};
ghost use Rattle.contracts.specs.MoveCall.{MadeAs, moves, MovePromise};
ghost use Rattle.call_move.specs.inner.Making.{made};

use answers::accepted;
use call_open::open_tables;
use cells_walk::Plan;
use contracts::Moved;
use journal_rules::{cells_lent, count_made, is_full};
use logic::{Move, Refusal};
use move_legal::legal;
use move_make::carry;
use table_format::Index;

// A move that a call makes over a journal of some length and record count: tries 11 to 13, 19 where the call needs a record and there
// is none, 14 and 15, and 18 where it needs room and there is none; writes the move's masks and the touched cells in place.
pub fn move_with(
    table: &[u8],
    masks: &mut [u64],
    cells: &mut [u32],
    room: usize,
    count: usize,
    empty: bool,
    full: bool,
    m: Move,
) -> Result<Moved, Refusal>
    ensures { MadeAs (made (decode table.now) m (tables masks.old cells.old) room count empty full) result (tables masks.new cells.new) }
{
    let mut index = Index::new();
    let o = open_tables(
        table,
        &masks[..],
        cells_lent(room, count, cells.len()),
        &mut index,
    )?;
    if empty {
        return Err(Refusal::JournalEmpty);
    }
    legal(m, o.ports, o.sets, &masks[..])?;
    if full {
        return Err(Refusal::JournalFull);
    }
    let plan = Plan {
        table,
        index: &index,
        ports: o.ports,
        sets: o.sets,
    };
    Ok(accepted(carry(&plan, masks, cells, m)))
}

// A move, over a journal of some length: tries 11 to 15 and 18, and raises the record count. The record is the caller's to write, at the
// old count.
pub fn make_move(
    table: &[u8],
    masks: &mut [u64],
    cells: &mut [u32],
    room: usize,
    count: &mut usize,
    m: Move,
) -> Result<Moved, Refusal>
    ensures { MovePromise count_after (moves (decode table.now) m (tables masks.old cells.old) room count.old) count.old result (tables masks.new cells.new) count.new }
{
    let at = *count;
    let a = move_with(table, masks, cells, room, at, false, is_full(room, at), m);
    *count = count_made(a, at);
    a
}
