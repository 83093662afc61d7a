// The call undo. Paper 02, request 2026-03.
#![tactic(auto)]

ghost use Rattle.table_format.specs.Decode.{decode};
ghost use Rattle.contracts.specs.State.{tables};
ghost use Rattle.contracts.specs.Journal.{count_taken};
ghost use Rattle.contracts.specs.MoveCall.{MovePromise};
ghost use Rattle.contracts.specs.UndoCall.{undoes};

use call_move::move_with;
use contracts::Moved;
use journal_rules::{count_taken, opposite_of};
use logic::{Move, Refusal};

// Undo, over a journal of some length and newest record: tries 11 to 13, 19, 14 of the record and 15 of its opposite, which it makes,
// and lowers the record count.
pub fn undo(
    table: &[u8],
    masks: &mut [u64],
    cells: &mut [u32],
    room: usize,
    count: &mut usize,
    newest: Move,
) -> Result<Moved, Refusal>
    ensures { MovePromise count_taken (undoes (decode table.now) newest (tables masks.old cells.old) room count.old) count.old result (tables masks.new cells.new) count.new }
{
    let at = *count;
    let m = opposite_of(newest);
    let a = move_with(table, masks, cells, room, at, at == 0, false, m);
    *count = count_taken(a, at);
    a
}
