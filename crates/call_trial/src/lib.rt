// The call trial. Paper 01, section One move.
#![tactic(auto)]

ghost use Rattle.std.specs.Prelude.{length};
ghost use Rattle.table_format.specs.Decode.{decode};
ghost use Rattle.contracts.specs.State.{tables};
ghost use Rattle.contracts.specs.MoveCall.{move_values, MovedAs};
ghost use Rattle.contracts.specs.TrialCall.{trials, ScratchAfter};

use answers::accepted;
use call_open::open_tables;
use cells_walk::Plan;
use contracts::Moved;
use logic::{MASK_ROOM, Move, Refusal, own_masks};
use move_legal::legal;
use move_try::try_move;
use table_format::Index;

// Trial: tries 11 to 15; answers what the move would, and writes nothing.
pub fn trial(
    table: &[u8],
    masks: &[u64],
    cells: &[u32],
    scratch: &mut [u32],
    m: Move,
) -> Result<Moved, Refusal>
    ensures answer { MovedAs (trials (decode table.now) m (tables masks.now cells.now) (length scratch.old)) result }
    ensures lent { ScratchAfter (decode table.now) (move_values result).number scratch.old scratch.new }
{
    let mut index = Index::new();
    let shortest = cells.len().min(scratch.len());
    let o = open_tables(table, masks, shortest, &mut index)?;
    legal(m, o.ports, o.sets, masks)?;
    let mut work = [0u64; MASK_ROOM];
    let own = own_masks(o.sets);
    let plan = Plan {
        table,
        index: &index,
        ports: o.ports,
        sets: o.sets,
    };
    Ok(accepted(try_move(&plan, masks, cells, m, &mut work[0..own])))
}
