// Makes a legal move over open tables. Paper 01, section One move.
#![tactic(auto)]

ghost use Rattle.move_make.specs.inner.Carrying.{Carries};
ghost use Rattle.move_try.specs.inner.OverPlan.{LegalMove};

use cells_sum::After;
use cells_touch::change_of;
use cells_walk::Plan;
use cells_write::root_written;
use logic::{Move, own_masks};
use move_legal::narrow;
use move_masks::masks_after;

// Makes a legal move over open tables: its masks, then the touched cells.
pub fn carry(plan: &Plan, masks: &mut [u64], cells: &mut [u32], m: Move) -> After
    requires { LegalMove plan.now masks.old cells.old m }
    ensures { Carries plan.now.table.now masks.old cells.old m result masks.new cells.new }
{
    let own = own_masks(plan.sets);
    masks_after(m, narrow(plan.ports), narrow(plan.sets), &mut masks[0..own]);
    root_written(plan, &masks[0..own], cells, &change_of(m))
}
