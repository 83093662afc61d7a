// Tries a legal move over open tables: its three numbers, by the masks that it would leave. Paper 01, section One move.
#![tactic(auto)]

ghost use Rattle.move_try.specs.inner.Trying.{GivesNumbers};
ghost use Rattle.move_try.specs.inner.OverPlan.{TryReady};

use cells_sum::After;
use cells_touch::change_of;
use cells_try::root_after;
use cells_walk::Plan;
use logic::{Move, own_masks};
use move_legal::narrow;
use move_masks::{copy_masks, masks_after};

// The three numbers of a legal move; the masks after it go into `work`, and nothing else is written.
pub fn try_move(plan: &Plan, masks: &[u64], cells: &[u32], m: Move, work: &mut [u64]) -> After
    requires { TryReady plan.now masks.now cells.now m work.old }
    ensures { GivesNumbers plan.now.table.now masks.now cells.now m result }
{
    copy_masks(masks, own_masks(plan.sets), work);
    masks_after(m, narrow(plan.ports), narrow(plan.sets), work);
    root_after(plan, &work[..], cells, &change_of(m))
}
