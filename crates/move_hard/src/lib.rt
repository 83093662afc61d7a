// What a legal move adds to the atoms with quantifiers: each is gone through by itself, where the change touches it.
#![tactic(auto)]

ghost use Rattle.move_hard.specs.inner.OverPlan.{HardReady, HardGives};

use cells_share::list_shares;
use cells_touch::change_of;
use cells_walk::Plan;
use logic::{Move, own_masks};
use move_legal::narrow;
use move_masks::{copy_masks, masks_after};

// New minus old over all cells of the atoms of a list; the masks after the move go into `work`.
pub fn hard_shares(
    plan: &Plan,
    masks: &[u64],
    cells: &[u32],
    m: Move,
    work: &mut [u64],
    list: &[u16],
    count: usize,
) -> u32
    requires { HardReady plan.now masks.now cells.now m work.old list.now count }
    ensures { HardGives plan.now masks.now cells.now m list.now count result }
{
    if count == 0 {
        return 0;
    }
    copy_masks(masks, own_masks(plan.sets), work);
    masks_after(m, narrow(plan.ports), narrow(plan.sets), work);
    list_shares(plan, &work[..], cells, &change_of(m), list, count)
}
