// Puts a port in test or takes it out, over open tables. Paper 02, request 2026-05.
#![tactic(auto)]

ghost use Rattle.test_make.specs.inner.Putting.{Puts};
ghost use Rattle.test_make.specs.inner.OverPlan.{PortReady};

use cells_sum::After;
use cells_walk::Plan;
use cells_write::root_written;
use logic::own_masks;
use move_legal::narrow;
use move_masks::flip_at;
use test_change::test_change;

// Puts a port in test that is not, or takes it out: the mask after the sets', then the touched cells.
pub fn put_port(plan: &Plan, masks: &mut [u64], cells: &mut [u32], port: u32) -> After
    requires { PortReady plan.now masks.old cells.old port }
    ensures { Puts plan.now.table.now masks.old cells.old port result masks.new cells.new }
{
    let change = test_change(&masks[..], plan.sets, port);
    flip_at(masks, narrow(plan.sets), port);
    let own = own_masks(plan.sets);
    root_written(plan, &masks[0..own], cells, &change)
}
