// The calls that put a port in test and take it out. Paper 02, request 2026-05.
#![tactic(auto)]

ghost use Rattle.table_format.specs.Decode.{decode};
ghost use Rattle.contracts.specs.State.{tables};
ghost use Rattle.contracts.specs.MoveCall.{MadeAs};
ghost use Rattle.contracts.specs.TestCall.{tests};

use answers::accepted;
use call_open::open_tables;
use cells_walk::Plan;
use contracts::Moved;
use logic::Refusal;
use table_format::Index;
use test_make::put_port;
use test_port::port_change;

// Puts a port in test, or takes it out: tries 11 to 13, 14 and 20; writes the one mask and the touched cells in place.
pub fn port_test(
    table: &[u8],
    masks: &mut [u64],
    cells: &mut [u32],
    into: bool,
    port: u32,
) -> Result<Moved, Refusal>
    ensures { MadeAs (tests (decode table.now) into port (tables masks.old cells.old)) result (tables masks.new cells.new) }
{
    let mut index = Index::new();
    let o = open_tables(table, &masks[..], cells.len(), &mut index)?;
    port_change(port, into, o.ports, o.sets, &masks[..])?;
    let plan = Plan {
        table,
        index: &index,
        ports: o.ports,
        sets: o.sets,
    };
    Ok(accepted(put_port(&plan, masks, cells, port)))
}
