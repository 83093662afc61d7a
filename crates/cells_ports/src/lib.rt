// All ports at once: what flips of some sets bring to the row of a tree without quantifiers, for each port at which they may flip.
#![tactic(auto)]

ghost use Rattle.std.specs.Prelude.{◌≡◌, ◌≤◌, ◌<◌, length, get_or};
ghost use Rattle.cells_ports.specs.inner.Rows.{digit, level_if, port_levels};
ghost use Rattle.cells_ports.specs.inner.OverPlan.{RowPortsReady, RowPortsGive, PortRowGives, OverReady, OwnGives, OuterGives, OverGives};

use cells_flip::flip_row;
use cells_row::{cells_from, gather_row, join_row, put_port};
use cells_touch::{level_of, meet};
use cells_walk::{Plan, port_at};
use logic::wide;

// The bit of a variable in every set, if it is bound outside the row and has port x.
fn level_if(depth: usize, digits: u32, x: usize, variable: u8) -> u64
    requires { variable ≤ 1 }
    ensures { result ≡ level_if depth digits x variable }
{
    let v = variable as usize;
    if v < depth {
        if wide(port_at(digits, variable)) == x {
            return level_of(v);
        }
    }
    0
}

// The bits of the variables bound outside the row that have port x: there are at most two.
fn port_levels(depth: usize, digits: u32, x: usize) -> u64
    ensures { result ≡ port_levels depth digits x }
{
    level_if(depth, digits, x, 0) | level_if(depth, digits, x, 1)
}

// The row's new numbers where the sets flip at port x: at every cell by the variables outside the row that have x, at the cell of x by
// the row's own variable too.
fn port_row(
    plan: &Plan,
    masks: &[u64],
    sizes: &[u32; 16],
    cells: &[u32],
    i: usize,
    depth: usize,
    row: usize,
    digits: u32,
    members: u64,
    resized: u64,
    x: usize,
    out: &mut [u32],
)
    requires { RowPortsReady plan.now masks.now sizes.now cells.now i depth row digits members resized out.old × (x < plan.now.ports) }
    ensures { PortRowGives plan.now masks.now sizes.now cells.now i depth row digits members resized x out.new }
{
    let outer = port_levels(depth, digits, x);
    let own = level_of(depth);
    flip_row(
        plan,
        masks,
        sizes,
        cells,
        i,
        plan.ports,
        depth as u8,
        row,
        digits,
        resized | (members & outer),
        out,
    );
    if meet(plan.uses_at(i), members & own) {
        let mut both = [0u32; 64];
        flip_row(
            plan,
            masks,
            sizes,
            cells,
            i,
            plan.ports,
            depth as u8,
            row,
            digits,
            resized | (members & (outer | own)),
            &mut both,
        );
        put_port(x, both[x], out);
    }
}

// By the row's own variable: one row in which the sets flip at each cell's own port, so that each port takes the difference of its cell.
// Right wherever no variable outside the row has the port.
fn own_ports(
    plan: &Plan,
    masks: &[u64],
    sizes: &[u32; 16],
    cells: &[u32],
    i: usize,
    depth: usize,
    row: usize,
    digits: u32,
    members: u64,
    resized: u64,
    base: &[u32],
    out: &mut [u32],
)
    requires { OverReady plan.now masks.now sizes.now cells.now i depth row digits members resized base.now out.old }
    ensures { OwnGives plan.now masks.now sizes.now cells.now i depth row digits members resized out.old out.new }
{
    let own = level_of(depth);
    if meet(plan.uses_at(i), members & own) {
        let mut new = [0u32; 64];
        flip_row(
            plan,
            masks,
            sizes,
            cells,
            i,
            plan.ports,
            depth as u8,
            row,
            digits,
            resized | (members & own),
            &mut new,
        );
        join_row(true, &new, base, plan.ports, out);
    }
}

// By a variable outside the row: its port takes the differences of the whole row. The port's number before the own variable's step is
// given as `start`, so that this step is undone there and a port that two variables have comes to the same twice.
fn outer_port(
    plan: &Plan,
    masks: &[u64],
    sizes: &[u32; 16],
    cells: &[u32],
    i: usize,
    depth: usize,
    row: usize,
    digits: u32,
    members: u64,
    resized: u64,
    variable: u8,
    start: u32,
    base: &[u32],
    out: &mut [u32],
)
    requires { OverReady plan.now masks.now sizes.now cells.now i depth row digits members resized base.now out.old × (variable ≤ 1) }
    ensures { OuterGives plan.now masks.now sizes.now cells.now i depth row digits members resized variable start out.old out.new }
{
    if (variable as usize) < depth {
        let x = wide(port_at(digits, variable));
        if meet(plan.uses_at(i), members & port_levels(depth, digits, x)) {
            let mut new = [0u32; 64];
            port_row(
                plan, masks, sizes, cells, i, depth, row, digits, members, resized, x, &mut new,
            );
            put_port(x, gather_row(true, start, &new, base, plan.ports), out);
        }
    }
}

// The number at the port of a variable outside the row; 0 if there is no such variable.
fn start_at(depth: usize, digits: u32, variable: u8, out: &[u32]) -> u32
    requires { (variable ≤ 1) × (variable < depth → digit digits variable < length out.now) }
    ensures { variable < depth → result ≡ get_or out.now (digit digits variable) 0 }
{
    if (variable as usize) < depth {
        let x = wide(port_at(digits, variable));
        return out[x];
    }
    0
}

// To each port what the flip there adds, over the row's numbers under the resizing alone.
fn add_ports(
    plan: &Plan,
    masks: &[u64],
    sizes: &[u32; 16],
    cells: &[u32],
    i: usize,
    depth: usize,
    row: usize,
    digits: u32,
    members: u64,
    resized: u64,
    base: &[u32],
    out: &mut [u32],
)
    requires { OverReady plan.now masks.now sizes.now cells.now i depth row digits members resized base.now out.old }
    ensures { OverGives plan.now masks.now sizes.now cells.now i depth row digits members resized out.old out.new }
{
    let first = start_at(depth, digits, 0, &out[..]);
    let second = start_at(depth, digits, 1, &out[..]);
    own_ports(
        plan, masks, sizes, cells, i, depth, row, digits, members, resized, base, out,
    );
    outer_port(
        plan, masks, sizes, cells, i, depth, row, digits, members, resized, 0, first, base, out,
    );
    outer_port(
        plan, masks, sizes, cells, i, depth, row, digits, members, resized, 1, second, base, out,
    );
}

// The differences of a resizing over one row; and to `out`, port by port, what the flip of the sets at that port adds to it. Where the
// tree uses no set that is resized, the old row is the one under the resizing, and is not copied.
pub fn row_ports(
    plan: &Plan,
    masks: &[u64],
    sizes: &[u32; 16],
    cells: &[u32],
    i: usize,
    depth: usize,
    row: usize,
    digits: u32,
    members: u64,
    resized: u64,
    out: &mut [u32],
) -> u32
    requires { RowPortsReady plan.now masks.now sizes.now cells.now i depth row digits members resized out.old }
    ensures { RowPortsGive plan.now masks.now sizes.now cells.now i depth row digits members resized out.old out.new result }
{
    let old = cells_from(cells, plan.place_at(i, row));
    if !meet(plan.uses_at(i), resized) {
        add_ports(
            plan, masks, sizes, cells, i, depth, row, digits, members, resized, old, out,
        );
        return 0;
    }
    let mut base = [0u32; 64];
    flip_row(
        plan,
        masks,
        sizes,
        cells,
        i,
        plan.ports,
        depth as u8,
        row,
        digits,
        resized,
        &mut base,
    );
    add_ports(
        plan, masks, sizes, cells, i, depth, row, digits, members, resized, &base, out,
    );
    gather_row(true, 0, &base, old, plan.ports)
}
