// All ports at once, over all tuples of a tree without quantifiers.
#![tactic(auto)]

ghost use Rattle.std.specs.Prelude.{◌≡◌, suc, ◌^◌, ◌<◌, ◌≤◌, length, slice_index};
ghost use Rattle.logic.specs.Cells.{tuple_at};
ghost use Rattle.cells_walk.specs.inner.Visit.{packed};
ghost use Rattle.cells_tuples.specs.inner.OverPlan.{AllPortsReady, AllPortsGive};

use cells_flip::flip_row;
use cells_ports::row_ports;
use cells_sum::with_difference;
use cells_walk::Plan;

// How many outer tuples there are, of as many ports as variables stand outside a row.
fn outer_count(outer: usize, ports: usize) -> usize
    requires { (outer ≤ 2) × (ports ≤ 64) }
    ensures { result ≡ ports ^ outer }
{
    if outer == 0 {
        return 1;
    }
    if outer == 1 {
        return ports;
    }
    ports * ports
}

// The digits of an outer tuple by its number: the outermost variable counts most in the number, and stands lowest in the digits.
fn outer_digits(number: usize, outer: usize, ports: usize) -> u32
    requires { (outer ≤ 2) × (1 ≤ ports) × (ports ≤ 64) × (number < ports ^ outer) }
    ensures { result ≡ packed (tuple_at ports outer number) }
{
    if outer == 0 {
        return 0;
    }
    if outer == 1 {
        return number as u32;
    }
    let first = number / ports;
    let second = number % ports;
    (first + second * 256) as u32
}

// The first number of a row, which fits in a cell.
fn first_cell(row: &[u32]) -> u32
    requires { 1 ≤ length row.now }
    ensures { (result ≡ slice_index row.now 0) × (result < 4294967296) }
{
    row[0]
}

// The same for a tree that stands below a quantifier: row by row, `outer` being how many variables stand above the row's own.
fn all_rows(
    plan: &Plan,
    masks: &[u64],
    sizes: &[u32; 16],
    cells: &[u32],
    i: usize,
    outer: usize,
    members: u64,
    resized: u64,
    out: &mut [u32],
) -> u32
    requires { AllPortsReady plan.now masks.now sizes.now cells.now i (suc outer) members resized out.old }
    ensures { AllPortsGive plan.now masks.now sizes.now cells.now i (suc outer) members resized out.old out.new result }
{
    let count = outer_count(outer, plan.ports);
    let mut sum = 0u32;
    for number in 0..count {
        let digits = outer_digits(number, outer, plan.ports);
        let more = row_ports(
            plan,
            masks,
            sizes,
            cells,
            i,
            outer,
            number * plan.ports,
            digits,
            members,
            resized,
            out,
        );
        sum = sum.wrapping_add(more);
    }
    sum
}

// The differences of a resizing over all cells of a tree without quantifiers; and to `out`, port by port, what the flip of the sets
// at that port adds to them. Below no quantifier no literal tests a port, and the flip adds nothing.
pub fn all_ports(
    plan: &Plan,
    masks: &[u64],
    sizes: &[u32; 16],
    cells: &[u32],
    i: usize,
    depth: usize,
    members: u64,
    resized: u64,
    out: &mut [u32],
) -> u32
    requires { AllPortsReady plan.now masks.now sizes.now cells.now i depth members resized out.old }
    ensures { AllPortsGive plan.now masks.now sizes.now cells.now i depth members resized out.old out.new result }
{
    if depth == 0 {
        let mut new = [0u32; 64];
        flip_row(plan, masks, sizes, cells, i, 1, 3, 0, 0, resized, &mut new);
        return with_difference(0, first_cell(&new), plan.cell_at(i, 0, cells));
    }
    all_rows(
        plan,
        masks,
        sizes,
        cells,
        i,
        depth - 1,
        members,
        resized,
        out,
    )
}
