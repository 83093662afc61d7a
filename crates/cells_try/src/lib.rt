// The walk over the touched cells that only reads. Paper 01, section One move.
#![tactic(auto)]

ghost use Rattle.std.specs.Prelude.{true};
ghost use Rattle.cells_walk.specs.inner.Root.{RootGives};
ghost use Rattle.cells_walk.specs.inner.OverPlan.{RootReady};
ghost use Rattle.cells_visit.specs.inner.OverPlan.{CellReady, CellTouched, QuantifierReady, CellGives, TreesReady, TreesGive, PairReady, PortsSo, RowReady, RowGives, RowCellsReady, RowJoinReady, RowJoins, RowTreesReady, RowTreesGive};

use cells_row::{begin_row, copy_row, count_row, fill_row, join_row, keep_row, put_port};
use cells_sum::{After, Sum, adds_of, begin, join, outcome};
use cells_touch::Changed;
use cells_walk::{Plan, by_cells, first_port, is_quantifier, next_port, row_outcome, with_port};
use std::num::wrapping_add_u32;

// A cell's old number, its new one, and how many cells at or below it differ from before.
#[cycle(walk)]
pub fn cell_after(
    plan: &Plan,
    masks: &[u64],
    cells: &[u32],
    change: &Changed,
    i: usize,
    depth: usize,
    place: usize,
    digits: u32,
    word: u64,
) -> After
    requires { CellReady plan.now change.now masks.now cells.now i depth place digits word }
    ensures { CellGives plan.now change.now masks.now cells.now i depth place digits word result }
{
    let old = plan.cell_at(i, place, cells);
    if !plan.touched_at(i, word) {
        return plan.kept(i, place, cells);
    }
    let kind = plan.kind_at(i);
    if 5 <= kind {
        return plan.literal_outcome(old, i, depth, masks, digits);
    }
    if is_quantifier(kind) {
        return ports_after(plan, masks, cells, change, i, depth, place, digits, word);
    }
    let add = adds_of(kind);
    let r = trees_after(
        plan,
        masks,
        cells,
        change,
        i + 1,
        plan.end_at(i),
        depth,
        place,
        digits,
        word,
        add,
        begin(add, old),
    );
    outcome(old, r)
}

// A touched cell among its siblings. A literal's is done here, so that the loop over them makes no call for one.
#[cycle(walk)]
fn tree_after(
    plan: &Plan,
    masks: &[u64],
    cells: &[u32],
    change: &Changed,
    i: usize,
    depth: usize,
    place: usize,
    digits: u32,
    word: u64,
) -> After
    requires { CellTouched plan.now change.now masks.now cells.now i depth place digits word }
    ensures { CellGives plan.now change.now masks.now cells.now i depth place digits word result }
{
    if 5 <= plan.kind_at(i) {
        let old = plan.cell_at(i, place, cells);
        return plan.literal_outcome(old, i, depth, masks, digits);
    }
    cell_after(plan, masks, cells, change, i, depth, place, digits, word)
}

// The trees of a forest at a tuple, gone into a sum or a minimum.
#[cycle(walk)]
fn trees_after(
    plan: &Plan,
    masks: &[u64],
    cells: &[u32],
    change: &Changed,
    i: usize,
    until: usize,
    depth: usize,
    place: usize,
    digits: u32,
    word: u64,
    add: bool,
    acc: Sum,
) -> Sum
    requires { TreesReady plan.now change.now masks.now cells.now i until depth place digits word acc }
    ensures { TreesGive plan.now change.now masks.now cells.now i until depth place digits word add acc result }
{
    let mut sum = acc;
    let mut j = i;
    // Not a `for`: each step is to the end that the index has of a tree.
    while j < until {
        if plan.touched_at(j, word) {
            let r = tree_after(plan, masks, cells, change, j, depth, place, digits, word);
            sum = join(add, sum, r);
        } else {
            sum = join(add, sum, plan.kept(j, place, cells));
        }
        j = plan.end_at(j);
    }
    sum
}

// A touched quantifier's cell: it has one child. A sum of which only the ports of the change can be touched takes these; else
// the child's cells at all ports are one row.
#[cycle(walk)]
fn ports_after(
    plan: &Plan,
    masks: &[u64],
    cells: &[u32],
    change: &Changed,
    i: usize,
    depth: usize,
    place: usize,
    digits: u32,
    word: u64,
) -> After
    requires { QuantifierReady plan.now change.now masks.now cells.now i depth place digits word }
    ensures { CellGives plan.now change.now masks.now cells.now i depth place digits word result }
{
    if !plan.adds_at(i) {
        return all_ports_after(plan, masks, cells, change, i, depth, place, digits, word);
    }
    if plan.every_at(i + 1, word, depth) {
        return all_ports_after(plan, masks, cells, change, i, depth, place, digits, word);
    }
    let old = plan.cell_at(i, place, cells);
    let r = pair_after(
        plan,
        masks,
        cells,
        change,
        i + 1,
        depth,
        place * plan.ports,
        digits,
        word,
        begin(true, old),
    );
    outcome(old, r)
}

// The same from the row of its child. It is never put into its caller, so that its rows stay out of the frame of `cell_after`, of which
// there is one for each level of the plan.
#[cycle(walk)]
#[inline(never)]
fn all_ports_after(
    plan: &Plan,
    masks: &[u64],
    cells: &[u32],
    change: &Changed,
    i: usize,
    depth: usize,
    place: usize,
    digits: u32,
    word: u64,
) -> After
    requires { QuantifierReady plan.now change.now masks.now cells.now i depth place digits word }
    ensures { CellGives plan.now change.now masks.now cells.now i depth place digits word result }
{
    let old = plan.cell_at(i, place, cells);
    let add = plan.adds_at(i);
    let row = place * plan.ports;
    let mut before = [0u32; 64];
    copy_row(plan.row_at(i + 1, row, cells), plan.ports, &mut before);
    let mut new = [0u32; 64];
    let changed = row_after(
        plan,
        masks,
        cells,
        change,
        i + 1,
        depth,
        row,
        digits,
        word,
        &mut new,
    );
    row_outcome(add, old, changed, &new, &before, plan.ports)
}

// A sum with the child's cells at the ports of the change.
#[cycle(walk)]
fn pair_after(
    plan: &Plan,
    masks: &[u64],
    cells: &[u32],
    change: &Changed,
    i: usize,
    depth: usize,
    row: usize,
    digits: u32,
    word: u64,
    acc: Sum,
) -> Sum
    requires { PairReady plan.now change.now masks.now cells.now i depth row digits word acc }
    ensures { PortsSo plan.now change.now masks.now cells.now i depth row digits word true plan.now.ports acc result }
{
    let p = change.p;
    let q = change.q;
    let first = cell_after(
        plan,
        masks,
        cells,
        change,
        i,
        depth + 1,
        row + p,
        with_port(digits, depth, p),
        change.port_word(word, depth, p),
    );
    let sum = join(true, acc, first);
    if q <= p {
        return sum;
    }
    let second = cell_after(
        plan,
        masks,
        cells,
        change,
        i,
        depth + 1,
        row + q,
        with_port(digits, depth, q),
        change.port_word(word, depth, q),
    );
    join(true, sum, second)
}

// A node's cells at every port of the variable above it, put into `out`; how many cells at or below them differ from before.
#[cycle(walk)]
fn row_after(
    plan: &Plan,
    masks: &[u64],
    cells: &[u32],
    change: &Changed,
    i: usize,
    depth: usize,
    row: usize,
    digits: u32,
    word: u64,
    out: &mut [u32],
) -> u32
    requires { RowReady plan.now change.now masks.now cells.now i depth row digits word out.old }
    ensures { RowGives plan.now change.now masks.now cells.now i depth row digits word out.new result }
{
    let old = plan.row_at(i, row, cells);
    let kind = plan.kind_at(i);
    let every = plan.every_at(i, word, depth);
    if by_cells(every, kind) {
        copy_row(old, plan.ports, out);
        return row_cells_after(
            plan, masks, cells, change, i, depth, row, digits, word, every, out,
        );
    }
    if 5 <= kind {
        let value = plan.literal_at(i, depth + 1, masks, digits);
        fill_row(value, plan.ports, out);
        return count_row(&out[..], old, plan.ports);
    }
    let add = adds_of(kind);
    begin_row(add, old, plan.ports, out);
    let changed = row_trees_after(
        plan,
        masks,
        cells,
        change,
        i + 1,
        plan.end_at(i),
        depth,
        row,
        digits,
        word,
        add,
        out,
    );
    wrapping_add_u32(changed, count_row(&out[..], old, plan.ports))
}

// The cells of a row visited one by one: at every port, or at those of the change where no other can be touched.
#[cycle(walk)]
fn row_cells_after(
    plan: &Plan,
    masks: &[u64],
    cells: &[u32],
    change: &Changed,
    i: usize,
    depth: usize,
    row: usize,
    digits: u32,
    word: u64,
    every: bool,
    out: &mut [u32],
) -> u32
    requires { RowCellsReady plan.now change.now masks.now cells.now i depth row digits word every out.old }
    ensures { RowGives plan.now change.now masks.now cells.now i depth row digits word out.new result }
{
    let mut changed = 0;
    let mut x = first_port(every, change);
    // Not a `for`: where the change is at two ports, a step passes over those between.
    while x < plan.ports {
        let r = cell_after(
            plan,
            masks,
            cells,
            change,
            i,
            depth + 1,
            row + x,
            with_port(digits, depth, x),
            change.port_word(word, depth, x),
        );
        put_port(x, r.value, out);
        changed = wrapping_add_u32(changed, r.changed);
        x = next_port(every, change, x, plan.ports);
    }
    changed
}

// The rows of a forest's trees, gone into a row of sums or minima.
#[cycle(walk)]
fn row_trees_after(
    plan: &Plan,
    masks: &[u64],
    cells: &[u32],
    change: &Changed,
    i: usize,
    until: usize,
    depth: usize,
    row: usize,
    digits: u32,
    word: u64,
    add: bool,
    out: &mut [u32],
) -> u32
    requires { RowTreesReady plan.now change.now masks.now cells.now i until depth row digits word out.old 0 }
    ensures { RowTreesGive plan.now change.now masks.now cells.now i until depth row digits word add out.old 0 out.new result }
{
    let mut changed = 0;
    let mut j = i;
    // Not a `for`: each step is to the end that the index has of a tree.
    while j < until {
        let more = row_tree_after(
            plan, masks, cells, change, j, depth, row, digits, word, add, out,
        );
        changed = wrapping_add_u32(changed, more);
        j = plan.end_at(j);
    }
    changed
}

// One tree's row, gone into a row of sums or minima; one that is not touched is not visited.
#[cycle(walk)]
fn row_tree_after(
    plan: &Plan,
    masks: &[u64],
    cells: &[u32],
    change: &Changed,
    i: usize,
    depth: usize,
    row: usize,
    digits: u32,
    word: u64,
    add: bool,
    out: &mut [u32],
) -> u32
    requires { RowJoinReady plan.now change.now masks.now cells.now i depth row digits word out.old }
    ensures { RowJoins plan.now change.now masks.now cells.now i depth row digits word add out.old out.new result }
{
    let old = plan.row_at(i, row, cells);
    if !plan.touched_at(i, word) {
        keep_row(add, old, plan.ports, out);
        return 0;
    }
    let mut new = [0u32; 64];
    let changed = row_after(
        plan, masks, cells, change, i, depth, row, digits, word, &mut new,
    );
    join_row(add, &new, old, plan.ports, out);
    changed
}

// What the root comes to, under the masks after a change.
pub fn root_after(plan: &Plan, masks: &[u64], cells: &[u32], change: &Changed) -> After
    requires { RootReady plan.now change.now masks.now cells.now }
    ensures { RootGives plan.now.ports change.now plan.now.table.now masks.now cells.now result }
{
    cell_after(plan, masks, cells, change, 0, 0, 0, 0, change.first_word())
}
