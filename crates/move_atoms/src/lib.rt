// The tables of what flips bring to the root: all atoms of a formula go into them.
#![tactic(auto)]

ghost use Rattle.std.specs.Prelude.{◌≡◌, false, cond, ◌+◌, ◌≤◌, eqb};
ghost use Rattle.move_tables.specs.inner.Taking.{is_sum};
ghost use Rattle.move_tables.specs.inner.OverPlan.{TakeReady, TakesTree, TakeAllReady, TakesAll};

use cells_sum::adds_of;
use cells_walk::Plan;
use move_tables::{Left, take_atom};

// Whether a node is a sum, "and" or for all: atoms stand below it.
fn is_sum(kind: u8) -> bool
    ensures { result ≡ is_sum kind }
{
    if kind < 5 {
        return adds_of(kind);
    }
    false
}

// The depth below a node that is a sum.
fn depth_below(kind: u8, depth: usize) -> usize
    requires { depth ≤ 3 }
    ensures { result ≡ cond (eqb kind 1) (depth + 1) depth }
{
    if kind == 1 {
        return depth + 1;
    }
    depth
}

// One tree: an atom, or the atoms below it.
#[cycle(atoms)]
fn take_tree(
    plan: &Plan,
    masks: &[u64],
    sizes: &[u32; 16],
    cells: &[u32],
    i: usize,
    depth: usize,
    transfers: bool,
    mine: &mut [u32],
    own: &mut [u32],
    one: &mut [u32],
    still: &mut [u32],
    joint: &mut [u32],
    lists: &mut [u16],
    left: Left,
) -> Left
    requires { TakeReady plan.now masks.now sizes.now cells.now i depth false mine.old own.old one.old still.old joint.old lists.old left }
    ensures { TakesTree plan.now masks.now sizes.now cells.now i depth transfers one.old still.old joint.old lists.old left one.new still.new joint.new lists.new result }
{
    let kind = plan.kind_at(i);
    if is_sum(kind) {
        return take_atoms(
            plan,
            masks,
            sizes,
            cells,
            i + 1,
            plan.end_at(i),
            depth_below(kind, depth),
            transfers,
            mine,
            own,
            one,
            still,
            joint,
            lists,
            left,
        );
    }
    take_atom(
        plan, masks, sizes, cells, i, depth, transfers, mine, own, one, still, joint, lists, left,
    )
}

// The trees of a forest, which ends at node `until`.
#[cycle(atoms)]
pub fn take_atoms(
    plan: &Plan,
    masks: &[u64],
    sizes: &[u32; 16],
    cells: &[u32],
    i: usize,
    until: usize,
    depth: usize,
    transfers: bool,
    mine: &mut [u32],
    own: &mut [u32],
    one: &mut [u32],
    still: &mut [u32],
    joint: &mut [u32],
    lists: &mut [u16],
    left: Left,
) -> Left
    requires { TakeAllReady plan.now masks.now sizes.now cells.now i until depth mine.old own.old one.old still.old joint.old lists.old left }
    ensures { TakesAll plan.now masks.now sizes.now cells.now i until depth transfers one.old still.old joint.old lists.old left one.new still.new joint.new lists.new result }
{
    let mut found = left;
    let mut j = i;
    // Not a `for`: each step is to the end that the index has of a tree.
    while j < until {
        found = take_tree(
            plan, masks, sizes, cells, j, depth, transfers, mine, own, one, still, joint, lists,
            found,
        );
        j = plan.end_at(j);
    }
    found
}
