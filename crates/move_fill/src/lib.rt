// The tables of what flips bring to the root, filled for a plan as it stands.
#![tactic(auto)]

ghost use Rattle.std.specs.Prelude.{◌≤◌, ◌<◌, length};
ghost use Rattle.move_fill.specs.inner.Filling.{SizesSet};
ghost use Rattle.move_root.specs.inner.OverPlan.{Told};
ghost use Rattle.move_fill.specs.inner.OverPlan.{FillReady};

use cells_size::set_size;
use cells_walk::Plan;
use move_atoms::take_atoms;
use move_tables::Left;

// The sizes of all sets.
fn set_sizes(masks: &[u64], sets: usize) -> [u32; 16]
    requires { (sets ≤ 16) × (sets < length masks.now) }
    ensures { SizesSet masks.now sets sets result }
{
    let mut sizes = [0u32; 16];
    for s in 0..sets {
        sizes[s] = set_size(masks, sets, s);
    }
    sizes
}

// Whether a walk for each candidate costs less than the tables: drops alone are few, and where a node has at most one cell a port on
// average a walk touches little, while short rows gain little by the tables.
fn walks_cheaper(kinds: u32, ports: usize, nodes: usize, width: usize) -> bool
    requires { (ports ≤ 64) × (nodes ≤ 512) }
{
    if kinds != 2 {
        return false;
    }
    ports < 16 || width <= nodes * ports
}

// Fills the tables for the moves of some kinds, and lists the atoms with quantifiers and those for which a swap has a correction; or says that
// every move is to be walked.
pub fn fill_tables(
    plan: &Plan,
    masks: &[u64],
    cells: &[u32],
    kinds: u32,
    one: &mut [u32],
    still: &mut [u32],
    joint: &mut [u32],
    lists: &mut [u16],
) -> Left
    requires { FillReady plan.now masks.now cells.now one.old still.old joint.old lists.old }
    ensures { Told plan.now masks.now cells.now kinds one.new still.new joint.new lists.new result }
{
    if walks_cheaper(kinds, plan.ports, plan.end_at(0), cells.len()) {
        return Left {
            walked: true,
            hards: 0,
            crossed: 0,
        };
    }
    let mut mine = [0u32; 4096];
    let mut own = [0u32; 64];
    let sizes = set_sizes(masks, plan.sets);
    take_atoms(
        plan,
        masks,
        &sizes,
        cells,
        1,
        plan.end_at(0),
        0,
        (kinds >> 2) % 2 == 1,
        &mut mine,
        &mut own,
        one,
        still,
        joint,
        lists,
        Left {
            walked: false,
            hards: 0,
            crossed: 0,
        },
    )
}
