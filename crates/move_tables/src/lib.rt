// The tables of what flips bring to the root: the atoms of a formula go into them one after the other.
#![tactic(auto)]

ghost use Rattle.std.specs.Prelude.{◌≡◌, true, ◌+◌, ◌*◌, ◌≤◌, ◌<◌, length};
ghost use Rattle.table_format.specs.Bytes.{record_length, records_of};
ghost use Rattle.move_tables.specs.inner.Taking.{NoneBinds, Crossed};
ghost use Rattle.move_tables.specs.inner.OverPlan.{TakeReady, TakesTree};

use cells_walk::{Plan, is_quantifier};
use move_joints::take_joints;
use move_slots::take_slots;

// What the tables do not tell: all moves are walked; how many atoms with quantifiers are listed; and how many others, which test some set by
// more than one variable.
#[derive(Clone, Copy)]
pub struct Left {
    pub walked: bool,
    pub hards: usize,
    pub crossed: usize,
}

// The tables of what flips bring once they are filled, the two lists of atoms beside them, and what they do not tell: every choice of a
// move reads them together.
#[derive(Clone, Copy)]
pub struct FlipTables<'a> {
    pub one: &'a [u32],
    pub still: &'a [u32],
    pub joint: &'a [u32],
    pub lists: &'a [u16],
    pub left: Left,
}

// Whether no node from i up to `until` binds a variable.
fn is_flat(plan: &Plan, i: usize, until: usize) -> bool
    requires { (until ≤ 512) × (record_length * until ≤ length (records_of plan.now.table.now)) }
    ensures { result ≡ true → NoneBinds plan.now.table.now i until }
{
    for j in i..until {
        if is_quantifier(plan.kind_at(j)) {
            return false;
        }
    }
    true
}

// The sets that a word of uses tests by more than one variable.
pub fn crossings(used: u64) -> u64
    ensures { Crossed used result }
{
    let second = used >> 1;
    let third = used >> 2;
    (used & (second | third)) | (second & third)
}

// An atom's number in a list of them.
fn listed_as(i: usize, depth: usize) -> u16
    requires { (i < 512) × (depth ≤ 3) }
    ensures { result ≡ 4 * i + depth }
{
    (4 * i + depth) as u16
}

// One atom: its flips go into the tables; one with quantifiers is listed instead, and one that tests some set by two variables beside, for
// swaps. Transfers are worked only where they are asked for.
pub fn take_atom(
    plan: &Plan,
    masks: &[u64],
    sizes: &[u32; 16],
    cells: &[u32],
    i: usize,
    depth: usize,
    transfers: bool,
    mine: &mut [u32],
    own: &mut [u32],
    one: &mut [u32],
    still: &mut [u32],
    joint: &mut [u32],
    lists: &mut [u16],
    left: Left,
) -> Left
    requires { TakeReady plan.now masks.now sizes.now cells.now i depth true mine.old own.old one.old still.old joint.old lists.old left }
    ensures { TakesTree plan.now masks.now sizes.now cells.now i depth transfers one.old still.old joint.old lists.old left one.new still.new joint.new lists.new result }
{
    if !is_flat(plan, i, plan.end_at(i)) {
        let count = left.hards;
        lists[count] = listed_as(i, depth);
        return Left {
            walked: left.walked,
            hards: count + 1,
            crossed: left.crossed,
        };
    }
    take_slots(plan, masks, sizes, cells, i, depth, mine, own, one, still);
    take_joints(
        plan,
        masks,
        sizes,
        cells,
        i,
        depth,
        transfers,
        &mine[..],
        &own[..],
        joint,
    );
    if crossings(plan.uses_at(i)) == 0 {
        return left;
    }
    let count = left.crossed;
    lists[512 + count] = listed_as(i, depth);
    Left {
        walked: left.walked,
        hards: left.hards,
        crossed: count + 1,
    }
}
