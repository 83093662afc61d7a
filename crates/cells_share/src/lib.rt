// What a change adds to the cells of an atom with quantifiers: new minus old over all its tuples. Paper 01, section One move.
#![tactic(auto)]

ghost use Rattle.std.specs.Prelude.{◌≡◌, ◌/◌, ◌%◌, ◌<◌, length, slice_index};
ghost use Rattle.cells_share.specs.inner.OverPlan.{TouchedReady, SharesReady, SharesGive, ListReady, ListGives};

use cells_sum::with_difference;
use cells_touch::Changed;
use cells_try::cell_after;
use cells_walk::{Plan, with_port};
use cells_zero::zero_below;

// A touched cell's new number less its old one. A minimum that is known to be 0 needs no walk.
fn share_at(
    plan: &Plan,
    masks: &[u64],
    cells: &[u32],
    change: &Changed,
    i: usize,
    depth: usize,
    place: usize,
    digits: u32,
    word: u64,
) -> u32
    requires { TouchedReady plan.now change.now masks.now cells.now i depth place digits word }
    ensures { SharesGive plan.now change.now masks.now cells.now i depth depth place digits word result }
{
    if zero_below(plan, cells, i, place, word) {
        return with_difference(0, 0, plan.cell_at(i, place, cells));
    }
    let after = cell_after(plan, masks, cells, change, i, depth, place, digits, word);
    with_difference(0, after.value, after.old)
}

// The same over all tuples of a node that go on from one of `level` ports. Where the word does not meet the node's uses, none of them is touched.
fn share_over(
    plan: &Plan,
    masks: &[u64],
    cells: &[u32],
    change: &Changed,
    i: usize,
    depth: usize,
    level: usize,
    place: usize,
    digits: u32,
    word: u64,
) -> u32
    requires { SharesReady plan.now change.now masks.now cells.now i depth level place digits word }
    ensures { SharesGive plan.now change.now masks.now cells.now i depth level place digits word result }
{
    if !plan.touched_at(i, word) {
        return 0;
    }
    if level == depth {
        return share_at(plan, masks, cells, change, i, depth, place, digits, word);
    }
    let mut sum = 0u32;
    for x in 0..plan.ports {
        let more = share_over(
            plan,
            masks,
            cells,
            change,
            i,
            depth,
            level + 1,
            place * plan.ports + x,
            with_port(digits, level, x),
            change.port_word(word, level, x),
        );
        sum = sum.wrapping_add(more);
    }
    sum
}

// The same over all tuples of a node.
fn share_of(
    plan: &Plan,
    masks: &[u64],
    cells: &[u32],
    change: &Changed,
    i: usize,
    depth: usize,
    word: u64,
) -> u32
    requires { SharesReady plan.now change.now masks.now cells.now i depth 0 0 0 word }
    ensures { SharesGive plan.now change.now masks.now cells.now i depth 0 0 0 word result }
{
    // Most atoms are not touched: these make no call.
    if !plan.touched_at(i, word) {
        return 0;
    }
    share_over(plan, masks, cells, change, i, depth, 0, 0, 0, word)
}

// A number of a list of atoms.
fn wide_entry(entry: u16) -> usize
    ensures { result ≡ entry }
{
    entry as usize
}

// The node of an atom of the list, and its depth.
pub fn entry_node(list: &[u16], j: usize) -> usize
    requires { j < length list.now }
    ensures { result ≡ slice_index list.now j / 4 }
{
    wide_entry(list[j]) / 4
}

pub fn entry_depth(list: &[u16], j: usize) -> usize
    requires { j < length list.now }
    ensures { result ≡ slice_index list.now j % 4 }
{
    wide_entry(list[j]) % 4
}

// What a change adds to all atoms of a list: new minus old, modulo 2^32. The masks are those after the change.
pub fn list_shares(
    plan: &Plan,
    masks: &[u64],
    cells: &[u32],
    change: &Changed,
    list: &[u16],
    count: usize,
) -> u32
    requires { ListReady plan.now change.now masks.now cells.now list.now count }
    ensures { ListGives plan.now change.now masks.now cells.now list.now count result }
{
    let word = change.first_word();
    let mut sum = 0u32;
    for j in (0..count).rev() {
        let more = share_of(
            plan,
            masks,
            cells,
            change,
            entry_node(list, j),
            entry_depth(list, j),
            word,
        );
        sum = sum.wrapping_add(more);
    }
    sum
}
