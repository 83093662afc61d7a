// Whether a minimum is decided by a child that a change does not touch: it is 0. Paper 01, section One move.
#![tactic(auto)]

ghost use Rattle.std.specs.Prelude.{◌≡◌, not, ◌&&◌, ◌+◌, ◌<◌, eqb, length, get_or};
ghost use Rattle.cells_touch.specs.inner.Hits.{meets};
ghost use Rattle.cells_zero.specs.inner.Zero.{TreesReady, TreesTell};
ghost use Rattle.cells_zero.specs.inner.OverPlan.{ZeroReady, ZeroTells};

use cells_walk::Plan;

// Whether a cell is 0 and not touched: it stays 0.
fn zero_kept(plan: &Plan, cells: &[u32], i: usize, place: usize, word: u64) -> bool
    requires { (i < 512) × (get_or plan.now.index.now.firsts i 0 + place < length cells.now) }
    ensures { result ≡ (not (meets (get_or plan.now.index.now.uses i 0) word) && eqb (get_or cells.now (get_or plan.now.index.now.firsts i 0 + place) 0) 0) }
{
    !plan.touched_at(i, word) && plan.cell_at(i, place, cells) == 0
}

// Whether one of a forest's trees has such a cell at a tuple.
fn zero_among(plan: &Plan, cells: &[u32], i: usize, until: usize, place: usize, word: u64) -> bool
    requires { TreesReady plan.now.index.now.firsts plan.now.index.now.ends plan.now.index.now.uses cells.now i until place }
    ensures { TreesTell plan.now.index.now.firsts plan.now.index.now.ends plan.now.index.now.uses cells.now i until place word result }
{
    let mut j = i;
    // Not a `for`: each step is to the end that the index has of a tree.
    while j < until {
        if zero_kept(plan, cells, j, place, word) {
            return true;
        }
        j = plan.end_at(j);
    }
    false
}

// Whether a touched cell's new number is known to be 0: its node is an "or", and a child is 0 that is not touched.
pub fn zero_below(plan: &Plan, cells: &[u32], i: usize, place: usize, word: u64) -> bool
    requires { ZeroReady plan.now cells.now i place }
    ensures { ZeroTells plan.now cells.now i place word result }
{
    if plan.kind_at(i) != 4 {
        return false;
    }
    zero_among(plan, cells, i + 1, plan.end_at(i), place, word)
}
