// The cells of a tree without quantifiers under flips, a row of them or one alone: their new numbers where some literals are hit.
// Nothing is written to the cells, and nothing counted. Paper 01, section One move.
#![tactic(auto)]

ghost use Rattle.std.specs.Prelude.{◌≡◌, ◌≢◌, true, false, ◌-◌, ◌^◌, ◌/◌, ◌%◌, ◌≤◌, ◌<◌, length, get_or};
ghost use Rattle.logic.specs.Configuration.{in_mask};
ghost use Rattle.cells_rule.specs.inner.Rule.{rule_penalty};
ghost use Rattle.cells_row.specs.inner.Row.{row_of, ZeroRow};
ghost use Rattle.cells_flip.specs.inner.Steps.{line_port, LiteralReady, LiteralGives};
ghost use Rattle.cells_flip.specs.inner.OverPlan.{FlipReady, FlipGives, JoinReady, Joins, TreesReady, TreesGive};

use cells_members::put_members;
use cells_row::{begin_row, cells_from, copy_row, fill_row, is_zero, join_row, keep_row};
use cells_rule::literal_penalty;
use cells_size::mask_at;
use cells_sum::adds_of;
use cells_touch::meet;
use cells_walk::{Plan, port_at};
use logic::has_port;
use table_format::{a_of, b_of, kind_of, record_at, relation_of};

// The size of a set, from a list of them.
fn size_at(sizes: &[u32; 16], set: u8) -> u32
    requires { set < 16 }
    ensures { result ≡ get_or sizes.now set 0 }
{
    sizes[set as usize]
}

// The penalties of a membership literal that is hit: its port is in its set the other way round than in the mask, so that "in",
// kind 5, has the penalty of "not in", kind 6, and that has the other's.
fn member_row(kind: u8, v: u8, mask: u64, count: usize, own: u8, digits: u32, out: &mut [u32])
    requires { (kind ≤ 11) × (v ≤ 2) × (1 ≤ count) × (count ≤ 64) × (v ≢ own → digits / 256 ^ v % 256 < 64) × (count ≤ length out.old) }
    ensures { out.new ≡ row_of count (λ x. rule_penalty (11 - kind) 0 (in_mask mask (line_port own digits v x)) 0 0) out.old }
{
    if v == own {
        put_members(11 - kind, mask, count as u32, 1, count, out);
        return;
    }
    let inside = has_port(mask, port_at(digits, v));
    fill_row(literal_penalty(11 - kind, 0, inside, 0, 0), count, out);
}

// The penalties of literal i, which is hit.
fn literal_row(
    table: &[u8],
    masks: &[u64],
    sizes: &[u32; 16],
    i: usize,
    count: usize,
    own: u8,
    digits: u32,
    out: &mut [u32],
)
    requires { LiteralReady table.now masks.now sizes.now i count own digits out.old }
    ensures { LiteralGives table.now masks.now sizes.now i count own digits out.new }
{
    let part = record_at(table, i);
    let kind = kind_of(part);
    let a = a_of(part);
    let b = b_of(part);
    if kind == 8 {
        let size = size_at(sizes, a);
        let value = literal_penalty(kind, relation_of(part), false, size, b as u32);
        fill_row(value, count, out);
        return;
    }
    member_row(kind, a, mask_at(masks, b as usize), count, own, digits, out);
}

// Whether no tree changes a row of sums or minima any more: minima that are 0 stay so.
fn is_done(add: bool, row: &[u32], count: usize) -> bool
    requires { (1 ≤ count) × (count ≤ length row.now) }
    ensures { result ≡ true → (add ≡ false) × ZeroRow row.now count }
{
    if add {
        return false;
    }
    is_zero(row, count)
}

// A node's new numbers at some cells side by side, put into `out`: where the word meets its uses, those that the flips make, else the
// old ones. Membership in a hit literal is the other way round than in the masks, so that no masks after the change are asked for.
#[cycle(flips)]
pub fn flip_row(
    plan: &Plan,
    masks: &[u64],
    sizes: &[u32; 16],
    cells: &[u32],
    i: usize,
    count: usize,
    own: u8,
    row: usize,
    digits: u32,
    word: u64,
    out: &mut [u32],
)
    requires { FlipReady plan.now masks.now sizes.now cells.now i count own row digits out.old }
    ensures { FlipGives plan.now masks.now sizes.now cells.now i count own row digits word out.new }
{
    let old = cells_from(cells, plan.place_at(i, row));
    if !meet(plan.uses_at(i), word) {
        copy_row(old, count, out);
        return;
    }
    let kind = plan.kind_at(i);
    if 5 <= kind {
        literal_row(plan.table, masks, sizes, i, count, own, digits, out);
        return;
    }
    let add = adds_of(kind);
    begin_row(add, old, count, out);
    flip_trees(
        plan,
        masks,
        sizes,
        cells,
        i + 1,
        plan.end_at(i),
        count,
        own,
        row,
        digits,
        word,
        add,
        out,
    );
}

// The new numbers of a forest's trees, gone into sums or minima, until none changes them any more.
#[cycle(flips)]
fn flip_trees(
    plan: &Plan,
    masks: &[u64],
    sizes: &[u32; 16],
    cells: &[u32],
    i: usize,
    until: usize,
    count: usize,
    own: u8,
    row: usize,
    digits: u32,
    word: u64,
    add: bool,
    out: &mut [u32],
)
    requires { TreesReady plan.now masks.now sizes.now cells.now i until count own row digits out.old }
    ensures { TreesGive plan.now masks.now sizes.now cells.now i until count own row digits word add out.old out.new }
{
    let mut j = i;
    // Not a `for`: each step is to the end that the index has of a tree.
    while j < until {
        if is_done(add, &out[..], count) {
            return;
        }
        flip_tree(
            plan, masks, sizes, cells, j, count, own, row, digits, word, add, out,
        );
        j = plan.end_at(j);
    }
}

// One tree's new numbers, gone into sums or minima; one that is not touched is not visited.
#[cycle(flips)]
fn flip_tree(
    plan: &Plan,
    masks: &[u64],
    sizes: &[u32; 16],
    cells: &[u32],
    i: usize,
    count: usize,
    own: u8,
    row: usize,
    digits: u32,
    word: u64,
    add: bool,
    out: &mut [u32],
)
    requires { JoinReady plan.now masks.now sizes.now cells.now i count own row digits out.old }
    ensures { Joins plan.now masks.now sizes.now cells.now i count own row digits word add out.old out.new }
{
    let old = cells_from(cells, plan.place_at(i, row));
    if !meet(plan.uses_at(i), word) {
        keep_row(add, old, count, out);
        return;
    }
    let mut new = [0u32; 64];
    flip_row(
        plan, masks, sizes, cells, i, count, own, row, digits, word, &mut new,
    );
    join_row(add, &new, old, count, out);
}
