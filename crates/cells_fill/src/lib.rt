// Fills every cell of a plan, by recursion over its records. Paper 01, section Penalty.
#![tactic(auto)]

ghost use Rattle.std.specs.Prelude.{◌≤◌, length};
ghost use Rattle.table_format.specs.Bytes.{record_length};
ghost use Rattle.cells_fill.specs.inner.Fill.{TreesPlaced, FillsTree, FillPlaced, Fills, FillReady, FillsPlan};

use cells_join::{begin_join, join_child, join_held, join_with};
use cells_literals::put_literal;
use logic::own_masks;
use table_format::{RECORD, a_of, b_of, below_root, end_of, kind_of, relation_of};
use table_rules::{child_depth, child_width};

// Fills the cells of a part's first tree, node i, from place `at` on, and says how many they are. A literal is lent its own cells
// and no others; the children of another node, a shorter part, its own with all that stand behind them.
#[cycle(filling)]
fn fill_tree(
    part: &[u8],
    i: usize,
    ports: usize,
    sets: usize,
    depth: usize,
    width: usize,
    at: usize,
    masks: &[u64],
    cells: &mut [u32],
) -> usize
    requires { (record_length ≤ length part.now) × TreesPlaced part.now i ports sets depth width at masks.now cells.old }
    ensures { FillsTree part.now i ports sets depth at masks.now cells.old cells.new result }
{
    let kind = kind_of(part);
    if 5 <= kind {
        put_literal(
            kind,
            relation_of(part),
            a_of(part),
            b_of(part),
            sets,
            ports,
            depth,
            width,
            masks,
            &mut cells[at..at + width],
        );
        return width;
    }
    let end = end_of(part);
    let span = RECORD * (end - i);
    let below = child_depth(kind, depth);
    let wider = child_width(kind, width, ports);
    fill_children(
        &part[RECORD..span],
        i + 1,
        kind,
        ports,
        sets,
        below,
        wider,
        width,
        masks,
        &mut cells[at..],
    )
}

// Fills the cells of a node's children, which stand behind its own, the first `over`, and joins them to these; says where they
// end. Siblings are taken in a loop, so that only a node below a node takes a further call's room on the stack.
#[cycle(filling)]
fn fill_children(
    part: &[u8],
    i: usize,
    above: u8,
    ports: usize,
    sets: usize,
    depth: usize,
    width: usize,
    over: usize,
    masks: &[u64],
    cells: &mut [u32],
) -> usize
    requires { FillPlaced part.now i above ports sets depth width over over masks.now cells.old }
    ensures { Fills part.now i above ports sets depth over over masks.now cells.old cells.new result }
{
    let mut place = 0;
    let mut node = i;
    let mut at = over;
    let mut held = 0;
    let mut join = begin_join(above);
    // Not a `for`: each step passes over the records of a whole tree.
    while place < part.len() {
        let tree = &part[place..];
        let end = end_of(tree);
        join = join_with(join, kind_of(tree));
        let n = fill_tree(tree, node, ports, sets, depth, width, at, masks, cells);
        held = join_child(join, above, ports, over, held, at, cells);
        place += RECORD * (end - node);
        node = end;
        at += n;
    }
    join_held(join, over, held, cells);
    at
}

// Fills the own cells of a plan whose table and masks are sound: what stands below the root, and so the root's cell.
pub fn fill(table: &[u8], ports: usize, sets: usize, nodes: usize, masks: &[u64], cells: &mut [u32])
    requires { FillReady table.now ports sets nodes masks.now cells.old }
    ensures { FillsPlan table.now masks.now cells.new }
{
    let below = below_root(table, nodes);
    let own = own_masks(sets);
    fill_children(below, 1, 0, ports, sets, 0, 1, 1, &masks[0..own], cells);
}
