// Ground 11: the check of a whole plan table, which fills the index of its nodes (first cell, end, sets used at or below).
// Paper 01, section Plan table.
#![tactic(auto)]

ghost use Rattle.std.specs.Prelude.{◌≡◌, ◌+◌, ◌≤◌, ◌<◌, length, set};
ghost use Rattle.table_check.specs.inner.Check.{PlanJudged, IndexRoom, PlacedAt, JudgedAt, EndJudgedAt, TreeJudgedAt, children_place};

use table_format::{
    Index, RECORD, a_of, b_of, below_root, end_of, kind_of, nodes_of, ports_of, sets_of,
};
use table_rules::{arity_ok, child_depth, child_width, front_ok, record_ok, uses_of};

// A plan has at most so many cells.
const MOST_CELLS: usize = 1048576;

// What the check of some records finds: how many trees they are, their cells, and which sets they use.
#[derive(Clone, Copy)]
pub struct Checked {
    pub trees: usize,
    pub cells: usize,
    pub uses: u64,
}

// What the check of one tree finds: the node behind it, its cells, and which sets it uses.
#[derive(Clone, Copy)]
pub struct CheckedTree {
    pub end: usize,
    pub cells: usize,
    pub uses: u64,
}

// Where the trees of some records stand: the node above them and its kind, their depth, and the cells of a node at that depth. Ports
// and sets are the plan's.
#[derive(Clone, Copy)]
struct Place {
    parent: usize,
    above: u8,
    depth: usize,
    ports: usize,
    sets: usize,
    width: usize,
}

// The entries of node i in the index.
fn note(i: usize, first: usize, end: usize, used: u64, index: &mut Index)
    requires { (i < 512) × (first < 4294967296) × (end < 65536) }
    ensures { (index.new.firsts ≡ set index.old.firsts i first) × (index.new.ends ≡ set index.old.ends i end) × (index.new.uses ≡ set index.old.uses i used) }
{
    index.firsts[i] = first as u32;
    index.ends[i] = end as u16;
    index.uses[i] = used;
}

// The end of a part's first tree, or None where its record breaks a rule or the part is too short for it.
fn tree_end(part: &[u8], i: usize, place: &Place) -> Option<usize>
    requires { 1 ≤ length part.now }
    ensures { EndJudgedAt part.now i place.now result }
{
    if part.len() < RECORD || !record_ok(part, place.parent, place.depth, place.above, place.sets) {
        return None;
    }
    let end = end_of(part);
    if end <= i || part.len() < RECORD * (end - i) {
        return None;
    }
    Some(end)
}

// Checks a part's first tree, node i and its children, and fills the index tables with what it finds.
#[cycle(check)]
fn check_tree(
    part: &[u8],
    i: usize,
    place: &Place,
    first: usize,
    index: &mut Index,
) -> Option<CheckedTree>
    requires { (1 ≤ length part.now) × PlacedAt part.now i place.now first index.old }
    ensures { TreeJudgedAt part.now i place.now first result index.old index.new }
{
    let end = tree_end(part, i, place)?;
    let kind = kind_of(part);
    let children = &part[RECORD..RECORD * (end - i)];
    let c = check_children(children, i, kind, place, first, index)?;
    if !arity_ok(kind, c.trees) {
        return None;
    }
    let used = uses_of(kind, a_of(part), b_of(part)) | c.uses;
    note(i, first, end, used, index);
    Some(CheckedTree {
        end,
        cells: place.width + c.cells,
        uses: used,
    })
}

// Checks the children of node i, a node of some kind. Most nodes have none: that is answered here, since a call costs more.
#[cycle(check)]
fn check_children(
    part: &[u8],
    i: usize,
    kind: u8,
    place: &Place,
    first: usize,
    index: &mut Index,
) -> Option<Checked>
    requires { (place.now.depth ≤ 4) × (place.now.width ≤ 16777216) × PlacedAt part.now (i + 1) (children_place i kind place.now) (first + place.now.width) index.old }
    ensures { JudgedAt part.now (i + 1) (children_place i kind place.now) (first + place.now.width) result index.old index.new }
{
    if part.is_empty() {
        return Some(Checked {
            trees: 0,
            cells: 0,
            uses: 0,
        });
    }
    let below = Place {
        parent: i,
        above: kind,
        depth: child_depth(kind, place.depth),
        width: child_width(kind, place.width, place.ports),
        ..*place
    };
    check_forest(part, i + 1, &below, first + place.width, index)
}

// Checks the records of some trees, the first of them node i, and fills the index tables with what it finds. Each record is
// visited once: the children are the part up to the record's end, the later siblings the part behind it. Siblings are taken in
// a loop, since a call for each costs more than their check.
#[cycle(check)]
fn check_forest(
    part: &[u8],
    i: usize,
    place: &Place,
    first: usize,
    index: &mut Index,
) -> Option<Checked>
    requires { PlacedAt part.now i place.now first index.old }
    ensures { JudgedAt part.now i place.now first result index.old index.new }
{
    let mut rest = part;
    let mut node = i;
    let mut trees = 0;
    let mut cells = 0;
    let mut used = 0;
    while !rest.is_empty() {
        let t = check_tree(rest, node, place, first + cells, index)?;
        rest = &rest[RECORD * (t.end - node)..];
        node = t.end;
        trees += 1;
        cells += t.cells;
        used |= t.uses;
    }
    Some(Checked {
        trees,
        cells,
        uses: used,
    })
}

// What the check of a whole table finds.
#[derive(Clone, Copy)]
pub struct Info {
    pub ports: usize,
    pub sets: usize,
    pub nodes: usize,
    pub cells: usize,
}

// How long the arrays of an index are: their types say it.
fn lengths(firsts: &[u32; 512], ends: &[u16; 512], uses: &[u64; 512])
    ensures { (512 ≤ length firsts.now) × (512 ≤ length ends.now) × (512 ≤ length uses.now) }
{}

// Every index has room for the nodes of a plan, so that no caller has to show it.
fn room(index: &Index)
    ensures { IndexRoom index.now }
{
    lengths(&index.firsts, &index.ends, &index.uses)
}

// Checks a plan table (ground 11) and fills the index tables: linear in the table, whatever its shape.
pub fn check(table: &[u8], index: &mut Index) -> Option<Info>
    ensures { PlanJudged table.now result index.old index.new }
{
    room(index);
    if !front_ok(table) {
        return None;
    }
    let ports = ports_of(table);
    let sets = sets_of(table);
    let nodes = nodes_of(table);
    let below = Place {
        parent: 0,
        above: 0,
        depth: 0,
        ports,
        sets,
        width: 1,
    };
    let c = check_forest(below_root(table, nodes), 1, &below, 1, index)?;
    if c.trees != 1 || MOST_CELLS <= c.cells {
        return None;
    }
    note(0, 0, nodes, c.uses, index);
    Some(Info {
        ports,
        sets,
        nodes,
        cells: c.cells + 1,
    })
}
