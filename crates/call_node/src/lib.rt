// The call for one node's cells. Paper 01, section One move.
#![tactic(auto)]

ghost use Rattle.std.specs.Prelude.{◌≡◌, ◌≤◌};
ghost use Rattle.call_node.specs.inner.Bounds.{bound_at};
ghost use Rattle.contracts.specs.NodeCells.{node_cells, PartGives};
ghost use Rattle.table_format.specs.Decode.{decode};

use call_open::open_cells;
use contracts::Part;
use logic::wide;
use table_format::Index;

// Where the cells of node i begin; where the last node's end, if there is no node i.
pub fn bound_of(index: &Index, i: usize, nodes: usize, total: usize) -> usize
    requires { nodes ≤ 512 }
    ensures { result ≡ bound_at index.now.firsts i nodes total }
{
    if i < nodes {
        wide(index.firsts[i])
    } else {
        total
    }
}

// Where a node's cells stand in a cell table of so many cells, and how many they are; {0, 0} where 11, 12 or a node past the count
// applies.
pub fn node_bounds(table: &[u8], cells: usize, node: usize) -> Part
    ensures { PartGives (decode table.now) cells node result }
{
    let mut index = Index::new();
    let Ok(o) = open_cells(table, cells, &mut index) else {
        return Part { first: 0, count: 0 };
    };
    let nodes = o.nodes;
    let total = o.cells;
    if nodes <= node {
        return Part { first: 0, count: 0 };
    }
    let from = bound_of(&index, node, nodes, total);
    let to = bound_of(&index, node + 1, nodes, total);
    Part {
        first: from,
        count: to - from,
    }
}

// A node's cells, as a part of the caller's cell table.
pub fn node_cells<'a, 'b>(table: &'b [u8], cells: &'a [u32], node: usize) -> &'a [u32]
    ensures { result.now ≡ node_cells (decode table.now) cells.now node }
{
    let part = node_bounds(table, cells.len(), node);
    let from = part.first;
    let to = from + part.count;
    &cells[from..to]
}
