// The cells of one literal of any kind, filled when a plan is loaded. Paper 01, sections Plan table and Penalty.
#![tactic(auto)]

ghost use Rattle.std.specs.Prelude.{◌≡◌, false, ◌++◌, ◌≤◌, length, drop};
ghost use Rattle.logic.specs.Formula.{literal_of};
ghost use Rattle.logic.specs.Configuration.{configured, in_masks};
ghost use Rattle.logic.specs.Penalty.{literal_penalty};
ghost use Rattle.logic.specs.Cells.{tuple_at, tabulate};
ghost use Rattle.table_format.specs.Bytes.{test_of};
ghost use Rattle.cells_rule.specs.inner.Rule.{rule_penalty};
ghost use Rattle.cells_literals.specs.inner.Literal.{LiteralPlaced};

use cells_compare::put_comparison;
use cells_members::put_members;
use cells_rule::literal_penalty;
use cells_runs::{block_of, put_run};
use cells_size::{mask_at, set_size};

// The cells of kind 8: the same at every tuple.
fn put_size(relation: u8, size: u32, constant: u8, width: usize, cells: &mut [u32])
    requires { (size ≤ 64) × (width ≤ length cells.old) }
    ensures { cells.new ≡ tabulate width (λ _. rule_penalty 8 relation false size constant) ++ drop width cells.old }
{
    let value = literal_penalty(8, relation, false, size, u32::from(constant));
    put_run(0, width, value, cells);
}

// Fills the cells of a literal, the first `width`, in the order of Definition 5.
pub fn put_literal(
    kind: u8,
    relation: u8,
    a: u8,
    b: u8,
    sets: usize,
    ports: usize,
    depth: usize,
    width: usize,
    masks: &[u64],
    cells: &mut [u32],
)
    requires { LiteralPlaced sets kind relation a b ports depth width masks.now cells.old }
    ensures { cells.new ≡ tabulate width (λ t. literal_penalty (configured ports sets (in_masks masks.now)) (literal_of (test_of kind relation a b)) (tuple_at ports depth t)) ++ drop width cells.old }
{
    let count = ports as u32;
    match kind {
        // (f) port comparison
        7 => {
            let block = block_of(ports, depth, usize::from(a));
            let other = block_of(ports, depth, usize::from(b));
            put_comparison(relation, count, block, other, width, cells);
        }
        // (g) size
        8 => put_size(
            relation,
            set_size(masks, sets, usize::from(a)),
            b,
            width,
            cells,
        ),
        // (h) in, (i) not in
        _ => {
            let mask = mask_at(masks, usize::from(b));
            let block = block_of(ports, depth, usize::from(a));
            put_members(kind, mask, count, block, width, cells);
        }
    }
}
