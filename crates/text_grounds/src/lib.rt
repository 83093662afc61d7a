// Grounds 5 to 9 in their order. Paper 01, section Grounds for refusal.
#![tactic(auto)]

ghost use Rattle.std.specs.Prelude.{◌≤◌};
ghost use Rattle.text_grounds.specs.inner.Answered.{Answers};

use logic::Refusal;
use text_counts::{cell_count, node_count};
use text_names::{formula_faults, misdeclared};

// What a reading answers of a core: its node count and cell total.
#[derive(Clone, Copy, Debug, PartialEq, Eq)]
pub struct CoreSize {
    pub nodes: u32,
    pub cells: u32,
}

// Tries grounds 5 to 9. The tree whose records end at e, the letters of the declared sets, and the number of ports.
pub fn core_answer(t: &[u16], e: usize, sets: &[u8], u: u32) -> Result<CoreSize, Refusal>
    requires { (1 ≤ u) × (u ≤ 64) }
    ensures { Answers t.now e sets.now u result }
{
    if misdeclared(sets) {
        return Err(Refusal::WrongName);
    }
    let f = formula_faults(t, e, sets);
    if f.names {
        return Err(Refusal::WrongName);
    }
    if f.constants {
        return Err(Refusal::ConstantTooLarge);
    }
    if f.quantifiers {
        return Err(Refusal::FourthQuantifier);
    }
    let nodes = node_count(t, e);
    if 512 < nodes {
        return Err(Refusal::TooManyNodes);
    }
    let cells = cell_count(t, e, u);
    if 1048576 < cells {
        return Err(Refusal::TooManyCells);
    }
    Ok(CoreSize { nodes, cells })
}
