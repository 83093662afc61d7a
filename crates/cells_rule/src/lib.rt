// The penalty of a literal: Definition 5, cases (f) to (i). Load and the walk of a change both call it. Paper 01, section Penalty.
#![tactic(auto)]

ghost use Rattle.std.specs.Prelude.{◌≡◌, ◌≤◌};
ghost use Rattle.logic.specs.Formula.{relation_of};
ghost use Rattle.logic.specs.Penalty.{compare, size_penalty};
ghost use Rattle.cells_rule.specs.inner.Rule.{rule_penalty};

// Whether a stands to b in the relation of a number.
#[tactic(auto, using(crate::proofs::Rules::relation_high), unfolding(logic::specs::Formula::relation_of, logic::specs::Penalty::compare))]
fn related(relation: u8, a: u32, b: u32) -> bool
    ensures { result ≡ compare (relation_of relation) a b }
{
    match relation {
        0 => a < b,
        1 => a <= b,
        2 => a == b,
        3 => a != b,
        4 => b <= a,
        _ => b < a,
    }
}

// The penalty of size s against the constant c.
#[tactic(auto, using(crate::proofs::Rules::relation_high, crate::proofs::Rules::bit_is), unfolding(logic::specs::Formula::relation_of, logic::specs::Penalty::size_penalty))]
fn size_penalty(relation: u8, s: u32, c: u32) -> u32
    requires { (s ≤ 255) × (c ≤ 255) }
    ensures { result ≡ size_penalty (relation_of relation) s c }
{
    match relation {
        0 => (s + 1).saturating_sub(c),
        1 => s.saturating_sub(c),
        2 => s.abs_diff(c),
        3 => u32::from(s == c),
        4 => c.saturating_sub(s),
        _ => (c + 1).saturating_sub(s),
    }
}

// The penalty of a literal by its number in the table: whether its port is in its set, and two numbers, the ports compared or
// the size and its constant. What a kind does not ask for, it does not read. Kind and relation stay the table's numbers: Operands and
// rule_penalty, which other crates' theorems cite, are over these.
#[tactic(auto, using(crate::proofs::Rules::bit_is), unfolding(crate::specs::inner::Rule::rule_penalty))]
pub fn literal_penalty(kind: u8, relation: u8, inside: bool, x: u32, y: u32) -> u32
    requires { (x ≤ 255) × (y ≤ 255) }
    ensures { result ≡ rule_penalty kind relation inside x y }
{
    match kind {
        // (f) port comparison
        7 => u32::from(!related(relation, x, y)),
        // (g) size
        8 => size_penalty(relation, x, y),
        // (h) in
        5 => u32::from(!inside),
        // (i) not in
        _ => u32::from(inside),
    }
}
