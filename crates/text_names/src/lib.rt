// Names, constants and quantifiers of a text's tree: grounds 5 to 7 of paper 01.
#![tactic(auto)]

ghost use Rattle.std.specs.Prelude.{◌≡◌, not, ◌||◌, ◌+◌, ◌<◌, leb};
ghost use Rattle.text_core.specs.Names.{among, set_number, declared_twice};
ghost use Rattle.text_tree.specs.inner.Stored.{JoinAt};
ghost use Rattle.text_names.specs.inner.Faults.{Misdeclares, IsBound, Binds, NamesLiteral, HighLiteral, LiteralFaults, Finds, FindsFaults};

use logic::{flip_port, has_port};
use text_tree::{is_literal, joins_at, operator_at, payload_at};

// Which of grounds 5 (of the formula), 6 and 7 apply.
#[derive(Clone, Copy, Default)]
pub struct Faults {
    pub names: bool,
    pub constants: bool,
    pub quantifiers: bool,
}

// The first and the last letter of a variable, as wide as a record keeps them.
const A: u16 = b'a' as u16;

const Z: u16 = b'z' as u16;

// The place of the letter s among the declared sets, their number if it is not declared.
pub fn set_number(sets: &[u8], s: u16) -> usize
    ensures { result ≡ set_number sets.now s }
{
    sets.iter()
        .position(|&x| s == u16::from(x))
        .unwrap_or(sets.len())
}

// Whether a set letter is not declared.
fn undeclared(sets: &[u8], s: u16) -> bool
    ensures { result ≡ not (among sets.now s) }
{
    !sets.iter().any(|&x| s == u16::from(x))
}

// Whether the letter v is bound.
#[tactic(auto, unfolding(crate::specs::inner::Faults::IsBound, crate::specs::inner::Faults::Marks, text_core::specs::Names::Variable))]
fn is_bound(bound: u64, v: u16) -> bool
    ensures { IsBound bound v result }
{
    match v {
        A..=Z => has_port(bound, u32::from(v - A)),
        _ => false,
    }
}

// The bound letters with v.
#[tactic(auto, unfolding(crate::specs::inner::Faults::Binds, text_core::specs::Names::Variable))]
fn with_letter(bound: u64, v: u16) -> u64
    ensures { Binds bound v result }
{
    match v {
        A..=Z => flip_port(bound, u32::from(v - A)),
        _ => bound,
    }
}

// Whether a literal names a set that is not declared or a variable that is not bound (ground 5).
fn names_literal(operator: u16, x: u16, sets: &[u8], bound: u64) -> bool
    ensures { NamesLiteral sets.now operator x bound result }
{
    let v = x / 256;
    let s = x % 256;
    match operator {
        24.. => undeclared(sets, v),
        0 | 1 => !is_bound(bound, v) || undeclared(sets, s),
        _ => !is_bound(bound, v) || !is_bound(bound, s),
    }
}

// Whether a literal's constant is above 64 (ground 6).
fn high_literal(operator: u16, x: u16) -> bool
    ensures { HighLiteral operator x result }
{
    24 <= operator && 64 < x % 256
}

// The faults of a literal.
fn literal_faults(operator: u16, x: u16, sets: &[u8], bound: u64) -> Faults
    ensures { LiteralFaults sets.now operator x bound result }
{
    Faults {
        names: names_literal(operator, x, sets, bound),
        constants: high_literal(operator, x),
        quantifiers: false,
    }
}

// The quantifiers around a quantifier's unit, as far as ground 7 asks.
fn deeper(d: u32) -> u32
    ensures { d < 3 → result ≡ d + 1 }
{
    d.min(2) + 1
}

// The faults of a quantifier whose letter is bound already or not, over a unit.
fn quantifier_faults(a: Faults, again: bool, d: u32) -> Faults
    ensures { (result.names ≡ (again || a.names)) × (result.constants ≡ a.constants) × (result.quantifiers ≡ (leb 3 d || a.quantifiers)) }
{
    Faults {
        names: again || a.names,
        quantifiers: 3 <= d || a.quantifiers,
        ..a
    }
}

// The faults of two parts together.
fn both_faults(a: Faults, b: Faults) -> Faults
    ensures { (result.names ≡ (a.names || b.names)) × (result.constants ≡ (a.constants || b.constants)) × (result.quantifiers ≡ (a.quantifiers || b.quantifiers)) }
{
    Faults {
        names: a.names || b.names,
        constants: a.constants || b.constants,
        quantifiers: a.quantifiers || b.quantifiers,
    }
}

// The faults of the tree whose records end at e, inside the bound letters and d quantifiers. The joins at its end, each the right
// part of the one behind it, are met in a loop.
#[cycle(faults)]
fn find_faults(t: &[u16], e: usize, sets: &[u8], bound: u64, d: u32) -> Faults
    ensures { Finds t.now e sets.now bound d result }
{
    let joins = joins_at(t, e);
    let mut faults = last_faults(t, e - 2 * joins, sets, bound, d);
    for j in (0..joins).rev() {
        let left = usize::from(payload_at(t, e - 2 * j));
        faults = both_faults(find_faults(t, left, sets, bound, d), faults);
    }
    faults
}

// The faults of a tree that is no join.
#[cycle(faults)]
fn last_faults(t: &[u16], e: usize, sets: &[u8], bound: u64, d: u32) -> Faults
    requires { JoinAt t.now e → ⊥ }
    ensures { Finds t.now e sets.now bound d result }
{
    if e < 2 || t.len() < e {
        return Faults::default();
    }
    let x = payload_at(t, e);
    match operator_at(t, e) {
        operator if is_literal(operator) => literal_faults(operator, x, sets, bound),
        2 => find_faults(t, e - 2, sets, bound, d),
        3 | 4 => {
            let a = find_faults(t, e - 2, sets, with_letter(bound, x), deeper(d));
            quantifier_faults(a, is_bound(bound, x), d)
        }
        _ => Faults::default(),
    }
}

// Grounds 5 (of the formula), 6 and 7.
pub fn formula_faults(t: &[u16], e: usize, sets: &[u8]) -> Faults
    ensures { FindsFaults t.now e sets.now result }
{
    find_faults(t, e, sets, 0, 0)
}

// Whether a letter stands twice in a list (ground 5).
fn declared_twice(sets: &[u8]) -> bool
    ensures { result ≡ declared_twice sets.now }
{
    match sets {
        [] => false,
        [first, rest @ ..] => rest.contains(first) || declared_twice(rest),
    }
}

// Ground 5 of a declaration, by its letters.
pub fn misdeclared(sets: &[u8]) -> bool
    ensures { Misdeclares sets.now result }
{
    16 < sets.len() || declared_twice(sets)
}
