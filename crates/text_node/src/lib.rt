// What one node of a plan puts into the plan's text. Paper 02, request 2026-02.
#![tactic(auto)]

ghost use Rattle.std.specs.Prelude.{◌≡◌, [], ◌∷◌, ◌+◌, ◌≤◌};
ghost use Rattle.logic.specs.Formula.{relation_of};
ghost use Rattle.table_format.specs.Bytes.{test_of, node_of};
ghost use Rattle.text_form.specs.Form.{set_byte, variable_byte, lettered_test};
ghost use Rattle.text_form.specs.Spelling.{relation_bytes, spaced, test_bytes};
ghost use Rattle.text_put.specs.inner.Puts.{Puts, most_places};
ghost use Rattle.text_node.specs.inner.Nodes.{only_if, brackets_at, nest_below, quantifier_sign, quantifier_bytes, own_bytes, join_at};

use text_put::{put_byte, put_bytes, put_digits};

// Puts a byte if it is wanted.
#[tactic(auto, unfolding(crate::specs::inner::Nodes::only_if))]
pub fn put_if(out: &mut [u8], at: usize, b: u8, wanted: bool) -> usize
    requires { at + 1 ≤ most_places }
    ensures { Puts at (only_if wanted b) out.old result out.new }
{
    if wanted { put_byte(out, at, b) } else { at }
}

// Puts a relation's sign between spaces.
fn put_relation(out: &mut [u8], at: usize, relation: u8) -> usize
    requires { at + 4 ≤ most_places }
    ensures { Puts at (spaced (relation_bytes (relation_of relation))) out.old result out.new }
{
    let sign: &[u8] = match relation {
        0 => b" < ",
        1 => b" <= ",
        2 => b" = ",
        3 => b" != ",
        4 => b" >= ",
        _ => b" > ",
    };
    put_bytes(out, at, sign)
}

// Puts `v:S` or `v/S`, by the sign between.
fn put_member(out: &mut [u8], at: usize, v: u8, sign: u8, s: u8) -> usize
    requires { (at + 3 ≤ most_places) × (v ≤ 64) × (s ≤ 64) }
    ensures { Puts at (variable_byte v ∷ sign ∷ set_byte s ∷ []) out.old result out.new }
{
    let second = put_byte(out, at, b'a' + v);
    let third = put_byte(out, second, sign);
    put_byte(out, third, b'A' + s)
}

// Puts a literal by the fields of its record.
fn put_literal(out: &mut [u8], at: usize, kind: u8, relation: u8, a: u8, b: u8) -> usize
    requires { (at + 8 ≤ most_places) × (a ≤ 64) × (b ≤ 64) }
    ensures { Puts at (test_bytes (lettered_test (test_of kind relation a b))) out.old result out.new }
{
    match kind {
        5 => put_member(out, at, a, b':', b),
        6 => put_member(out, at, a, b'/', b),
        7 => {
            let sign = put_byte(out, at, b'a' + a);
            let last = put_relation(out, sign, relation);
            put_byte(out, last, b'a' + b)
        }
        _ => {
            let set = put_byte(out, at, b'#');
            let sign = put_byte(out, set, b'A' + a);
            let last = put_relation(out, sign, relation);
            put_digits(out, last, u32::from(b), 2)
        }
    }
}

// The sign of "for all", or of "exists".
#[tactic(auto, unfolding(crate::specs::inner::Nodes::quantifier_sign))]
fn quantifier_sign(kind: u8) -> u8
    ensures { result ≡ quantifier_sign kind }
{
    if kind == 1 { b'@' } else { b'?' }
}

// Puts a quantifier with its variable, which is numbered by its depth, and a space.
fn put_quantifier(out: &mut [u8], at: usize, kind: u8, depth: usize) -> usize
    requires { (at + 3 ≤ most_places) × (depth ≤ 3) }
    ensures { Puts at (quantifier_bytes kind depth) out.old result out.new }
{
    let second = put_byte(out, at, quantifier_sign(kind));
    let third = put_byte(out, second, b'a' + depth as u8);
    put_byte(out, third, b' ')
}

// Puts what a node writes before its children, by the fields of its record.
pub fn put_own(
    out: &mut [u8],
    at: usize,
    kind: u8,
    relation: u8,
    a: u8,
    b: u8,
    depth: usize,
) -> usize
    requires { (at + 8 ≤ most_places) × (a ≤ 64) × (b ≤ 64) × (depth ≤ 3) }
    ensures { Puts at (own_bytes (node_of kind relation a b) depth) out.old result out.new }
{
    match kind {
        1 | 2 => put_quantifier(out, at, kind, depth),
        5.. => put_literal(out, at, kind, relation, a, b),
        _ => at,
    }
}

// Puts what joins the children of a node of this kind.
#[tactic(auto, unfolding(crate::specs::inner::Nodes::join_at))]
pub fn put_join(out: &mut [u8], at: usize, above: u8) -> usize
    requires { at + 3 ≤ most_places }
    ensures { Puts at (join_at above) out.old result out.new }
{
    put_bytes(out, at, if above == 4 { b" | " } else { b" & " })
}

// Whether a node of this kind stands in brackets below one of the kind above.
#[tactic(auto, unfolding(crate::specs::inner::Nodes::brackets_at))]
pub fn needs_brackets(above: u8, kind: u8) -> bool
    ensures { result ≡ brackets_at above kind }
{
    match kind {
        3 => above != 0 && above != 4,
        4 => above != 0,
        _ => false,
    }
}

// How many `(` and quantifiers stand around the children of a node of this kind.
#[tactic(auto, unfolding(crate::specs::inner::Nodes::nest_below))]
pub fn nest_below(kind: u8, bracket: bool, nest: usize) -> usize
    requires { nest + 1 ≤ most_places }
    ensures { result ≡ nest_below kind bracket nest }
{
    if bracket || kind <= 2 { nest + 1 } else { nest }
}
