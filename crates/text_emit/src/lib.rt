// Writes the plan table of a text's core formula, from the tree's records. Paper 01, sections Plan table and Plan text.
#![tactic(auto)]

ghost use Rattle.std.specs.Prelude.{◌≡◌, true, ◌%◌, ◌≤◌, length};
ghost use Rattle.logic.specs.Formula.{kind_number};
ghost use Rattle.text_core.specs.Core.{joint_node};
ghost use Rattle.text_core.specs.Names.{set_number, variable_number};
ghost use Rattle.text_emit.specs.inner.Fields.{bound_letters, BindsLetter, RelationIs, QuantifierIs, MemberIs, LiteralIs};
ghost use Rattle.text_emit.specs.inner.Emits.{EmitReady, EmitsLiteral, JointIs, LeftIs, RightIs, Emits, EmitsJoin, EmitsRow, GoesOn, PutsCore, PlanReady, WritesPlan};

use table_format::{Fields, RECORD, put_header, put_record, records_from, table_bytes};
use text_names::set_number;
use text_tree::{is_join, is_literal, operator_at, payload_at};

// Operators of the tree's records (crate text_tree, specs/inner/Stored.antt): numbers and no enum, since `literal_code` and the definitions
// of the stored tree count with them.
const PORT: u16 = 16;

const SIZE: u16 = 24;

// The letters bound around a place, at most three. Fields by name are plainer here than an array with a count: each is written
// once, and read with a test of the count.
#[derive(Clone, Copy)]
pub struct Bound {
    pub count: usize,
    pub outer: u16,
    pub middle: u16,
    pub inner: u16,
}

// The node above: its kind and its number.
#[derive(Clone, Copy)]
pub struct Up {
    pub kind: u8,
    pub number: u16,
}

// The number of a bound variable.
fn variable_number(b: Bound, v: u16) -> u8
    ensures { result ≡ variable_number (bound_letters b) v }
{
    if 2 < b.count && v == b.inner {
        2
    } else if 1 < b.count && v == b.middle {
        1
    } else {
        0
    }
}

// Binds one more letter.
fn with_letter(b: Bound, v: u16) -> Bound
    ensures { BindsLetter b v result }
{
    match b.count {
        0 => Bound {
            count: 1,
            outer: v,
            ..b
        },
        1 => Bound {
            count: 2,
            middle: v,
            ..b
        },
        _ => Bound {
            count: 3,
            inner: v,
            ..b
        },
    }
}

// A set's number as a byte.
fn set_byte(sets: &[u8], s: u16) -> u8
    requires { length sets.now ≤ 16 }
    ensures { result ≡ set_number sets.now s }
{
    set_number(sets, s) as u8
}

// The low byte of a number.
fn low_byte(x: u16) -> u8
    ensures { result ≡ x % 256 }
{
    (x % 256) as u8
}

// A relation's number, or its opposite's.
fn relation_at(p: bool, x: u8) -> u8
    ensures { RelationIs p x result }
{
    match (p, x) {
        (true, _) => x,
        (false, 0 | 1) => x + 4,
        (false, 2 | 3) => 5 - x,
        (false, _) => x - 4,
    }
}

// "for all" of the text's tree has operator 3, "exists" 4.
fn quantifier_kind(p: bool, operator: u16) -> u8
    ensures { QuantifierIs p operator result }
{
    match (p, operator) {
        (true, 3) => 1,
        (true, _) => 2,
        (false, 3) => 2,
        (false, _) => 1,
    }
}

// `x:S` has operator 0, `x/S` 1.
fn member_kind(p: bool, operator: u16) -> u8
    ensures { MemberIs p operator result }
{
    match (p, operator) {
        (true, 0) => 5,
        (true, _) => 6,
        (false, 0) => 6,
        (false, _) => 5,
    }
}

// The own bytes of a literal's node, from the literal's record.
fn literal_fields(operator: u16, x: u16, sets: &[u8], bound: Bound, p: bool) -> Fields
    requires { length sets.now ≤ 16 }
    ensures { LiteralIs sets.now operator x bound p result }
{
    let v = x / 256;
    let s = x % 256;
    let relation = relation_at(p, low_byte(operator % 8));
    match operator {
        SIZE.. => Fields {
            kind: 8,
            relation,
            a: set_byte(sets, v),
            b: low_byte(x),
        },
        PORT.. => Fields {
            kind: 7,
            relation,
            a: variable_number(bound, v),
            b: variable_number(bound, s),
        },
        _ => Fields {
            kind: member_kind(p, operator),
            relation: 0,
            a: variable_number(bound, v),
            b: set_byte(sets, s),
        },
    }
}

// The own bytes of a node that has no relation, a and b.
fn plain(kind: u8) -> Fields
    ensures { (result.kind ≡ kind) × (result.relation ≡ 0) × (result.a ≡ 0) × (result.b ≡ 0) }
{
    Fields {
        kind,
        relation: 0,
        a: 0,
        b: 0,
    }
}

// Writes the record of a literal's node as node i, if there is room; says the next number.
#[tactic(auto, unfolding(table_format::specs::Bytes::record_length))]
fn put_literal(
    operator: u16,
    x: u16,
    sets: &[u8],
    bound: Bound,
    p: bool,
    parent: u16,
    i: usize,
    out: &mut [u8],
) -> usize
    requires { EmitReady sets.now i out.old }
    ensures { EmitsLiteral operator x sets.now bound p parent i out.old out.new result }
{
    if out.len() < RECORD * (i + 1) {
        return i;
    }
    let f = literal_fields(operator, x, sets, bound, p);
    put_record(out, i, f, parent, i + 1);
    i + 1
}

// The kind of "and" where j is true, else of "or".
#[tactic(auto, unfolding(text_core::specs::Core::joint_node, logic::specs::Formula::kind_number))]
fn joint_node(j: bool) -> u8
    ensures { result ≡ kind_number (joint_node j) }
{
    if j { 3 } else { 4 }
}

// The kind of the joint that an operator makes.
fn joint_kind(operator: u16, p: bool) -> u8
    ensures { JointIs operator p result }
{
    match operator {
        5 | 9 => joint_node(p),
        _ => joint_node(!p),
    }
}

// The polarities of an operator's two parts.
fn left_at(operator: u16, p: bool) -> bool
    ensures { LeftIs operator p result }
{
    if operator == 7 { !p } else { p }
}

// The polarity of an operator's right part.
fn right_at(operator: u16, p: bool) -> bool
    ensures { RightIs operator p result }
{
    if operator == 8 { !p } else { p }
}

// Writes the records of the core of the tree whose records end at e, or of its negation where p is false, below the node
// `up`, from node i on; says the next number. It is called where the core has few nodes: it visits what it writes.
#[tactic(auto, unfolding(table_format::specs::Bytes::record_length))]
#[cycle(emission)]
fn emit(
    t: &[u16],
    e: usize,
    sets: &[u8],
    bound: Bound,
    p: bool,
    up: Up,
    i: usize,
    out: &mut [u8],
) -> usize
    requires { EmitReady sets.now i out.old }
    ensures { Emits t.now e sets.now bound p up i out.old out.new result }
{
    if e < 2 || t.len() < e {
        return i;
    }
    let operator = operator_at(t, e);
    let x = payload_at(t, e);
    if is_literal(operator) {
        return put_literal(operator, x, sets, bound, p, up.number, i, out);
    }
    match operator {
        2 => emit(t, e - 2, sets, bound, !p, up, i, out),
        3 | 4 => {
            if out.len() < RECORD * (i + 1) {
                return i;
            }
            let kind = quantifier_kind(p, operator);
            let below = Up {
                kind,
                number: i as u16,
            };
            let end = emit(t, e - 2, sets, with_letter(bound, x), p, below, i + 1, out);
            put_record(out, i, plain(kind), up.number, end);
            end
        }
        _ => {
            let m = usize::from(x);
            if e - 2 < m {
                return i;
            }
            joined(t, m, e - 2, operator, sets, bound, p, up, i, out)
        }
    }
}

// The same for the two trees whose records end at m and e, joined by an operator. "No "and" is a child of "and"": the joint
// has no record inside its like.
#[tactic(auto, unfolding(table_format::specs::Bytes::record_length))]
#[cycle(emission)]
fn joined(
    t: &[u16],
    m: usize,
    e: usize,
    operator: u16,
    sets: &[u8],
    bound: Bound,
    p: bool,
    up: Up,
    i: usize,
    out: &mut [u8],
) -> usize
    requires { EmitReady sets.now i out.old }
    ensures { EmitsJoin t.now m e operator sets.now bound p up i out.old out.new result }
{
    let kind = joint_kind(operator, p);
    if kind == up.kind {
        return operands(t, m, e, operator, sets, bound, p, up, i, out);
    }
    if out.len() < RECORD * (i + 1) {
        return i;
    }
    let below = Up {
        kind,
        number: i as u16,
    };
    let end = operands(t, m, e, operator, sets, bound, p, below, i + 1, out);
    put_record(out, i, plain(kind), up.number, end);
    end
}

// Whether the tree whose records end at e goes on with the joint above it, a node of this kind: an operator joins it that makes
// the same joint. `<->` does not: it is two joints.
fn goes_on(t: &[u16], e: usize, p: bool, kind: u8) -> bool
    ensures { result ≡ true → GoesOn t.now e p kind }
{
    if !is_join(t, e) {
        return false;
    }
    let operator = operator_at(t, e);
    operator <= 8 && joint_kind(operator, p) == kind
}

// What the joint holds: its parts, or for `<->` the joints of `->` and `<-`. A right part that goes on with the joint is taken in
// the loop, so that a row of siblings costs no stack.
#[tactic(auto, unfolding(table_format::specs::Bytes::record_length))]
#[cycle(emission)]
fn operands(
    t: &[u16],
    m: usize,
    e: usize,
    operator: u16,
    sets: &[u8],
    bound: Bound,
    p: bool,
    up: Up,
    i: usize,
    out: &mut [u8],
) -> usize
    requires { EmitReady sets.now i out.old }
    ensures { EmitsRow t.now m e operator sets.now bound p up i out.old out.new result }
{
    if 9 <= operator {
        let n = joined(t, m, e, 7, sets, bound, p, up, i, out);
        return joined(t, m, e, 8, sets, bound, p, up, n, out);
    }
    let mut n = emit(t, m, sets, bound, left_at(operator, p), up, i, out);
    let mut last = e;
    let mut q = right_at(operator, p);
    while goes_on(t, last, q, up.kind) {
        let next = operator_at(t, last);
        let left = usize::from(payload_at(t, last));
        n = emit(t, left, sets, bound, left_at(next, q), up, n, out);
        q = right_at(next, q);
        last -= 2;
    }
    emit(t, last, sets, bound, q, up, n, out)
}

// The number of the root's parent.
const NO_PARENT: u16 = 65535;

// Writes the records of a text's core: the root is node 0.
#[tactic(auto, unfolding(table_format::specs::Bytes::record_length))]
fn put_core(t: &[u16], e: usize, sets: &[u8], out: &mut [u8])
    requires { EmitReady sets.now 1 out.old }
    ensures { PutsCore t.now e sets.now out.old out.new }
{
    let none = Bound {
        count: 0,
        outer: 0,
        middle: 0,
        inner: 0,
    };
    let root = Up { kind: 0, number: 0 };
    let end = emit(t, e, sets, none, true, root, 1, out);
    put_record(out, 0, plain(0), NO_PARENT, end);
}

// Writes the plan table of the text whose tree's records end at e, over u ports; `nodes` is the node count of its core.
pub fn write_plan(u: u8, sets: &[u8], t: &[u16], e: usize, nodes: usize, table: &mut [u8])
    requires { PlanReady sets.now nodes table.old }
    ensures { WritesPlan u sets.now t.now e nodes table.old table.new }
{
    let n = sets.len();
    put_header(u, n as u8, nodes as u16, table);
    let from = records_from(n);
    let last = table_bytes(n, nodes);
    put_core(t, e, sets, &mut table[from..last]);
}
