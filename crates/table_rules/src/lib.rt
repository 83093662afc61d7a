// The rules of one record and of the header, tested on their bytes. Paper 01, section Plan table.
#![tactic(auto)]

ghost use Rattle.std.specs.Prelude.{◌≡◌, ◌≤◌, length};
ghost use Rattle.table_format.specs.Bytes.{header_length, record_length};
ghost use Rattle.table_format.specs.Rules.{arity_rule, may_nest};
ghost use Rattle.table_format.specs.inner.Tests.{field_rule, record_rule, header_rule, root_rule, front_rule, kind_depth, kind_width, kind_uses, UsesFit};

use logic::bit;
use table_format::{
    HEADER, a_of, b_of, end_of, has_mark, kind_of, nodes_of, parent_of, ports_of, records_of,
    relation_of, sets_of, table_bytes, version_of,
};

// A plan has at most so many nodes.
const MOST_NODES: usize = 512;

// Whether a node's kind, relation, a and b keep the rules.
#[tactic(auto, unfolding(table_format::specs::inner::Tests::field_rule))]
fn fields_ok(kind: u8, relation: u8, a: u8, b: u8, sets: usize, depth: usize) -> bool
    ensures { result ≡ field_rule sets depth kind relation a b }
{
    let x = usize::from(a);
    let y = usize::from(b);
    match kind {
        1..=4 => relation == 0 && x == 0 && y == 0,
        5 | 6 => relation == 0 && x < depth && y < sets,
        7 => relation <= 5 && x < depth && y < depth,
        8 => relation <= 5 && x < sets && y <= 64,
        _ => false,
    }
}

// Whether a node of a kind may stand directly below one of the kind above.
#[tactic(auto, unfolding(table_format::specs::Rules::may_nest))]
fn may_nest(above: u8, kind: u8) -> bool
    ensures { result ≡ may_nest above kind }
{
    !(above == kind && matches!(kind, 3 | 4))
}

// Whether a node of a kind has as many children as it must.
#[tactic(auto, unfolding(table_format::specs::Rules::arity_rule))]
pub fn arity_ok(kind: u8, children: usize) -> bool
    ensures { result ≡ arity_rule kind children }
{
    match kind {
        0..=2 => children == 1,
        3 | 4 => 2 <= children,
        _ => children == 0,
    }
}

// Whether a record keeps the rules of its own fields and place; its end is for the caller.
#[tactic(auto, unfolding(table_format::specs::inner::Tests::record_rule, table_format::specs::Rules::depth_rule))]
pub fn record_ok(part: &[u8], parent: usize, depth: usize, above: u8, sets: usize) -> bool
    requires { record_length ≤ length part.now }
    ensures { result ≡ record_rule sets depth above parent part.now }
{
    let kind = kind_of(part);
    fields_ok(kind, relation_of(part), a_of(part), b_of(part), sets, depth)
        && depth <= 3
        && may_nest(above, kind)
        && parent_of(part) == parent
}

// The depth of the children of a node of a kind.
#[tactic(auto, unfolding(table_format::specs::inner::Tests::kind_depth))]
pub fn child_depth(kind: u8, depth: usize) -> usize
    requires { depth ≤ 4 }
    ensures { result ≡ kind_depth kind depth }
{
    if kind <= 2 { depth + 1 } else { depth }
}

// How many cells each child of a node of a kind has.
#[tactic(auto, unfolding(table_format::specs::inner::Tests::kind_width))]
pub fn child_width(kind: u8, width: usize, ports: usize) -> usize
    requires { (width ≤ 16777216) × (ports ≤ 64) }
    ensures { result ≡ kind_width kind width ports }
{
    if kind <= 2 { width * ports } else { width }
}

// Which set an inner node uses, and how.
#[tactic(auto, unfolding(table_format::specs::inner::Tests::kind_uses))]
pub fn uses_of(kind: u8, a: u8, b: u8) -> u64
    requires { UsesFit kind a b }
    ensures { result ≡ kind_uses kind a b }
{
    match kind {
        0..=4 | 7 => 0,
        5 | 6 => bit(4 * usize::from(b) + usize::from(a)),
        _ => bit(4 * usize::from(a) + 3),
    }
}

// Whether the header keeps the rules, its node count aside.
#[tactic(auto, unfolding(table_format::specs::inner::Tests::header_rule))]
fn header_ok(table: &[u8]) -> bool
    requires { header_length ≤ length table.now }
    ensures { result ≡ header_rule table.now }
{
    has_mark(table)
        && version_of(table) == 1
        && (1..=64).contains(&ports_of(table))
        && (1..=16).contains(&sets_of(table))
}

// Whether the first record is the root of so many nodes.
#[tactic(auto, unfolding(table_format::specs::inner::Tests::root_rule))]
fn root_ok(part: &[u8], nodes: usize) -> bool
    requires { record_length ≤ length part.now }
    ensures { result ≡ root_rule nodes part.now }
{
    kind_of(part) == 0
        && relation_of(part) == 0
        && a_of(part) == 0
        && b_of(part) == 0
        && parent_of(part) == 65535
        && end_of(part) == nodes
}

// Whether the header and the root's record keep the rules, and the records are all there.
#[tactic(auto, unfolding(table_format::specs::inner::Tests::front_rule, table_format::specs::Bytes::header_length, table_format::specs::Bytes::record_length, table_format::specs::Bytes::records_of))]
pub fn front_ok(table: &[u8]) -> bool
    ensures { result ≡ front_rule table.now }
{
    if table.len() < HEADER || !header_ok(table) {
        return false;
    }
    let nodes = nodes_of(table);
    2 <= nodes
        && nodes <= MOST_NODES
        && table_bytes(sets_of(table), nodes) <= table.len()
        && root_ok(records_of(table), nodes)
}
