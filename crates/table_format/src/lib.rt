// The plan table's bytes: a record's fields and the header's, read and written. Paper 01, section Plan table.
#![tactic(auto)]

ghost use Rattle.std.specs.Prelude.{◌≡◌, ◌&&◌, ◌<◌, ◌+◌, ◌*◌, ◌≤◌, length};
ghost use Rattle.table_format.specs.inner.Fields.{FieldIs};
ghost use Rattle.table_format.specs.Bytes.{header_length, record_length, records_from, table_bytes, word_field, word_bytes, kind_field, relation_field, a_field, b_field, parent_field, end_field, marked, version_field, ports_field, sets_field, nodes_field, records_of, record_at, header};
ghost use Rattle.table_format.specs.inner.Tests.{below_root};
ghost use Rattle.table_format.specs.inner.Index.{blank_index};
ghost use Rattle.table_format.specs.inner.Written.{field_bytes, Written};

// A node's own bytes. Kind and relation stay bytes and are no enums: a damaged table holds any byte, and the rules of a table
// (`field_rule`, `kind_depth`, `test_of`) are over them as numbers.
#[derive(Clone, Copy)]
pub struct Fields {
    pub kind: u8,
    pub relation: u8,
    pub a: u8,
    pub b: u8,
}

// What the check of a table notes of each node: its first cell, the node behind all that stand below it, and the sets used at or
// below it, four bits a set. Three arrays and not one of records: a walk tests the sets of most nodes and reads nothing else of them.
#[derive(Clone, Copy)]
pub struct Index {
    pub firsts: [u32; 512],
    pub ends: [u16; 512],
    pub uses: [u64; 512],
}

impl Index {
    // Before the check: nothing is noted.
    pub fn new() -> Index
        ensures { result ≡ blank_index }
    {
        Index {
            firsts: [0; 512],
            ends: [0; 512],
            uses: [0; 512],
        }
    }
}

// The length of a record and the places of its fields, and the same of the header.
pub const RECORD: usize = 8;

const KIND: usize = 0;

const RELATION: usize = 1;

const A: usize = 2;

const B: usize = 3;

const PARENT: usize = 4;

const END: usize = 6;

pub const HEADER: usize = 9;

const VERSION: usize = 3;

const PORTS: usize = 5;

const SETS: usize = 6;

const NODES: usize = 7;

// Where the records of a table over so many sets begin.
pub fn records_from(sets: usize) -> usize
    ensures { result ≡ records_from sets }
{
    HEADER
}

// How many bytes a table over so many sets and of so many nodes has.
pub fn table_bytes(sets: usize, nodes: usize) -> usize
    requires { nodes ≤ 512 }
    ensures { result ≡ table_bytes sets nodes }
{
    records_from(sets) + RECORD * nodes
}

// The part of a table that begins with its records.
pub fn records_of(table: &[u8]) -> &[u8]
    requires { records_from (sets_field table.now) ≤ length table.now }
    ensures { result.now ≡ records_of table.now }
{
    let from = records_from(sets_of(table));
    &table[from..]
}

// The part of a table that begins with the record of node i.
pub fn record_at(table: &[u8], i: usize) -> &[u8]
    requires { record_length * i + record_length ≤ length (records_of table.now) }
    ensures { (result.now ≡ record_at table.now i) × (record_length ≤ length result.now) }
{
    let records = records_of(table);
    let at = RECORD * i;
    &records[at..]
}

// The records below the root.
pub fn below_root(table: &[u8], nodes: usize) -> &[u8]
    requires { (1 ≤ nodes) × (nodes ≤ 512) × (table_bytes (sets_field table.now) nodes ≤ length table.now) }
    ensures { result.now ≡ below_root table.now nodes }
{
    let records = records_of(table);
    let last = RECORD * nodes;
    &records[RECORD..last]
}

// Writes a 16-bit number, the low byte first.
fn put_word(out: &mut [u8], at: usize, x: u16)
    requires { at + 2 ≤ length out.old }
    ensures { Written at (word_bytes x) out.old out.new }
{
    out[at] = (x % 256) as u8;
    out[at + 1] = (x / 256) as u8;
}

// Writes the record of node i of those that a part begins with.
pub fn put_record(out: &mut [u8], i: usize, f: Fields, parent: u16, end: usize)
    requires { (record_length * i + record_length ≤ length out.old) × (end ≤ 512) }
    ensures { Written (record_length * i) (field_bytes f parent end) out.old out.new }
{
    let at = RECORD * i;
    out[at + KIND] = f.kind;
    out[at + RELATION] = f.relation;
    out[at + A] = f.a;
    out[at + B] = f.b;
    put_word(out, at + PARENT, parent);
    put_word(out, at + END, end as u16);
}

// Writes the header: the mark `PLN`, version 1, u, n and the node count.
pub fn put_header(u: u8, n: u8, nodes: u16, table: &mut [u8])
    requires { header_length ≤ length table.old }
    ensures { Written 0 (header u n nodes) table.old table.new }
{
    table[0] = 80;
    table[1] = 76;
    table[2] = 78;
    put_word(table, VERSION, 1);
    table[PORTS] = u;
    table[SETS] = n;
    put_word(table, NODES, nodes);
}

// A byte as a number, with its bound.
pub fn wide(b: u8) -> usize
    ensures { (result ≡ b) × (result < 256) }
{
    b as usize
}

// Both hold; by value, so that a contract is one equation.
pub fn both(a: bool, b: bool) -> bool
    ensures { result ≡ (a && b) }
{
    if a {
        return b;
    }
    false
}

// All three hold.
pub fn three(a: bool, b: bool, c: bool) -> bool
    ensures { result ≡ (a && b && c) }
{
    both(both(a, b), c)
}

// The 16-bit number at a place.
fn word_at(part: &[u8], at: usize) -> usize
    requires { at + 2 ≤ length part.now }
    ensures { FieldIs (word_field at) part.now result }
{
    let next = at + 1;
    wide(part[at]) + 256 * wide(part[next])
}

// The fields of the record that a part begins with.
pub fn kind_of(part: &[u8]) -> u8
    requires { record_length ≤ length part.now }
    ensures { result ≡ kind_field part.now }
{
    part[KIND]
}

// The relation of the record that a part begins with.
pub fn relation_of(part: &[u8]) -> u8
    requires { record_length ≤ length part.now }
    ensures { result ≡ relation_field part.now }
{
    part[RELATION]
}

// Its field a.
pub fn a_of(part: &[u8]) -> u8
    requires { record_length ≤ length part.now }
    ensures { result ≡ a_field part.now }
{
    part[A]
}

// Its field b.
pub fn b_of(part: &[u8]) -> u8
    requires { record_length ≤ length part.now }
    ensures { result ≡ b_field part.now }
{
    part[B]
}

// The number of its parent.
pub fn parent_of(part: &[u8]) -> usize
    requires { record_length ≤ length part.now }
    ensures { FieldIs parent_field part.now result }
{
    word_at(part, PARENT)
}

// Its end: the number of the first node behind its subtree.
pub fn end_of(part: &[u8]) -> usize
    requires { record_length ≤ length part.now }
    ensures { FieldIs end_field part.now result }
{
    word_at(part, END)
}

// The fields of the header that a table begins with.
pub fn has_mark(table: &[u8]) -> bool
    requires { header_length ≤ length table.now }
    ensures { result ≡ marked table.now }
{
    three(table[0] == 80, table[1] == 76, table[2] == 78)
}

// The version of the table.
pub fn version_of(table: &[u8]) -> usize
    requires { header_length ≤ length table.now }
    ensures { FieldIs version_field table.now result }
{
    word_at(table, VERSION)
}

// u, the number of ports.
pub fn ports_of(table: &[u8]) -> usize
    requires { header_length ≤ length table.now }
    ensures { result ≡ ports_field table.now }
{
    wide(table[PORTS])
}

// n, the number of sets.
pub fn sets_of(table: &[u8]) -> usize
    requires { header_length ≤ length table.now }
    ensures { result ≡ sets_field table.now }
{
    wide(table[SETS])
}

// The node count.
pub fn nodes_of(table: &[u8]) -> usize
    requires { header_length ≤ length table.now }
    ensures { FieldIs nodes_field table.now result }
{
    word_at(table, NODES)
}
