// The steps of a change's walk over the cells: a node's entries in the index, the tuple's ports, literals afresh, the ports to
// visit. Paper 01, section One move.
#![tactic(auto)]

ghost use Rattle.std.specs.Prelude.{◌≡◌, cond, not, ◌&&◌, ◌||◌, ◌+◌, ◌*◌, ◌/◌, ◌%◌, ◌^◌, ◌≤◌, ◌<◌, eqb, leb, ltb, length, get_or, drop};
ghost use Rattle.logic.specs.Configuration.{indicator};
ghost use Rattle.table_format.specs.Bytes.{record_length, kind_field, records_of, record_at};
ghost use Rattle.cells_touch.specs.inner.Hits.{meets, rest_word};
ghost use Rattle.cells_sum.specs.inner.Walk.{begun};
ghost use Rattle.cells_row.specs.inner.Row.{row_gathered};
ghost use Rattle.cells_walk.specs.inner.Visit.{LiteralReady, Afresh};
ghost use Rattle.cells_walk.specs.inner.OverPlan.{RecordReady, RecordAfresh};

use cells_row::{cells_from, gather_row};
use cells_rule::literal_penalty;
use cells_size::{mask_at, set_size};
use cells_sum::{After, Sum, adds_of, begin, outcome};
use cells_touch::{Changed, meet, rest_word};
use logic::{has_port, wide};
use table_format::{Index, a_of, b_of, kind_of, record_at, relation_of};

// A plan's open table, as a walk goes through it: its bytes, what the check noted of each node, and how many ports and sets it has. A
// call makes one and lends it on; masks and cells, which calls write, stand beside it.
#[derive(Clone, Copy)]
pub struct Plan<'a> {
    pub table: &'a [u8],
    pub index: &'a Index,
    pub ports: usize,
    pub sets: usize,
}

impl Plan<'_> {
    // The place of a node's cell in the cell table.
    pub fn place_at(&self, i: usize, place: usize) -> usize
        requires { (i < 512) × (place ≤ 16777216) }
        ensures { result ≡ get_or self.now.index.now.firsts i 0 + place }
    {
        wide(self.index.firsts[i]) + place
    }

    // A cell's number at a place of its node.
    pub fn cell_at(&self, i: usize, place: usize, cells: &[u32]) -> u32
        requires { (i < 512) × (get_or self.now.index.now.firsts i 0 + place < length cells.now) }
        ensures { result ≡ get_or cells.now (get_or self.now.index.now.firsts i 0 + place) 0 }
    {
        let at = wide(self.index.firsts[i]) + place;
        cells[at]
    }

    // A node's row of cells, with all that stand behind it.
    pub fn row_at<'c>(&self, i: usize, row: usize, cells: &'c [u32]) -> &'c [u32]
        requires { (i < 512) × (row ≤ 16777216) × (get_or self.now.index.now.firsts i 0 + row ≤ length cells.now) }
        ensures { result.now ≡ drop (get_or self.now.index.now.firsts i 0 + row) cells.now }
    {
        cells_from(cells, self.place_at(i, row))
    }

    // A cell that is not touched keeps its number, and so do all below it.
    pub fn kept(&self, i: usize, place: usize, cells: &[u32]) -> After
        requires { (i < 512) × (get_or self.now.index.now.firsts i 0 + place < length cells.now) }
        ensures { (result.old ≡ get_or cells.now (get_or self.now.index.now.firsts i 0 + place) 0) × (result.value ≡ result.old) × (result.changed ≡ 0) }
    {
        let old = self.cell_at(i, place, cells);
        After {
            old,
            value: old,
            changed: 0,
        }
    }

    // The node behind all that stand below node i.
    pub fn end_at(&self, i: usize) -> usize
        requires { i < 512 }
        ensures { result ≡ get_or self.now.index.now.ends i 0 }
    {
        usize::from(self.index.ends[i])
    }

    // How node i and those below it use the sets, four bits a set.
    pub fn uses_at(&self, i: usize) -> u64
        requires { i < 512 }
        ensures { result ≡ get_or self.now.index.now.uses i 0 }
    {
        self.index.uses[i]
    }

    // Whether node i is touched at a tuple of this word.
    pub fn touched_at(&self, i: usize, word: u64) -> bool
        requires { i < 512 }
        ensures { result ≡ meets (get_or self.now.index.now.uses i 0) word }
    {
        meet(self.uses_at(i), word)
    }

    // Whether it is touched at every port, below a quantifier at this depth.
    pub fn every_at(&self, i: usize, word: u64, depth: usize) -> bool
        requires { i < 512 }
        ensures { result ≡ meets (get_or self.now.index.now.uses i 0) (rest_word word depth) }
    {
        meet(self.uses_at(i), rest_word(word, depth))
    }

    // A node's kind.
    pub fn kind_at(&self, i: usize) -> u8
        requires { record_length * i + record_length ≤ length (records_of self.now.table.now) }
        ensures { result ≡ kind_field (record_at self.now.table.now i) }
    {
        kind_of(record_at(self.table, i))
    }

    // Whether a node adds.
    pub fn adds_at(&self, i: usize) -> bool
        requires { record_length * i + record_length ≤ length (records_of self.now.table.now) }
        ensures { result ≡ eqb (kind_field (record_at self.now.table.now i) % 2) 1 }
    {
        adds_of(self.kind_at(i))
    }

    // The penalty of literal i at a tuple.
    pub fn literal_at(&self, i: usize, depth: usize, masks: &[u64], digits: u32) -> u32
        requires { RecordReady self.now depth i masks.now digits }
        ensures { RecordAfresh self.now depth i masks.now digits result }
    {
        let part = record_at(self.table, i);
        literal_after(
            kind_of(part),
            relation_of(part),
            a_of(part),
            b_of(part),
            self.ports,
            self.sets,
            depth,
            masks,
            digits,
        )
    }

    // A touched cell of literal i, from its old number.
    pub fn literal_outcome(
        &self,
        old: u32,
        i: usize,
        depth: usize,
        masks: &[u64],
        digits: u32,
    ) -> After
        requires { RecordReady self.now depth i masks.now digits }
        ensures { RecordAfresh self.now depth i masks.now digits result.value × (result.old ≡ old) × (result.changed ≡ (indicator (not (eqb result.value old)) + 0) % 4294967296) }
    {
        let value = self.literal_at(i, depth, masks, digits);
        outcome(old, Sum { value, changed: 0 })
    }
}

// The port of a variable: eight bits each, the outermost variable lowest.
pub fn port_at(digits: u32, variable: u8) -> u32
    requires { variable ≤ 2 }
    ensures { (result ≡ digits / 256 ^ variable % 256) × (result ≤ 255) }
{
    (digits >> (8 * variable)) % 256
}

// The digits of a tuple with one more port, below a quantifier at this depth.
pub fn with_port(digits: u32, depth: usize, x: usize) -> u32
    requires { (depth ≤ 2) × (digits < 256 ^ depth) × (x < 256) }
    ensures { result ≡ digits + x * 256 ^ depth }
{
    let port = x as u32;
    digits + (port << (8 * depth))
}

// A literal's penalty at a tuple: what it asks of the tuple and the masks, given to the rule. In the order of Definition 5.
fn literal_after(
    kind: u8,
    relation: u8,
    a: u8,
    b: u8,
    ports: usize,
    sets: usize,
    depth: usize,
    masks: &[u64],
    digits: u32,
) -> u32
    requires { LiteralReady ports sets depth kind relation a b masks.now digits }
    ensures { Afresh ports sets depth kind relation a b masks.now digits result }
{
    // (f) port comparison
    if kind == 7 {
        let x = port_at(digits, a);
        let y = port_at(digits, b);
        return literal_penalty(kind, relation, false, x, y);
    }
    // (g) size
    if kind == 8 {
        let size = set_size(masks, sets, a as usize);
        return literal_penalty(kind, relation, false, size, b as u32);
    }
    // (h) in, (i) not in
    let inside = has_port(mask_at(masks, b as usize), port_at(digits, a));
    literal_penalty(kind, relation, inside, 0, 0)
}

// A touched quantifier's cell, from its old number and the row of its child: `changed` cells of the row and below it differ.
pub fn row_outcome(
    add: bool,
    old: u32,
    changed: u32,
    new: &[u32],
    before: &[u32],
    ports: usize,
) -> After
    requires { (ports ≤ length new.now) × (ports ≤ length before.now) }
    ensures { (result.old ≡ old) × (result.value ≡ row_gathered add (begun add old) new.now before.now ports) × (result.changed ≡ (indicator (not (eqb result.value old)) + changed) % 4294967296) }
{
    let value = gather_row(add, begin(add, old).value, new, before, ports);
    outcome(
        old,
        Sum {
            value: value,
            changed: changed,
        },
    )
}

// Whether a node of a kind binds a variable.
pub fn is_quantifier(kind: u8) -> bool
    ensures { result ≡ (leb 1 kind && leb kind 2) }
{
    matches!(kind, 1..=2)
}

// Whether a row is renewed cell by cell: below a quantifier's cell stands a row of its own, and where only the ports of the change
// can be touched, `every` being false, the others keep their numbers.
pub fn by_cells(every: bool, kind: u8) -> bool
    ensures { result ≡ (not every || (leb 1 kind && leb kind 2)) }
{
    !every || is_quantifier(kind)
}

// The first port to visit: the lower of the change, where not all are visited.
pub fn first_port(all: bool, change: &Changed) -> usize
    ensures { result ≡ cond all 0 change.now.p }
{
    if all { 0 } else { change.p }
}

// The next port to visit; after the last of them it is the number of ports.
pub fn next_port(all: bool, change: &Changed, x: usize, ports: usize) -> usize
    requires { x < ports }
    ensures { result ≡ cond all (x + 1) (cond (ltb x change.now.q) change.now.q ports) }
{
    if all {
        x + 1
    } else if x < change.q {
        change.q
    } else {
        ports
    }
}
