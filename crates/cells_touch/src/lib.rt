// Which cells a change touches: one word for a tuple, so that the test of a node is one `and`. Paper 01, section One move.
#![tactic(auto)]

ghost use Rattle.std.specs.Prelude.{◌≡◌, ◌<◌};
ghost use Rattle.cells_touch.specs.inner.Hits.{meets, level, other_levels, at_port, first_word, rest_word, port_word, variable_bits, size_bit, change_at, Tells};

use logic::{Move, bit, wide};

// A change: the ports p and q, the sets that change at p, those that change at q, and those that are resized. The words have
// four bits a set, as the table of uses has.
#[derive(Clone, Copy)]
pub struct Changed {
    pub p: usize,
    pub q: usize,
    pub psets: u64,
    pub qsets: u64,
    pub resized: u64,
}

// Whether a node that uses sets so is touched at a tuple of this word.
pub fn meet(uses: u64, word: u64) -> bool
    ensures { result ≡ meets uses word }
{
    uses & word != 0
}

// The bit of variable `depth` in every set, of its four.
pub fn level_of(depth: usize) -> u64
    ensures { result ≡ level depth }
{
    0x1111111111111111u64 << (depth % 4)
}

// All the other bits.
fn other_levels(depth: usize) -> u64
    ensures { result ≡ other_levels depth }
{
    0xffffffffffffffff - level_of(depth)
}

// What a word says of every port alike, below a quantifier at this depth.
pub fn rest_word(word: u64, depth: usize) -> u64
    ensures { result ≡ rest_word word depth }
{
    word & other_levels(depth)
}

impl Changed {
    // The sets that change at port x.
    fn at_port(&self, x: usize) -> u64
        ensures { result ≡ at_port self.now x }
    {
        if x == self.p {
            self.psets
        } else if x == self.q {
            self.qsets
        } else {
            0
        }
    }

    // The word of the empty tuple.
    pub fn first_word(&self) -> u64
        ensures { result ≡ first_word self.now }
    {
        self.psets | self.qsets | self.resized
    }

    // The word of a tuple with port x, below a quantifier at this depth.
    pub fn port_word(&self, word: u64, depth: usize, x: usize) -> u64
        ensures { result ≡ port_word self.now word depth x }
    {
        rest_word(word, depth) | (self.at_port(x) & level_of(depth))
    }
}

// The bits of a set that say which variables it is tested at.
pub fn variable_bits(set: usize) -> u64
    requires { set < 16 }
    ensures { result ≡ variable_bits set }
{
    bit(4 * set) | bit(4 * set + 1) | bit(4 * set + 2)
}

// The bit of a set that says that its size is tested.
pub fn size_bit(set: usize) -> u64
    requires { set < 16 }
    ensures { result ≡ size_bit set }
{
    bit(4 * set + 3)
}

// A change of two sets at two ports, each set at each port: a transfer has one port, a swap one set, the others one of each.
fn change_at(s: usize, t: usize, p: usize, q: usize) -> Changed
    requires { (s < 16) × (t < 16) }
    ensures { result ≡ change_at s t p q }
{
    let sets = variable_bits(s) | variable_bits(t);
    let sizes = size_bit(s) | size_bit(t);
    if p <= q {
        return Changed {
            p: p,
            q: q,
            psets: sets,
            qsets: sets,
            resized: sizes,
        };
    }
    Changed {
        p: q,
        q: p,
        psets: sets,
        qsets: sets,
        resized: sizes,
    }
}

// The change that a move makes.
pub fn change_of(m: Move) -> Changed
    requires { (m.s < 16) × (m.t < 16) }
    ensures { Tells m result }
{
    let s = wide(m.s);
    let p = wide(m.p);
    if m.kind == 3 {
        return change_at(s, wide(m.t), p, p);
    }
    if m.kind == 4 {
        return change_at(s, s, p, wide(m.q));
    }
    change_at(s, s, p, p)
}
