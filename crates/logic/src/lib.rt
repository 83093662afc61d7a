// The logic of port plans: a move, and small functions on masks, bits and numbers. What a plan means stands in specs/.
// Paper 01, sections Plan table, Penalty and One move.
#![tactic(auto)]

ghost use Rattle.std.specs.Prelude.{◌≡◌, ◌≤◌, ◌<◌, ◌^◌};
ghost use Rattle.logic.specs.Configuration.{ports_in, out_of_test, in_mask, mask_count, within_ports};
ghost use Rattle.logic.specs.Moves.{no_move};
ghost use Rattle.logic.specs.inner.Flip.{flip_port};

pub mod refusal;

pub use refusal::Refusal;

// A move as the operator gives it: kind, set S, set T, port p, port q. The fields are wide, so that no value is cut before
// ground 14 sees it. The same struct at the C boundary, vk_move_record.
#[repr(C)]
#[derive(Clone, Copy)]
pub struct Move {
    pub kind: u32,
    pub s: u32,
    pub t: u32,
    pub p: u32,
    pub q: u32,
}

// The move of an answer that has none: all fields 0.
pub fn no_move() -> Move
    ensures { result ≡ no_move }
{
    Move {
        kind: 0,
        s: 0,
        t: 0,
        p: 0,
        q: 0,
    }
}

// Whether port p is in a mask.
pub fn has_port(mask: u64, p: u32) -> bool
    requires { p < 64 }
    ensures { result ≡ in_mask mask p }
{
    (mask >> p) % 2 == 1
}

// The number of ports in a mask that are not in test.
pub fn mask_size(mask: u64, test: u64) -> u32
    ensures { (result ≡ ports_in 64 (out_of_test (in_mask mask) (in_mask test))) × (result ≤ 64) }
{
    (mask & (mask ^ test)).count_ones()
}

// A mask with port p entered if it was out, and out if it was in.
pub fn flip_port(mask: u64, p: u32) -> u64
    requires { p < 64 }
    ensures { result ≡ flip_port mask p }
{
    mask ^ (1u64 << p)
}

// The most masks that a plan has of its own: room for them in local tables.
pub const MASK_ROOM: usize = 17;

// How many masks of its own a plan of so many sets has.
pub fn own_masks(sets: usize) -> usize
    requires { sets ≤ 16 }
    ensures { result ≡ mask_count sets }
{
    sets + 1
}

// Whether a mask has no port of u or more.
pub fn within_ports(mask: u64, u: u32) -> bool
    ensures { result ≡ within_ports u mask }
{
    if 64 <= u { true } else { mask >> u == 0 }
}

// One bit of a word.
pub fn bit(at: usize) -> u64
    requires { at < 64 }
    ensures { result ≡ 2 ^ at }
{
    1u64 << at
}

// A number of 32 bits as a place in a slice, with the bound that a sum of two places asks for.
pub fn wide(x: u32) -> usize
    ensures { (result ≡ x) × (result < 4294967296) }
{
    x as usize
}
