// What the calls answer. What each of them promises, the book and the lists of calls are the definitions in specs/. Paper 01.
// A call answers one of these or the ground that refuses it.
#![tactic(auto)]

use logic::Move;

// Node count and cell total.
#[derive(Clone, Copy, Debug, PartialEq, Eq)]
pub struct Read {
    pub nodes: u32,
    pub cells: u32,
}

// The root's penalty and cell total.
#[derive(Clone, Copy, Debug, PartialEq, Eq)]
pub struct Loaded {
    pub root: u32,
    pub cells: u32,
}

// A node's cells: a part of the caller's cell table by place and length. vk_part: a slice cannot be handed back to C.
#[repr(C)]
#[derive(Clone, Copy)]
pub struct Part {
    pub first: usize,
    pub count: usize,
}

// A move and a trial answer root before, root after and how many cells differ.
#[derive(Clone, Copy, Debug, PartialEq, Eq)]
pub struct Moved {
    pub before: u32,
    pub after: u32,
    pub changed: u32,
}

// Improve answers the move that it made with the three numbers, or "no better move" with the root.
#[derive(Clone, Copy)]
pub enum Improved {
    Made {
        chosen: Move,
        before: u32,
        after: u32,
        changed: u32,
    },
    NoBetter {
        root: u32,
    },
}
