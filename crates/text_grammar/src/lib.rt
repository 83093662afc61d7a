// The grammar of a plan's text, the parser as a definition, and that each reads what the other derives. What the readers tell
// is declared here. Paper 01, section Plan text.
#![tactic(auto)]

// What a reader has read: whether more than 64 stand around a token (ground 4), the position after it, and how many numbers
// stand in the table.
#[derive(Clone, Copy)]
pub struct Reading {
    pub deep: bool,
    pub next: usize,
    pub count: usize,
}

// The set letters of a declaration: how many stand in the lent table, and the position after them.
#[derive(Clone, Copy)]
pub struct Letters {
    pub count: usize,
    pub next: usize,
}

// A text of the grammar: whether it is nested too deep (ground 4), how many set letters and how many numbers of the tree stand
// in the lent tables.
#[derive(Clone, Copy)]
pub struct Syntax {
    pub deep: bool,
    pub sets: usize,
    pub end: usize,
}
