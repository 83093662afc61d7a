// Plan A of paper 01 from its text, then B: port 1 dropped from T, first tried and then made.
use crate::print::{say_loaded, say_moved, say_read, show};
use call_load::load;
use call_move::make_move;
use call_read::read;
use call_trial::trial;
use call_undo::undo;
use logic::Move;
use std::io;

// A move of one port of a set: 1 adds it, 2 drops it.
fn one_port(kind: u32, s: u32, p: u32) -> Move {
    Move {
        kind,
        s,
        t: 0,
        p,
        q: 0,
    }
}

// Prints what a trial answers.
fn tried(
    rt: &impl Print,
    table: &[u8],
    masks: &[u64],
    cells: &[u32],
    scratch: &mut [u32],
    m: Move,
) -> io::Result<()> {
    say_moved(rt, trial(table, masks, cells, scratch, m))
}

// The length of the journal whose record count the moves share.
const ROOM: usize = 1;

// Makes a move, prints its answer and the cells.
fn made(
    rt: &impl Print,
    table: &[u8],
    masks: &mut [u64],
    cells: &mut [u32],
    count: &mut usize,
    m: Move,
) -> io::Result<()> {
    say_moved(rt, make_move(table, masks, cells, ROOM, count, m))?;
    show(rt, &cells[..])
}

// Takes a move back, prints the answer and the cells.
fn taken(
    rt: &impl Print,
    table: &[u8],
    masks: &mut [u64],
    cells: &mut [u32],
    count: &mut usize,
    m: Move,
) -> io::Result<()> {
    say_moved(rt, undo(table, masks, cells, ROOM, count, m))?;
    show(rt, &cells[..])
}

// The same drop again, which is not legal; a port that is not there; too little scratch.
fn refusals(rt: &impl Print, table: &[u8], masks: &[u64], cells: &[u32]) -> io::Result<()> {
    let mut scratch = [0u32; 34];
    tried(rt, table, masks, cells, &mut scratch, one_port(2, 1, 1))?;
    tried(rt, table, masks, cells, &mut scratch, one_port(2, 1, 3))?;
    let mut short = [0u32; 33];
    tried(rt, table, masks, cells, &mut short, one_port(1, 1, 1))
}

// The drop tried and made.
fn forth(
    rt: &impl Print,
    table: &[u8],
    masks: &mut [u64],
    cells: &mut [u32],
    count: &mut usize,
) -> io::Result<()> {
    let mut scratch = [0u32; 34];
    tried(
        rt,
        table,
        &masks[..],
        &cells[..],
        &mut scratch,
        one_port(2, 1, 1),
    )?;
    made(rt, table, masks, cells, count, one_port(2, 1, 1))?;
    refusals(rt, table, &masks[..], &cells[..])
}

// An add, for which the journal has no room; the drop taken back, and nothing left to take back.
fn back(
    rt: &impl Print,
    table: &[u8],
    masks: &mut [u64],
    cells: &mut [u32],
    count: &mut usize,
) -> io::Result<()> {
    made(rt, table, masks, cells, count, one_port(1, 1, 1))?;
    taken(rt, table, masks, cells, count, one_port(2, 1, 1))?;
    taken(rt, table, masks, cells, count, one_port(2, 1, 1))
}

// Reads and loads plan A, then moves.
pub fn all(rt: &impl Print) -> io::Result<()> {
    let mut table = [0u8; 121];
    let mut masks = [3u64, 7, 1, 0];
    let mut cells = [0u32; 34];
    say_read(
        rt,
        read(3, b"[STI] @x (x:I <-> x:S & x:T) & #I <= 1", &mut table),
    )?;
    say_loaded(rt, load(&table, &masks, &mut cells))?;
    let mut count = 0;
    forth(rt, &table, &mut masks, &mut cells, &mut count)?;
    back(rt, &table, &mut masks, &mut cells, &mut count)
}
