// The lines that known prints.
use contracts::{Loaded, Moved, Read};
use logic::Refusal;
use std::io;

// A number, a space before it.
fn number(rt: &impl Print, n: u32) -> io::Result<()> {
    print!(rt; " {n}")
}

// A byte as a number.
fn byte(rt: &impl Print, b: u8) -> io::Result<()> {
    number(rt, b as u32)
}

// Ends a line.
fn end(rt: &impl Print) -> io::Result<()> {
    rt.write_all(b"\n")
}

// The heading of a part.
pub fn heading(rt: &impl Print, words: &[u8]) -> io::Result<()> {
    rt.write_all(words)?;
    end(rt)
}

// A word and its number, then the cells.
fn counted(rt: &impl Print, word: &[u8], n: u32, cells: u32) -> io::Result<()> {
    rt.write_all(word)?;
    number(rt, n)?;
    rt.write_all(b" cells")?;
    number(rt, cells)?;
    end(rt)
}

// A refusal by its ground.
fn refused(rt: &impl Print, ground: Refusal) -> io::Result<()> {
    rt.write_all(b"refused")?;
    byte(rt, ground.number())?;
    end(rt)
}

// Root before, root after, changed cells.
fn changed(rt: &impl Print, before: u32, after: u32, cells: u32) -> io::Result<()> {
    rt.write_all(b"moved")?;
    number(rt, before)?;
    number(rt, after)?;
    number(rt, cells)?;
    end(rt)
}

// What read answers.
pub fn say_read(rt: &impl Print, answer: Result<Read, Refusal>) -> io::Result<()> {
    match answer {
        Ok(plan) => counted(rt, b"nodes", plan.nodes, plan.cells),
        Err(g) => refused(rt, g),
    }
}

// What load answers.
pub fn say_loaded(rt: &impl Print, answer: Result<Loaded, Refusal>) -> io::Result<()> {
    match answer {
        Ok(plan) => counted(rt, b"penalty", plan.root, plan.cells),
        Err(g) => refused(rt, g),
    }
}

// What a move or a trial answers.
pub fn say_moved(rt: &impl Print, answer: Result<Moved, Refusal>) -> io::Result<()> {
    match answer {
        Ok(m) => changed(rt, m.before, m.after, m.changed),
        Err(g) => refused(rt, g),
    }
}

// Cells on a line.
pub fn show(rt: &impl Print, cells: &[u32]) -> io::Result<()> {
    for n in cells {
        number(rt, *n)?;
    }
    end(rt)
}

// Bytes of a table on a line.
pub fn show_bytes(rt: &impl Print, bytes: &[u8]) -> io::Result<()> {
    for b in bytes {
        byte(rt, *b)?;
    }
    end(rt)
}
