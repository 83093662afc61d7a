// The known plans of paper 01 as texts, inputs of planroot, tables and moves: what it prints is held to the file stdout.
#![tactic(auto)]

mod inputs;
mod moves;
mod plans;
mod print;
mod texts;

use print::heading;
use std::alloc::{AllocError, Global};
use std::io;

// Room for the largest plans, on the heap: handed back as an array it would stand on the stack more than once.
fn room(alloc: Global) -> Result<Vec<u32>, AllocError> {
    vec![in alloc; 0; 800000]
}

// One room for cells serves the texts and the plans.
fn main(rt: HostRuntime) -> io::Result<()> {
    let mut cells = room(rt.alloc())?;
    heading(&rt, b"texts")?;
    texts::all(&rt)?;
    texts::large_plans(&rt, &mut cells)?;
    heading(&rt, b"inputs")?;
    inputs::all(&rt)?;
    heading(&rt, b"plans")?;
    plans::all(&rt)?;
    plans::large_plans(&rt, &mut cells)?;
    heading(&rt, b"moves")?;
    moves::all(&rt)
}
