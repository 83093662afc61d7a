// Runs of equal cells, copies of the first cells, and the port of a variable from cell to cell. Paper 01, section Plan table.
#![tactic(auto)]

ghost use Rattle.std.specs.Prelude.{◌≡◌, ◌++◌, ℕ, ◌+◌, ◌%◌, ◌^◌, ◌≤◌, ◌<◌, min, length, take, drop};
ghost use Rattle.logic.specs.Cells.{tabulate};
ghost use Rattle.cells_runs.specs.inner.Ports.{block_of, DigitIs, repeated};

// The port of a variable at a cell, and how many cells are left before it changes.
#[derive(Clone, Copy)]
pub struct Digit {
    pub port: u32,
    pub left: usize,
}

// The port after this one; after the last the first.
fn next_port(port: u32, ports: u32) -> u32
    requires { (port < ports) × (ports ≤ 64) }
    ensures { result ≡ (port + 1) % ports }
{
    let next = port + 1;
    if next < ports { next } else { 0 }
}

// The port at the next cell: counted on, so that no cell costs a division.
pub fn next_digit(d: Digit, block: usize, ports: u32) -> Digit
    requires { (d.port < ports) × (ports ≤ 64) × (1 ≤ d.left) }
    ensures { (t : ℕ) → DigitIs ports block t d → DigitIs ports block (t + 1) result }
{
    if 1 < d.left {
        Digit {
            left: d.left - 1,
            ..d
        }
    } else {
        Digit {
            port: next_port(d.port, ports),
            left: block,
        }
    }
}

// How many cells a variable keeps its port for: as many as the variables inside it have tuples.
#[tactic(auto, using(crate::proofs::Digits::power_low), unfolding(crate::specs::inner::Ports::block_of))]
pub fn block_of(ports: usize, depth: usize, variable: usize) -> usize
    requires { (ports ≤ 64) × (depth ≤ 3) × (variable < depth) }
    ensures { result ≡ block_of ports depth variable }
{
    let inner = depth - 1 - variable;
    ports.pow(inner as u32)
}

// Sets `len` cells from `from` on to one value.
pub fn put_run(from: usize, len: usize, value: u32, cells: &mut [u32])
    requires { from + len ≤ length cells.old }
    ensures { cells.new ≡ take from cells.old ++ (tabulate len (λ _. value) ++ drop (from + len) cells.old) }
{
    // Not `fill`, which writes the last by itself: a load of 8 ports took 11 % more time, since a run of 8 is then no two whole vectors.
    for i in 0..len {
        cells[from + i] = value;
    }
}

// Copies the first `len` cells to place `to`, behind them.
fn copy_first(to: usize, len: usize, cells: &mut [u32])
    requires { (len ≤ to) × (to + len ≤ length cells.old) }
    ensures { cells.new ≡ take to cells.old ++ (take len cells.old ++ drop (to + len) cells.old) }
{
    // Not `copy_within`, by which a load of 64 ports took 20 to 24 % more time: of this loop the compiler makes vector instructions.
    for i in 0..len {
        cells[to + i] = cells[i];
    }
}

// Repeats the first `period` cells up to `width`. All that is there is copied at once, so that a short period costs few calls.
pub fn repeat_first(period: usize, width: usize, cells: &mut [u32])
    requires { (min 1 width ≤ period) × (period ≤ width) × (width ≤ length cells.old) }
    ensures { cells.new ≡ repeated period width cells.old }
{
    let mut t = period;
    // Not a `for`: a step is as long as what was copied, which doubles.
    while t < width {
        let len = t.min(width - t);
        copy_first(t, len, cells);
        t += len;
    }
}
