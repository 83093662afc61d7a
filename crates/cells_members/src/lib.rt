// The cells of a membership literal, kinds 5 and 6. Paper 01, sections Plan table and Penalty.
#![tactic(auto)]

ghost use Rattle.std.specs.Prelude.{◌≡◌, cond, ◌++◌, ◌+◌, ◌≤◌, ◌<◌, length, take, drop};
ghost use Rattle.logic.specs.Configuration.{in_mask};
ghost use Rattle.logic.specs.Cells.{tabulate};
ghost use Rattle.cells_rule.specs.inner.Rule.{rule_penalty};
ghost use Rattle.cells_runs.specs.inner.Ports.{digit_at, RunsPlaced, Round};

use cells_rule::literal_penalty;
use cells_runs::{put_run, repeat_first};
use logic::has_port;

// What a mask is divided by into its two halves of 32 bits.
const HALF: u64 = 4294967296;

// Up to how many ports of a set are written one by one, each at the cost of two or three vectors.
const FEW: u32 = 8;

// One number if port p is in the set, else another.
fn member_penalty(inside: u32, outside: u32, mask: u64, p: u32) -> u32
    requires { p < 64 }
    ensures { result ≡ cond (in_mask mask p) inside outside }
{
    if has_port(mask, p) { inside } else { outside }
}

// The same by half a mask: a vector holds four numbers of 32 bits, and shifts them in fewer steps than two of 64.
#[tactic(auto, unfolding(logic::specs::Configuration::in_mask))]
fn bit_penalty(inside: u32, outside: u32, half: u32, p: u32) -> u32
    requires { p < 32 }
    ensures { result ≡ cond (in_mask half p) inside outside }
{
    if (half >> p) % 2 == 1 {
        inside
    } else {
        outside
    }
}

// The cells of `len` ports from place `from` on, by one half of a mask.
fn put_half(inside: u32, outside: u32, half: u32, from: usize, len: usize, cells: &mut [u32])
    requires { (len ≤ 32) × (from + len ≤ length cells.old) }
    ensures { cells.new ≡ take from cells.old ++ (tabulate len (λ t. cond (in_mask half t) inside outside) ++ drop (from + len) cells.old) }
{
    for (t, cell) in cells[from..from + len].iter_mut().enumerate() {
        *cell = bit_penalty(inside, outside, half, t as u32);
    }
}

// Whether a row is long, and its set has few ports.
fn is_sparse(mask: u64, row: usize) -> bool {
    32 < row && mask.count_ones() <= FEW
}

// A row of a set of few ports: every cell as outside the set, and then each port's own.
fn put_few(inside: u32, outside: u32, mask: u64, row: usize, cells: &mut [u32])
    requires { (row ≤ 64) × (row ≤ length cells.old) }
    ensures { cells.new ≡ tabulate row (λ t. cond (in_mask mask t) inside outside) ++ drop row cells.old }
{
    put_run(0, row, outside, cells);
    let mut p = 0;
    let mut rest = mask;
    // Not a `for`: a step is to the next port of the set.
    while p < row {
        let gap = rest.trailing_zeros() as usize;
        let next = p + gap;
        if row <= next {
            return;
        }
        cells[next] = inside;
        rest = (rest >> gap) / 2;
        p = next + 1;
    }
}

// `put_round` for the innermost variable: each cell has a port of its own, so that none costs a loop.
fn put_row(
    inside: u32,
    outside: u32,
    mask: u64,
    ports: u32,
    width: usize,
    cells: &mut [u32],
) -> usize
    requires { RunsPlaced ports 1 width cells.old }
    ensures { Round ports 1 width result × (cells.new ≡ tabulate result (λ t. cond (in_mask mask (digit_at ports 1 t)) inside outside) ++ drop result cells.old) }
{
    let row = (ports as usize).min(width);
    if is_sparse(mask, row) {
        put_few(inside, outside, mask, row, cells);
        return row;
    }
    let low = row.min(32);
    put_half(inside, outside, (mask % HALF) as u32, 0, low, cells);
    put_half(inside, outside, (mask / HALF) as u32, low, row - low, cells);
    row
}

// The cells of a membership literal for each port once, or as far as they go; says how many they are. The port stays the same
// over a run of cells.
fn put_round(
    inside: u32,
    outside: u32,
    mask: u64,
    ports: u32,
    block: usize,
    width: usize,
    cells: &mut [u32],
) -> usize
    requires { RunsPlaced ports block width cells.old }
    ensures { Round ports block width result × (cells.new ≡ tabulate result (λ t. cond (in_mask mask (digit_at ports block t)) inside outside) ++ drop result cells.old) }
{
    if block == 1 {
        return put_row(inside, outside, mask, ports, width, cells);
    }
    let mut t = 0;
    for port in 0..ports {
        if t == width {
            return t;
        }
        put_run(t, block, member_penalty(inside, outside, mask, port), cells);
        t += block;
    }
    t
}

// The cells of kinds 5 and 6: after the last port they are the same again. The rule is asked twice, and not at each cell.
pub fn put_members(kind: u8, mask: u64, ports: u32, block: usize, width: usize, cells: &mut [u32])
    requires { RunsPlaced ports block width cells.old }
    ensures { cells.new ≡ tabulate width (λ t. rule_penalty kind 0 (in_mask mask (digit_at ports block t)) 0 0) ++ drop width cells.old }
{
    let inside = literal_penalty(kind, 0, true, 0, 0);
    let outside = literal_penalty(kind, 0, false, 0, 0);
    let period = put_round(inside, outside, mask, ports, block, width, cells);
    repeat_first(period, width, cells);
}
