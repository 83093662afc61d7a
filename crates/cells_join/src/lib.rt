// Cells of a child joined to the cells of the node above it: sums and minima. Paper 01, section Penalty.
#![tactic(auto)]

ghost use Rattle.std.specs.Prelude.{◌≡◌, ℕ, ◌+◌, ◌*◌, ◌<◌, ◌≤◌, min, true, false, [], ◌∷◌, length, take, drop};
ghost use Rattle.cells_join.specs.inner.Joined.{meet, unit_of, compared, LowTwo, join_into, merged, settled, join_of, spread_of, begin_join, join_with, Low, HeldPlaced, HeldLow, ChildPlaced, Joins};

// How the cells below a node go into its own: for all and "and" add, the others take the least, by bits where each is 0 or 1.
#[derive(Clone, Copy)]
pub enum Join {
    Add,
    Least,
    LeastBit,
}

// The lesser of two numbers below 2^31, as all true penalties are: compared as signed ones, which vectors do sooner.
fn lesser_low(x: u32, y: u32) -> u32
    requires { (x < 2147483648) × (y < 2147483648) }
    ensures { result ≡ min x y }
{
    if (x as i32) < (y as i32) { x } else { y }
}

// The lesser of two numbers that are 0 or 1: one instruction for a vector, where the x86-64 base has no minimum.
fn lesser_bit(x: u32, y: u32) -> u32
    requires { (x < 2) × (y < 2) }
    ensures { result ≡ min x y }
{
    x & y
}

// Two numbers joined. True penalties stay below 2^32, so no sum of them wraps.
#[tactic(auto, using(crate::proofs::Limits::low_signed, crate::proofs::Limits::low_bits), unfolding(crate::specs::inner::Joined::meet))]
fn meet_of(join: Join, x: u32, y: u32) -> u32
    requires { LowTwo join false x y }
    ensures { result ≡ meet join x y }
{
    match join {
        Join::Add => x.wrapping_add(y),
        Join::Least => lesser_low(x, y),
        Join::LeastBit => lesser_bit(x, y),
    }
}

// The join of no cells: 0, or the largest number below 2^31, above every true penalty.
#[tactic(auto, unfolding(crate::specs::inner::Joined::unit_of))]
fn unit_of(join: Join) -> u32
    ensures { result ≡ unit_of join }
{
    match join {
        Join::Add => 0,
        Join::Least => 2147483647,
        Join::LeastBit => 2147483647,
    }
}

// The join of all cells, some at least. Begun at the join of nothing it goes over all alike, so that 64 are whole vectors.
fn gather(join: Join, cells: &[u32]) -> u32
    requires { (1 ≤ length cells.now) × Low join cells.now 0 (length cells.now) × (compared join ≡ join) }
    ensures { (x : ℕ) → result ≡ join_into join true x cells.now }
{
    let mut r = unit_of(join);
    for cell in cells {
        r = meet_of(join, r, *cell);
    }
    r
}

// Writes to each of the first `over` cells the join of the s cells below it, which stand from place `at` on.
fn gather_rows(join: Join, over: usize, s: usize, at: usize, cells: &mut [u32])
    requires { (1 ≤ s) × (over ≤ at) × (at + over * s ≤ length cells.old) × Low join cells.old at (over * s) × (compared join ≡ join) }
    ensures { cells.new ≡ merged join true over s at cells.old }
{
    for t in 0..over {
        let from = at + t * s;
        cells[t] = gather(join, &cells[from..from + s]);
    }
}

// A number joined to another, or put in its place, if it is the first.
#[tactic(auto, unfolding(crate::specs::inner::Joined::join_into, crate::specs::inner::Joined::join_all, crate::specs::inner::Joined::LowTwo))]
fn step_of(join: Join, first: bool, x: u32, y: u32) -> u32
    requires { LowTwo join first x y }
    ensures { result ≡ join_into join first x (y ∷ []) }
{
    if first { y } else { meet_of(join, x, y) }
}

// Joins to each of the first `over` cells the one below it, from place `at` on, or copies it if it is the first. With no loop for
// each cell the compiler makes vector instructions of it.
fn merge_row(join: Join, first: bool, over: usize, at: usize, cells: &mut [u32])
    requires { (over ≤ at) × (at + over ≤ length cells.old) × Low join cells.old at over × (first ≡ false → Low join cells.old 0 over) }
    ensures { cells.new ≡ merged join first over 1 at cells.old }
{
    for t in 0..over {
        cells[t] = step_of(join, first, cells[t], cells[at + t]);
    }
}

// The same of two rows, so that a cell is written once for both: merge_row with a list of rows would loop over them at each cell.
fn merge_rows(join: Join, first: bool, over: usize, held: usize, at: usize, cells: &mut [u32])
    requires { (over ≤ held) × (held ≤ at) × (at + over ≤ length cells.old) × Low join cells.old held over × Low join cells.old at over × (first ≡ false → Low join cells.old 0 over) }
    ensures { cells.new ≡ merged join false over 1 at (merged join first over 1 held cells.old) }
{
    for t in 0..over {
        let x = step_of(join, first, cells[t], cells[held + t]);
        cells[t] = meet_of(join, x, cells[at + t]);
    }
}

// The same, with the join a constant in each call: the compiler then makes a loop for each, with no test in it.
fn join_rows(join: Join, first: bool, over: usize, held: usize, at: usize, cells: &mut [u32])
    requires { (over ≤ held) × (held ≤ at) × (at + over ≤ length cells.old) × Low join cells.old held over × Low join cells.old at over × (first ≡ false → Low join cells.old 0 over) }
    ensures { cells.new ≡ merged join false over 1 at (merged join first over 1 held cells.old) }
{
    match join {
        Join::Add => merge_rows(Join::Add, first, over, held, at, cells),
        Join::Least => merge_rows(Join::Least, first, over, held, at, cells),
        Join::LeastBit => merge_rows(Join::LeastBit, first, over, held, at, cells),
    }
}

// How a kind joins the cells below it: `@` and `&`, the odd kinds, add.
#[tactic(auto, unfolding(crate::specs::inner::Joined::join_of))]
fn join_of(kind: u8) -> Join
    ensures { result ≡ join_of kind }
{
    if kind % 2 == 1 {
        Join::Add
    } else {
        Join::Least
    }
}

// The join that a node's children begin with: a minimum that of bits.
#[tactic(auto, unfolding(crate::specs::inner::Joined::begin_join))]
pub fn begin_join(above: u8) -> Join
    ensures { result ≡ begin_join above }
{
    if above % 2 == 1 {
        Join::Add
    } else {
        Join::LeastBit
    }
}

// The join that compares, for one of bits; a sum stays.
#[tactic(auto, unfolding(crate::specs::inner::Joined::compared))]
fn compared(join: Join) -> Join
    ensures { result ≡ compared join }
{
    match join {
        Join::Add => Join::Add,
        Join::Least => Join::Least,
        Join::LeastBit => Join::Least,
    }
}

// The join once a child of this kind is met: kinds 5 to 7, membership and comparison, have no number but 0 and 1.
#[tactic(auto, unfolding(crate::specs::inner::Joined::join_with))]
pub fn join_with(join: Join, kind: u8) -> Join
    ensures { result ≡ join_with join kind }
{
    if (5..=7).contains(&kind) {
        join
    } else {
        compared(join)
    }
}

// How many cells of a child stand below one cell: a quantifier has one for each port.
#[tactic(auto, unfolding(crate::specs::inner::Joined::spread_of))]
fn spread_of(kind: u8, ports: usize) -> usize
    ensures { result ≡ spread_of kind ports }
{
    if (1..=2).contains(&kind) { ports } else { 1 }
}

// Joins a child's cells, from place `at` on, to those of the node above, the first `over`: below a quantifier at once, else with
// the next child's, since two rows are joined at the cost of little more than one. Says where a row stands that is not joined yet,
// or 0. The first child stands right behind the node's own cells, and with the second is written over them, whatever they hold.
// No row stands at 0, where the node's own cells do: an Option would need a clause that says so.
pub fn join_child(
    join: Join,
    above: u8,
    ports: usize,
    over: usize,
    held: usize,
    at: usize,
    cells: &mut [u32],
) -> usize
    requires { ChildPlaced join above ports over held at cells.old }
    ensures { Joins join above ports over held at cells.old cells.new result }
{
    if held != 0 {
        join_rows(join, held == over, over, held, at, cells);
        return 0;
    }
    let s = spread_of(above, ports);
    if s == 1 {
        return at;
    }
    gather_rows(join_of(above), over, s, at, cells);
    0
}

// Joins the row that is not joined yet, if there is one, when there is no further child.
pub fn join_held(join: Join, over: usize, held: usize, cells: &mut [u32])
    requires { HeldPlaced over held (length cells.old) × HeldLow join over held cells.old }
    ensures { cells.new ≡ settled join over held cells.old }
{
    if held != 0 {
        merge_row(join, held == over, over, held, cells);
    }
}
