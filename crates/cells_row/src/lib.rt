// The cells of a node at every port of one variable, a row, worked in loops without a step of a walk between, so that the
// compiler makes vector instructions of them. Both walks share them. Paper 01, section One move.
#![tactic(auto)]

ghost use Rattle.std.specs.Prelude.{◌≡◌, ◌+◌, ◌%◌, ◌<◌, ◌≤◌, true, false, ◌++◌, length, take, drop, slice_index, slice_set};
ghost use Rattle.logic.specs.Cells.{tabulate};
ghost use Rattle.cells_sum.specs.inner.Walk.{begun};
ghost use Rattle.cells_row.specs.inner.Row.{row_of, ZeroRow, row_gathered, row_changes, row_taken, row_kept};

use cells_sum::with_difference;

// A sum with the new minus the old of every cell of a row.
#[tactic(auto, using(crate::proofs::Steps::gathered_none, crate::proofs::Steps::gathered_more), unfolding(cells_sum::specs::inner::Walk::taken, crate::specs::inner::Row::renewal_at, logic::specs::Change::modulus))]
fn row_sum(acc: u32, new: &[u32], old: &[u32], ports: usize) -> u32
    requires { (ports ≤ length new.now) × (ports ≤ length old.now) }
    ensures { result ≡ row_gathered true acc new.now old.now ports }
{
    let mut sum = acc;
    for x in 0..ports {
        sum = with_difference(sum, new[x], old[x]);
    }
    sum
}

// The least of a number and every cell of a row. One function of both, over a closure, would be no plainer: this one reads no old row.
#[tactic(auto, using(crate::proofs::Steps::gathered_none, crate::proofs::Steps::gathered_more, crate::proofs::Steps::part_cell), unfolding(cells_sum::specs::inner::Walk::taken, crate::specs::inner::Row::renewal_at))]
fn row_least(acc: u32, new: &[u32], ports: usize) -> u32
    requires { ports ≤ length new.now }
    ensures { result ≡ row_gathered false acc new.now new.now ports }
{
    let mut least = acc;
    for value in &new[..ports] {
        least = least.min(*value);
    }
    least
}

// A row goes into one sum or minimum.
#[tactic(auto, using(crate::proofs::Steps::least_new))]
pub fn gather_row(add: bool, acc: u32, new: &[u32], old: &[u32], ports: usize) -> u32
    requires { (ports ≤ length new.now) × (ports ≤ length old.now) }
    ensures { result ≡ row_gathered add acc new.now old.now ports }
{
    if add {
        row_sum(acc, new, old, ports)
    } else {
        row_least(acc, new, ports)
    }
}

// How many cells of a row differ from before.
#[tactic(auto, using(crate::proofs::Steps::changes_none, crate::proofs::Steps::changes_more, cells_sum::proofs::Sums::bit_is))]
pub fn count_row(new: &[u32], old: &[u32], ports: usize) -> u32
    requires { (ports ≤ length new.now) × (ports ≤ length old.now) }
    ensures { result ≡ row_changes new.now old.now ports % 4294967296 }
{
    let mut count = 0u32;
    for x in 0..ports {
        count = count.wrapping_add(u32::from(new[x] != old[x]));
    }
    count
}

// Whether a row is 0 at every port. The first cell tells of most rows that are not; the loop has no branch of its own, and is over all
// cells, so that a row of 8 or 64 is worked in vectors without a rest.
#[tactic(auto, using(crate::proofs::Zeros::zero_first, crate::proofs::Zeros::zero_more, crate::proofs::Steps::part_cell))]
pub fn is_zero(row: &[u32], ports: usize) -> bool
    requires { (1 ≤ ports) × (ports ≤ length row.now) }
    ensures { result ≡ true → ZeroRow row.now ports }
{
    if row[0] != 0 {
        return false;
    }
    let mut seen = 0;
    for cell in &row[..ports] {
        seen |= *cell;
    }
    seen == 0
}

// Copies a row. By a loop here and in `put_row`: of `copy_from_slice` the compiler makes a call of the C library's memmove, a name
// that the archive would need from outside for these alone, and a row of a few ports is copied in less time than such a call takes.
pub fn copy_row(from: &[u32], ports: usize, out: &mut [u32])
    requires { (ports ≤ length from.now) × (ports ≤ length out.old) }
    ensures { out.new ≡ row_of ports (λ x. slice_index from.now x) out.old }
{
    for x in 0..ports {
        out[x] = from[x];
    }
}

// One number at every port.
pub fn fill_row(value: u32, ports: usize, out: &mut [u32])
    requires { ports ≤ length out.old }
    ensures { out.new ≡ row_of ports (λ _. value) out.old }
{
    out[..ports].fill(value);
}

// What a row's new numbers are begun with: sums with the old ones, minima with the largest number.
#[tactic(auto, unfolding(cells_sum::specs::inner::Walk::begun, cells_sum::specs::inner::Walk::most_cell))]
pub fn begin_row(add: bool, old: &[u32], ports: usize, out: &mut [u32])
    requires { (ports ≤ length old.now) × (ports ≤ length out.old) }
    ensures { out.new ≡ row_of ports (λ x. begun add (slice_index old.now x)) out.old }
{
    if add {
        copy_row(old, ports, out);
    } else {
        fill_row(u32::MAX, ports, out);
    }
}

// A row of sums, each with the new minus the old of a cell below it.
fn add_row(new: &[u32], old: &[u32], ports: usize, out: &mut [u32])
    requires { (ports ≤ length new.now) × (ports ≤ length old.now) × (ports ≤ length out.old) }
    ensures { out.new ≡ row_taken true new.now old.now ports out.old }
{
    for x in 0..ports {
        out[x] = with_difference(out[x], new[x], old[x]);
    }
}

// A row of minima, each with a cell below it: like row_least to row_sum, with no old row.
fn least_row(new: &[u32], ports: usize, out: &mut [u32])
    requires { (ports ≤ length new.now) × (ports ≤ length out.old) }
    ensures { out.new ≡ row_taken false new.now new.now ports out.old }
{
    for x in 0..ports {
        out[x] = out[x].min(new[x]);
    }
}

// A row goes into a row of sums or minima, port by port.
#[tactic(auto, unfolding(crate::specs::inner::Row::row_taken, crate::specs::inner::Row::renewal_at, cells_sum::specs::inner::Walk::taken))]
pub fn join_row(add: bool, new: &[u32], old: &[u32], ports: usize, out: &mut [u32])
    requires { (ports ≤ length new.now) × (ports ≤ length old.now) × (ports ≤ length out.old) }
    ensures { out.new ≡ row_taken add new.now old.now ports out.old }
{
    if add {
        add_row(new, old, ports, out);
    } else {
        least_row(new, ports, out);
    }
}

// A row that is not touched goes into a row of sums or minima: a sum gets nothing by it, a minimum takes it.
#[tactic(auto, unfolding(crate::specs::inner::Row::row_kept))]
pub fn keep_row(add: bool, old: &[u32], ports: usize, out: &mut [u32])
    requires { (ports ≤ length old.now) × (ports ≤ length out.old) }
    ensures { out.new ≡ row_kept add old.now ports out.old }
{
    if !add {
        least_row(old, ports, out);
    }
}

// One cell of a row.
pub fn put_port(x: usize, value: u32, out: &mut [u32])
    requires { x < length out.old }
    ensures { out.new ≡ slice_set out.old x value }
{
    out[x] = value;
}

// The cells of a table from a place on.
pub fn cells_from(cells: &[u32], at: usize) -> &[u32]
    requires { at ≤ length cells.now }
    ensures { result.now ≡ drop at cells.now }
{
    &cells[at..]
}

// Puts a row into a table, at a place.
pub fn put_row(row: &[u32], ports: usize, at: usize, cells: &mut [u32])
    requires { (ports ≤ length row.now) × (at + ports ≤ length cells.old) }
    ensures { cells.new ≡ take at cells.old ++ (tabulate ports (λ x. slice_index row.now x) ++ drop (at + ports) cells.old) }
{
    for x in 0..ports {
        cells[at + x] = row[x];
    }
}
