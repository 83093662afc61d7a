// What a swap brings beyond its two flips, where both meet in an atom: over the atoms of a list.
#![tactic(auto)]

ghost use Rattle.std.specs.Prelude.{◌≡◌, ◌+◌, ◌-◌, ◌/◌, ◌%◌, ◌<◌, ◌≤◌, length};
ghost use Rattle.move_shares.specs.inner.Shares.{entering, leaving, exchanged};
ghost use Rattle.move_crossed.specs.inner.Crossed.{OneSize};
ghost use Rattle.cells_both.specs.inner.OverPlan.{BothReady, BothGives};
ghost use Rattle.move_crossed.specs.inner.OverPlan.{ShareAsked, ShareGiven, CrossedReady, CrossedGives};

use cells_both::both_ports;
use cells_share::{entry_depth, entry_node};
use cells_size::{mask_at, set_size};
use cells_touch::{size_bit, variable_bits};
use cells_walk::Plan;
use logic::{Move, has_port, wide};
use move_tables::crossings;

// What becomes of a set's size when port p enters it: 1 the same, 2 one more.
pub fn entering_size(test: u64, p: u32) -> usize
    requires { p < 64 }
    ensures { (result ≡ entering test p) × (1 ≤ result) × (result ≤ 2) }
{
    if has_port(test, p) {
        return 1;
    }
    2
}

// What becomes of a set's size when port p leaves it: 0 one less, 1 the same.
pub fn leaving_size(test: u64, p: u32) -> usize
    requires { p < 64 }
    ensures { (result ≡ leaving test p) × (result ≤ 1) }
{
    if has_port(test, p) {
        return 1;
    }
    0
}

// A set's size after port p has left it and q entered.
fn size_after(size: u32, test: u64, p: u32, q: u32) -> u32
    requires { (size ≤ 64) × (p < 64) × (q < 64) }
    ensures { (result ≡ size + exchanged test p q - 1) × (result ≤ 65) }
{
    let more = leaving_size(test, p) + entering_size(test, q) - 1;
    let grown = size + more as u32;
    if grown == 0 {
        return 0;
    }
    grown - 1
}

// A list of sizes that has one set's.
fn one_size(set: usize, size: u32) -> [u32; 16]
    requires { (set < 16) × (size ≤ 65) }
    ensures { OneSize set size result }
{
    let mut sizes = [0u32; 16];
    sizes[set] = size;
    sizes
}

// What a swap brings to one atom beyond its flips: nothing, if the atom tests the set by one variable only.
fn crossed_share(
    plan: &Plan,
    masks: &[u64],
    sizes: &[u32; 16],
    cells: &[u32],
    i: usize,
    depth: usize,
    m: Move,
) -> u32
    requires { ShareAsked plan.now masks.now sizes.now cells.now i depth m }
    ensures { ShareGiven plan.now masks.now sizes.now cells.now i depth m result }
{
    if !has_port(crossings(plan.uses_at(i)), 4 * m.s) {
        return 0;
    }
    let s = wide(m.s);
    both_ports(
        plan,
        masks,
        sizes,
        cells,
        i,
        depth,
        variable_bits(s),
        size_bit(s),
        wide(m.p),
        wide(m.q),
    )
}

// The same of all atoms of a list.
pub fn crossed_shares(
    plan: &Plan,
    masks: &[u64],
    cells: &[u32],
    m: Move,
    list: &[u16],
    count: usize,
) -> u32
    requires { CrossedReady plan.now masks.now cells.now m list.now count }
    ensures { CrossedGives plan.now masks.now cells.now m list.now count result }
{
    let s = wide(m.s);
    let before = set_size(masks, plan.sets, s);
    let size = size_after(before, mask_at(masks, plan.sets), m.p, m.q);
    let sizes = one_size(s, size);
    let mut sum = 0u32;
    for j in (0..count).rev() {
        let more = crossed_share(
            plan,
            masks,
            &sizes,
            cells,
            entry_node(list, j),
            entry_depth(list, j),
            m,
        );
        sum = sum.wrapping_add(more);
    }
    sum
}
