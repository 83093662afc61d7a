// The table of what a transfer brings beyond a drop and an add, by its two sets and its port: one atom goes into it. Paper 01, section
// One move.
#![tactic(auto)]

ghost use Rattle.std.specs.Prelude.{◌≡◌, true, ◌&&◌, ◌+◌, ◌-◌, ◌*◌, ◌≤◌, ◌<◌, length, get_or};
ghost use Rattle.cells_touch.specs.inner.Hits.{meets};
ghost use Rattle.move_shares.specs.inner.Shares.{set_bits};
ghost use Rattle.move_slots.specs.inner.Slots.{slot_of};
ghost use Rattle.move_joints.specs.inner.Joints.{left, entered, pair_sizes, takes_port, joint_number, joint_added, JointRoom};
ghost use Rattle.move_slots.specs.inner.OverPlan.{JointsReady, TakesJoints};
ghost use Rattle.move_joints.specs.inner.OverPlan.{PairOf, PairGives, PairAdded, PairTaken};

use cells_row::cells_from;
use cells_size::mask_at;
use cells_sum::with_difference;
use cells_touch::{meet, size_bit, variable_bits};
use cells_tuples::all_ports;
use cells_walk::Plan;
use logic::{has_port, wide};

// What becomes of the size of the set that a port leaves, 0 one less or 1 the same, by whether the port is in test.
fn left_outcome(tested: bool) -> u32
    ensures { (result ≡ left tested) × (result ≤ 2) }
{
    if tested {
        return 1;
    }
    0
}

// And of the one that it enters, 1 the same or 2 one more.
fn entered_outcome(tested: bool) -> u32
    ensures { (result ≡ entered tested) × (result ≤ 2) }
{
    if tested {
        return 1;
    }
    2
}

// A size after such an outcome, not below 0.
fn size_after(size: u32, outcome: u32) -> u32
    requires { (size ≤ 64) × (outcome ≤ 2) }
    ensures { result ≡ size + outcome - 1 }
{
    if size + outcome == 0 {
        return 0;
    }
    size + outcome - 1
}

// All sizes where a port leaves set s and enters set t.
fn pair_sizes(sizes: [u32; 16], s: usize, t: usize, tested: bool) -> [u32; 16]
    requires { (s < 16) × (t < 16) × (get_or sizes s 0 ≤ 64) × (get_or sizes t 0 ≤ 64) }
    ensures { (result ≡ pair_sizes sizes s t tested) × (length sizes ≡ 16) }
{
    let mut after = sizes;
    after[s] = size_after(sizes[s], left_outcome(tested));
    after[t] = size_after(sizes[t], entered_outcome(tested));
    after
}

// The slot of a set where an atom that uses sets so has its own numbers.
fn slot_of(used: u64, set: usize, outcome: u32) -> usize
    requires { (set < 16) × (outcome ≤ 2) }
    ensures { (result ≡ slot_of used set outcome) × (result < 64) }
{
    if meet(size_bit(set), used) {
        return 4 * set + wide(outcome);
    }
    4 * set + 3
}

// Whether an atom that uses sets so uses two of them.
fn uses_both(used: u64, s: usize, t: usize) -> bool
    requires { (s < 16) × (t < 16) }
    ensures { result ≡ (meets used (set_bits s) && meets used (set_bits t)) }
{
    if meet(used, variable_bits(s) | size_bit(s)) {
        return meet(used, variable_bits(t) | size_bit(t));
    }
    false
}

// Whether port x is one of those in test, or of the others.
fn takes_port(tested: bool, test: u64, x: usize) -> bool
    requires { x < 64 }
    ensures { result ≡ takes_port tested test x }
{
    let inside = has_port(test, x as u32);
    if tested {
        return inside;
    }
    !inside
}

// A number of the table with what both sets bring, less what each brings alone; or as it was.
fn joint_number(takes: bool, old: u32, both: u32, first: u32, rest: u32, second: u32) -> u32
    ensures { result ≡ joint_number takes old both first rest second }
{
    if takes {
        return with_difference(with_difference(old, both, first), rest, second);
    }
    old
}

// The same at each port, from a place of the table on.
fn add_joint(
    row: &[u32],
    first: &[u32],
    second: &[u32],
    rest: u32,
    ports: usize,
    test: u64,
    tested: bool,
    at: usize,
    joint: &mut [u32],
)
    requires { (ports ≤ 64) × (ports ≤ length row.now) × (ports ≤ length first.now) × (ports ≤ length second.now) × (at + ports ≤ length joint.old) }
    ensures { joint.new ≡ joint_added row.now first.now second.now rest ports test tested at joint.old }
{
    for x in 0..ports {
        let takes = takes_port(tested, test, x);
        joint[at + x] = joint_number(takes, joint[at + x], row[x], first[x], rest, second[x]);
    }
}

// The numbers of two sets of which a port leaves the first and enters the second: what the resizing brings, and to `out`, port by
// port, what the flip of both there adds.
fn pair_ports(
    plan: &Plan,
    masks: &[u64],
    sizes: &[u32; 16],
    cells: &[u32],
    i: usize,
    depth: usize,
    s: usize,
    t: usize,
    tested: bool,
    out: &mut [u32],
) -> u32
    requires { PairOf plan.now masks.now sizes.now cells.now i depth s t × (plan.now.ports ≤ length out.old) }
    ensures { PairGives plan.now masks.now sizes.now cells.now i depth s t tested out.old out.new result }
{
    let before = *sizes;
    let asked = pair_sizes(before, s, t, tested);
    all_ports(
        plan,
        masks,
        &asked,
        cells,
        i,
        depth,
        variable_bits(s) | variable_bits(t),
        size_bit(s) | size_bit(t),
        out,
    )
}

// A pair's numbers go into the table for the ports in test, or for the others.
fn add_pair(
    plan: &Plan,
    masks: &[u64],
    sizes: &[u32; 16],
    cells: &[u32],
    i: usize,
    depth: usize,
    s: usize,
    t: usize,
    test: u64,
    tested: bool,
    mine: &[u32],
    own: &[u32],
    joint: &mut [u32],
)
    requires { PairOf plan.now masks.now sizes.now cells.now i depth s t × JointRoom mine.now own.now joint.old }
    ensures { PairAdded plan.now masks.now sizes.now cells.now i depth s t test tested mine.now own.now joint.old joint.new }
{
    let mut row = [0u32; 64];
    let brings = pair_ports(plan, masks, sizes, cells, i, depth, s, t, tested, &mut row);
    let used = plan.uses_at(i);
    let first = slot_of(used, s, left_outcome(tested));
    let second = slot_of(used, t, entered_outcome(tested));
    let rest = with_difference(with_difference(brings, 0, own[first]), 0, own[second]);
    add_joint(
        &row,
        cells_from(mine, 64 * first),
        cells_from(mine, 64 * second),
        rest,
        plan.ports,
        test,
        tested,
        64 * (16 * s + t),
        joint,
    );
}

// One pair of sets, if the atom uses both; else the transfer brings what a drop and an add bring. Where no port is in test, none is
// to be taken of those in test.
fn take_pair(
    plan: &Plan,
    masks: &[u64],
    sizes: &[u32; 16],
    cells: &[u32],
    i: usize,
    depth: usize,
    pair: usize,
    mine: &[u32],
    own: &[u32],
    joint: &mut [u32],
)
    requires { (pair < 16 * plan.now.sets) × JointsReady plan.now masks.now sizes.now cells.now i depth mine.now own.now joint.old }
    ensures { PairTaken plan.now masks.now sizes.now cells.now i depth pair mine.now own.now joint.old joint.new }
{
    let s = pair / 16;
    let t = pair % 16;
    if plan.sets <= t {
        return;
    }
    if s == t {
        return;
    }
    if !uses_both(plan.uses_at(i), s, t) {
        return;
    }
    let test = mask_at(masks, plan.sets);
    add_pair(
        plan, masks, sizes, cells, i, depth, s, t, test, false, mine, own, joint,
    );
    if test == 0 {
        return;
    }
    add_pair(
        plan, masks, sizes, cells, i, depth, s, t, test, true, mine, own, joint,
    );
}

// An atom without quantifiers goes into the table of transfers, after its own numbers of single sets; where the plan has no
// transfers, nothing is to be done.
pub fn take_joints(
    plan: &Plan,
    masks: &[u64],
    sizes: &[u32; 16],
    cells: &[u32],
    i: usize,
    depth: usize,
    transfers: bool,
    mine: &[u32],
    own: &[u32],
    joint: &mut [u32],
)
    requires { JointsReady plan.now masks.now sizes.now cells.now i depth mine.now own.now joint.old }
    ensures { transfers ≡ true → TakesJoints plan.now masks.now sizes.now cells.now i depth mine.now own.now joint.old joint.new }
{
    if !transfers {
        return;
    }
    for pair in 0..16 * plan.sets {
        take_pair(plan, masks, sizes, cells, i, depth, pair, mine, own, joint);
    }
}
