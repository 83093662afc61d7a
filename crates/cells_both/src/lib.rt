// What a swap brings to a tree without quantifiers beyond the flips of its two ports, where both meet in a tuple.
#![tactic(auto)]

ghost use Rattle.std.specs.Prelude.{◌≡◌, ◌+◌, ◌*◌, ◌<◌, ◌≤◌, [], ◌∷◌};
ghost use Rattle.logic.specs.Configuration.{indicator};
ghost use Rattle.cells_both.specs.inner.Steps.{held_word, missing_of, tests, left_of};
ghost use Rattle.cells_flip.specs.inner.OverPlan.{FlipReady, FlipGives};
ghost use Rattle.cells_both.specs.inner.OverPlan.{BothReady, BothGives, FromReady, FromGives, PortGives, PortsGive};

use cells_flip::flip_row;
use cells_sum::with_difference;
use cells_touch::{level_of, meet};
use cells_walk::{Plan, with_port};
use cells_zero::zero_below;

// The word of the variables at port p, with one more variable, which stands at port x.
fn held_word(word: u64, members: u64, level: usize, x: usize, p: usize) -> u64
    ensures { result ≡ held_word word members level x p }
{
    if x == p {
        return word | (members & level_of(level));
    }
    word
}

// How many of the two ports no variable stands at by which the tree tests a set that flips.
fn missing(used: u64, pword: u64, qword: u64) -> usize
    ensures { result ≡ missing_of used pword qword }
{
    if meet(used, pword) {
        if meet(used, qword) {
            return 0;
        }
        return 1;
    }
    if meet(used, qword) {
        return 1;
    }
    2
}

// One, if the tree tests a set that flips by this variable.
fn tested(used: u64, members: u64, level: usize) -> usize
    ensures { result ≡ indicator (tests used members level) }
{
    if meet(used, members & level_of(level)) {
        return 1;
    }
    0
}

// By how many of the variables above it the tree tests a set that flips.
fn tested_all(used: u64, members: u64, depth: usize) -> usize
    requires { depth ≤ 3 }
    ensures { result ≡ left_of used members 0 depth }
{
    let mut left = 0;
    for level in (0..depth).rev() {
        left += tested(used, members, level);
    }
    left
}

// The place of a tuple with one more port.
fn next_place(place: usize, ports: usize, x: usize) -> usize
    requires { (place ≤ 262144) × (ports ≤ 64) × (x < ports) }
    ensures { result ≡ place * ports + x }
{
    place * ports + x
}

// The new number of one cell. If it may be that a child of 0 decides it, that is asked first.
fn one_cell(
    plan: &Plan,
    masks: &[u64],
    sizes: &[u32; 16],
    cells: &[u32],
    i: usize,
    place: usize,
    digits: u32,
    word: u64,
    decided: bool,
) -> u32
    requires { FlipReady plan.now masks.now sizes.now cells.now i 1 3 place digits (0 ∷ []) }
    ensures { FlipGives plan.now masks.now sizes.now cells.now i 1 3 place digits word (result ∷ []) }
{
    if decided {
        if meet(plan.uses_at(i), word) {
            if zero_below(plan, cells, i, place, word) {
                return 0;
            }
        }
    }
    let mut new = [0u32; 1];
    flip_row(
        plan, masks, sizes, cells, i, 1, 3, place, digits, word, &mut new,
    );
    new[0]
}

// At a whole tuple: the number with both flips less that with each alone, and the resizing alone.
fn both_cell(
    plan: &Plan,
    masks: &[u64],
    sizes: &[u32; 16],
    cells: &[u32],
    i: usize,
    depth: usize,
    members: u64,
    resized: u64,
    p: usize,
    q: usize,
    place: usize,
    digits: u32,
    pword: u64,
    qword: u64,
) -> u32
    requires { FromReady plan.now masks.now sizes.now cells.now i depth members resized p q depth place digits pword qword 0 }
    ensures { FromGives plan.now masks.now sizes.now cells.now i depth members resized p q depth place digits pword qword result }
{
    // What both flips do not touch, neither touches alone.
    let changed = resized | (pword | qword);
    let decided = zero_below(plan, cells, i, place, changed);
    let both = one_cell(
        plan, masks, sizes, cells, i, place, digits, changed, decided,
    );
    let at_p = one_cell(
        plan,
        masks,
        sizes,
        cells,
        i,
        place,
        digits,
        resized | pword,
        decided,
    );
    let at_q = one_cell(
        plan,
        masks,
        sizes,
        cells,
        i,
        place,
        digits,
        resized | qword,
        decided,
    );
    let alone = one_cell(
        plan, masks, sizes, cells, i, place, digits, resized, decided,
    );
    with_difference(with_difference(0, both, at_p), alone, at_q)
}

// The tuples that go on by port x.
#[cycle(both)]
fn port_from(
    plan: &Plan,
    masks: &[u64],
    sizes: &[u32; 16],
    cells: &[u32],
    i: usize,
    depth: usize,
    members: u64,
    resized: u64,
    p: usize,
    q: usize,
    level: usize,
    place: usize,
    digits: u32,
    pword: u64,
    qword: u64,
    left: usize,
    x: usize,
) -> u32
    requires { FromReady plan.now masks.now sizes.now cells.now i depth members resized p q level place digits pword qword left × (level < depth) × (x < plan.now.ports) }
    ensures { PortGives plan.now masks.now sizes.now cells.now i depth members resized p q level place digits pword qword x result }
{
    both_from(
        plan,
        masks,
        sizes,
        cells,
        i,
        depth,
        members,
        resized,
        p,
        q,
        level + 1,
        next_place(place, plan.ports, x),
        with_port(digits, level, x),
        held_word(pword, members, level, x, p),
        held_word(qword, members, level, x, q),
        left - tested(plan.uses_at(i), members, level),
    )
}

// The tuples that go on by any port.
#[cycle(both)]
fn ports_from(
    plan: &Plan,
    masks: &[u64],
    sizes: &[u32; 16],
    cells: &[u32],
    i: usize,
    depth: usize,
    members: u64,
    resized: u64,
    p: usize,
    q: usize,
    level: usize,
    place: usize,
    digits: u32,
    pword: u64,
    qword: u64,
    left: usize,
) -> u32
    requires { FromReady plan.now masks.now sizes.now cells.now i depth members resized p q level place digits pword qword left × (level < depth) }
    ensures { PortsGive plan.now masks.now sizes.now cells.now i depth members resized p q level place digits pword qword plan.now.ports result }
{
    let mut sum = 0u32;
    for x in 0..plan.ports {
        let more = port_from(
            plan, masks, sizes, cells, i, depth, members, resized, p, q, level, place, digits,
            pword, qword, left, x,
        );
        sum = sum.wrapping_add(more);
    }
    sum
}

// The tuples that go on from one of `level` ports, where `left` of the variables to come count. A variable stands at one port, so that
// no tuple holds both ports if fewer are left than ports are missing; if as many are left, each must stand at one of the two.
#[cycle(both)]
fn both_from(
    plan: &Plan,
    masks: &[u64],
    sizes: &[u32; 16],
    cells: &[u32],
    i: usize,
    depth: usize,
    members: u64,
    resized: u64,
    p: usize,
    q: usize,
    level: usize,
    place: usize,
    digits: u32,
    pword: u64,
    qword: u64,
    left: usize,
) -> u32
    requires { FromReady plan.now masks.now sizes.now cells.now i depth members resized p q level place digits pword qword left }
    ensures { FromGives plan.now masks.now sizes.now cells.now i depth members resized p q level place digits pword qword result }
{
    let used = plan.uses_at(i);
    let lacking = missing(used, pword, qword);
    if left < lacking {
        return 0;
    }
    if level == depth {
        return both_cell(
            plan, masks, sizes, cells, i, depth, members, resized, p, q, place, digits, pword,
            qword,
        );
    }
    if left == lacking {
        if meet(used, members & level_of(level)) {
            let by_p = port_from(
                plan, masks, sizes, cells, i, depth, members, resized, p, q, level, place, digits,
                pword, qword, left, p,
            );
            let by_q = port_from(
                plan, masks, sizes, cells, i, depth, members, resized, p, q, level, place, digits,
                pword, qword, left, q,
            );
            return by_p.wrapping_add(by_q);
        }
    }
    ports_from(
        plan, masks, sizes, cells, i, depth, members, resized, p, q, level, place, digits, pword,
        qword, left,
    )
}

// What the flips of some sets at two ports bring to a tree without quantifiers beyond the flip at each, over all its tuples.
pub fn both_ports(
    plan: &Plan,
    masks: &[u64],
    sizes: &[u32; 16],
    cells: &[u32],
    i: usize,
    depth: usize,
    members: u64,
    resized: u64,
    p: usize,
    q: usize,
) -> u32
    requires { BothReady plan.now masks.now sizes.now cells.now i depth members resized p q }
    ensures { BothGives plan.now masks.now sizes.now cells.now i depth members resized p q result }
{
    both_from(
        plan,
        masks,
        sizes,
        cells,
        i,
        depth,
        members,
        resized,
        p,
        q,
        0,
        0,
        0,
        0,
        0,
        tested_all(plan.uses_at(i), members, depth),
    )
}
