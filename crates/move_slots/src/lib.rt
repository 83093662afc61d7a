// The tables of what flips bring, by set, by what becomes of its size, and by port: one atom goes into them.
#![tactic(auto)]

ghost use Rattle.std.specs.Prelude.{◌≡◌, ◌+◌, ◌/◌, ◌<◌, ◌≤◌, length, slice_index};
ghost use Rattle.move_slots.specs.inner.Slots.{SlotRoom};
ghost use Rattle.move_slots.specs.inner.Taking.{takes_slot, asked_size, asked_sizes, added_at, SlotPut};
ghost use Rattle.move_slots.specs.inner.OverPlan.{AtomReady, TakesSlots, SlotReady, SlotGives, SlotTaking, SlotStep};

use cells_row::put_row;
use cells_touch::{meet, size_bit, variable_bits};
use cells_tuples::all_ports;
use cells_walk::Plan;

// Whether a slot takes an atom that uses sets so: the first three of a set those that ask its size, the last the others that use it.
fn takes_slot(used: u64, slot: usize) -> bool
    requires { slot < 64 }
    ensures { result ≡ takes_slot used slot }
{
    let s = slot / 4;
    let sized = meet(size_bit(s), used);
    if slot % 4 < 3 {
        return sized;
    }
    if sized {
        return false;
    }
    meet(used, variable_bits(s) | size_bit(s))
}

// A size as a slot of its set asks it: one less, the same, one more; the last slot asks it as it is.
fn asked_size(size: u32, outcome: usize) -> u32
    requires { (size ≤ 64) × (outcome < 4) }
    ensures { result ≡ asked_size size outcome }
{
    if outcome == 0 {
        if size == 0 {
            return 0;
        }
        return size - 1;
    }
    if outcome == 2 {
        return size + 1;
    }
    size
}

// All sizes as a slot asks them. They come by value, since of an array behind a reference the length is not told.
fn asked_sizes(sizes: [u32; 16], slot: usize) -> [u32; 16]
    requires { (slot < 64) × (slice_index sizes (slot / 4) ≤ 64) }
    ensures { (result ≡ asked_sizes sizes slot) × (length sizes ≡ 16) }
{
    let s = slot / 4;
    let mut asked = sizes;
    asked[s] = asked_size(sizes[s], slot % 4);
    asked
}

// A slot's numbers: what the resizing brings, and to `out`, port by port, what the flip of the set there adds.
fn slot_ports(
    plan: &Plan,
    masks: &[u64],
    sizes: &[u32; 16],
    cells: &[u32],
    i: usize,
    depth: usize,
    slot: usize,
    out: &mut [u32],
) -> u32
    requires { SlotReady plan.now masks.now sizes.now cells.now i depth slot out.old }
    ensures { SlotGives plan.now masks.now sizes.now cells.now i depth slot out.old out.new result }
{
    let s = slot / 4;
    let before = *sizes;
    let asked = asked_sizes(before, slot);
    all_ports(
        plan,
        masks,
        &asked,
        cells,
        i,
        depth,
        variable_bits(s),
        size_bit(s),
        out,
    )
}

// Adds a row to a table, from a place on, modulo 2^32.
fn add_at(row: &[u32], ports: usize, at: usize, table: &mut [u32])
    requires { (ports ≤ length row.now) × (at + ports ≤ length table.old) }
    ensures { table.new ≡ added_at row.now ports at table.old }
{
    for x in 0..ports {
        table[at + x] = table[at + x].wrapping_add(row[x]);
    }
}

// Puts a slot's numbers into the tables of the atom alone, and adds them to those of all atoms.
fn put_slot(
    row: &[u32],
    ports: usize,
    slot: usize,
    brings: u32,
    mine: &mut [u32],
    own: &mut [u32],
    one: &mut [u32],
    still: &mut [u32],
)
    requires { (ports ≤ length row.now) × (ports ≤ 64) × (slot < 64) × SlotRoom mine.old own.old one.old still.old }
    ensures { SlotPut ports slot brings row.now mine.old own.old one.old still.old mine.new own.new one.new still.new }
{
    put_row(row, ports, 64 * slot, mine);
    own[slot] = brings;
    add_at(row, ports, 64 * slot, one);
    still[slot] = still[slot].wrapping_add(brings);
}

// One slot of the tables, if it takes the atom.
fn take_slot(
    plan: &Plan,
    masks: &[u64],
    sizes: &[u32; 16],
    cells: &[u32],
    i: usize,
    depth: usize,
    slot: usize,
    mine: &mut [u32],
    own: &mut [u32],
    one: &mut [u32],
    still: &mut [u32],
)
    requires { SlotTaking plan.now masks.now sizes.now cells.now i depth slot mine.old own.old one.old still.old }
    ensures { SlotStep plan.now masks.now sizes.now cells.now i depth slot mine.old own.old one.old still.old mine.new own.new one.new still.new }
{
    if !takes_slot(plan.uses_at(i), slot) {
        return;
    }
    let mut row = [0u32; 64];
    let brings = slot_ports(plan, masks, sizes, cells, i, depth, slot, &mut row);
    put_slot(&row, plan.ports, slot, brings, mine, own, one, still);
}

// An atom without quantifiers goes into the tables of single sets: its own numbers, and the sums of all atoms so far.
pub fn take_slots(
    plan: &Plan,
    masks: &[u64],
    sizes: &[u32; 16],
    cells: &[u32],
    i: usize,
    depth: usize,
    mine: &mut [u32],
    own: &mut [u32],
    one: &mut [u32],
    still: &mut [u32],
)
    requires { AtomReady plan.now masks.now sizes.now cells.now i depth × SlotRoom mine.old own.old one.old still.old }
    ensures { TakesSlots plan.now masks.now sizes.now cells.now i depth one.old still.old one.new still.new mine.new own.new }
{
    for slot in 0..4 * plan.sets {
        take_slot(
            plan, masks, sizes, cells, i, depth, slot, mine, own, one, still,
        );
    }
}
