// A cell's new number from those directly below: sums by differences modulo 2^32, minima afresh. Paper 01, section One move.
#![tactic(auto)]

ghost use Rattle.std.specs.Prelude.{◌≡◌, ◌+◌, ◌-◌, ◌%◌, not, ◌==◌};
ghost use Rattle.logic.specs.Configuration.{indicator};
ghost use Rattle.cells_sum.specs.inner.Walk.{begun, Joined};

// A cell's old number, its new one, and how many cells at or below it differ from before.
#[derive(Clone, Copy)]
pub struct After {
    pub old: u32,
    pub value: u32,
    pub changed: u32,
}

// What the cells directly below have come to so far.
#[derive(Clone, Copy)]
pub struct Sum {
    pub value: u32,
    pub changed: u32,
}

// What a cell's new number is begun with: a sum with the old one.
#[tactic(auto, unfolding(crate::specs::inner::Walk::begun, crate::specs::inner::Walk::most_cell))]
pub fn begin(add: bool, old: u32) -> Sum
    ensures { (result.value ≡ begun add old) × (result.changed ≡ 0) }
{
    let value = if add { old } else { u32::MAX };
    Sum { value, changed: 0 }
}

// A sum with the new minus the old of a cell directly below, modulo 2^32.
pub fn with_difference(acc: u32, new: u32, old: u32) -> u32
    ensures { result ≡ (acc + (new + (4294967296 - old))) % 4294967296 }
{
    acc.wrapping_add(new.wrapping_sub(old))
}

// A number directly below goes into the cell's new one: a sum takes the new minus the old, modulo 2^32.
pub fn join(add: bool, acc: Sum, x: After) -> Sum
    ensures { Joined add acc x result }
{
    let changed = acc.changed.wrapping_add(x.changed);
    if add {
        Sum {
            value: with_difference(acc.value, x.value, x.old),
            changed,
        }
    } else {
        Sum {
            value: acc.value.min(x.value),
            changed,
        }
    }
}

// What the cells below have come to is a cell's new number; the cell itself is counted if it differs.
#[tactic(auto, using(crate::proofs::Sums::bit_is))]
pub fn outcome(old: u32, s: Sum) -> After
    ensures { (result.old ≡ old) × (result.value ≡ s.value) × (result.changed ≡ (indicator (not (s.value == old)) + s.changed) % 4294967296) }
{
    After {
        old,
        value: s.value,
        changed: s.changed.wrapping_add(u32::from(s.value != old)),
    }
}

// Whether a node of a kind adds: for all and "and".
pub fn adds_of(kind: u8) -> bool
    ensures { result ≡ (kind % 2 == 1) }
{
    kind % 2 == 1
}
