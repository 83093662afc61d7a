// A set's mask and its size, as literals ask for them. Load and the walk of a change both call it. Paper 01, section Penalty; paper 02,
// request 2026-05.
#![tactic(auto)]

ghost use Rattle.std.specs.Prelude.{◌≡◌, ◌≤◌, ◌<◌, length, get_or};
ghost use Rattle.logic.specs.Configuration.{ports_in, out_of_test, in_masks};

use logic::mask_size;

// The mask of a set; that of the ports in test has the number after the last set's.
pub fn mask_at(masks: &[u64], set: usize) -> u64
    requires { set < length masks.now }
    ensures { result ≡ get_or masks.now set 0 }
{
    masks[set]
}

// The size of a set: how many of its ports are not in test.
pub fn set_size(masks: &[u64], sets: usize, set: usize) -> u32
    requires { (set < sets) × (sets < length masks.now) }
    ensures { (result ≡ ports_in 64 (out_of_test (in_masks masks.now set) (in_masks masks.now sets))) × (result ≤ 64) }
{
    mask_size(mask_at(masks, set), mask_at(masks, sets))
}
