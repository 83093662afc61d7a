// The change that a port makes when it goes into test or out of it: which sets are resized. Paper 02, request 2026-05.
#![tactic(auto)]

ghost use Rattle.std.specs.Prelude.{◌≡◌, ◌≤◌, ◌<◌, length};
ghost use Rattle.test_change.specs.inner.Holders.{held_bit, size_bits, TellsTest};

use cells_touch::{Changed, size_bit};
use logic::has_port;

// The size bit of a set if its mask holds a port, else none.
#[tactic(auto, unfolding(crate::specs::inner::Holders::held_bit))]
fn held_bit(mask: u64, set: usize, port: u32) -> u64
    requires { (set < 16) × (port < 64) }
    ensures { result ≡ held_bit mask set port }
{
    if has_port(mask, port) {
        size_bit(set)
    } else {
        0
    }
}

// The size bits of the sets that hold a port.
fn size_bits(masks: &[u64], sets: usize, port: u32) -> u64
    requires { (sets ≤ 16) × (sets ≤ length masks.now) × (port < 64) }
    ensures { result ≡ size_bits masks.now port sets }
{
    let mut word = 0u64;
    for (set, mask) in masks[..sets].iter().enumerate() {
        word |= held_bit(*mask, set, port);
    }
    word
}

// The change: no set changes at a port, and those that hold the port are resized.
pub fn test_change(masks: &[u64], sets: usize, port: u32) -> Changed
    requires { (sets ≤ 16) × (sets ≤ length masks.now) × (port < 64) }
    ensures { TellsTest sets masks.now port result }
{
    let at = port as usize;
    Changed {
        p: at,
        q: at,
        psets: 0,
        qsets: 0,
        resized: size_bits(masks, sets, port),
    }
}
