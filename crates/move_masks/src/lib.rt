// The masks that a legal move leaves. Paper 01, section One move.
#![tactic(auto)]

ghost use Rattle.std.specs.Prelude.{◌≡◌, ◌++◌, ◌≤◌, ◌<◌, length, get_or, set, take, drop};
ghost use Rattle.logic.specs.inner.Flip.{flip_port};
ghost use Rattle.logic.specs.Moves.{named_masks};
ghost use Rattle.move_legal.specs.inner.Legal.{LegalOver};

use logic::{Move, flip_port};

// The first `count` masks, copied: by a loop, since `copy_from_slice` would have the archive need memmove from outside.
pub fn copy_masks(masks: &[u64], count: usize, out: &mut [u64])
    requires { (count ≤ length masks.now) × (count ≤ length out.old) }
    ensures { out.new ≡ take count masks.now ++ drop count out.old }
{
    for s in 0..count {
        out[s] = masks[s];
    }
}

// Port p enters set s if it was out, and leaves it if it was in.
pub fn flip_at(masks: &mut [u64], s: u32, p: u32)
    requires { (s < length masks.old) × (p < 64) }
    ensures { masks.new ≡ set masks.old s (flip_port (get_or masks.old s 0) p) }
{
    let at = s as usize;
    masks[at] = flip_port(masks[at], p);
}

// The masks that a legal move leaves: each port that enters was out, and each that leaves was in.
pub fn masks_after(m: Move, ports: u32, sets: u32, masks: &mut [u64])
    requires { LegalOver ports sets m masks.old }
    ensures { masks.new ≡ named_masks m masks.old }
{
    flip_at(masks, m.s, m.p);
    match m.kind {
        3 => flip_at(masks, m.t, m.p),
        4 => flip_at(masks, m.s, m.q),
        _ => {}
    }
}
