// Which moves are legal: grounds 14 and 15. Paper 01, section One move.
#![tactic(auto)]

ghost use Rattle.std.specs.Prelude.{◌≡◌, not, ◌&&◌, ◌≤◌, ◌<◌, length, take};
ghost use Rattle.logic.specs.Configuration.{in_masks, mask_count};
ghost use Rattle.logic.specs.Moves.{fits};
ghost use Rattle.logic.specs.Refusal.{answer_number};
ghost use Rattle.logic.specs.inner.MoveFields.{Fields, t_end, q_end};
ghost use Rattle.move_legal.specs.inner.Legal.{MoveNumber, MoveReady, Decides, SaysKnown, KnownOver};

use logic::{Move, Refusal, has_port, wide};

// A number of ports or sets at the width of a move's fields.
pub fn narrow(x: usize) -> u32
    requires { x ≤ 64 }
    ensures { result ≡ x }
{
    x as u32
}

// T and q stay below these, so that a field that its kind does not use is 0.
pub fn t_end(kind: u32, sets: u32) -> u32
    ensures { result ≡ t_end kind sets }
{
    if kind == 3 { sets } else { 1 }
}

// As for T: only a swap has a second port.
pub fn q_end(kind: u32, ports: u32) -> u32
    ensures { result ≡ q_end kind ports }
{
    if kind == 4 { ports } else { 1 }
}

// Whether each field of a move is one that its kind can have.
pub fn has_fields(m: Move, ports: u32, sets: u32) -> bool
    ensures { Decides result (Fields ports sets m) }
{
    if m.kind == 0 {
        return false;
    }
    if 4 < m.kind {
        return false;
    }
    if sets <= m.s {
        return false;
    }
    if t_end(m.kind, sets) <= m.t {
        return false;
    }
    if ports <= m.p {
        return false;
    }
    m.q < q_end(m.kind, ports)
}

// Whether ground 14 does not apply to a move.
pub fn known_move(m: Move, ports: u32, sets: u32) -> bool
    ensures { SaysKnown ports sets m result }
{
    has_fields(m, ports, sets)
}

// Whether port p is in set s.
pub fn is_in(masks: &[u64], s: u32, p: u32) -> bool
    requires { (s < length masks.now) × (p < 64) }
    ensures { result ≡ in_masks masks.now s p }
{
    has_port(masks[wide(s)], p)
}

// Whether a port that has to be in a set and out of another is so.
fn in_and_out(here: bool, there: bool) -> bool
    ensures { result ≡ (here && not there) }
{
    here && !there
}

// Whether ground 15 does not apply to a move that 14 does not apply to.
pub fn fits_move(m: Move, ports: u32, sets: u32, masks: &[u64]) -> bool
    requires { KnownOver ports sets m masks.now }
    ensures { result ≡ fits (in_masks (take (mask_count sets) masks.now)) m }
{
    let inside = is_in(masks, m.s, m.p);
    if m.kind == 1 {
        return !inside;
    }
    if m.kind == 2 {
        return inside;
    }
    if m.kind == 3 {
        if m.s == m.t {
            return false;
        }
        return in_and_out(inside, is_in(masks, m.t, m.p));
    }
    in_and_out(inside, is_in(masks, m.s, m.q))
}

// Tries 14 and 15 of a move.
pub fn legal(m: Move, ports: usize, sets: usize, masks: &[u64]) -> Result<(), Refusal>
    requires { MoveReady ports sets masks.now }
    ensures { MoveNumber ports sets m masks.now (answer_number result) }
{
    let u = narrow(ports);
    let n = narrow(sets);
    if !known_move(m, u, n) {
        Err(Refusal::Unknown)
    } else if !fits_move(m, u, n, masks) {
        Err(Refusal::MoveNotLegal)
    } else {
        Ok(())
    }
}
