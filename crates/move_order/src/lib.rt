// All legal moves of some kinds in one order, and the step from one to the next. Paper 01, section One move; the order is paper
// 02's, request 2026-01.
#![tactic(auto)]

ghost use Rattle.std.specs.Prelude.{◌≡◌, ◌/◌, ◌%◌, ◌<◌, eqb, length};
ghost use Rattle.logic.specs.Moves.{move_kind, kind_weight, kinds_known};
ghost use Rattle.contracts.specs.MoveOrder.{fields_are};
ghost use Rattle.move_order.specs.inner.Stepping.{Suits, BeginsOver, SizedOver, q_end_at, StepsOn, StepsAny, outset, GivesNext};
ghost use Rattle.move_legal.specs.inner.Legal.{Decides};

use logic::Move;
use move_legal::{fits_move, has_fields, is_in, q_end, t_end};

// Whether 14 does not apply to a kinds sum.
#[tactic(auto, unfolding(logic::specs::Moves::kinds_known))]
pub fn kinds_known(kinds: u32) -> bool
    ensures { result ≡ kinds_known kinds }
{
    (1..=15).contains(&kinds)
}

// Whether a kind is one of those in the sum.
fn of_kinds(kinds: u32, kind: u32) -> bool
    ensures { result ≡ eqb (kinds / kind_weight (move_kind kind) % 2) 1 }
{
    // Not one shift by `kind - 1`: 0 and what is past 4 ask for the fifth bit, so a match would stay.
    match kind {
        1 => kinds % 2 == 1,
        2 => (kinds >> 1) % 2 == 1,
        3 => (kinds >> 2) % 2 == 1,
        4 => (kinds >> 3) % 2 == 1,
        _ => (kinds >> 4) % 2 == 1,
    }
}

// The move with these fields.
fn at_fields(kind: u32, s: u32, t: u32, p: u32, q: u32) -> Move
    ensures { result ≡ fields_are kind s t p q }
{
    Move { kind, s, t, p, q }
}

// Where q ends at the position m: a swap with p not in S fits with no q, so all q are passed over at once.
#[tactic(auto, unfolding(crate::specs::inner::Stepping::q_end_at))]
fn q_end_at(m: Move, ports: u32, masks: &[u64]) -> u32
    requires { (m.s < length masks.now) × (m.p < 64) }
    ensures { result ≡ q_end_at ports masks.now m }
{
    if m.kind == 4 && !is_in(masks, m.s, m.p) {
        0
    } else {
        q_end(m.kind, ports)
    }
}

// The next position after m that can fit: q counts up first, then p, T, S and the kind.
fn next_place(m: Move, ports: u32, sets: u32, masks: &[u64]) -> Move
    requires { BeginsOver ports sets m masks.now }
    ensures { StepsAny ports sets masks.now m result }
{
    if m.q + 1 < q_end_at(m, ports, masks) {
        at_fields(m.kind, m.s, m.t, m.p, m.q + 1)
    } else if m.p + 1 < ports {
        at_fields(m.kind, m.s, m.t, m.p + 1, 0)
    } else if m.t + 1 < t_end(m.kind, sets) {
        at_fields(m.kind, m.s, m.t + 1, 0, 0)
    } else if m.s + 1 < sets {
        at_fields(m.kind, m.s + 1, 0, 0, 0)
    } else {
        at_fields(m.kind + 1, 0, 0, 0, 0)
    }
}

// The next position that can be a candidate: a kind that is not asked for is passed over at once.
fn advance(m: Move, kinds: u32, ports: u32, sets: u32, masks: &[u64]) -> Move
    requires { BeginsOver ports sets m masks.now }
    ensures { StepsOn ports sets kinds masks.now m result }
{
    if of_kinds(kinds, m.kind) {
        next_place(m, ports, sets, masks)
    } else {
        at_fields(m.kind + 1, 0, 0, 0, 0)
    }
}

// Whether a move is legal and of the kinds.
fn is_candidate(m: Move, kinds: u32, ports: u32, sets: u32, masks: &[u64]) -> bool
    requires { BeginsOver ports sets m masks.now }
    ensures { Decides result (Suits ports sets kinds masks.now m) }
{
    of_kinds(kinds, m.kind) && has_fields(m, ports, sets) && fits_move(m, ports, sets, masks)
}

// The first candidate after m in the order kind, S, T, p, q, if there is one.
pub fn next_candidate(m: Move, kinds: u32, ports: u32, sets: u32, masks: &[u64]) -> Option<Move>
    requires { BeginsOver ports sets m masks.now }
    ensures { GivesNext ports sets kinds masks.now m result }
{
    let mut at = advance(m, kinds, ports, sets, masks);
    while at.kind < 5 {
        if is_candidate(at, kinds, ports, sets, masks) {
            return Some(at);
        }
        at = advance(at, kinds, ports, sets, masks);
    }
    None
}

// The first candidate of all.
pub fn first_candidate(kinds: u32, ports: u32, sets: u32, masks: &[u64]) -> Option<Move>
    requires { SizedOver ports sets masks.now }
    ensures { GivesNext ports sets kinds masks.now outset result }
{
    next_candidate(at_fields(0, 0, 0, 0, 0), kinds, ports, sets, masks)
}
