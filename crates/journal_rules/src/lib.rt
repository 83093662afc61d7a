// The rules of a journal of made moves, by value: its length, its record count and its newest record. Paper 02, request 2026-03.
#![tactic(auto)]

ghost use Rattle.std.specs.Prelude.{◌≡◌, cond, ◌-◌};
ghost use Rattle.contracts.specs.Journal.{full, count_past, opposite, count_after, count_taken};
ghost use Rattle.contracts.specs.MoveCall.{move_values, move_made};
ghost use Rattle.contracts.specs.ImproveCall.{improve_values};
ghost use Rattle.journal_rules.specs.inner.Counting.{RoomIfMade, place_of};

use contracts::{Improved, Moved};
use logic::{Move, Refusal, no_move};

// The most records that a journal keeps.
const MOST: usize = 1024;

// Ground 18: whether a journal of this length and record count takes no further record.
pub fn is_full(room: usize, count: usize) -> bool
    ensures { result ≡ full room count }
{
    room <= count || MOST <= count
}

// Ground 12 of the record count: where it is past, a call is as if lent no cells, of which no plan has so few.
pub fn cells_lent(room: usize, count: usize, shortest: usize) -> usize
    ensures { result ≡ cond (count_past room count) 0 shortest }
{
    if room < count || MOST < count {
        0
    } else {
        shortest
    }
}

// The move that takes a move back: of an unknown kind itself, to which 14 applies.
pub fn opposite_of(m: Move) -> Move
    ensures { result ≡ opposite m }
{
    match m.kind {
        1 => Move { kind: 2, ..m },
        2 => Move { kind: 1, ..m },
        3 => Move {
            s: m.t,
            t: m.s,
            ..m
        },
        4 => Move {
            p: m.q,
            q: m.p,
            ..m
        },
        _ => m,
    }
}

// The record count after a move.
pub fn count_made(a: Result<Moved, Refusal>, count: usize) -> usize
    requires { RoomIfMade (move_made (move_values a)) count }
    ensures { result ≡ count_after (move_made (move_values a)) count }
{
    match a {
        Ok(_) => count + 1,
        Err(_) => count,
    }
}

// The record count after an undo.
pub fn count_taken(a: Result<Moved, Refusal>, count: usize) -> usize
    ensures { result ≡ count_taken (move_made (move_values a)) count }
{
    match a {
        Ok(_) => newest_place(count),
        Err(_) => count,
    }
}

// The place of the newest record; of an empty journal the first, which is then not looked at.
pub fn newest_place(count: usize) -> usize
    ensures { result ≡ count - 1 }
{
    count.saturating_sub(1)
}

// Where a call's record goes: to the old count if the count was raised; else past the journal's end, where nothing is written.
pub fn record_place(before: usize, after: usize, room: usize) -> usize
    ensures { result ≡ place_of before after room }
{
    if before < after { before } else { room }
}

// The move that improve made, all fields 0 if none.
pub fn chosen_of(a: Result<Improved, Refusal>) -> Move
    ensures { result ≡ (improve_values a).chosen }
{
    match a {
        Ok(Improved::Made { chosen, .. }) => chosen,
        _ => no_move(),
    }
}
