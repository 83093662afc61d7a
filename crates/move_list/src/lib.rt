// The records of the best moves in a lent list, one behind the other. Paper 02, request 2026-01.
#![tactic(auto)]

ghost use Rattle.std.specs.Prelude.{◌≡◌};
ghost use Rattle.contracts.specs.BestCall.{move_record};
ghost use Rattle.move_list.specs.inner.Records.{RoomFor, Put};

use logic::Move;

// The record of a move.
fn record_of(m: Move) -> [u32; 5]
    ensures { result ≡ move_record m }
{
    [m.kind, m.s, m.t, m.p, m.q]
}

// Writes the record of a move at its place if the move leaves the least root, and gives the place of the next record.
#[tactic(auto, unfolding(crate::specs::inner::Records::RoomFor))]
pub fn put_best(m: Move, value: u32, least: u32, at: usize, list: &mut [[u32; 5]]) -> usize
    requires { RoomFor value least at list.old }
    ensures { Put m value least at list.old list.new result }
{
    if value == least {
        list[at] = record_of(m);
        at + 1
    } else {
        at
    }
}
