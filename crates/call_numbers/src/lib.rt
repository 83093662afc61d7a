// The calls of a list and their answers as numbers of 32 bits. Paper 01, section Lists of calls.
#![tactic(auto)]

ghost use Rattle.std.specs.Prelude.{◌≡◌, ◌||◌, ◌++◌, ◌≤◌, eqb, length, drop};
ghost use Rattle.logic.specs.Moves.{no_move};
ghost use Rattle.logic.specs.Refusal.{refusal_number};
ghost use Rattle.contracts.specs.MoveCall.{move_values};
ghost use Rattle.contracts.specs.ImproveCall.{improve_values};
ghost use Rattle.contracts.specs.Counting.{count_values};
ghost use Rattle.call_numbers.specs.Encoding.{move_of, ten_numbers, moved_numbers, improved_numbers, counted_numbers};

use contracts::{Improved, Moved};
use logic::{Move, Refusal, no_move};

// An answer's ten numbers.
fn tell(number: u32, found: u32, m: Move, before: u32, after: u32, changed: u32, answer: &mut [u32])
    requires { 10 ≤ length answer.old }
    ensures { answer.new ≡ ten_numbers number found m before after changed ++ drop 10 answer.old }
{
    answer[0] = number;
    answer[1] = found;
    answer[2] = m.kind;
    answer[3] = m.s;
    answer[4] = m.t;
    answer[5] = m.p;
    answer[6] = m.q;
    answer[7] = before;
    answer[8] = after;
    answer[9] = changed;
}

// The answer of a refused call: the ground's number, with all other fields 0.
fn tell_refused(ground: Refusal, answer: &mut [u32])
    requires { 10 ≤ length answer.old }
    ensures { answer.new ≡ ten_numbers (refusal_number ground) 0 no_move 0 0 0 ++ drop 10 answer.old }
{
    tell(u32::from(ground.number()), 0, no_move(), 0, 0, 0, answer)
}

// The answer to a move, a trial, an undo or a port in test: no move is told.
pub fn tell_moved(r: Result<Moved, Refusal>, answer: &mut [u32])
    requires { 10 ≤ length answer.old }
    ensures { answer.new ≡ moved_numbers (move_values r) ++ drop 10 answer.old }
{
    match r {
        Ok(
            Moved {
                before,
                after,
                changed,
            },
        ) => tell(0, 0, no_move(), before, after, changed, answer),
        Err(ground) => tell_refused(ground, answer),
    }
}

// The answer to improve: the chosen move is told.
pub fn tell_improved(r: Result<Improved, Refusal>, answer: &mut [u32])
    requires { 10 ≤ length answer.old }
    ensures { answer.new ≡ improved_numbers (improve_values r) ++ drop 10 answer.old }
{
    match r {
        Ok(
            Improved::Made {
                chosen,
                before,
                after,
                changed,
            },
        ) => tell(0, 1, chosen, before, after, changed, answer),
        Ok(Improved::NoBetter { root }) => tell(0, 0, no_move(), root, root, 0, answer),
        Err(ground) => tell_refused(ground, answer),
    }
}

// The answer to a listing: how many were found is told.
pub fn tell_counted(r: Result<u32, Refusal>, answer: &mut [u32])
    requires { 10 ≤ length answer.old }
    ensures { answer.new ≡ counted_numbers (count_values r) ++ drop 10 answer.old }
{
    match r {
        Ok(count) => tell(0, count, no_move(), 0, 0, 0, answer),
        Err(ground) => tell_refused(ground, answer),
    }
}

// Whether a tag says that a port is put in test or taken out.
pub fn is_test(tag: u32) -> bool
    ensures { result ≡ (eqb tag 6 || eqb tag 7) }
{
    tag == 6 || tag == 7
}

// The five fields of a call as a move.
pub fn move_of(call: &[u32]) -> Move
    requires { 7 ≤ length call.now }
    ensures { result ≡ move_of call.now }
{
    Move {
        kind: call[1],
        s: call[2],
        t: call[3],
        p: call[4],
        q: call[5],
    }
}
