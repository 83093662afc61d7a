// The best of some moves so far, by the root that each would leave, and one more of them. Paper 02, request 2026-01.
#![tactic(auto)]

ghost use Rattle.std.specs.Prelude.{◌≡◌, ◌<◌};
ghost use Rattle.move_order.specs.inner.Stepping.{outset};
ghost use Rattle.move_rank.specs.inner.Ranking.{choice_of, ranked_by};

use logic::{Move, no_move};

// How many are the best so far, the first of them, and the root that each would leave; before any candidate the count is 0.
#[derive(Clone, Copy)]
pub struct Choice {
    pub count: u32,
    pub m: Move,
    pub value: u32,
}

// Before any candidate.
pub fn none_yet() -> Choice
    ensures { result ≡ choice_of 0 outset 0 }
{
    Choice {
        count: 0,
        m: no_move(),
        value: 0,
    }
}

// The best so far and a candidate: it is the best alone, or one more of the best, or none of them.
#[tactic(auto, unfolding(crate::specs::inner::Ranking::ranked_by, crate::specs::inner::Ranking::choice_of))]
pub fn ranked(best: Choice, m: Move, value: u32) -> Choice
    requires { best.count < 4294967295 }
    ensures { result ≡ ranked_by best m value }
{
    if best.count == 0 || value < best.value {
        alone(m, value)
    } else if value == best.value {
        Choice {
            count: best.count + 1,
            ..best
        }
    } else {
        best
    }
}

// One candidate, the best of those before it.
fn alone(m: Move, value: u32) -> Choice
    ensures { result ≡ choice_of 1 m value }
{
    Choice { count: 1, m, value }
}
