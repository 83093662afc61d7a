// Bytes in, bytes out: what plantable and plantext give for an input is the bytes for standard output, so many at the front of a lent
// table, or why there are none. Paper 02, request 2026-02.
#![tactic(auto)]

ghost use Rattle.std.specs.Prelude.{◌≡◌};
ghost use Rattle.program_bytes.specs.Outcome.{refused_number};

use logic::Refusal;

// The input is none, before all else; or the ground of the call that refuses it.
#[derive(Clone, Copy, Debug, PartialEq, Eq)]
pub enum Refused {
    NoInput,
    Ground(Refusal),
}

impl Refused {
    // The number of "`refused N`".
    #[tactic(auto, unfolding(crate::specs::Outcome::refused_number))]
    pub fn number(self) -> u8
        ensures { result ≡ refused_number self }
    {
        match self {
            Refused::NoInput => 0,
            Refused::Ground(g) => g.number(),
        }
    }
}
