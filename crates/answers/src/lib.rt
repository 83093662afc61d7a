// What the calls answer, as C structs: the structs, and the conversions by the paper's numbers and values.
#![tactic(auto)]

ghost use Rattle.std.specs.Prelude.{◌≡◌};
ghost use Rattle.contracts.specs.declared.Improved.TheVariants.{Made};
ghost use Rattle.contracts.specs.Load.{load_values};
ghost use Rattle.contracts.specs.MoveCall.{move_values};
ghost use Rattle.contracts.specs.ImproveCall.{improve_values};
ghost use Rattle.contracts.specs.Counting.{count_values};
ghost use Rattle.contracts.specs.Read.{read_values};
ghost use Rattle.answers.specs.Boundary.{ReadFields, LoadFields, CountFields};
ghost use Rattle.answers.specs.Moving.{MoveFields, ImproveFields};

use cells_sum::After;
use contracts::{Improved, Loaded, Moved, Read};
use logic::{Move, Refusal, no_move};

// Root before, root after, and how many cells differ.
pub fn accepted(r: After) -> Moved
    ensures { result ≡ record { before = r.old; after = r.value; changed = r.changed } }
{
    Moved {
        before: r.old,
        after: r.value,
        changed: r.changed,
    }
}

// The move that was made, with its three numbers.
pub fn made(m: Move, a: After) -> Improved
    ensures { result ≡ Made m a.old a.value a.changed }
{
    Improved::Made {
        chosen: m,
        before: a.old,
        after: a.value,
        changed: a.changed,
    }
}

// vk_read_answer: 0 or the ground's number, node count, cell total.
#[repr(C)]
#[derive(Clone, Copy)]
pub struct ReadAnswer {
    pub number: u32,
    pub nodes: u32,
    pub cells: u32,
}

// vk_load_answer: 0 or the ground's number, the root's penalty, cell total.
#[repr(C)]
#[derive(Clone, Copy)]
pub struct LoadAnswer {
    pub number: u32,
    pub root: u32,
    pub cells: u32,
}

// Reading's answer as its C struct.
pub fn read_fields(a: Result<Read, Refusal>) -> ReadAnswer
    ensures { ReadFields (read_values a) result }
{
    match a {
        Ok(Read { nodes, cells }) => ReadAnswer {
            number: 0,
            nodes,
            cells,
        },
        Err(ground) => ReadAnswer {
            number: u32::from(ground.number()),
            nodes: 0,
            cells: 0,
        },
    }
}

// Load's answer as its C struct.
pub fn load_fields(a: Result<Loaded, Refusal>) -> LoadAnswer
    ensures { LoadFields (load_values a) result }
{
    match a {
        Ok(Loaded { root, cells }) => LoadAnswer {
            number: 0,
            root,
            cells,
        },
        Err(ground) => LoadAnswer {
            number: u32::from(ground.number()),
            root: 0,
            cells: 0,
        },
    }
}

// vk_move_answer: 0 or the ground's number, root before, root after, how many cells differ.
#[repr(C)]
#[derive(Clone, Copy)]
pub struct MoveAnswer {
    pub number: u32,
    pub before: u32,
    pub after: u32,
    pub changed: u32,
}

// vk_improve_answer: 0 or the ground's number, whether a move was made, that move, and the three numbers.
#[repr(C)]
#[derive(Clone, Copy)]
pub struct ImproveAnswer {
    pub number: u32,
    pub found: u32,
    pub chosen: Move,
    pub before: u32,
    pub after: u32,
    pub changed: u32,
}

// A move's or trial's answer as its C struct.
pub fn move_fields(a: Result<Moved, Refusal>) -> MoveAnswer
    ensures { MoveFields (move_values a) result }
{
    match a {
        Ok(
            Moved {
                before,
                after,
                changed,
            },
        ) => MoveAnswer {
            number: 0,
            before,
            after,
            changed,
        },
        Err(ground) => MoveAnswer {
            number: u32::from(ground.number()),
            before: 0,
            after: 0,
            changed: 0,
        },
    }
}

// Improve's answer as its C struct; the move is all 0 where none was made.
pub fn improve_fields(a: Result<Improved, Refusal>) -> ImproveAnswer
    ensures { ImproveFields (improve_values a) result }
{
    match a {
        Ok(
            Improved::Made {
                chosen,
                before,
                after,
                changed,
            },
        ) => ImproveAnswer {
            number: 0,
            found: 1,
            chosen,
            before,
            after,
            changed,
        },
        Ok(Improved::NoBetter { root }) => ImproveAnswer {
            number: 0,
            found: 0,
            chosen: no_move(),
            before: root,
            after: root,
            changed: 0,
        },
        Err(ground) => ImproveAnswer {
            number: u32::from(ground.number()),
            found: 0,
            chosen: no_move(),
            before: 0,
            after: 0,
            changed: 0,
        },
    }
}

// vk_count_answer: 0 or the ground's number, and how many.
#[repr(C)]
#[derive(Clone, Copy)]
pub struct CountAnswer {
    pub number: u32,
    pub count: u32,
}

// The answer of a call that counts as its C struct.
pub fn count_fields(a: Result<u32, Refusal>) -> CountAnswer
    ensures { CountFields (count_values a) result }
{
    match a {
        Ok(count) => CountAnswer { number: 0, count },
        Err(ground) => CountAnswer {
            number: u32::from(ground.number()),
            count: 0,
        },
    }
}
