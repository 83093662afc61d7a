// The lent journal of move records: a slice of structs. Paper 02, request 2026-03. These two alone name a record of it.
#![tactic(auto)]

ghost use Rattle.std.specs.Prelude.{◌≡◌, set, get_or};
ghost use Rattle.logic.specs.Moves.{no_move};

use logic::{Move, no_move};

// The record m at a place. A place past the end writes nothing.
pub fn put_record(journal: &mut [Move], at: usize, m: Move)
    ensures { journal.new ≡ set journal.old at m }
{
    // Not `if let Some(record) = journal.get_mut(at)`: what the journal is after the write through `record` stayed open.
    if at < journal.len() {
        journal[at] = m;
    }
}

// The record at a place, and the empty move past the end.
pub fn record_at(journal: &[Move], at: usize) -> Move
    ensures { result ≡ get_or journal.now at no_move }
{
    journal.get(at).copied().unwrap_or(no_move())
}
