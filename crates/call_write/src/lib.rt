// The call write: a plan's table to its text. Paper 02, request 2026-02.
#![tactic(auto)]

ghost use Rattle.std.specs.Prelude.{◌≡◌, cond, ◌||◌, ltb};
ghost use Rattle.logic.specs.Refusal.{answer_number};
ghost use Rattle.table_format.specs.Decode.{decode};
ghost use Rattle.contracts.specs.WriteCall.{writes, WritePromise};

use logic::Refusal;
use table_check::check;
use table_format::Index;
use text_put::put_bytes;
use text_write::{Extent, form_text};

// The longest text that is read.
const LONGEST: usize = 4096;

// Whether reading would refuse a text so long or so deep, with 1 or 4.
fn unreadable(e: Extent) -> bool
    ensures { result ≡ (ltb 4096 e.end || e.deep) }
{
    LONGEST < e.end || e.deep
}

// Tries 17 and 12 of a text of n bytes.
fn writable(long: bool, n: usize, room: usize) -> Result<(), Refusal>
    ensures { answer_number result ≡ cond long 17 (cond (ltb room n) 12 0) }
{
    if long {
        Err(Refusal::TextUnwritable)
    } else if room < n {
        Err(Refusal::TableTooShort)
    } else {
        Ok(())
    }
}

// Writing: tries 11, forms the text in a table of its own, tries 17 and 12, and only then writes it to the lent text.
pub fn write(table: &[u8], text: &mut [u8]) -> Result<u32, Refusal>
    ensures { WritePromise (writes (decode table.now) text.old) result text.new }
{
    let mut index = Index::new();
    let Some(info) = check(table, &mut index) else {
        return Err(Refusal::BrokenTable);
    };
    let mut formed = [0u8; LONGEST];
    let e = form_text(table, info.sets, info.nodes, &mut formed);
    let n = e.end;
    writable(unreadable(e), n, text.len())?;
    put_bytes(text, 0, &formed[0..n]);
    Ok(n as u32)
}
