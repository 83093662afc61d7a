// Standard input and output of plantable and plantext. Paper 02, request 2026-02.
#![tactic(auto)]

ghost use Rattle.std.specs.Prelude.{◌≤◌, length, IfOk};
ghost use Rattle.program_bytes.specs.Outcome.{named_bytes};
ghost use Rattle.program_io.specs.inner.Known.{most_kept, KnownKept};

use planroot_print::{Line, put_line};
use program_bytes::Refused;
use std::io;
use std::io::Read;
use text_put::put_bytes;

// A read failed. Callers name the program in the error that they make of it.
#[derive(Clone, Copy, Debug, PartialEq, Eq)]
pub struct ReadFailed;

// Keeps the bytes of a reader at the front of a lent table, to its end or as many as there are places for: how many they are, or the
// reader's own error. Each piece has a byte at least, so the places run out if the reader does not.
pub fn gather<R: Read>(reader: &mut R, kept: &mut [u8]) -> io::Result<usize>
    requires { length kept.old ≤ most_kept }
    ensures { IfOk result (λ n. KnownKept n kept.new) }
{
    let mut at = 0;
    let mut piece = [0u8; 4096];
    while at < kept.len() {
        let n = reader.read(&mut piece)?;
        if n == 0 {
            return Ok(at);
        }
        at = put_bytes(kept, at, &piece[..n]);
    }
    Ok(kept.len())
}

// The same for callers who need only know that a read failed: the answer can be copied.
pub fn gather_input<R: Read>(reader: &mut R, kept: &mut [u8]) -> Result<usize, ReadFailed>
    requires { length kept.old ≤ most_kept }
    ensures { IfOk result (λ n. KnownKept n kept.new) }
{
    gather(reader, kept).map_err(|_| ReadFailed)
}

// "`refused N` on standard error and nothing on standard output". The exit status is 0 then, as planroot's is on a refusal.
fn refuse(rt: &HostRuntime, number: u8) -> io::Result<()> {
    let mut out = [0u8; 36];
    let n = put_line(&mut out, Line::Refusal(number));
    Print::write_all(&rt.stderr(), &out[..n])
}

// Writes what is given: an error where standard output, or standard error for a refusal, does not take it.
pub fn give(rt: &HostRuntime, given: Result<usize, Refused>, table: &[u8]) -> io::Result<()>
    requires { named_bytes given ≤ length table.now }
{
    match given {
        Ok(n) => rt.write_all(&table[..n]),
        Err(r) => refuse(rt, r.number()),
    }
}

#[cfg(test)]
mod tests;
