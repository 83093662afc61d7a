// What plantable writes for an input. Paper 02, request 2026-02.
#![tactic(auto)]

ghost use Rattle.std.specs.Prelude.{◌≡◌, true, length, SomeIff};
ghost use Rattle.contracts.specs.Read.{reads};
ghost use Rattle.planroot_input.specs.Lines.{line, ends};
ghost use Rattle.planroot_input.specs.inner.Words.{IsWord};
ghost use Rattle.program_bytes.specs.Outcome.{Gives};
ghost use Rattle.plantable_bytes.specs.Table.{read_table, input_table};
ghost use Rattle.plantable_bytes.specs.inner.Contract.{FindsLine};

use call_read::read;
use planroot_input::Word;
use program_bytes::Refused;
use table_format::{sets_of, table_bytes};

// Line 1 of an input: u, and where the text begins.
#[derive(Clone, Copy)]
struct FirstLine {
    ports: u64,
    text: usize,
}

// The word that the bytes of a line are.
fn word_of(line: &[u8]) -> Word
    ensures { IsWord line.now result }
{
    let mut w = Word::Empty;
    for b in line {
        w = w.add_byte(*b);
    }
    w
}

// How long line 1 is, if it ends in a line end.
fn line_end(input: &[u8]) -> Option<usize>
    ensures { SomeIff result (ends input.now ≡ true) (length (line input.now)) }
{
    input.iter().position(|b| *b == b'\n')
}

// Passes line 1. An input that ends in it has no line 1 and no text behind it, as in planroot; nor has one whose line 1 is no digit
// run.
fn first_line(input: &[u8]) -> Option<FirstLine>
    ensures { FindsLine input.now result }
{
    let end = line_end(input)?;
    let ports = word_of(&input[..end]).run()?;
    Some(FirstLine {
        ports,
        text: end + 1,
    })
}

// Reads a text: its plan table's own bytes stand at the front of the lent table.
fn text_table(u: u64, text: &[u8], table: &mut [u8]) -> Result<usize, Refused>
    ensures { Gives (read_table (reads u text.now table.old)) result table.new }
{
    match read(u, text, table) {
        Ok(plan) => Ok(table_bytes(sets_of(&table[..]), plan.nodes as usize)),
        Err(g) => Err(Refused::Ground(g)),
    }
}

// Reads the text of an input over the ports of its line 1. "N is 0, before all else", if line 1 isn't a digit run.
pub fn answer(input: &[u8], table: &mut [u8]) -> Result<usize, Refused>
    ensures { Gives (input_table input.now table.old) result table.new }
{
    let Some(line) = first_line(input) else {
        return Err(Refused::NoInput);
    };
    text_table(line.ports, &input[line.text..], table)
}
