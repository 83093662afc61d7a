// The call read: a plan's text to its plan table. Paper 01, sections Plan text and Grounds for refusal.
#![tactic(auto)]

ghost use Rattle.contracts.specs.Read.{reads, ReadPromise};
ghost use Rattle.call_read.specs.inner.Contract.{SomeText, Finishes};

use contracts::Read;
use logic::Refusal;
use table_format::table_bytes;
use text_emit::write_plan;
use text_grounds::core_answer;
use text_parse::parse;
use text_tokens::known_bytes;

// Tries grounds 5 to 9 and 12 of a text in the grammar, and writes its plan table.
fn finish(
    u: u8,
    t: &[u16],
    e: usize,
    letters: &[u8],
    n: usize,
    table: &mut [u8],
) -> Result<Read, Refusal>
    requires { SomeText u t.now e letters.now n }
    ensures { Finishes u t.now e letters.now n table.old table.new result }
{
    let sets = &letters[0..n];
    let c = core_answer(t, e, sets, u as u32)?;
    let nodes = c.nodes as usize;
    if table.len() < table_bytes(sets.len(), nodes) {
        return Err(Refusal::TableTooShort);
    }
    write_plan(u, sets, t, e, nodes, table);
    Ok(Read {
        nodes: c.nodes,
        cells: c.cells,
    })
}

// Reading: tries 10, then 1 to 9, each over the whole text, then 12, and writes the plan table of the text over u ports.
pub fn read(u: u64, text: &[u8], table: &mut [u8]) -> Result<Read, Refusal>
    ensures { ReadPromise (reads u text.now table.old) result table.new }
{
    if u < 1 {
        return Err(Refusal::PortsOutOfRange);
    }
    if 64 < u {
        return Err(Refusal::PortsOutOfRange);
    }
    if 4096 < text.len() {
        return Err(Refusal::TextTooLong);
    }
    if !known_bytes(text) {
        return Err(Refusal::UnknownByte);
    }
    let mut tree = [0u16; 8192];
    let mut letters = [0u8; 17];
    let Some(s) = parse(text, &mut tree, &mut letters) else {
        return Err(Refusal::OutsideGrammar);
    };
    if s.deep {
        return Err(Refusal::TextTooDeep);
    }
    finish(u as u8, &tree, s.end, &letters, s.sets, table)
}
