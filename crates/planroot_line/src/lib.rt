// The line that planroot prints for an input. Paper 01, section Known plans.
#![tactic(auto)]

ghost use Rattle.std.specs.Prelude.{◌≤◌, length};
ghost use Rattle.planroot_print.specs.Line.{line_room};
ghost use Rattle.planroot_line.specs.inner.Contract.{Tables, PlanTables, LinesLoad, LinesPlan, LinesText, SomeInput, LinesInput, ShowsInput};

use call_load::load;
use call_read::read;
use contracts::Loaded;
use logic::{MASK_ROOM, Refusal, own_masks};
use move_masks::copy_masks;
use planroot_input::Scan;
use planroot_print::{Line, put_line};
use table_format::sets_of;

// Load's answer as a line.
fn load_line(answer: Result<Loaded, Refusal>) -> Line
    ensures { LinesLoad answer result }
{
    match answer {
        Ok(plan) => Line::Penalty {
            root: plan.root,
            cells: plan.cells,
        },
        Err(g) => Line::Refusal(g.number()),
    }
}

// Loads a plan that was read, if the masks, of which there are `count`, are one a set; no port is in test.
fn plan_line(count: usize, masks: &[u64], table: &[u8], cells: &mut [u32]) -> Line
    requires { PlanTables masks.now table.now }
    ensures { LinesPlan count masks.now table.now cells.old result }
{
    let n = sets_of(table);
    if count != n {
        return Line::Refusal(0);
    }
    let mut own = [0u64; MASK_ROOM];
    copy_masks(masks, n, &mut own);
    load_line(load(table, &own[..own_masks(n)], cells))
}

// Reads the text and loads its plan.
fn text_line(
    u: u64,
    count: usize,
    masks: &[u64],
    text: &[u8],
    table: &mut [u8],
    cells: &mut [u32],
) -> Line
    requires { Tables masks.now table.old }
    ensures { LinesText u count masks.now text.now table.old cells.old result }
{
    match read(u, text, table) {
        Ok(_) => plan_line(count, masks, &table[..], cells),
        Err(ground) => Line::Refusal(ground.number()),
    }
}

// The line for an input that is passed: `close` ends it. "It holds 16,384 cells."
fn finish(s: Scan, masks: &mut [u64], text: &[u8]) -> Line
    requires { SomeInput s masks.old text.now }
    ensures { LinesInput s masks.old text.now result }
{
    let e = s.close(masks);
    if !e.ok {
        return Line::Refusal(0);
    }
    let mut table = [0u8; 4105];
    let mut cells = [0u32; 16384];
    text_line(
        e.ports,
        e.masks,
        &masks[..],
        &text[..e.length],
        &mut table,
        &mut cells,
    )
}

// The bytes of the line for an input that is passed, at the front of a table: how many they are.
pub fn answer(s: Scan, masks: &mut [u64], text: &[u8], out: &mut [u8]) -> usize
    requires some_input { SomeInput s masks.old text.now }
    requires line_room_in_bounds { line_room ≤ length out.old }
    ensures { ShowsInput s masks.old text.now out.old result out.new }
{
    put_line(out, finish(s, masks, text))
}
