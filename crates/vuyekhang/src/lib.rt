// The C boundary: every call of the engine as an exported function over slices and numbers. include/vuyekhang.h declares them
// for C. None has a `requires`, so no caller can break one; each contract gives every field by the answer definitions of the
// call that it hands on to, and every table that it may write. The calls themselves see of a journal its length, its record count and
// its newest record; the records are read and written here.
#![tactic(auto)]

ghost use Rattle.std.specs.Prelude.{true, false, length};
ghost use Rattle.table_format.specs.Decode.{decode};
ghost use Rattle.contracts.specs.Read.{reads};
ghost use Rattle.contracts.specs.WriteCall.{writes};
ghost use Rattle.contracts.specs.Load.{loads};
ghost use Rattle.contracts.specs.State.{tables};
ghost use Rattle.contracts.specs.Journal.{journaled};
ghost use Rattle.contracts.specs.MoveCall.{moves_journaled};
ghost use Rattle.contracts.specs.TrialCall.{trials};
ghost use Rattle.contracts.specs.ImproveCall.{improves_journaled};
ghost use Rattle.contracts.specs.BestCall.{lists};
ghost use Rattle.contracts.specs.UndoCall.{undoes_journaled};
ghost use Rattle.contracts.specs.TestCall.{tests};
ghost use Rattle.contracts.specs.NodeCells.{PartGives};
ghost use Rattle.answers.specs.Boundary.{ReadGives, LoadGives, WriteGives};
ghost use Rattle.answers.specs.Moving.{MoveGives, TestGives, TrialGives, ImproveGives, ListGives};

use answers::{
    CountAnswer, ImproveAnswer, LoadAnswer, MoveAnswer, ReadAnswer, count_fields, improve_fields,
    load_fields, move_fields, read_fields,
};
use call_best::best_moves;
use call_improve::improve;
use call_load::load;
use call_move::make_move;
use call_node::node_bounds;
use call_read::read;
use call_test::port_test;
use call_trial::trial;
use call_undo::undo;
use call_write::write;
use contracts::Part;
use journal::{put_record, record_at};
use journal_rules::{chosen_of, newest_place, record_place};
use logic::Move;

// Reads a plan text and writes its plan table.
#[unsafe(no_mangle)]
pub extern "C" fn vk_read(u: u64, text: &[u8], table: &mut [u8]) -> ReadAnswer
    ensures { ReadGives (reads u text.now table.old) result table.new }
{
    let a = read(u, text, table);
    read_fields(a)
}

// Writes the text of a plan table.
#[unsafe(no_mangle)]
pub extern "C" fn vk_write(table: &[u8], text: &mut [u8]) -> CountAnswer
    ensures { WriteGives (writes (decode table.now) text.old) result text.new }
{
    let a = write(table, text);
    count_fields(a)
}

// Checks the tables and fills every cell.
#[unsafe(no_mangle)]
pub extern "C" fn vk_load(table: &[u8], masks: &[u64], cells: &mut [u32]) -> LoadAnswer
    ensures { LoadGives (loads (decode table.now) (tables masks.now cells.old)) result (tables masks.now cells.new) }
{
    let a = load(table, masks, cells);
    load_fields(a)
}

// A node's cells, as a part of the caller's cell table: {0, 0} where 11, 12 or a node past the count applies.
#[unsafe(no_mangle)]
pub extern "C" fn vk_node_cells(table: &[u8], cells: &[u32], node: usize) -> Part
    ensures { PartGives (decode table.now) (length cells.now) node result }
{
    node_bounds(table, cells.len(), node)
}

// Makes a move: writes its masks and the touched cells in place, and its record into the journal.
#[unsafe(no_mangle)]
pub extern "C" fn vk_move(
    table: &[u8],
    masks: &mut [u64],
    cells: &mut [u32],
    journal: &mut [Move],
    count: &mut usize,
    m: Move,
) -> MoveAnswer
    ensures { MoveGives (moves_journaled (decode table.now) m (journaled masks.old cells.old journal.old count.old)) result (journaled masks.new cells.new journal.new count.new) }
{
    let at = *count;
    let a = make_move(table, masks, cells, journal.len(), count, m);
    put_record(journal, record_place(at, *count, journal.len()), m);
    move_fields(a)
}

// What a move would answer: writes at most scratch.
#[unsafe(no_mangle)]
pub extern "C" fn vk_trial(
    table: &[u8],
    masks: &[u64],
    cells: &[u32],
    scratch: &mut [u32],
    m: Move,
) -> MoveAnswer
    ensures { TrialGives (decode table.now) (trials (decode table.now) m (tables masks.now cells.now) (length scratch.old)) result scratch.old scratch.new }
{
    let a = trial(table, masks, cells, scratch, m);
    move_fields(a)
}

// Puts a port in test.
#[unsafe(no_mangle)]
pub extern "C" fn vk_test_begin(
    table: &[u8],
    masks: &mut [u64],
    cells: &mut [u32],
    port: u32,
) -> MoveAnswer
    ensures { TestGives (tests (decode table.now) true port (tables masks.old cells.old)) result (tables masks.new cells.new) }
{
    let a = port_test(table, masks, cells, true, port);
    move_fields(a)
}

// Takes a port out of test.
#[unsafe(no_mangle)]
pub extern "C" fn vk_test_end(
    table: &[u8],
    masks: &mut [u64],
    cells: &mut [u32],
    port: u32,
) -> MoveAnswer
    ensures { TestGives (tests (decode table.now) false port (tables masks.old cells.old)) result (tables masks.new cells.new) }
{
    let a = port_test(table, masks, cells, false, port);
    move_fields(a)
}

// Makes the first of the best moves of some kinds, if it leaves a smaller root than now, and writes its record into the journal.
#[unsafe(no_mangle)]
pub extern "C" fn vk_improve(
    table: &[u8],
    masks: &mut [u64],
    cells: &mut [u32],
    scratch: &mut [u32],
    journal: &mut [Move],
    count: &mut usize,
    kinds: u32,
) -> ImproveAnswer
    ensures { ImproveGives (decode table.now) (improves_journaled (decode table.now) kinds (journaled masks.old cells.old journal.old count.old) (length scratch.old)) result (journaled masks.new cells.new journal.new count.new) scratch.old scratch.new }
{
    let at = *count;
    let a = improve(table, masks, cells, scratch, journal.len(), count, kinds);
    let place = record_place(at, *count, journal.len());
    put_record(journal, place, chosen_of(a));
    improve_fields(a)
}

// Takes the newest move of the journal back.
#[unsafe(no_mangle)]
pub extern "C" fn vk_undo(
    table: &[u8],
    masks: &mut [u64],
    cells: &mut [u32],
    journal: &[Move],
    count: &mut usize,
) -> MoveAnswer
    ensures { MoveGives (undoes_journaled (decode table.now) (journaled masks.old cells.old journal.now count.old)) result (journaled masks.new cells.new journal.now count.new) }
{
    let newest = record_at(journal, newest_place(*count));
    let a = undo(table, masks, cells, journal.len(), count, newest);
    move_fields(a)
}

// Lists the best moves of some kinds in their order. An array of five numbers is laid out as vk_move_record is.
#[unsafe(no_mangle)]
pub extern "C" fn vk_best_moves(
    table: &[u8],
    masks: &[u64],
    cells: &[u32],
    scratch: &mut [u32],
    kinds: u32,
    list: &mut [[u32; 5]],
) -> CountAnswer
    ensures { ListGives (decode table.now) (lists (decode table.now) kinds (tables masks.now cells.now) (length scratch.old) (length list.old)) result list.old list.new scratch.old scratch.new }
{
    let a = best_moves(table, masks, cells, scratch, kinds, list);
    count_fields(a)
}
