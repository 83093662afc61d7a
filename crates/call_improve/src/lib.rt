// The call improve: the first of the best legal moves of some kinds, made if it leaves a smaller root than now. Paper 01, section One
// move; paper 02, requests 2026-01 and 2026-03.
#![tactic(auto)]

ghost use Rattle.std.specs.Prelude.{◌≡◌, length};
ghost use Rattle.table_format.specs.Decode.{decode};
ghost use Rattle.contracts.specs.State.{tables};
ghost use Rattle.contracts.specs.TrialCall.{ScratchAfter};
ghost use Rattle.contracts.specs.ImproveCall.{improve_values, improves, ImprovePromise};
ghost use Rattle.move_best.specs.inner.Choosing.{lowers_by};

use answers::made;
use call_open::open_tables;
use cells_walk::Plan;
use contracts::Improved;
use journal_rules::{cells_lent, is_full};
use logic::Refusal;
use move_best::best_move;
use move_make::carry;
use move_order::kinds_known;
use move_rank::Choice;
use table_format::Index;

// Whether the first of the best, if there is one, leaves a smaller root than now.
fn lowers(c: Choice, root: u32) -> bool
    ensures { result ≡ lowers_by c root }
{
    if c.count != 0 {
        return c.value < root;
    }
    false
}

// Improve, over a journal of some length: tries 11 to 14; chooses, and makes what lowers the root, for which it needs room in the journal.
// It raises the record count; the record is the caller's to write, at the old count.
pub fn improve(
    table: &[u8],
    masks: &mut [u64],
    cells: &mut [u32],
    scratch: &mut [u32],
    room: usize,
    count: &mut usize,
    kinds: u32,
) -> Result<Improved, Refusal>
    ensures answer { ImprovePromise (improves (decode table.now) kinds (tables masks.old cells.old) (length scratch.old) room count.old) count.old result (tables masks.new cells.new) count.new }
    ensures lent { ScratchAfter (decode table.now) (improve_values result).number scratch.old scratch.new }
{
    let mut index = Index::new();
    let at = *count;
    let shortest = cells.len().min(scratch.len());
    let o = open_tables(
        table,
        &masks[..],
        cells_lent(room, at, shortest),
        &mut index,
    )?;
    if !kinds_known(kinds) {
        return Err(Refusal::Unknown);
    }
    let plan = Plan {
        table,
        index: &index,
        ports: o.ports,
        sets: o.sets,
    };
    let c = best_move(&plan, &masks[..], &cells[..], o.cells, kinds);
    let root = cells[0];
    if !lowers(c, root) {
        return Ok(Improved::NoBetter { root });
    }
    if is_full(room, at) {
        return Err(Refusal::JournalFull);
    }
    *count = at + 1;
    Ok(made(c.m, carry(&plan, masks, cells, c.m)))
}
