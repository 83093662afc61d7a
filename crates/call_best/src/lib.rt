// The call that lists the best moves. Paper 02, request 2026-01.
#![tactic(auto)]

ghost use Rattle.std.specs.Prelude.{length};
ghost use Rattle.table_format.specs.Decode.{decode};
ghost use Rattle.contracts.specs.State.{tables};
ghost use Rattle.contracts.specs.TrialCall.{ScratchAfter};
ghost use Rattle.contracts.specs.Counting.{count_values};
ghost use Rattle.contracts.specs.BestCall.{lists, ListPromise};

use call_open::open_tables;
use cells_walk::Plan;
use logic::{Refusal, own_masks, wide};
use move_best::{choose, list_best};
use move_fill::fill_tables;
use move_order::kinds_known;
use move_tables::FlipTables;
use table_format::Index;

// Lists the legal moves of the kinds that leave the least root, in their order: tries 11 to 14, counts the best of the candidates, then
// tries 16, and only then goes over the candidates again and writes the list.
pub fn best_moves(
    table: &[u8],
    masks: &[u64],
    cells: &[u32],
    scratch: &mut [u32],
    kinds: u32,
    list: &mut [[u32; 5]],
) -> Result<u32, Refusal>
    ensures answer { ListPromise (lists (decode table.now) kinds (tables masks.now cells.now) (length scratch.old) (length list.old)) result list.old list.new }
    ensures lent { ScratchAfter (decode table.now) (count_values result).number scratch.old scratch.new }
{
    let mut index = Index::new();
    let shortest = cells.len().min(scratch.len());
    let o = open_tables(table, masks, shortest, &mut index)?;
    if !kinds_known(kinds) {
        return Err(Refusal::Unknown);
    }
    let mut one = [0u32; 4096];
    let mut still = [0u32; 64];
    let mut joint = [0u32; 16384];
    let mut lists = [0u16; 1024];
    let own = own_masks(o.sets);
    let own_cells = o.cells;
    let plan = Plan {
        table,
        index: &index,
        ports: o.ports,
        sets: o.sets,
    };
    let left = fill_tables(
        &plan,
        &masks[0..own],
        &cells[0..own_cells],
        kinds,
        &mut one,
        &mut still,
        &mut joint,
        &mut lists,
    );
    let tables = FlipTables {
        one: &one,
        still: &still,
        joint: &joint,
        lists: &lists,
        left,
    };
    let c = choose(&plan, &masks[0..own], &cells[0..own_cells], kinds, &tables);
    let count = wide(c.count);
    if list.len() < count {
        return Err(Refusal::ListTooShort);
    }
    list_best(
        &plan,
        &masks[0..own],
        &cells[0..own_cells],
        kinds,
        &tables,
        c,
        list,
    );
    Ok(c.count)
}
