// The best of all candidates, by the root that each would leave: how many they are, the first of them, and their records in a lent list.
// The masks that a candidate would leave stand in a table of this crate's own. Paper 01, section One move; paper 02, request 2026-01.
#![tactic(auto)]

ghost use Rattle.move_best.specs.inner.Choosing.{Chooses, Lists};
ghost use Rattle.move_root.specs.inner.OverPlan.{TablesTold};
ghost use Rattle.move_best.specs.inner.OverPlan.{SearchRoom, BestAsked, ListRoom, WriteRoom};

use cells_walk::Plan;
use logic::{MASK_ROOM, Move, own_masks};
use move_fill::fill_tables;
use move_legal::narrow;
use move_list::put_best;
use move_order::{first_candidate, next_candidate};
use move_rank::{Choice, none_yet, ranked};
use move_root::move_root;
use move_tables::FlipTables;

// A fold over the candidates.
fn search(
    plan: &Plan,
    masks: &[u64],
    cells: &[u32],
    kinds: u32,
    tables: &FlipTables,
    work: &mut [u64],
) -> Choice
    requires { SearchRoom plan.now masks.now cells.now kinds tables.now work.old }
    ensures { Chooses plan.now.table.now masks.now cells.now kinds result }
{
    let u = narrow(plan.ports);
    let n = narrow(plan.sets);
    let mut best = none_yet();
    let mut at = first_candidate(kinds, u, n, masks);
    while let Some(m) = at {
        let value = move_root(plan, masks, cells, m, work, tables);
        best = ranked(best, m, value);
        at = next_candidate(m, kinds, u, n, masks);
    }
    best
}

// The candidates that leave the least root: the first of them in the order kind, S, T, p, q, and how many they are.
pub fn choose(plan: &Plan, masks: &[u64], cells: &[u32], kinds: u32, tables: &FlipTables) -> Choice
    requires { TablesTold plan.now masks.now cells.now kinds tables.now }
    ensures { Chooses plan.now.table.now masks.now cells.now kinds result }
{
    let mut work = [0u64; MASK_ROOM];
    let own = own_masks(plan.sets);
    search(plan, masks, cells, kinds, tables, &mut work[0..own])
}

// The same for masks and cells that may be longer than a plan's own, `width` being the number of its cells: fills the tables first.
pub fn best_move(plan: &Plan, masks: &[u64], cells: &[u32], width: usize, kinds: u32) -> Choice
    requires { BestAsked plan.now masks.now cells.now width }
    ensures { Chooses plan.now.table.now masks.now cells.now kinds result }
{
    let mut one = [0u32; 4096];
    let mut still = [0u32; 64];
    let mut joint = [0u32; 16384];
    let mut lists = [0u16; 1024];
    let own = own_masks(plan.sets);
    let left = fill_tables(
        plan,
        &masks[0..own],
        &cells[0..width],
        kinds,
        &mut one,
        &mut still,
        &mut joint,
        &mut lists,
    );
    let tables = FlipTables {
        one: &one,
        still: &still,
        joint: &joint,
        lists: &lists,
        left,
    };
    choose(plan, &masks[0..own], &cells[0..width], kinds, &tables)
}

// The same candidates again, which cost less than room for all that may be the best: those that leave the least root are written.
fn write_best(
    plan: &Plan,
    masks: &[u64],
    cells: &[u32],
    kinds: u32,
    tables: &FlipTables,
    best: Choice,
    work: &mut [u64],
    list: &mut [[u32; 5]],
)
    requires { WriteRoom plan.now masks.now cells.now kinds tables.now best work.old list.old }
    ensures { Lists plan.now.table.now masks.now cells.now kinds list.old list.new }
{
    let u = narrow(plan.ports);
    let n = narrow(plan.sets);
    let mut i = 0;
    let mut here = first_candidate(kinds, u, n, masks);
    while let Some(m) = here {
        let value = move_root(plan, masks, cells, m, work, tables);
        i = put_best(m, value, best.value, i, list);
        here = next_candidate(m, kinds, u, n, masks);
    }
}

// Writes the records of the candidates that leave the least root, in their order, into a list that has room for them.
pub fn list_best(
    plan: &Plan,
    masks: &[u64],
    cells: &[u32],
    kinds: u32,
    tables: &FlipTables,
    best: Choice,
    list: &mut [[u32; 5]],
)
    requires { ListRoom plan.now masks.now cells.now kinds tables.now best list.old }
    ensures { Lists plan.now.table.now masks.now cells.now kinds list.old list.new }
{
    let mut work = [0u64; MASK_ROOM];
    let own = own_masks(plan.sets);
    write_best(
        plan,
        masks,
        cells,
        kinds,
        tables,
        best,
        &mut work[0..own],
        list,
    );
}
