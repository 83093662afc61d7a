// The call load: checks the tables and fills every cell. Paper 01, section Penalty.
#![tactic(auto)]

ghost use Rattle.contracts.specs.State.{tables};
ghost use Rattle.contracts.specs.Load.{loads, LoadPromise};
ghost use Rattle.table_format.specs.Decode.{decode};

use call_open::open_tables;
use cells_fill::fill;
use contracts::Loaded;
use logic::Refusal;
use table_format::Index;

// Load: checks the tables (11, 12, 13) and fills every cell; the answer is root and cell total.
pub fn load(table: &[u8], masks: &[u64], cells: &mut [u32]) -> Result<Loaded, Refusal>
    ensures { LoadPromise (loads (decode table.now) (tables masks.now cells.old)) result (tables masks.now cells.new) }
{
    let mut index = Index::new();
    let o = open_tables(table, masks, cells.len(), &mut index)?;
    let total = o.cells;
    fill(table, o.ports, o.sets, o.nodes, masks, &mut cells[0..total]);
    Ok(Loaded {
        root: cells[0],
        cells: total as u32,
    })
}
