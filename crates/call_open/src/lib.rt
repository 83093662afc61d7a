// Grounds 11 to 13, which every call over a plan's tables tries first. Paper 01, section Grounds for refusal.
#![tactic(auto)]

ghost use Rattle.std.specs.Prelude.{◌≡◌, ◌≤◌, length, take};
ghost use Rattle.logic.specs.Configuration.{all_within};
ghost use Rattle.call_open.specs.inner.Opening.{OpensCells, Opens};

use logic::{Refusal, own_masks, within_ports};
use table_check::{Info, check};
use table_format::Index;

// Whether no mask of the first `count` has a port of `ports` or more.
fn masks_ok(masks: &[u64], count: usize, ports: usize) -> bool
    requires { (count ≤ length masks.now) × (ports ≤ 64) }
    ensures { result ≡ all_within ports (take count masks.now) }
{
    let u = ports as u32;
    for s in 0..count {
        if !within_ports(masks[s], u) {
            return false;
        }
    }
    true
}

// Tries 11, and 12 of the cell tables, and fills the index tables; `shortest` is the length of the shortest cell table that is lent.
pub fn open_cells(table: &[u8], shortest: usize, index: &mut Index) -> Result<Info, Refusal>
    ensures { OpensCells table.now shortest result index.new.firsts index.new.ends index.new.uses }
{
    let Some(info) = check(table, index) else {
        return Err(Refusal::BrokenTable);
    };
    if shortest < info.cells {
        return Err(Refusal::TableTooShort);
    }
    Ok(info)
}

// Tries 11 to 13 and fills the index tables.
pub fn open_tables(
    table: &[u8],
    masks: &[u64],
    shortest: usize,
    index: &mut Index,
) -> Result<Info, Refusal>
    ensures { Opens table.now masks.now shortest result index.new.firsts index.new.ends index.new.uses }
{
    let o = open_cells(table, shortest, index)?;
    if masks.len() < own_masks(o.sets) {
        return Err(Refusal::TableTooShort);
    }
    if !masks_ok(masks, own_masks(o.sets), o.ports) {
        return Err(Refusal::MaskPortTooHigh);
    }
    Ok(o)
}
