// The root that a legal move would leave: by the tables of what flips bring and the atoms that are listed, or by a walk.
#![tactic(auto)]

ghost use Rattle.std.specs.Prelude.{◌≡◌, ◌+◌, ◌*◌, ◌%◌, ◌<◌, [], length};
ghost use Rattle.logic.specs.Moves.{transfer, swap};
ghost use Rattle.move_slots.specs.inner.Slots.{slot_at, flip_read, single_read, kind_read, move_read};
ghost use Rattle.move_root.specs.inner.Reading.{Readable, SlotFits, ReadRoom};
ghost use Rattle.move_root.specs.inner.Telling.{RootLeft};
ghost use Rattle.move_root.specs.inner.OverPlan.{BothAsked, BothRead, RootAsked};

use cells_size::mask_at;
use cells_touch::{change_of, meet};
use cells_walk::Plan;
use logic::{Move, wide};
use move_crossed::{crossed_shares, entering_size, leaving_size};
use move_hard::hard_shares;
use move_tables::FlipTables;
use move_try::try_move;

// A slot's number for a port.
fn slot_read(table: &[u32], slot: usize, p: u32) -> u32
    requires { (slot < 256) × (64 * slot + p < length table.now) }
    ensures { result ≡ slot_at table.now slot p }
{
    table[64 * slot + wide(p)]
}

// What a set's flip at a port brings beyond its resizing.
fn flip_read(one: &[u32], s: usize, outcome: usize, p: u32) -> u32
    requires { SlotFits s outcome p × (length one.now ≡ 4096) }
    ensures { result ≡ flip_read one.now s outcome p % 4294967296 }
{
    slot_read(one, 4 * s + outcome, p).wrapping_add(slot_read(one, 4 * s + 3, p))
}

// What a set's resizing and its flip at a port bring.
fn single_read(one: &[u32], still: &[u32], s: usize, outcome: usize, p: u32) -> u32
    requires { SlotFits s outcome p × ReadRoom one.now still.now }
    ensures { result ≡ single_read one.now still.now s outcome p % 4294967296 }
{
    still[4 * s + outcome].wrapping_add(flip_read(one, s, outcome, p))
}

// What a transfer brings: a drop, an add, and what both together bring beyond them.
fn transfer_read(one: &[u32], still: &[u32], joint: &[u32], test: u64, m: Move) -> u32
    requires { Readable m × ReadRoom one.now still.now × (length joint.now ≡ 16384) }
    ensures { result ≡ kind_read transfer one.now still.now joint.now test m % 4294967296 }
{
    let s = wide(m.s);
    let t = wide(m.t);
    let dropped = single_read(one, still, s, leaving_size(test, m.p), m.p);
    let added = single_read(one, still, t, entering_size(test, m.p), m.p);
    let beyond = slot_read(joint, 16 * s + t, m.p);
    dropped.wrapping_add(added).wrapping_add(beyond)
}

// What a swap brings: the set is resized once, and flips at both ports.
fn swap_read(one: &[u32], still: &[u32], test: u64, m: Move) -> u32
    requires { Readable m × ReadRoom one.now still.now }
    ensures { result ≡ kind_read swap one.now still.now [] test m % 4294967296 }
{
    let s = wide(m.s);
    let outcome = leaving_size(test, m.p) + entering_size(test, m.q) - 1;
    let first = single_read(one, still, s, outcome, m.p);
    let second = flip_read(one, s, outcome, m.q);
    first.wrapping_add(second)
}

// What the tables say of a move.
fn move_read(one: &[u32], still: &[u32], joint: &[u32], test: u64, m: Move) -> u32
    requires { Readable m × ReadRoom one.now still.now × (length joint.now ≡ 16384) }
    ensures { result ≡ move_read one.now still.now joint.now test m % 4294967296 }
{
    if m.kind == 3 {
        return transfer_read(one, still, joint, test, m);
    }
    if m.kind == 4 {
        return swap_read(one, still, test, m);
    }
    let s = wide(m.s);
    if m.kind == 1 {
        return single_read(one, still, s, entering_size(test, m.p), m.p);
    }
    single_read(one, still, s, leaving_size(test, m.p), m.p)
}

// What a move brings to the atoms of a list beyond the tables: a swap has a correction where both its ports meet in an atom.
fn both_read(plan: &Plan, masks: &[u64], cells: &[u32], m: Move, list: &[u16], count: usize) -> u32
    requires { BothAsked plan.now masks.now cells.now m list.now count }
    ensures { BothRead plan.now masks.now cells.now m list.now count result }
{
    if m.kind != 4 {
        return 0;
    }
    if count == 0 {
        return 0;
    }
    crossed_shares(plan, masks, cells, m, list, count)
}

// The root that a legal move would leave; what the walk writes goes into `work`.
pub fn move_root(
    plan: &Plan,
    masks: &[u64],
    cells: &[u32],
    m: Move,
    work: &mut [u64],
    tables: &FlipTables,
) -> u32
    requires { RootAsked plan.now masks.now cells.now tables.now m work.old }
    ensures { RootLeft plan.now.table.now masks.now cells.now m result }
{
    if tables.left.walked {
        let tried = try_move(plan, masks, cells, m, work);
        return tried.value;
    }
    if !meet(plan.uses_at(0), change_of(m).first_word()) {
        return cells[0];
    }
    let by_tables = cells[1].wrapping_add(move_read(
        tables.one,
        tables.still,
        tables.joint,
        mask_at(masks, plan.sets),
        m,
    ));
    let by_list = hard_shares(plan, masks, cells, m, work, tables.lists, tables.left.hards);
    let by_both = both_read(
        plan,
        masks,
        cells,
        m,
        &tables.lists[512..],
        tables.left.crossed,
    );
    by_tables.wrapping_add(by_list).wrapping_add(by_both)
}
