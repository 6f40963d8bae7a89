//! What dbufs kept is given back, and those that are over the limit are evicted (`dbuf_evict_one` of OpenZFS's `dbuf.c`).
ghost use Rattle.std.specs.Prelude.{◌≡◌, ◌+◌, ◌<◌, ◌≤◌, not, IsTrue, length, map, OnOk, OnErr};
ghost use Rattle.arc_table.specs.Cache.{IsPartyOf};
ghost use Rattle.arc_table.specs.Looking.{HasNoLook};
ghost use Rattle.dbuf_state.specs.Dbufs.{standing_of};
ghost use Rattle.dbuf_state.specs.Standings.{is_evictable, is_over};
ghost use Rattle.dbuf_cells.specs.InHand.{AreClaimedAlike, ClaimsAre, Evicts, Finishes, GivesBack, IsOut, MayEvict, kept_count};

use crate::kept::{Cells, HeapCell, Kept};
use crate::turn::{give, told};
use arc_table::Party;
use blk_ptr::NoMemory;
use dbuf_state::{Cell, CellEvent, Oid};
use std::sync::Wait;

// Gives back what a dbuf kept: a hold is dropped, and a loose block is let go.
pub(crate) fn give_back(
    arcs: &Cells,
    rt: &impl Wait,
    party: &mut Party<HeapCell>,
    i: u32,
    kept: Kept,
)
    requires party { IsPartyOf arcs.now party.old }
    requires look { HasNoLook arcs.now party.old }
    requires out { IsOut arcs.now.config i party.old kept }
    ensures { GivesBack arcs.now.config i kept party.old party.new }
{
    if let Kept::Held(hold) = kept {
        arcs.drop_hold(rt, party, arcs.of_cell(hold, i));
    }
}

// Makes room for so many dbufs, for so many events, and for the evictions that may follow them.
pub(crate) fn make_room(cell: &mut Cell<Kept>, dbufs: usize, events: usize) -> Result<(), NoMemory>
    ensures log { cell.new ≡ record cell.old { dbuf_room = cell.new.dbuf_room; event_room = cell.new.event_room } }
    ensures dbufs { OnOk result (dbufs ≤ cell.new.dbuf_room) }
    ensures events { OnOk result (events + length cell.old.dbufs ≤ cell.new.event_room) }
{
    let Some(all) = events.checked_add(cell.len()) else {
        return Err(NoMemory);
    };
    cell.reserve(dbufs, all)
}

// Evicts one dbuf.
fn evict_one(
    arcs: &Cells,
    rt: &impl Wait,
    party: &mut Party<HeapCell>,
    i: u32,
    cell: &mut Cell<Kept>,
    at: Oid,
)
    requires hand { MayEvict arcs.now i cell.old party.old }
    requires evictable { IsTrue (is_evictable cell.old.limit at (map standing_of cell.old.dbufs)) }
    requires room { 0 < cell.old.event_room }
    ensures evicts { Evicts arcs.now i cell.old cell.new party.old party.new }
    ensures kept { kept_count cell.new.dbufs + 1 ≡ kept_count cell.old.dbufs }
    ensures room { cell.new.event_room + 1 ≡ cell.old.event_room }
    ensures claims { AreClaimedAlike cell.old.dbufs cell.new.dbufs }
{
    told(cell);
    let n = party.number();
    let kept = cell.evict(at);
    cell.note(CellEvent::Evict { n, at });
    give_back(arcs, rt, party, i, kept);
}

// Evicts dbufs until no more than the limit is kept.
pub(crate) fn evict_all(
    arcs: &Cells,
    rt: &impl Wait,
    party: &mut Party<HeapCell>,
    i: u32,
    cell: &mut Cell<Kept>,
)
    requires hand { MayEvict arcs.now i cell.old party.old }
    requires room { length cell.old.dbufs ≤ cell.old.event_room }
    ensures evicts { Evicts arcs.now i cell.old cell.new party.old party.new }
    ensures settled { IsTrue (not (is_over cell.new.limit (map standing_of cell.new.dbufs))) }
    ensures claims { AreClaimedAlike cell.old.dbufs cell.new.dbufs }
{
    while let Some(at) = cell.evictable() {
        told(cell);
        evict_one(arcs, rt, party, i, cell, at);
    }
}

// Ends an operation, whose event is noted: dbufs are evicted until no more than the limit is kept, and the cell is given back.
pub(crate) fn finish(
    arcs: &Cells,
    rt: &impl Wait,
    party: &mut Party<HeapCell>,
    i: u32,
    mut cell: HeapCell,
)
    requires hand { MayEvict arcs.now i cell.value party.old }
    requires room { length cell.value.dbufs ≤ cell.value.event_room }
    ensures finishes { Finishes arcs.now i cell.value party.old party.new }
    ensures claims { ClaimsAre i party.new.number cell.value party.new }
{
    evict_all(arcs, rt, party, i, &mut cell);
    give(arcs, party, i, cell);
}
