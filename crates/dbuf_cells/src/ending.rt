//! All cells are ended: what their dbufs keep is given back, and every pin goes (`dnode_evict_dbufs` of OpenZFS's `dnode_sync.c`).
ghost use Rattle.std.specs.Prelude.{◌≡◌, ◌+◌, ◌<◌, [], IsTrue, OnErr, OnOk, false, map};
ghost use Rattle.arc_core.specs.Config.{IsConfig};
ghost use Rattle.arc_table.specs.Cache.{IsPartyOf};
ghost use Rattle.arc_table.specs.Geometry.{IsCell};
ghost use Rattle.dbuf_state.specs.Dbufs.{standing_of};
ghost use Rattle.dbuf_state.specs.Standings.{is_first_kept, none_kept};
ghost use Rattle.dbuf_state.specs.declared.oid.Oid.{Oid};
ghost use Rattle.dbuf_cells.specs.Emptying.{Empties, MayEmpty};
ghost use Rattle.dbuf_cells.specs.Ending.{AnswersEnd, EndsCell, Untouched};
ghost use Rattle.dbuf_cells.specs.InHand.{kept_count};
ghost use Rattle.dbuf_cells.specs.Turns.{KeepsClaims, held_at};

use crate::evict::give_back;
use crate::kept::{Cells, HeapCell, Kept};
use crate::turn::{give, take, told};
use arc_table::Party;
use blk_ptr::NoMemory;
use dbuf_state::{Cell, CellEvent, Oid};
use std::sync::Wait;

// Gives back what the first dbuf keeps that keeps something.
fn drop_first(
    arcs: &Cells,
    rt: &impl Wait,
    party: &mut Party<HeapCell>,
    i: u32,
    cell: &mut Cell<Kept>,
    at: Oid,
)
    requires hand { MayEmpty arcs.now i cell.old party.old }
    requires first { IsTrue (is_first_kept at (map standing_of cell.old.dbufs)) }
    ensures empties { Empties arcs.now i cell.old cell.new party.old party.new }
    ensures kept { kept_count cell.new.dbufs + 1 ≡ kept_count cell.old.dbufs }
    ensures room { cell.new.event_room ≡ cell.old.event_room }
{
    told(cell);
    let kept = cell.unkeep(at);
    give_back(arcs, rt, party, i, kept);
}

// Gives back all that the dbufs of a cell keep, by rising Oids.
fn drop_kept(
    arcs: &Cells,
    rt: &impl Wait,
    party: &mut Party<HeapCell>,
    i: u32,
    cell: &mut Cell<Kept>,
)
    requires hand { MayEmpty arcs.now i cell.old party.old }
    ensures empties { Empties arcs.now i cell.old cell.new party.old party.new }
    ensures none { IsTrue (none_kept (map standing_of cell.new.dbufs)) }
    ensures loose { (at : Oid) → held_at cell.new.dbufs at ≡ false }
    ensures room { cell.new.event_room ≡ cell.old.event_room }
{
    while let Some(at) = cell.first_kept() {
        drop_first(arcs, rt, party, i, cell, at);
    }
    told(cell);
}

// Ends one cell. After want of memory it is as before.
fn end_cell(
    arcs: &Cells,
    rt: &impl Wait,
    party: &mut Party<HeapCell>,
    i: u32,
) -> Result<(), NoMemory>
    requires party { IsPartyOf arcs.now party.old }
    requires valid { IsConfig arcs.now.config }
    requires range { IsCell arcs.now.config i }
    requires free { party.old.held ≡ [] }
    ensures ok { OnOk result (EndsCell arcs.now.config i party.old party.new) }
    ensures err { OnErr result (Untouched arcs.now.config i party.old party.new) }
    ensures party { IsPartyOf arcs.now party.new }
    ensures free { party.new.held ≡ [] }
    ensures number { party.new.number ≡ party.old.number }
    ensures claims { KeepsClaims party.old party.new }
{
    let mut cell = take(arcs, rt, party, i);
    if let Err(_) = cell.reserve(0, 1) {
        give(arcs, party, i, cell);
        return Err(NoMemory);
    }
    let n = party.number();
    drop_kept(arcs, rt, party, i, &mut cell);
    cell.empty();
    cell.note(CellEvent::End { n });
    give(arcs, party, i, cell);
    Ok(())
}

/// Ends all cells by rising numbers, each in one turn: what its dbufs keep is dropped by rising Oids, every clean block is uncached, every pin
/// goes, and that is noted. After NoMemory the cells of lower numbers are ended, and the others are as before. The party holds no turn.
/// It may wait.
pub fn end_cells(arcs: &Cells, rt: &impl Wait, party: &mut Party<HeapCell>) -> Result<(), NoMemory>
    requires party { IsPartyOf arcs.now party.old }
    requires valid { IsConfig arcs.now.config }
    requires free { party.old.held ≡ [] }
    ensures answer { AnswersEnd arcs.now.config party.old party.new result }
    ensures party { IsPartyOf arcs.now party.new }
    ensures free { party.new.held ≡ [] }
    ensures number { party.new.number ≡ party.old.number }
    ensures claims { KeepsClaims party.old party.new }
{
    let count = arcs.config().cells;
    for i in 0..count {
        end_cell(arcs, rt, party, i)?;
    }
    Ok(())
}
