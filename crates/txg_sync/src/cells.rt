//! All cells are taken, by rising numbers, and given back.
ghost use Rattle.std.specs.Prelude.{◌≡◌, ◌+◌, ◌<◌, ◌≤◌, ◌++◌, ◌∷◌, [], IfOk, IsTrue, OnErr, OnOk, length, vec_capacity, vec_len};
ghost use Rattle.std.specs.List.{AllByRecursion};
ghost use Rattle.arc_core.specs.Config.{IsConfig};
ghost use Rattle.arc_table.specs.Cache.{IsPartyOf};
ghost use Rattle.dbuf_state.specs.Dbufs.{IsFit, dbuf_oid};
ghost use Rattle.dbuf_state.specs.Oids.{is_distinct};
ghost use Rattle.dbuf_cells.specs.Kept.{bytes_of, key_of};
ghost use Rattle.dbuf_cells.specs.Turns.{KeepsClaims};
ghost use Rattle.txg_sync.specs.InHand.{HasTakenAll, MayGiveAll};
ghost use Rattle.txg_sync.specs.Turns.{GivesFrom, TakesFrom};

use arc_table::Party;
use blk_ptr::NoMemory;
use dbuf_cells::{Cells, HeapCell, Kept};
use dbuf_state::{Cell, DbState, Oid};
use std::alloc::Global;
use std::sync::Wait;

// For the proof: what each cell keeps of itself holds of this one.
pub(crate) fn told(cell: &Cell<Kept>)
    ensures fit { AllByRecursion (IsFit key_of bytes_of) cell.now.dbufs }
    ensures once { IsTrue (is_distinct dbuf_oid cell.now.dbufs) }
{
    let _ = cell.state(Oid {
        object: 0,
        block: 0,
    });
}

// Adds a cell, for which there is room.
fn append(cells: &mut Vec<HeapCell>, cell: HeapCell)
    requires { vec_len cells.old < vec_capacity cells.old }
    ensures items { cells.new.items ≡ cells.old.items ++ cell ∷ [] }
    ensures len { vec_len cells.new ≡ vec_len cells.old + 1 }
    ensures capacity { vec_capacity cells.old ≤ vec_capacity cells.new }
{
    let _ = cells.push(cell);
}

/// Takes all cells by rising numbers, and waits for each that another party has. Where memory is refused none is taken.
pub(crate) fn take_all(
    alloc: Global,
    arcs: &Cells,
    rt: &impl Wait,
    party: &mut Party<HeapCell>,
) -> Result<Vec<HeapCell>, NoMemory>
    requires party { IsPartyOf arcs.now party.old }
    requires valid { IsConfig arcs.now.config }
    requires free { party.old.held ≡ [] }
    ensures all { IfOk result (λ cells. length cells.items ≡ arcs.now.config.cells) }
    ensures takes { IfOk result (λ cells. TakesFrom 0 cells.items party.old party.new) }
    ensures hand { IfOk result (λ cells. HasTakenAll arcs.now cells.items party.new) }
    ensures number { IfOk result (λ cells. party.new.number ≡ party.old.number) }
    ensures claims { OnOk result (party.new.own.ledger.claims ≡ party.old.own.ledger.claims) }
    ensures err { OnErr result (party.new ≡ party.old) }
{
    let count = arcs.config().cells;
    let mut cells = Vec::with_capacity(alloc, count as usize)?;
    for i in 0..count {
        let cell = arcs.take_cell(rt, party, i);
        told(&cell);
        append(&mut cells, cell);
    }
    Ok(cells)
}

/// Gives all cells back, the last one first.
pub(crate) fn give_all(arcs: &Cells, party: &mut Party<HeapCell>, mut cells: Vec<HeapCell>)
    requires { MayGiveAll arcs.now cells.items party.old }
    ensures gives { GivesFrom 0 cells.items party.old party.new }
    ensures party { IsPartyOf arcs.now party.new }
    ensures free { party.new.held ≡ [] }
    ensures number { party.new.number ≡ party.old.number }
    ensures claims { KeepsClaims party.old party.new }
{
    while let Some(cell) = cells.pop() {
        told(&cell);
        let i = cells.len() as u32;
        arcs.give_cell(party, i, cell);
    }
}
