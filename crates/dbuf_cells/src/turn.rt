//! A cell is taken, and given back with what was done to it.
ghost use Rattle.std.specs.Prelude.{◌≡◌, IfNone, IfSome, IsTrue};
ghost use Rattle.std.specs.List.{AllByRecursion};
ghost use Rattle.arc_core.specs.Config.{IsConfig};
ghost use Rattle.turn_table.specs.Board.{IsAmong};
ghost use Rattle.arc_table.specs.Cache.{IsPartyOf};
ghost use Rattle.arc_table.specs.Geometry.{IsCell};
ghost use Rattle.arc_table.specs.Looking.{HasNoLook};
ghost use Rattle.dbuf_state.specs.Dbufs.{IsFit, dbuf_oid};
ghost use Rattle.dbuf_state.specs.Oids.{is_distinct};
ghost use Rattle.dbuf_cells.specs.InHand.{AsTaken, ClaimsAre, Gives, IsAtRest, MayGive, TakesAtRest};
ghost use Rattle.dbuf_cells.specs.Kept.{bytes_of, key_of};
ghost use Rattle.dbuf_cells.specs.Turns.{FindsBringing, KeepsClaims};

use crate::kept::{Cells, HeapCell, Kept};
use arc_table::Party;
use dbuf_state::{Cell, DbState, Oid};
use std::sync::Wait;
use std::thread;

// For the proof: what each cell keeps of itself holds of this one.
pub(crate) fn told(cell: &Cell<Kept>)
    ensures fit { AllByRecursion (IsFit key_of bytes_of) cell.now.dbufs }
    ensures once { IsTrue (is_distinct dbuf_oid cell.now.dbufs) }
{
    let _ = cell.state(Oid {
        object: 0,
        block: 0,
    });
}

// Takes a cell, and waits while another party has it.
pub(crate) fn take(arcs: &Cells, rt: &impl Wait, party: &mut Party<HeapCell>, i: u32) -> HeapCell
    requires party { IsPartyOf arcs.now party.old }
    requires look { HasNoLook arcs.now party.old }
    requires valid { IsConfig arcs.now.config }
    requires range { IsCell arcs.now.config i }
    requires not_held { ¬ IsAmong i party.old.held }
    ensures begins { AsTaken arcs.now i party.old result result.value party.new }
    ensures claims { ClaimsAre i party.new.number result.value party.old }
    ensures ledger { party.new.own.ledger ≡ party.old.own.ledger }
{
    let cell = arcs.take_cell(rt, party, i);
    told(&cell);
    cell
}

// Gives a cell back.
pub(crate) fn give(arcs: &Cells, party: &mut Party<HeapCell>, i: u32, cell: HeapCell)
    requires { MayGive arcs.now i cell.value party.old }
    ensures gives { Gives arcs.now i cell.value party.old party.new }
    ensures claims { ClaimsAre i party.new.number cell.value party.new }
    ensures owned { party.new.own.ledger.holds ≡ party.old.own.ledger.holds }
    ensures once { IsTrue (is_distinct dbuf_oid cell.value.dbufs) }
{
    told(&cell);
    arcs.give_cell(party, i, cell);
}

// Takes the cell of a block, where nobody brings the block's bytes; else gives it back as it was.
fn try_at_rest(
    arcs: &Cells,
    rt: &impl Wait,
    party: &mut Party<HeapCell>,
    i: u32,
    at: Oid,
) -> Option<HeapCell>
    requires party { IsPartyOf arcs.now party.old }
    requires look { HasNoLook arcs.now party.old }
    requires valid { IsConfig arcs.now.config }
    requires range { IsCell arcs.now.config i }
    requires not_held { ¬ IsAmong i party.old.held }
    ensures some { IfSome result (λ cell. AsTaken arcs.now i party.old cell cell.value party.new) }
    ensures rests { IfSome result (λ cell. IsAtRest at cell.value.dbufs) }
    ensures claimed { IfSome result (λ cell. ClaimsAre i party.new.number cell.value party.old) }
    ensures none { IfNone result (FindsBringing arcs.now.config i at party.old party.new) }
    ensures claims { IfNone result (KeepsClaims party.old party.new) }
    ensures party { IfNone result (IsPartyOf arcs.now party.new) }
    ensures held { IfNone result (party.new.held ≡ party.old.held) }
    ensures number { IfNone result (party.new.number ≡ party.old.number) }
{
    let cell = take(arcs, rt, party, i);
    if let DbState::Read { n: _ } = cell.state(at) {
        told(&cell);
        give(arcs, party, i, cell);
        return None;
    }
    Some(cell)
}

// Takes the cell of a block once nobody brings the block's bytes any more, where somebody did just before.
fn take_later(
    arcs: &Cells,
    rt: &impl Wait,
    party: &mut Party<HeapCell>,
    i: u32,
    at: Oid,
) -> HeapCell
    requires party { IsPartyOf arcs.now party.old }
    requires look { HasNoLook arcs.now party.old }
    requires valid { IsConfig arcs.now.config }
    requires range { IsCell arcs.now.config i }
    requires not_held { ¬ IsAmong i party.old.held }
    ensures { TakesAtRest arcs.now i at party.old result party.new }
{
    for _ in rt.forever() {
        thread::yield_now();
        if let Some(cell) = try_at_rest(arcs, rt, party, i, at) {
            return cell;
        }
    }
    unreachable!()
}

// Takes the cell of a block once nobody brings the block's bytes.
pub(crate) fn take_at_rest(
    arcs: &Cells,
    rt: &impl Wait,
    party: &mut Party<HeapCell>,
    i: u32,
    at: Oid,
) -> HeapCell
    requires party { IsPartyOf arcs.now party.old }
    requires look { HasNoLook arcs.now party.old }
    requires valid { IsConfig arcs.now.config }
    requires range { IsCell arcs.now.config i }
    requires not_held { ¬ IsAmong i party.old.held }
    ensures { TakesAtRest arcs.now i at party.old result party.new }
{
    // The first round stands outside the loop.
    if let Some(cell) = try_at_rest(arcs, rt, party, i, at) {
        return cell;
    }
    take_later(arcs, rt, party, i, at)
}
