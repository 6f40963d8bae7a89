//! A pin on a dbuf is taken back (`dbuf_rele` of OpenZFS's `dbuf.c`).
ghost use Rattle.std.specs.Prelude.{◌≡◌, [], IfErr, OnOk, OnErr};
ghost use Rattle.arc_core.specs.Config.{IsConfig};
ghost use Rattle.arc_table.specs.Cache.{IsPartyOf};
ghost use Rattle.dbuf_cells.specs.InHand.{IsNotUnpinned, IsRoomier, IsUnpinned};
ghost use Rattle.dbuf_cells.specs.Turns.{KeepsClaims};
ghost use Rattle.dbuf_cells.specs.Unholding.{AnswersUnhold};

use crate::evict::{finish, make_room};
use crate::kept::{Cells, HeapCell, Kept};
use crate::place::cell_of;
use crate::turn::{give, take_at_rest};
use arc_table::Party;
use dbuf_state::{Cell, CellEvent, DbufFault, Oid};
use std::sync::Wait;

// Takes back a pin of the number's, and notes it, with room for the evictions that may follow.
fn unpin(cell: &mut Cell<Kept>, n: u32, at: Oid) -> Result<(), DbufFault>
    ensures ok { OnOk result (IsUnpinned n at cell.old cell.new) }
    ensures err { IfErr result (IsNotUnpinned n at cell.old) }
    ensures same { OnErr result (IsRoomier cell.old cell.new) }
{
    let Ok(()) = make_room(cell, 0, 1) else {
        return Err(DbufFault::NoMemory);
    };
    let pinned = cell.unpin(n, at);
    if pinned {
        cell.note(CellEvent::Unpin { n, at });
        Ok(())
    } else {
        Err(DbufFault::NoPin(at))
    }
}

/// Takes back a pin of the party's on a block, in one turn of the block's cell; then dbufs are evicted while the cell keeps more than its
/// limit. NoPin where the party has no pin there, and NoMemory: the cell is as before. The party holds no turn. It may wait.
pub fn unhold(
    arcs: &Cells,
    rt: &impl Wait,
    party: &mut Party<HeapCell>,
    at: Oid,
) -> Result<(), DbufFault>
    requires party { IsPartyOf arcs.now party.old }
    requires valid { IsConfig arcs.now.config }
    requires free { party.old.held ≡ [] }
    ensures answer { AnswersUnhold arcs.now.config at party.old party.new result }
    ensures party { IsPartyOf arcs.now party.new }
    ensures free { party.new.held ≡ [] }
    ensures number { party.new.number ≡ party.old.number }
    ensures claims { KeepsClaims party.old party.new }
{
    let i = cell_of(arcs, at);
    let mut cell = take_at_rest(arcs, rt, party, i, at);
    let n = party.number();
    match unpin(&mut cell, n, at) {
        Ok(()) => {
            finish(arcs, rt, party, i, cell);
            Ok(())
        }
        Err(fault) => {
            give(arcs, party, i, cell);
            Err(fault)
        }
    }
}
