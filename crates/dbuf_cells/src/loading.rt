//! A dbuf's bytes are brought (`dbuf_read` of OpenZFS's `dbuf.c`). The block is marked as being read, so that nobody else brings it, and its
//! cell is given back; no turn is held while it is read.
ghost use Rattle.std.specs.Prelude.{◌≡◌, ◌≢◌, ◌+◌, ◌≤◌, [], ◌∷◌, IfErr, IsTrue, None, OnErr, OnOk, length};
ghost use Rattle.arc_core.specs.Config.{IsConfig};
ghost use Rattle.turn_table.specs.Board.{IsAmong};
ghost use Rattle.arc_table.specs.Cache.{IsPartyOf};
ghost use Rattle.arc_table.specs.Geometry.{IsCell, cell_number};
ghost use Rattle.arc_table.specs.Looking.{HasNoLook};
ghost use Rattle.arc_table.specs.Reading.{KeepsDevice, outside};
ghost use Rattle.vdev_io.specs.Calls.{KeepsPool};
ghost use Rattle.dbuf_state.specs.Dbufs.{dbuf_oid};
ghost use Rattle.dbuf_state.specs.InHand.{are_at_rest};
ghost use Rattle.dbuf_state.specs.Oids.{is_distinct};
ghost use Rattle.dbuf_cells.specs.Bringing.{Claims, DropsRead, IsUnmarked, handed, is_some_made};
ghost use Rattle.dbuf_cells.specs.InHand.{AsTaken, ClaimsAre, Gives, HasGiven, IsAtRest, IsRoomier, MayGive};
ghost use Rattle.dbuf_cells.specs.Loading.{AreHeldBut, AreUnclaimed, BringsAlone, ClaimsBesides, EndsLoad, HandsOn, HasUnread, IsBroughtBy, IsReadOf, IsToLoad, Keeps, KeepsOthers, SomeTaken, TakenAlone, mapped_in, to_load};
ghost use Rattle.dbuf_cells.specs.Turns.{OnHeap};

use crate::evict::make_room;
use crate::kept::{Cells, HeapCell, Kept};
use crate::turn::{give, take, told};
use arc_table::{Party, Read};
use blk_ptr::{Ptr, Shows};
use dbuf_state::{Cell, CellEvent, DbState, DbufFault, Mapped, Oid};
use std::sync::Wait;
use vdev_io::{CacheDev, Pool};

// Marks a block as being read by the party, and gives its cell back.
fn begin_load(
    arcs: &Cells,
    party: &mut Party<HeapCell>,
    i: u32,
    mut cell: HeapCell,
    at: Oid,
    ptr: Ptr,
)
    requires hand { MayGive arcs.now i cell.value party.old }
    requires to_load { IsToLoad at ptr cell.value.dbufs }
    requires once { IsTrue (is_distinct dbuf_oid cell.value.dbufs) }
    ensures gives { Gives arcs.now i cell.value party.old party.new }
    ensures claims { Claims i at ptr party.new }
    ensures besides { ClaimsBesides i party.new.number at cell.value.dbufs party.new }
{
    let _ = ptr;
    let n = party.number();
    cell.reading(n, at);
    give(arcs, party, i, cell);
}

// Takes the cell of a block that the party is reading.
fn retake(
    arcs: &Cells,
    rt: &impl Wait,
    party: &mut Party<HeapCell>,
    i: u32,
    at: Oid,
    ptr: Ptr,
) -> HeapCell
    requires party { IsPartyOf arcs.now party.old }
    requires free { party.old.held ≡ [] }
    requires valid { IsConfig arcs.now.config }
    requires range { IsCell arcs.now.config i }
    requires claims { Claims i at ptr party.old }
    ensures begins { AsTaken arcs.now i party.old result result.value party.new }
    ensures reading { IsBroughtBy party.new.number at ptr result.value.dbufs }
    ensures ledger { party.new.own.ledger ≡ party.old.own.ledger }
    ensures claimed { ClaimsAre i party.new.number result.value party.old }
    ensures once { IsTrue (is_distinct dbuf_oid result.value.dbufs) }
{
    let _ = (at, ptr);
    let cell = take(arcs, rt, party, i);
    told(&cell);
    cell
}

// Takes the mark back, since the block could not be read.
fn end_unread(arcs: &Cells, rt: &impl Wait, party: &mut Party<HeapCell>, i: u32, at: Oid, ptr: Ptr)
    requires party { IsPartyOf arcs.now party.old }
    requires free { party.old.held ≡ [] }
    requires valid { IsConfig arcs.now.config }
    requires range { IsCell arcs.now.config i }
    requires claims { Claims i at ptr party.old }
    ensures turn { (mid : OnHeap) × HasGiven arcs.now i party.old mid [] [] party.new }
    ensures unmarked { IsUnmarked i at party.new }
    ensures others { KeepsOthers i at party.old party.new }
{
    let mut cell = retake(arcs, rt, party, i, at, ptr);
    cell.unread(at);
    give(arcs, party, i, cell);
}

// The number under which a cell holds blocks.
fn number_of(arcs: &Cells, i: u32) -> u32
    requires valid { IsConfig arcs.now.config }
    requires range { IsCell arcs.now.config i }
    ensures { result ≡ cell_number arcs.now.config i }
{
    arcs.config().callers + 1 + i
}

// Makes what a read gave the cell's, with room for a Load and an operation behind it. Err is want of memory: what was read comes back.
fn hand_on(
    arcs: &Cells,
    rt: &impl Wait,
    party: &mut Party<HeapCell>,
    i: u32,
    cell: &mut Cell<Kept>,
    ptr: &Ptr,
    read: Read,
) -> Result<Kept, Read>
    requires party { IsPartyOf arcs.now party.old }
    requires look { HasNoLook arcs.now party.old }
    requires valid { IsConfig arcs.now.config }
    requires range { IsCell arcs.now.config i }
    requires among { IsAmong i party.old.held }
    requires read { IsReadOf ptr.now party.old read }
    ensures log { IsRoomier cell.old cell.new }
    ensures room { OnOk result (2 + length cell.old.dbufs ≤ cell.new.event_room) }
    ensures hands { HandsOn arcs.now.config i ptr.now read party.old party.new result }
{
    let Ok(()) = make_room(cell, 0, 2) else {
        return Err(read);
    };
    match read {
        Read::Held(hold, from) => match arcs.hand(rt, party, hold, number_of(arcs, i)) {
            Ok(hold) => Ok(Kept::Held(hold)),
            Err(hold) => Err(Read::Held(hold, from)),
        },
        Read::Past { block, kept: _ } => Ok(Kept::Loose {
            key: ptr.key,
            block,
        }),
    }
}

// Keeps what was read in the cell, and notes the Load. Err is want of memory: the mark is taken back, and what was read comes back.
fn keep_read(
    arcs: &Cells,
    rt: &impl Wait,
    party: &mut Party<HeapCell>,
    i: u32,
    cell: &mut Cell<Kept>,
    at: Oid,
    ptr: &Ptr,
    read: Read,
) -> Result<(), Read>
    requires taken { SomeTaken arcs.now i cell.old party.old }
    requires reading { IsBroughtBy party.old.number at ptr.now cell.old.dbufs }
    requires read { IsReadOf ptr.now party.old read }
    ensures ok { OnOk result (Keeps arcs.now i at ptr.now read cell.old cell.new party.old party.new) }
    ensures err { IfErr result (λ back. HasUnread arcs.now i at ptr.now read back cell.old cell.new party.old party.new) }
    ensures unclaimed { AreUnclaimed at cell.old.dbufs cell.new.dbufs }
    ensures held { OnOk result (AreHeldBut at (is_some_made (handed party.old.number (cell_number arcs.now.config i) read)) cell.old.dbufs cell.new.dbufs) }
{
    told(cell);
    match hand_on(arcs, rt, party, i, cell, ptr, read) {
        Ok(kept) => {
            let held = kept.held();
            cell.loaded(at, kept);
            cell.note(CellEvent::Load {
                n: party.number(),
                at,
                held,
            });
            Ok(())
        }
        Err(read) => {
            cell.unread(at);
            Err(read)
        }
    }
}

// Gives back what the party read.
fn drop_read(arcs: &Cells, rt: &impl Wait, party: &mut Party<HeapCell>, ptr: &Ptr, read: Read)
    requires party { IsPartyOf arcs.now party.old }
    requires look { HasNoLook arcs.now party.old }
    requires read { IsReadOf ptr.now party.old read }
    ensures { DropsRead arcs.now.config read party.old party.new }
{
    let _ = ptr;
    if let Read::Held(hold, _) = read {
        arcs.drop_hold(rt, party, hold);
    }
}

// Takes the cell again, where the block was read, and keeps what was read in it.
fn end_load(
    arcs: &Cells,
    rt: &impl Wait,
    party: &mut Party<HeapCell>,
    i: u32,
    at: Oid,
    ptr: &Ptr,
    read: Read,
) -> Result<HeapCell, DbufFault>
    requires party { IsPartyOf arcs.now party.old }
    requires free { party.old.held ≡ [] }
    requires valid { IsConfig arcs.now.config }
    requires range { IsCell arcs.now.config i }
    requires claims { Claims i at ptr.now party.old }
    requires read { IsReadOf ptr.now party.old read }
    ensures { EndsLoad arcs.now i at ptr.now read party.old party.new result }
{
    let mut cell = retake(arcs, rt, party, i, at, *ptr);
    match keep_read(arcs, rt, party, i, &mut cell, at, ptr, read) {
        Ok(()) => Ok(cell),
        Err(read) => {
            give(arcs, party, i, cell);
            drop_read(arcs, rt, party, ptr, read);
            Err(DbufFault::NoMemory)
        }
    }
}

// Brings the bytes of a block, whose cell the party has just taken: it is given back meanwhile, and taken again.
fn load<P: Pool, D: CacheDev>(
    arcs: &Cells,
    rt: &impl Wait,
    party: &mut Party<HeapCell>,
    i: u32,
    cell: HeapCell,
    at: Oid,
    ptr: Ptr,
    tick: u64,
    pool: &mut P,
    cache: &mut D,
) -> Result<HeapCell, DbufFault>
    requires hand { TakenAlone arcs.now i cell party.old }
    requires to_load { IsToLoad at ptr cell.value.dbufs }
    requires once { IsTrue (is_distinct dbuf_oid cell.value.dbufs) }
    ensures brings { BringsAlone P.Pool D.CacheDev arcs.now i at tick (outside pool.old cache.old) (outside pool.new cache.new) cell party.old party.new result }
    ensures pool { KeepsPool P.Pool pool.old pool.new }
    ensures cache { KeepsDevice D.CacheDev cache.old cache.new }
{
    begin_load(arcs, party, i, cell, at, ptr);
    match arcs.read(rt, party, &ptr, tick, pool, cache) {
        Ok(read) => end_load(arcs, rt, party, i, at, &ptr, read),
        Err(fault) => {
            end_unread(arcs, rt, party, i, at, ptr);
            Err(DbufFault::from(fault))
        }
    }
}

// Whose bytes have to be brought, by what is mapped and how far its dbuf is.
fn to_load_of(mapped: Option<Mapped>, state: DbState) -> Option<Ptr>
    ensures { result ≡ to_load mapped state }
{
    match mapped {
        Some(Mapped::Clean(ptr)) => match state {
            DbState::Uncached => Some(ptr),
            DbState::Read { n: _ } => None,
            DbState::Fill => None,
            DbState::Cached => None,
            DbState::Evicting => None,
        },
        Some(Mapped::Dirty { size: _ }) => None,
        None => None,
    }
}

// Brings the bytes of a mapped block, whose cell the party has just taken, where its dbuf doesn't have them.
pub(crate) fn bring<P: Pool, D: CacheDev>(
    arcs: &Cells,
    rt: &impl Wait,
    party: &mut Party<HeapCell>,
    i: u32,
    cell: HeapCell,
    at: Oid,
    tick: u64,
    pool: &mut P,
    cache: &mut D,
) -> Result<HeapCell, DbufFault>
    requires hand { TakenAlone arcs.now i cell party.old }
    requires rests { IsAtRest at cell.value.dbufs }
    requires mapped { mapped_in at cell.value.dbufs ≢ None }
    ensures brings { BringsAlone P.Pool D.CacheDev arcs.now i at tick (outside pool.old cache.old) (outside pool.new cache.new) cell party.old party.new result }
    ensures pool { KeepsPool P.Pool pool.old pool.new }
    ensures cache { KeepsDevice D.CacheDev cache.old cache.new }
{
    told(&cell);
    let mapped = cell.mapped(at);
    let state = cell.state(at);
    match to_load_of(mapped, state) {
        Some(ptr) => load(arcs, rt, party, i, cell, at, ptr, tick, pool, cache),
        None => Ok(cell),
    }
}
