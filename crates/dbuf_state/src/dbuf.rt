//! One dbuf: a block of an object as a cell keeps it.
ghost use Rattle.std.specs.Prelude.{◌≡◌, IsTrue, OnOk, OnErr, IfOk};
ghost use Rattle.dbuf_state.specs.CellLog.{fresh};
ghost use Rattle.dbuf_state.specs.Dbufs.{IsInside, applied, given, standing_of, takes_memory};

use crate::bytes::Bytes;
use crate::change::Change;
use crate::oid::Oid;
use crate::pins::Pins;
use crate::standing::Standing;
use crate::state::DbState;
use blk_ptr::{NoMemory, Ptr};
use std::alloc::Global;

/// What a block is.
#[derive(Drop)]
pub enum Content {
    /// It is in the pool, where this pointer names it.
    Clean(Ptr),
    /// It was written since the last transaction group.
    Dirty(Bytes),
}

/// A block of an object as a cell keeps it (`dmu_buf_impl_t` of OpenZFS's `dbuf.h`).
#[derive(Drop)]
pub struct Dbuf<H> {
    /// Which block of which object it is.
    pub at: Oid,
    /// What the block is.
    pub content: Content,
    /// How far it is.
    pub state: DbState,
    /// What keeps the block's bytes, where it is clean and cached.
    pub kept: Option<H>,
    /// Who keeps it from being evicted.
    pub pins: Pins,
    /// How many events the cell had had when it was last used, that use included; 0 where it wasn't used.
    pub used: u64,
}

/// A dbuf of a block that nobody has used yet.
pub fn fresh<H>(alloc: Global, at: Oid, content: Content, state: DbState) -> Dbuf<H>
    ensures { result ≡ fresh at content state }
{
    Dbuf {
        at,
        content,
        state,
        kept: None,
        pins: Pins::new(alloc),
        used: 0,
    }
}

/// How a dbuf stands when something is to be evicted.
pub fn standing<H>(dbuf: &Dbuf<H>) -> Standing
    ensures { result ≡ standing_of dbuf.now }
{
    let pinned = !dbuf.pins.is_empty();
    let (kept, size) = match (&dbuf.content, dbuf.state) {
        (Content::Clean(ptr), DbState::Cached) => (true, ptr.key.size),
        _ => (false, 0),
    };
    Standing {
        at: dbuf.at,
        used: dbuf.used,
        size,
        kept,
        pinned,
    }
}

/// Changes a dbuf, and gives what is taken out of it.
pub fn apply<H: Drop>(dbuf: &mut Dbuf<H>, change: Change<H>) -> Result<Option<H>, NoMemory>
    requires { IsInside change dbuf.old.content }
    ensures ok { OnOk result (dbuf.new ≡ applied change dbuf.old) }
    ensures err { OnErr result (dbuf.new ≡ dbuf.old) }
    ensures given { IfOk result (λ kept. kept ≡ given change dbuf.old) }
    ensures memory { OnErr result (IsTrue (takes_memory change)) }
{
    match change {
        Change::Reading(n) => dbuf.state = DbState::Read { n },
        Change::Unread => dbuf.state = DbState::Uncached,
        Change::Keep(kept) => {
            dbuf.state = DbState::Cached;
            dbuf.kept = Some(kept);
        }
        Change::Unkeep(state) => {
            dbuf.state = DbState::Evicting;
            let kept = dbuf.kept.take();
            dbuf.state = state;
            return Ok(kept);
        }
        Change::Dirty(bytes) => {
            dbuf.state = DbState::Fill;
            dbuf.kept = None;
            dbuf.content = Content::Dirty(bytes);
            dbuf.state = DbState::Cached;
        }
        Change::Written(from, bytes) => {
            if let Content::Dirty(dirty) = &mut dbuf.content {
                dirty.patch(from as usize, bytes.bytes());
            }
        }
        Change::Synced(ptr, kept) => {
            dbuf.content = Content::Clean(ptr);
            dbuf.state = DbState::Cached;
            dbuf.kept = Some(kept);
        }
        Change::Pin(n) => dbuf.pins.add(n)?,
        Change::Unpin(n) => dbuf.pins.take(n),
        Change::Used(tick) => dbuf.used = tick,
        Change::Clear => {
            dbuf.pins.clear();
            if let (Content::Clean(_), DbState::Fill | DbState::Cached | DbState::Evicting) = (
                &dbuf.content,
                dbuf.state,
            ) {
                dbuf.state = DbState::Uncached;
            }
        }
    }
    Ok(None)
}
