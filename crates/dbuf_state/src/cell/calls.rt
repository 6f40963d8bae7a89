//! What is done to the dbufs of a cell.
ghost use Rattle.std.specs.Prelude.{◌≡◌, ◌+◌, ◌-◌, ◌<◌, ◌≤◌, ◌++◌, ◌∷◌, [], ◌↔◌, true, false, not, ◌&&◌, if◌then◌else◌, Some, IsTrue, OnOk, OnErr, length, map, get_or, slice_set, is_none};
ghost use Rattle.std.specs.Bool.{OnFalse};
ghost use Rattle.blk_ptr.specs.Size.{IsBlockSize};
ghost use Rattle.dbuf_state.specs.declared.dbuf.Content.TheVariants as content;
ghost use Rattle.dbuf_state.specs.declared.dbuf.Dbuf.{Dbuf};
ghost use Rattle.dbuf_state.specs.declared.state.DbState.TheVariants as state;
ghost use Rattle.dbuf_state.specs.CellLog.{fresh, noted, touched};
ghost use Rattle.dbuf_state.specs.Dbufs.{DbufHas, IsDirtyOf, IsFit, IsInside, IsKeptOf, IsOfContent, applied, cached_with, cleared, dbuf_at, dbuf_is, dbuf_oid, dirty_with, given, is_cached, is_clean_in, is_dirty, is_evicting, is_reading, is_uncached, may_dirty, pinned_by, reading_by, size_of, standing_of, synced_to, takes_memory, unpinned_by, unread, with_dbuf, without_kept, written_at};
ghost use Rattle.dbuf_state.specs.Oids.{has_item, with_item};
ghost use Rattle.dbuf_state.specs.Pins.{has_pin};
ghost use Rattle.dbuf_state.specs.Standings.{is_evictable, none_kept};

use super::Cell;
use crate::bytes::Bytes;
use crate::change::Change;
use crate::dbuf::{Content, Dbuf, fresh};
use crate::event::CellEvent;
use crate::oid::Oid;
use crate::shown::Shown;
use crate::state::{DbState, Mapping};
use blk_ptr::{NoMemory, Ptr, Shows};

impl<H: Shows + Drop> Cell<H> {
    // Changes the dbuf of an Oid in a way that takes no memory.
    fn done(&mut self, at: Oid, change: Change<H>) -> Option<H>
        requires free { takes_memory change ≡ false }
        requires inside { DbufHas (λ d. IsInside change d.content) (dbuf_at at self.old.dbufs) }
        requires fits { DbufHas (λ d. IsFit H.key_of H.bytes_of d → IsFit H.key_of H.bytes_of (applied change d)) (dbuf_at at self.old.dbufs) }
        ensures dbufs { self.new ≡ record self.old { dbufs = with_dbuf at (applied change) self.old.dbufs } }
        ensures given { DbufHas (λ d. result ≡ given change d) (dbuf_at at self.old.dbufs) }
    {
        let Ok(given) = self.alter(at, change) else {
            unreachable!();
        };
        given
    }

    // Takes out what a dbuf keeps of a clean block.
    fn take_out(&mut self, at: Oid, state: DbState) -> H
        requires cached { IsTrue (dbuf_is (is_clean_in is_cached) at self.old.dbufs) }
        requires emptied { is_cached state ≡ false }
        ensures dbufs { self.new ≡ record self.old { dbufs = with_dbuf at (without_kept state) self.old.dbufs } }
        ensures kept { DbufHas (λ d. d.kept ≡ Some result) (dbuf_at at self.old.dbufs) }
        ensures of { DbufHas (λ d. IsOfContent H.key_of H.bytes_of result d.content) (dbuf_at at self.old.dbufs) }
    {
        // For the proof: what the cell keeps of itself holds here.
        let _ = &self.limit;
        let Some(kept) = self.done(at, Change::Unkeep(state)) else {
            unreachable!();
        };
        kept
    }

    /// Maps an Oid to a block of the pool, before anything is done to the cell. After want of memory the cell is as before.
    pub fn map(&mut self, at: Oid, ptr: Ptr) -> Result<(), NoMemory>
        requires absent { has_item dbuf_oid at self.old.dbufs ≡ false }
        requires first { self.old.history ≡ [] }
        ensures ok { OnOk result (self.new ≡ record self.old {
          opening = self.old.opening ++ record { at = at; ptr = ptr } ∷ [];
          dbufs = self.old.dbufs ++ fresh at (content.Clean ptr) state.Uncached ∷ [];
          dbuf_room = self.new.dbuf_room;
        }) }
        ensures err { OnErr result (self.new ≡ record self.old { dbuf_room = self.new.dbuf_room }) }
    {
        self.reserve_dbufs(1)?;
        self.opening.push(Mapping { at, ptr })?;
        let dbuf = fresh(self.alloc, at, Content::Clean(ptr), DbState::Uncached);
        self.add(dbuf);
        Ok(())
    }

    /// `n` begins to bring the bytes of a clean block (`dbuf_read` of OpenZFS's `dbuf.c`).
    pub fn reading(&mut self, n: u32, at: Oid)
        requires { IsTrue (dbuf_is (is_clean_in is_uncached) at self.old.dbufs) }
        ensures { self.new ≡ record self.old { dbufs = with_dbuf at (reading_by n) self.old.dbufs } }
    {
        self.done(at, Change::Reading(n));
    }

    /// The bytes of a clean block were brought: the dbuf keeps what has them (`dbuf_read_done` of OpenZFS's `dbuf.c`).
    pub fn loaded(&mut self, at: Oid, kept: H)
        requires reading { IsTrue (dbuf_is (is_clean_in is_reading) at self.old.dbufs) }
        requires of { DbufHas (λ d. IsOfContent H.key_of H.bytes_of kept d.content) (dbuf_at at self.old.dbufs) }
        ensures { self.new ≡ record self.old { dbufs = with_dbuf at (cached_with kept) self.old.dbufs } }
    {
        self.done(at, Change::Keep(kept));
    }

    /// The bytes of a clean block could not be brought.
    pub fn unread(&mut self, at: Oid)
        requires { IsTrue (dbuf_is (is_clean_in is_reading) at self.old.dbufs) }
        ensures { self.new ≡ record self.old { dbufs = with_dbuf at unread self.old.dbufs } }
    {
        self.done(at, Change::Unread);
    }

    /// Takes out what a dbuf keeps of a clean block, which is then on its way out.
    pub fn unkeep(&mut self, at: Oid) -> H
        requires { IsTrue (dbuf_is (is_clean_in is_cached) at self.old.dbufs) }
        ensures dbufs { self.new ≡ record self.old { dbufs = with_dbuf at (without_kept state.Evicting) self.old.dbufs } }
        ensures kept { DbufHas (λ d. d.kept ≡ Some result) (dbuf_at at self.old.dbufs) }
        ensures of { DbufHas (λ d. IsOfContent H.key_of H.bytes_of result d.content) (dbuf_at at self.old.dbufs) }
    {
        self.take_out(at, DbState::Evicting)
    }

    /// Puts back what was on its way out.
    pub fn rekeep(&mut self, at: Oid, kept: H)
        requires evicting { IsTrue (dbuf_is (is_clean_in is_evicting) at self.old.dbufs) }
        requires of { DbufHas (λ d. IsOfContent H.key_of H.bytes_of kept d.content) (dbuf_at at self.old.dbufs) }
        ensures { self.new ≡ record self.old { dbufs = with_dbuf at (cached_with kept) self.old.dbufs } }
    {
        self.done(at, Change::Keep(kept));
    }

    /// Writes a whole block, which is mapped where it wasn't before (`dbuf_dirty` of OpenZFS's `dbuf.c`).
    pub fn dirty_with(&mut self, at: Oid, bytes: Vec<u8>)
        requires free { IsTrue (may_dirty at self.old.dbufs) }
        requires size { IsBlockSize (length bytes.items) }
        requires room { has_item dbuf_oid at self.old.dbufs ≡ false → 0 < self.old.dbuf_room }
        ensures { self.new ≡ record self.old {
          dbufs = with_item dbuf_oid at (dirty_with bytes.items) (fresh at (content.Dirty bytes.items) state.Cached) self.old.dbufs;
          dbuf_room = if has_item dbuf_oid at self.old.dbufs then self.old.dbuf_room else self.old.dbuf_room - 1;
        } }
    {
        let bytes = Bytes::new(bytes);
        if self.has(at) {
            self.done(at, Change::Dirty(bytes));
        } else {
            let dbuf = fresh(self.alloc, at, Content::Dirty(bytes), DbState::Cached);
            self.add(dbuf);
        }
    }

    /// Writes over a part of a dirty block.
    pub fn write_at(&mut self, at: Oid, from: u32, bytes: &Shown)
        requires dirty { IsTrue (dbuf_is is_dirty at self.old.dbufs) }
        requires inside { DbufHas (λ d. from + length bytes.now ≤ size_of d.content) (dbuf_at at self.old.dbufs) }
        ensures { self.new ≡ record self.old { dbufs = with_dbuf at (written_at from bytes.now) self.old.dbufs } }
    {
        self.done(at, Change::Written(from, Shown::of(bytes.bytes())));
    }

    /// A dirty block was written to the pool, where this pointer names it: it is clean, and its dbuf keeps what has its bytes
    /// (`dbuf_write_done` of OpenZFS's `dbuf.c`).
    pub fn synced(&mut self, at: Oid, ptr: Ptr, kept: H)
        requires dirty { DbufHas (λ d. IsDirtyOf ptr d.content) (dbuf_at at self.old.dbufs) }
        requires of { IsKeptOf H.key_of H.bytes_of kept ptr }
        ensures { self.new ≡ record self.old { dbufs = with_dbuf at (synced_to ptr kept) self.old.dbufs } }
    {
        self.done(at, Change::Synced(ptr, kept));
    }

    /// `n` keeps a dbuf from being evicted, once more (`dbuf_add_ref` of OpenZFS's `dbuf.c`). After want of memory the cell is as before.
    pub fn pin(&mut self, n: u32, at: Oid) -> Result<(), NoMemory>
        ensures ok { OnOk result (self.new ≡ record self.old { dbufs = with_dbuf at (pinned_by n) self.old.dbufs }) }
        ensures err { OnErr result (self.new ≡ self.old) }
    {
        if self.has(at) {
            self.alter(at, Change::Pin(n))?;
        }
        Ok(())
    }

    /// `n` takes one of its pins back (`dbuf_rele` of OpenZFS's `dbuf.c`); false where it has none there.
    pub fn unpin(&mut self, n: u32, at: Oid) -> bool
        ensures pinned { result ≡ dbuf_is (λ d. has_pin n d.pins) at self.old.dbufs }
        ensures dbufs { self.new ≡ record self.old { dbufs = with_dbuf at (unpinned_by n) self.old.dbufs } }
        ensures unpinned { OnFalse result (self.new ≡ self.old) }
    {
        let pinned = self.pinned(n, at);
        if pinned {
            self.done(at, Change::Unpin(n));
        }
        pinned
    }

    // Whether `n` has a pin there.
    fn pinned(&self, n: u32, at: Oid) -> bool
        ensures { result ≡ dbuf_is (λ d. has_pin n d.pins) at self.now.dbufs }
    {
        match self.dbuf(at) {
            Some(dbuf) => dbuf.pins.has(n),
            None => false,
        }
    }

    /// Takes the dbuf that is to be evicted out of the cache (`dbuf_evict_one` of OpenZFS's `dbuf.c`).
    pub fn evict(&mut self, at: Oid) -> H
        requires { IsTrue (is_evictable self.old.limit at (map standing_of self.old.dbufs)) }
        ensures dbufs { self.new ≡ record self.old { dbufs = with_dbuf at (without_kept state.Uncached) self.old.dbufs } }
        ensures kept { DbufHas (λ d. d.kept ≡ Some result) (dbuf_at at self.old.dbufs) }
        ensures of { DbufHas (λ d. IsOfContent H.key_of H.bytes_of result d.content) (dbuf_at at self.old.dbufs) }
    {
        // For the proof: what the cell keeps of itself holds here.
        let _ = &self.limit;
        self.take_out(at, DbState::Uncached)
    }

    // Empties the dbuf at a place.
    fn clear(&mut self, place: usize)
        requires within { place < length self.old.dbufs }
        requires none { (d : Dbuf H) → (standing_of (get_or self.old.dbufs place d)).kept ≡ false }
        ensures { (d : Dbuf H) → self.new ≡ record self.old { dbufs = slice_set self.old.dbufs place (cleared (get_or self.old.dbufs place d)) } }
    {
        let Ok(_) = self.change(place, Change::Clear) else {
            unreachable!();
        };
    }

    /// Empties the cell, whose dbufs keep nothing any more: every clean dbuf that isn't being read is uncached, and every pin goes.
    pub fn empty(&mut self)
        requires { IsTrue (none_kept (map standing_of self.old.dbufs)) }
        ensures { self.new ≡ record self.old { dbufs = map cleared self.old.dbufs } }
    {
        for place in 0..self.dbufs.len() {
            self.clear(place);
        }
    }

    /// Appends an event, for which there is room. Where it is a use, its Oid is the last used one.
    pub fn note(&mut self, event: CellEvent)
        requires { 0 < self.old.event_room }
        ensures { self.new ≡ noted event self.old }
    {
        let tick = self.history.len() as u64 + 1;
        self.touch(event.use_of(), tick);
        self.append(event);
    }

    // Notes when a dbuf was last used.
    fn touch(&mut self, used: Option<Oid>, tick: u64)
        ensures { self.new ≡ record self.old { dbufs = touched tick used self.old.dbufs } }
    {
        let Some(at) = used else {
            return;
        };
        if self.has(at) {
            self.done(at, Change::Used(tick));
        }
    }

    // Appends an event.
    fn append(&mut self, event: CellEvent)
        requires { 0 < self.old.event_room }
        ensures { self.new ≡ record self.old { history = self.old.history ++ event ∷ []; event_room = self.old.event_room - 1 } }
    {
        self.history.push(&event);
    }
}
