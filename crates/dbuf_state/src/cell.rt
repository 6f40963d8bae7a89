//! One cell: its dbufs and its history.
ghost use Rattle.std.specs.Prelude.{◌≡◌, ◌+◌, ◌-◌, ◌<◌, ◌≤◌, ◌++◌, ◌∷◌, [], false, IsTrue, IfSome, IfOk, OnOk, OnErr, length, slice_set, get_or, option_copied, position};
ghost use Rattle.std.specs.List.{list_any};
ghost use Rattle.indexmap.specs.IndexSet.{spare};
ghost use Rattle.dbuf_state.specs.CellLog.{opening_log};
ghost use Rattle.dbuf_state.specs.declared.dbuf.Dbuf.{Dbuf};
ghost use Rattle.dbuf_state.specs.Dbufs.{DbufHas, IsFit, IsInside, applied, dbuf_at, dbuf_oid, given, takes_memory, with_dbuf};
ghost use Rattle.dbuf_state.specs.Oids.{has_item, oid_eq};

use crate::change::Change;
use crate::dbuf::{Dbuf, apply, standing};
use crate::history::CellHistory;
use crate::index::Index;
use crate::oid::Oid;
use crate::room::append;
use crate::state::Mapping;
use blk_ptr::{NoMemory, Shows};
use indexmap::IndexSet;
use std::alloc::Global;
use std::marker::Model;

mod calls;
mod reading;

/// The dbufs of one cell and its history. Contracts see the opening, the dbufs in the order in which they came, the history, and
/// for how many more dbufs and events there is room. A dbuf keeps a block exactly where it is clean and cached, and the block is
/// of its pointer.
#[derive(Drop)]
pub struct Cell<H: Shows> {
    alloc: Global,
    limit: u64,
    opening: Vec<Mapping>,
    names: IndexSet<Oid>,
    dbufs: Vec<Dbuf<H>>,
    index: Index,
    history: CellHistory,
    spare_dbufs: usize,
}

impl<H: Shows> Model for Cell<H> {
    ghost use Rattle.dbuf_state.specs.CellLog.{CellLog};

    ghost Value = { CellLog H };

    ghost use Rattle.dbuf_state.specs.CellModel.{log_in, CellKeeps};

    ghost view = { log_in };

    ghost invariant = { CellKeeps H.key_of H.bytes_of };
}

// Adds a name, for which there is room.
fn enter(names: &mut IndexSet<Oid>, at: Oid)
    requires absent { list_any (oid_eq at) names.old.keys ≡ false }
    requires room { 0 < spare names.old }
    ensures keys { names.new.keys ≡ names.old.keys ++ at ∷ [] }
    ensures spare { spare names.old ≤ spare names.new + 1 }
{
    let _ = names.insert(at);
}

impl<H: Shows + Drop> Cell<H> {
    /// A cell that maps nothing, and keeps at most `limit` bytes of clean blocks that are not pinned.
    pub fn new(alloc: Global, limit: u64) -> Cell<H>
        ensures { result ≡ opening_log limit }
    {
        Cell {
            alloc,
            limit,
            opening: Vec::new(alloc),
            names: IndexSet::new(alloc),
            dbufs: Vec::new(alloc),
            index: Index::new(alloc),
            history: CellHistory::new(alloc),
            spare_dbufs: 0,
        }
    }

    // Makes room for `n` more dbufs.
    fn reserve_dbufs(&mut self, n: usize) -> Result<(), NoMemory>
        ensures log { self.new ≡ record self.old { dbuf_room = self.new.dbuf_room } }
        ensures ok { OnOk result (n ≤ self.new.dbuf_room) }
        ensures kept { self.old.dbuf_room ≤ self.new.dbuf_room }
    {
        if n > self.spare_dbufs {
            self.names.reserve(n)?;
            self.dbufs.reserve(n)?;
            self.index.reserve(n)?;
            self.spare_dbufs = n;
        }
        Ok(())
    }

    /// Makes room for `dbufs` more dbufs and `events` more events. After want of memory the cell is as before.
    pub fn reserve(&mut self, dbufs: usize, events: usize) -> Result<(), NoMemory>
        ensures log { self.new ≡ record self.old { dbuf_room = self.new.dbuf_room; event_room = self.new.event_room } }
        ensures dbufs { OnOk result (dbufs ≤ self.new.dbuf_room) }
        ensures events { OnOk result (events ≤ self.new.event_room) }
        ensures kept_dbufs { self.old.dbuf_room ≤ self.new.dbuf_room }
        ensures kept_events { self.old.event_room ≤ self.new.event_room }
    {
        self.reserve_dbufs(dbufs)?;
        self.history.reserve(events)
    }

    // Where the dbuf of an Oid stands.
    fn find(&self, at: Oid) -> Option<usize>
        ensures { result ≡ position (λ d. oid_eq at d.at) self.now.dbufs }
    {
        self.names.get_index_of(&at)
    }

    // Whether an Oid has a dbuf.
    fn has(&self, at: Oid) -> bool
        ensures { result ≡ has_item dbuf_oid at self.now.dbufs }
    {
        self.dbuf(at).is_some()
    }

    // The dbuf of an Oid.
    fn dbuf(&self, at: Oid) -> Option<&Dbuf<H>>
        ensures found { option_copied result ≡ dbuf_at at self.now.dbufs }
        ensures fit { IfSome result (λ d. IsFit H.key_of H.bytes_of d.now) }
    {
        let Some(place) = self.find(at) else {
            return None;
        };
        Some(&self.dbufs[place])
    }

    // Changes the dbuf at a place. Every change of a dbuf goes through here, so the index knows of each.
    fn change(&mut self, place: usize, change: Change<H>) -> Result<Option<H>, NoMemory>
        requires within { place < length self.old.dbufs }
        requires inside { (d : Dbuf H) → IsInside change (get_or self.old.dbufs place d).content }
        requires fits { (d : Dbuf H) → IsFit H.key_of H.bytes_of (get_or self.old.dbufs place d) → IsFit H.key_of H.bytes_of (applied change (get_or self.old.dbufs place d)) }
        ensures ok { OnOk result ((d : Dbuf H) → self.new ≡ record self.old { dbufs = slice_set self.old.dbufs place (applied change (get_or self.old.dbufs place d)) }) }
        ensures given { IfOk result (λ kept. (d : Dbuf H) → kept ≡ given change (get_or self.old.dbufs place d)) }
        ensures err { OnErr result (self.new ≡ self.old) }
        ensures memory { OnErr result (IsTrue (takes_memory change)) }
    {
        let dbuf = &mut self.dbufs[place];
        let given = apply(dbuf, change)?;
        let stands = standing(dbuf);
        self.index.set(place, stands);
        Ok(given)
    }

    // Changes the dbuf of an Oid.
    fn alter(&mut self, at: Oid, change: Change<H>) -> Result<Option<H>, NoMemory>
        requires inside { DbufHas (λ d. IsInside change d.content) (dbuf_at at self.old.dbufs) }
        requires fits { DbufHas (λ d. IsFit H.key_of H.bytes_of d → IsFit H.key_of H.bytes_of (applied change d)) (dbuf_at at self.old.dbufs) }
        ensures ok { OnOk result (self.new ≡ record self.old { dbufs = with_dbuf at (applied change) self.old.dbufs }) }
        ensures given { IfOk result (λ kept. DbufHas (λ d. kept ≡ given change d) (dbuf_at at self.old.dbufs)) }
        ensures err { OnErr result (self.new ≡ self.old) }
        ensures memory { OnErr result (IsTrue (takes_memory change)) }
    {
        let Some(place) = self.find(at) else {
            unreachable!();
        };
        self.change(place, change)
    }

    // Adds a dbuf, for which there is room.
    fn add(&mut self, dbuf: Dbuf<H>)
        requires absent { has_item dbuf_oid dbuf.at self.old.dbufs ≡ false }
        requires room { 0 < self.old.dbuf_room }
        requires fits { IsFit H.key_of H.bytes_of dbuf }
        ensures { self.new ≡ record self.old { dbufs = self.old.dbufs ++ dbuf ∷ []; dbuf_room = self.old.dbuf_room - 1 } }
    {
        enter(&mut self.names, dbuf.at);
        self.index.push(standing(&dbuf));
        append(&mut self.dbufs, dbuf);
        self.spare_dbufs -= 1;
    }
}
