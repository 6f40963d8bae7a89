//! What a cell shows.
ghost use Rattle.std.specs.Prelude.{◌≡◌, ◌+◌, ◌≤◌, not, IsTrue, IfOk, MatchOption, length, map, option_map, IsSortedBy, IsPermutation};
ghost use Rattle.std.specs.List.{AllByRecursion};
ghost use Rattle.std.specs.Option.{option_map_or};
ghost use Rattle.dbuf_state.specs.declared.dbuf.Content.TheVariants as content;
ghost use Rattle.dbuf_state.specs.declared.state.DbState.TheVariants as state;
ghost use Rattle.dbuf_state.specs.Dbufs.{AreOf, DbufHas, IsFit, bytes_in, dbuf_at, dbuf_is, dbuf_oid, dirty_oids, is_cached, is_dirty, mapped_of, size_of, standing_of, window_of};
ghost use Rattle.dbuf_state.specs.Oids.{is_distinct, oid_lt};
ghost use Rattle.arc_core.specs.Keeps.{holds_on};
ghost use Rattle.dbuf_state.specs.Answers.{IsAnswer};
ghost use Rattle.dbuf_state.specs.Objects.{Evicting};
ghost use Rattle.dbuf_state.specs.Soundness.{holds_in, plain_cell};
ghost use Rattle.dbuf_state.specs.Standings.{is_evictable, is_first_kept, is_over, none_kept};

use super::Cell;
use crate::dbuf::Content;
use crate::history::CellHistory;
use crate::keeps::is_hold_on;
use crate::oid::Oid;
use crate::shown::Shown;
use crate::state::{DbState, Mapped};
use crate::window::Window;
use blk_ptr::{Key, NoMemory, Shows};

impl<H: Shows + Drop> Cell<H> {
    /// What the object map has of a block.
    pub fn mapped(&self, at: Oid) -> Option<Mapped>
        ensures { result ≡ option_map (λ d. mapped_of d.content) (dbuf_at at self.now.dbufs) }
    {
        let dbuf = self.dbuf(at)?;
        let mapped = match &dbuf.content {
            Content::Clean(ptr) => Mapped::Clean(*ptr),
            Content::Dirty(bytes) => Mapped::Dirty {
                size: bytes.len() as u32,
            },
        };
        Some(mapped)
    }

    /// How far the dbuf of a block is. A block that isn't mapped has no dbuf, and counts as uncached. Whatever was done to the cell,
    /// each dbuf keeps a block exactly where it is clean and cached, the block is of its pointer, and no two dbufs have one Oid.
    pub fn state(&self, at: Oid) -> DbState
        ensures state { result ≡ option_map_or (λ d. d.state) (dbuf_at at self.now.dbufs) state.Uncached }
        ensures fit { AllByRecursion (IsFit H.key_of H.bytes_of) self.now.dbufs }
        ensures once { IsTrue (is_distinct dbuf_oid self.now.dbufs) }
    {
        // For the proof: what the cell keeps of itself holds here.
        let _ = &self.limit;
        match self.dbuf(at) {
            Some(dbuf) => dbuf.state,
            None => DbState::Uncached,
        }
    }

    /// The dirty blocks, by rising Oids. Err is want of memory for the list.
    pub fn dirty(&self) -> Result<Vec<Oid>, NoMemory>
        ensures rising { IfOk result (λ oids. IsSortedBy oid_lt oids.items) }
        ensures all { IfOk result (λ oids. IsPermutation (dirty_oids self.now.dbufs) oids.items) }
    {
        let mut oids = Vec::new(self.alloc);
        for dbuf in &self.dbufs {
            if let Content::Dirty(_) = &dbuf.content {
                oids.push(dbuf.at)?;
            }
        }
        oids.sort()?;
        Ok(oids)
    }

    /// The bytes of a dirty block.
    pub fn dirty_bytes(&self, at: Oid) -> &[u8]
        requires { IsTrue (dbuf_is is_dirty at self.now.dbufs) }
        ensures { DbufHas (λ d. d.content ≡ content.Dirty result.now) (dbuf_at at self.now.dbufs) }
    {
        let Some(dbuf) = self.dbuf(at) else {
            unreachable!();
        };
        let Content::Dirty(bytes) = &dbuf.content else {
            unreachable!();
        };
        bytes.bytes()
    }

    /// Shows a part of a cached block: the answer to a get, with the block's size.
    pub fn shown(&self, at: Oid, w: Window, out: &mut Shown)
        requires cached { IsTrue (dbuf_is (λ d. is_cached d.state) at self.now.dbufs) }
        requires inside { DbufHas (λ d. w.at + w.len ≤ size_of d.content) (dbuf_at at self.now.dbufs) }
        ensures window { DbufHas (λ d. out.new ≡ window_of w (bytes_in H.bytes_of d.content d.kept)) (dbuf_at at self.now.dbufs) }
        ensures of { DbufHas (λ d. AreOf (bytes_in H.bytes_of d.content d.kept) d.content) (dbuf_at at self.now.dbufs) }
        ensures answer { (evicting : Evicting) → DbufHas (λ d. IsAnswer (plain_cell evicting self.now) at w (size_of d.content) out.new) (dbuf_at at self.now.dbufs) }
    {
        self.show(at, w, out);
    }

    // The bytes of a part of a cached block.
    fn show(&self, at: Oid, w: Window, out: &mut Shown)
        requires cached { IsTrue (dbuf_is (λ d. is_cached d.state) at self.now.dbufs) }
        requires inside { DbufHas (λ d. w.at + w.len ≤ size_of d.content) (dbuf_at at self.now.dbufs) }
        ensures window { DbufHas (λ d. out.new ≡ window_of w (bytes_in H.bytes_of d.content d.kept)) (dbuf_at at self.now.dbufs) }
        ensures of { DbufHas (λ d. AreOf (bytes_in H.bytes_of d.content d.kept) d.content) (dbuf_at at self.now.dbufs) }
    {
        let Some(dbuf) = self.dbuf(at) else {
            unreachable!();
        };
        let bytes = match (&dbuf.content, &dbuf.kept) {
            (Content::Dirty(dirty), _) => dirty.bytes(),
            (Content::Clean(_), Some(kept)) => kept.block().bytes(),
            (Content::Clean(_), None) => unreachable!(),
        };
        let from = w.at as usize;
        *out = Shown::of(&bytes[from..from + w.len as usize]);
    }

    /// The events so far.
    pub fn history(&self) -> &CellHistory
        ensures { result.now.events ≡ self.now.history }
    {
        &self.history
    }

    /// How many dbufs there are. So many Evicts at most can follow one another.
    pub fn len(&self) -> usize
        ensures { result ≡ length self.now.dbufs }
    {
        self.dbufs.len()
    }

    /// The dbuf that is to be evicted: the one used longest ago of those that keep a clean block and are not pinned, where these have
    /// more bytes than the limit.
    pub fn evictable(&self) -> Option<Oid>
        ensures { MatchOption result
            (IsTrue (not (is_over self.now.limit (map standing_of self.now.dbufs))))
            (λ at. IsTrue (is_evictable self.now.limit at (map standing_of self.now.dbufs))) }
    {
        self.index.evictable(self.limit)
    }

    /// The least Oid that keeps a block.
    pub fn first_kept(&self) -> Option<Oid>
        ensures { MatchOption result
            (IsTrue (none_kept (map standing_of self.now.dbufs)))
            (λ at. IsTrue (is_first_kept at (map standing_of self.now.dbufs))) }
    {
        self.index.first_kept()
    }

    // How many holds the dbufs keep on a key.
    pub(crate) fn holds_on(&self, key: Key) -> u64
        ensures { result ≡ holds_on key (holds_in H.key_of H.bytes_of H.is_held self.now.dbufs) }
    {
        let mut count: u64 = 0;
        for dbuf in &self.dbufs {
            if is_hold_on(dbuf, key) {
                count += 1;
            }
        }
        count
    }
}
