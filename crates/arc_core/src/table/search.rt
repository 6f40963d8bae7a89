//! The victims of an event, found one after another: what is found is marked, and the search goes on from where it stands.
ghost use Rattle.std.specs.Prelude.{◌≡◌, ℕ, ◌+◌, ◌-◌, ◌<◌, ◌^◌, false, true, IsTrue, List, option_map};
ghost use Rattle.arc_core.specs.declared.entry.Entry.{Entry};
ghost use Rattle.arc_core.specs.PlainShard.{entry_of};
ghost use Rattle.blk_ptr.specs.declared.key.Key.{Key};
ghost use Rattle.blk_ptr.specs.declared.state.State.{State};
ghost use Rattle.arc_core.specs.Cursor.{IsScanOf, scan_at, size_by, with_size};
ghost use Rattle.arc_core.specs.Search.{AtRoom, AtTrim, IsFound, IsRoomSearched, IsTrimSearched, Stands, entered};
ghost use Rattle.arc_core.specs.Sparing.{fitting_victims, victims_of_entry};
ghost use Rattle.arc_lists.specs.Adapting.{IsCapacity};
ghost use Rattle.arc_core.specs.Changes.{gone};
ghost use Rattle.arc_core.specs.Edits.{is_off};
ghost use Rattle.arc_core.specs.Rules.{resized};
ghost use Rattle.arc_core.specs.Sound.{IsSoundEntry};

use super::Table;
use super::scan::{Scan, add_size, take_size};
use crate::entry::Entry;
use blk_ptr::{Key, State};

/// How far the search for an event's victims has come.
#[derive(Clone, Copy, Debug, Drop)]
pub struct Search {
    /// The event's own key.
    pub about: Option<Key>,
    /// For how many bytes there is to be room.
    pub z: u64,
    /// The state in which so many bytes come in then; L2-only where none do.
    pub comes: State,
    /// Whether room is made, so that ghosts are dropped now.
    pub trims: bool,
    pub scan: Scan,
}

impl Search {
    /// No search: it stands for no event.
    pub fn none() -> Search
        ensures { result.about ≡ None }
    {
        Search {
            about: None,
            z: 0,
            comes: State::L2Only,
            trims: false,
            scan: Scan::none(),
        }
    }
}

// The search goes over to trim, behind all that room evicts: what comes in has come.
fn enter(search: &mut Search)
    requires { size_by search.old.comes search.old.scan + search.old.z < 2 ^ 128 }
    ensures { search.new ≡ entered search.old }
{
    add_size(&mut search.scan, search.comes, search.z);
    search.trims = true;
}

impl Table {
    // Goes on with room for `z` bytes as far as the keys that it evicts are marked.
    fn unmarked_eviction(&self, about: Option<Key>, z: u64, scan: &mut Scan) -> Option<Key>
        requires { (comes : State) × (vs : List Key) × AtRoom about self.now.shard self.now.marked z comes vs scan.old }
        ensures { (comes : State) (vs : List Key) → AtRoom about self.now.shard self.now.marked z comes vs scan.old
            → IsRoomSearched about self.now.shard self.now.marked z comes vs scan.new result }
    {
        // For the proof: what the entries keep of themselves holds here.
        let _entries = &self.entries;
        while let Some(key) = scan.next_evicted(z) {
            if !self.is_marked(key) {
                return Some(key);
            }
            self.scan_evicted(about, scan, key);
        }
        None
    }

    // Goes on with trim as far as the ghosts that it drops are marked.
    fn unmarked_drop(&self, about: Option<Key>, scan: &mut Scan) -> Option<Key>
        requires { (vs : List Key) × AtTrim about self.now.shard self.now.marked vs scan.old }
        ensures { (vs : List Key) → AtTrim about self.now.shard self.now.marked vs scan.old
            → IsTrimSearched about self.now.shard self.now.marked vs scan.new result }
    {
        // For the proof: what the entries keep of themselves holds here.
        let _entries = &self.entries;
        while let Some(key) = scan.next_dropped() {
            if !self.is_marked(key) {
                return Some(key);
            }
            self.scan_dropped(about, scan, key);
        }
        None
    }

    // Goes on with room; where it is made, the search goes over to trim.
    fn search_room(&self, search: &mut Search) -> Option<Key>
        requires room { search.old.trims ≡ false }
        requires stands { (vs : List Key) × Stands self.now.shard self.now.marked vs search.old }
        ensures { (vs : List Key) → Stands self.now.shard self.now.marked vs search.old → IsFound self.now.shard self.now.marked vs false search.new result }
    {
        // For the proof: what the entries keep of themselves holds here.
        let _entries = &self.entries;
        match self.unmarked_eviction(search.about, search.z, &mut search.scan) {
            Some(key) => Some(key),
            None => {
                enter(search);
                None
            }
        }
    }

    // Goes on with trim.
    fn search_trim(&self, search: &mut Search) -> Option<Key>
        requires trim { search.old.trims ≡ true }
        requires stands { (vs : List Key) × Stands self.now.shard self.now.marked vs search.old }
        ensures { (vs : List Key) → Stands self.now.shard self.now.marked vs search.old → IsFound self.now.shard self.now.marked vs true search.new result }
    {
        self.unmarked_drop(search.about, &mut search.scan)
    }

    /// Goes on with a search as far as its victims are marked, and answers the first that isn't.
    pub fn search_on(&self, search: &mut Search) -> Option<Key>
        requires { (vs : List Key) × Stands self.now.shard self.now.marked vs search.old }
        ensures { (vs : List Key) → Stands self.now.shard self.now.marked vs search.old → IsFound self.now.shard self.now.marked vs true search.new result }
    {
        if search.trims {
            return self.search_trim(search);
        }
        match self.search_room(search) {
            Some(key) => Some(key),
            None => self.search_trim(search),
        }
    }

    // The scan of the table without a key that has this entry, with this target.
    fn scan_without(&self, key: Key, found: Option<&Entry>, p: u64) -> Scan
        requires { option_map (λ e. e.now) found ≡ entry_of key self.now.shard }
        ensures { IsScanOf (Some key) self.now.shard result (record (gone key self.now.shard) { p = p }) }
    {
        // For the proof: what the entries keep of themselves holds here.
        let _entries = &self.entries;
        let mut scan = self.scan_but(Some(key), self.c(), p);
        if let Some(entry) = found {
            take_size(&mut scan, entry.state, key.size);
        }
        scan
    }

    // The scan of the table where nothing is evicted or dropped yet.
    fn scan_but(&self, about: Option<Key>, c: u64, p: u64) -> Scan
        ensures { result ≡ scan_at about c p self.now.shard }
    {
        Scan {
            mru: self.kind(about, State::Mru, State::MruGhost),
            mfu: self.kind(about, State::Mfu, State::MfuGhost),
            anon: self.size(State::Anon),
            c,
            p,
        }
    }

    /// The search for what is evicted and dropped as a key comes in with this state and this target, from its start. The key has the
    /// entry that was found.
    pub fn search_as_comes(&self, key: Key, comes: State, found: Option<&Entry>, p: u64) -> Search
        requires { option_map (λ e. e.now) found ≡ entry_of key self.now.shard }
        ensures { (e : Entry) → e.key ≡ key → e.state ≡ comes → IsTrue (is_off e) → IsSoundEntry e
            → Stands self.now.shard self.now.marked (victims_of_entry e (record self.now.shard { p = p })) result }
    {
        // For the proof: what the entries keep of themselves holds here.
        let _entries = &self.entries;
        Search {
            about: Some(key),
            z: key.size,
            comes,
            trims: false,
            scan: self.scan_without(key, found, p),
        }
    }

    // The scan of the table with another capacity.
    fn scan_resized(&self, c: u64) -> Scan
        requires { IsCapacity c }
        ensures { IsScanOf None self.now.shard result (resized c self.now.shard) }
    {
        // For the proof: what the entries keep of themselves holds here.
        let _entries = &self.entries;
        let p = self.p().max(c / 16).min(c - c / 16);
        self.scan_but(None, c, p)
    }

    /// The search for what is evicted and dropped as the capacity becomes `c`, from its start.
    pub fn search_of_capacity(&self, c: u64) -> Search
        requires { IsCapacity c }
        ensures { Stands self.now.shard self.now.marked (fitting_victims (resized c self.now.shard)) result }
    {
        Search {
            about: None,
            z: 0,
            comes: State::L2Only,
            trims: false,
            scan: self.scan_resized(c),
        }
    }
}
