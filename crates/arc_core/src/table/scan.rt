//! What room and trim would take from a shard, found without taking it.
ghost use Rattle.std.specs.Prelude.{◌≡◌, ℕ, ◌+◌, ◌-◌, ◌<◌, ◌≤◌, ◌^◌, IsTrue, MatchOption, None, Some};
ghost use Rattle.blk_ptr.specs.declared.key.Key.{Key};
ghost use Rattle.blk_ptr.specs.declared.state.State.{State};
ghost use Rattle.arc_lists.specs.Sequences.{stands, stands_on};
ghost use Rattle.arc_lists.specs.Walks.{first_of, next_to, oldest_first};
ghost use Rattle.arc_core.specs.Cursor.{is_at, behind_dropped, behind_evicted, kind_at, size_by, with_size, CanDrop, CanEvict, IsScanOf};
ghost use Rattle.arc_core.specs.PlainShard.{PlainShard};
ghost use Rattle.arc_core.specs.Rules.{dropped, evicted, next_dropped, next_evicted};
ghost use Rattle.arc_core.specs.Scan.{first_going, going_but, may_go};

use super::Table;
use blk_ptr::{Key, State};

/// How far a scan has come in MRU or in MFU, with its ghost.
#[derive(Clone, Copy, Debug, Drop)]
pub struct Kind {
    /// The oldest key that may be evicted and isn't yet.
    pub next: Option<Key>,
    /// The oldest ghost that may be dropped and isn't yet, of those that were ghosts before.
    pub old_ghost: Option<Key>,
    /// The oldest key that was evicted and not dropped, or else the next one.
    pub evicted: Option<Key>,
    /// The sizes of the state and of its ghost.
    pub size: u128,
    pub ghost_size: u128,
}

impl Kind {
    ghost use Rattle.arc_core.specs.Cursor.{oldest_ghost};

    // A kind in which no key is left.
    fn none() -> Kind
        ensures { oldest_ghost result ≡ None }
    {
        Kind {
            next: None,
            old_ghost: None,
            evicted: None,
            size: 0,
            ghost_size: 0,
        }
    }

    /// The ghost that is dropped next.
    pub fn oldest_ghost(&self) -> Option<Key>
        ensures { result ≡ oldest_ghost self.now }
    {
        if self.old_ghost.is_some() {
            self.old_ghost
        } else if self.evicted == self.next {
            None
        } else {
            self.evicted
        }
    }
}

/// How far a scan has come.
#[derive(Clone, Copy, Debug, Drop)]
pub struct Scan {
    pub mru: Kind,
    pub mfu: Kind,
    pub anon: u128,
    pub c: u64,
    pub p: u64,
}

impl Scan {
    ghost use Rattle.arc_core.specs.Cursor.{dropped_by, evicted_by};

    /// A scan in which no key is left.
    pub fn none() -> Scan
        ensures { dropped_by result ≡ None }
    {
        Scan {
            mru: Kind::none(),
            mfu: Kind::none(),
            anon: 0,
            c: 0,
            p: 0,
        }
    }

    /// The key that room for `z` bytes evicts next.
    pub fn next_evicted(&self, z: u64) -> Option<Key>
        ensures { result ≡ evicted_by z self.now }
    {
        let cached = self.anon.saturating_add(self.mru.size);
        let all = cached
            .saturating_add(self.mfu.size)
            .saturating_add(u128::from(z));
        if all <= u128::from(self.c) {
            return None;
        }
        if cached > u128::from(self.p) && self.mru.next.is_some() {
            return self.mru.next;
        }
        self.mfu.next.or(self.mru.next)
    }

    /// The ghost that trim drops next.
    pub fn next_dropped(&self) -> Option<Key>
        ensures { result ≡ dropped_by self.now }
    {
        let c = u128::from(self.c);
        if self.mru.size.saturating_add(self.mru.ghost_size) > c {
            let oldest_mru = self.mru.oldest_ghost();
            if oldest_mru.is_some() {
                return oldest_mru;
            }
        }
        if self.mru.ghost_size.saturating_add(self.mfu.ghost_size) > c {
            return self.mfu.oldest_ghost();
        }
        None
    }
}

/// Takes bytes from the size of a state.
pub(super) fn take_size(scan: &mut Scan, state: State, size: u64)
    requires { size ≤ size_by state scan.old }
    ensures { scan.new ≡ with_size state (size_by state scan.old - size) scan.old }
{
    let size = u128::from(size);
    match state {
        State::Anon => scan.anon -= size,
        State::Mru => scan.mru.size -= size,
        State::MruGhost => scan.mru.ghost_size -= size,
        State::Mfu => scan.mfu.size -= size,
        State::MfuGhost => scan.mfu.ghost_size -= size,
        State::L2Only => {}
    }
}

/// Adds bytes to the size of a state.
pub(super) fn add_size(scan: &mut Scan, state: State, size: u64)
    requires { size_by state scan.old + size < 2 ^ 128 }
    ensures { scan.new ≡ with_size state (size_by state scan.old + size) scan.old }
{
    let size = u128::from(size);
    match state {
        State::Anon => scan.anon += size,
        State::Mru => scan.mru.size += size,
        State::MruGhost => scan.mru.ghost_size += size,
        State::Mfu => scan.mfu.size += size,
        State::MfuGhost => scan.mfu.ghost_size += size,
        State::L2Only => {}
    }
}

// Whether there is a key, and it is this one.
fn is_at(at: Option<Key>, key: Key) -> bool
    ensures { result ≡ is_at at key }
{
    match at {
        Some(k) => k == key,
        None => false,
    }
}

impl Table {
    // Whether room or trim may take a key.
    fn may_go(&self, about: Option<Key>, key: Key) -> bool
        ensures { result ≡ may_go about self.now.shard key }
    {
        let own = match about {
            Some(k) => key == k,
            None => false,
        };
        !self.is_passed(key) && !own
    }

    // The first key of a state's sequence that may go, from this one on toward the head.
    fn going_from(&self, about: Option<Key>, state: State, from: Option<Key>) -> Option<Key>
        requires { (k : Key) → from ≡ Some k → IsTrue (stands_on k (oldest_first state self.now.shard.sequences)) }
        ensures { result ≡ first_going about from state self.now.shard }
    {
        let mut next = from;
        while let Some(key) = next {
            if self.may_go(about, key) {
                return Some(key);
            }
            next = self.entries.newer(key);
        }
        None
    }

    // The oldest key of a state's sequence that may go.
    fn first_going(&self, about: Option<Key>, state: State) -> Option<Key>
        ensures { result ≡ first_of (going_but about state self.now.shard) }
    {
        self.going_from(about, state, self.entries.oldest(state))
    }

    // The key that comes next after one that may go, among those that may.
    fn next_going(&self, about: Option<Key>, state: State, key: Key) -> Option<Key>
        requires { IsTrue (stands_on key (going_but about state self.now.shard)) }
        ensures { result ≡ next_to key (going_but about state self.now.shard) }
    {
        self.going_from(about, state, self.entries.newer(key))
    }

    // A kind as it stands, from which nothing is evicted or dropped yet.
    pub(super) fn kind(&self, about: Option<Key>, state: State, lost: State) -> Kind
        ensures { result ≡ kind_at about state lost self.now.shard }
    {
        let next = self.first_going(about, state);
        Kind {
            next,
            old_ghost: self.first_going(about, lost),
            evicted: next,
            size: self.size(state),
            ghost_size: self.size(lost),
        }
    }

    // Evicts a key from a kind.
    fn evicted_of(&self, about: Option<Key>, state: State, kind: &mut Kind, key: Key)
        requires on { IsTrue (stands_on key (going_but about state self.now.shard)) }
        requires size { key.size ≤ kind.old.size }
        requires room { kind.old.ghost_size + key.size < 2 ^ 128 }
        ensures { kind.new ≡ behind_evicted key (going_but about state self.now.shard) kind.old }
    {
        kind.next = self.next_going(about, state, key);
        kind.size -= u128::from(key.size);
        kind.ghost_size += u128::from(key.size);
    }

    // Drops a ghost of a kind.
    fn dropped_of(&self, about: Option<Key>, state: State, lost: State, kind: &mut Kind, key: Key)
        requires on { MatchOption kind.old.old_ghost (IsTrue (stands_on key (going_but about state self.now.shard))) (λ g. IsTrue (stands_on key (going_but about lost self.now.shard))) }
        requires size { key.size ≤ kind.old.ghost_size }
        ensures { kind.new ≡ behind_dropped key (going_but about state self.now.shard) (going_but about lost self.now.shard) kind.old }
    {
        if kind.old_ghost.is_some() {
            kind.old_ghost = self.next_going(about, lost, key);
        } else {
            kind.evicted = self.next_going(about, state, key);
        }
        kind.ghost_size -= u128::from(key.size);
    }

    // The scan goes on behind the eviction of the next key.
    pub(super) fn scan_evicted(&self, about: Option<Key>, scan: &mut Scan, key: Key)
        requires { CanEvict about self.now.shard scan.old key }
        ensures { (t : PlainShard) (z : ℕ) → IsScanOf about self.now.shard scan.old t → next_evicted z t ≡ Some key → IsScanOf about self.now.shard scan.new (evicted key t) }
    {
        // For the proof: what the entries keep of themselves holds here.
        let _entries = &self.entries;
        if is_at(scan.mru.next, key) {
            self.evicted_of(about, State::Mru, &mut scan.mru, key);
        } else {
            self.evicted_of(about, State::Mfu, &mut scan.mfu, key);
        }
    }

    // The scan goes on behind the drop of the next ghost.
    pub(super) fn scan_dropped(&self, about: Option<Key>, scan: &mut Scan, key: Key)
        requires { CanDrop about self.now.shard scan.old key }
        ensures { (t : PlainShard) → IsScanOf about self.now.shard scan.old t → next_dropped t ≡ Some key → IsScanOf about self.now.shard scan.new (dropped key t) }
    {
        // For the proof: what the entries keep of themselves holds here.
        let _entries = &self.entries;
        if is_at(scan.mru.oldest_ghost(), key) {
            self.dropped_of(about, State::Mru, State::MruGhost, &mut scan.mru, key);
        } else {
            self.dropped_of(about, State::Mfu, State::MfuGhost, &mut scan.mfu, key);
        }
    }
}
