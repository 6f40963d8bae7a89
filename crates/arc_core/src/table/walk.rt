//! The walk in which a feed of the cache device looks for what it may pick: over MFU first, then over MRU, each from its oldest key on.
ghost use Rattle.std.specs.Prelude.{◌≡◌, ◌+◌, ◌≤◌, ◌^◌, Bool, true, IsTrue, Some};
ghost use Rattle.blk_ptr.specs.declared.key.Key.{Key};
ghost use Rattle.arc_lists.specs.Sequences.{stands_on};
ghost use Rattle.arc_lists.specs.Walks.{oldest_first};
ghost use Rattle.arc_core.specs.Candidate.{candidate, chosen, may_be_picked, walk};
ghost use Rattle.arc_core.specs.FeedWalk.{IsWalk, IsWalkOf, Wants, limit_of, walk_at};
ghost use Rattle.arc_core.specs.Scan.{from_next};

use super::Table;
use blk_ptr::{Key, State};

/// Where the walk stands: nothing that it has left behind may be picked.
#[derive(Clone, Copy, Debug, Drop)]
pub struct Walk {
    /// Whether it is done with MFU, and walks over MRU.
    pub on_mru: bool,
    /// How many bytes it has met on this sequence.
    pub met: u128,
    /// The key that comes next.
    pub next: Option<Key>,
}

impl Table {
    // Whether the feed may pick a key.
    fn may_be_picked(&self, key: Key) -> bool
        ensures { result ≡ may_be_picked self.now.shard key }
    {
        let placed = match self.find(key) {
            Some(entry) => entry.place.is_some(),
            None => false,
        };
        !placed && self.pick_of(key).is_none() && !self.is_passed(key)
    }

    // How many bytes each walk may meet.
    fn limit(&self) -> u128
        ensures value { result ≡ limit_of self.now.shard }
        ensures room { result + 2 ^ 64 ≤ 2 ^ 128 }
    {
        u128::from(self.bounds.write_max) * u128::from(self.bounds.headroom)
    }

    // Goes on over a state's sequence, from this key on, past the keys that the feed may not pick. It ends before the key with which
    // the bytes met exceed the limit.
    fn walk_on(
        &self,
        state: State,
        limit: u128,
        before: u128,
        from: Option<Key>,
    ) -> (u128, Option<Key>)
        requires limit { limit + 2 ^ 64 ≤ 2 ^ 128 }
        requires within { before ≤ limit }
        requires stands { (k : Key) → from ≡ Some k → IsTrue (stands_on k (oldest_first state self.now.shard.sequences)) }
        ensures within { result.0 ≤ limit }
        ensures stands { (k : Key) → result.1 ≡ Some k → IsTrue (stands_on k (oldest_first state self.now.shard.sequences)) }
        ensures rest { (wanted : Key → Bool) → Wants self.now.shard wanted
            → walk limit before wanted (from_next from (oldest_first state self.now.shard.sequences))
            ≡ walk limit result.0 wanted (from_next result.1 (oldest_first state self.now.shard.sequences)) }
        ensures value { walk limit before (may_be_picked self.now.shard) (from_next from (oldest_first state self.now.shard.sequences)) ≡ result.1 }
    {
        let mut met = before;
        let mut next = from;
        while let Some(key) = next {
            let more = met + u128::from(key.size);
            if more > limit {
                return (met, None);
            }
            if self.may_be_picked(key) {
                return (met, Some(key));
            }
            met = more;
            next = self.entries.newer(key);
        }
        (met, None)
    }

    // Goes on over MRU.
    fn walked_on_mru(&self, met: u128, from: Option<Key>) -> Walk
        requires { IsWalkOf self.now.shard (walk_at true met from) }
        ensures walk { IsWalkOf self.now.shard result }
        ensures next { result.next ≡ chosen self.now.shard }
    {
        // For the proof: what the entries keep of themselves holds here.
        let _entries = &self.entries;
        let (met, next) = self.walk_on(State::Mru, self.limit(), met, from);
        Walk {
            on_mru: true,
            met,
            next,
        }
    }

    /// The walk, gone on past the keys that the feed may not pick: it stands at the key that it chooses.
    pub fn walked(&self, walk: Walk) -> Walk
        requires { IsWalkOf self.now.shard walk }
        ensures walk { IsWalkOf self.now.shard result }
        ensures next { result.next ≡ chosen self.now.shard }
    {
        if walk.on_mru {
            return self.walked_on_mru(walk.met, walk.next);
        }
        let (met, next) = self.walk_on(State::Mfu, self.limit(), walk.met, walk.next);
        match next {
            Some(key) => Walk {
                on_mru: false,
                met,
                next: Some(key),
            },
            None => self.walked_on_mru(0, self.entries.oldest(State::Mru)),
        }
    }

    /// A walk from where it stands, or else from its start.
    pub fn walk_from(&self, walk: Option<Walk>) -> Walk
        requires { IsWalk self.now.shard walk }
        ensures { IsWalkOf self.now.shard result }
    {
        match walk {
            Some(walk) => walk,
            None => Walk {
                on_mru: false,
                met: 0,
                next: self.entries.oldest(State::Mfu),
            },
        }
    }

    /// A walk that has begun, gone on.
    pub fn walked_if_begun(&self, walk: Option<Walk>) -> Option<Walk>
        requires { IsWalk self.now.shard walk }
        ensures { IsWalk self.now.shard result }
    {
        match walk {
            Some(walk) => Some(self.walked(walk)),
            None => None,
        }
    }

    // The key that the two walks choose.
    fn chosen(&self, walk: Option<Walk>) -> Option<Key>
        requires { IsWalk self.now.shard walk }
        ensures { result ≡ chosen self.now.shard }
    {
        self.walked(self.walk_from(walk)).next
    }

    /// The next key that the feed may pick, by a walk that stands here.
    pub fn candidate(&self, walk: Option<Walk>) -> Option<Key>
        requires { IsWalk self.now.shard walk }
        ensures { result ≡ candidate self.now.shard }
    {
        let key = self.chosen(walk)?;
        let bytes = u128::from(self.picked_bytes) + u128::from(key.size);
        if bytes <= u128::from(self.bounds.write_max) {
            Some(key)
        } else {
            None
        }
    }
}
