//! What a shard keeps of one key, and what holds, accesses and picks ask of it.
ghost use Rattle.std.specs.Prelude.{◌≡◌, ◌+◌, ◌^◌, ◌<◌, length};
ghost use Rattle.arc_core.specs.Digests.{same_digest};

use crate::holds::Holds;
use blk_ptr::{Digest, Key, State};

/// The numbers that may hold an entry: callers, the feeder and cells of dbufs are numbered below it.
pub const NUMBERS: usize = 33;

/// What a shard knows of one key. Fields lie in memory in this order: what a hit reads and writes stands in front, and the key at the end, since a search has
/// compared a copy of it that stands before the entry.
#[derive(Clone, Copy, Debug, PartialEq, Eq)]
pub struct Entry {
    /// The tick of the last access that counted.
    pub last: u64,
    /// Where it stands.
    pub state: State,
    /// Its bytes are being read.
    pub reading: bool,
    /// How many holds each number has.
    pub holds: Holds,
    /// The byte at which its block begins on the cache device, where it is there.
    pub place: Option<u64>,
    /// The SHA-256 of its bytes, also after they were evicted.
    pub digest: Option<Digest>,
    /// The key, whose size is what the entry counts in bytes.
    pub key: Key,
}

// Whether two kept digests are one.
fn same_digest(a: Option<Digest>, b: Option<Digest>) -> bool
    ensures { result ≡ same_digest a b }
{
    match a {
        Some(x) => match b {
            Some(y) => x == y,
            None => false,
        },
        None => b.is_none(),
    }
}

impl Entry {
    ghost use Rattle.arc_lists.specs.Sequences.{has_sequence};
    ghost use Rattle.arc_core.specs.PlainShard.{held_by, holds_of, is_resident, is_unheld, keeps_digest, numbers};
    ghost use Rattle.arc_core.specs.Changes.{one_less, one_more};
    ghost use Rattle.arc_core.specs.Rules.{accessed};
    ghost use Rattle.arc_core.specs.Step.{holds, may_be_placed, reads};

    /// One hold of `n` more.
    pub fn one_more(&mut self, n: u32)
        requires number { n < numbers }
        requires count { holds_of self.old + 1 < 2 ^ 32 }
        ensures { self.new ≡ one_more n self.old }
    {
        self.holds.one_more(n);
    }

    /// One hold of `n` less.
    pub fn one_less(&mut self, n: u32)
        requires number { n < numbers }
        requires count { 0 < held_by n self.old }
        ensures { self.new ≡ one_less n self.old }
    {
        self.holds.one_less(n);
    }

    /// Whether its bytes are cached and nobody reads them just now.
    pub fn is_resident(&self) -> bool
        ensures { result ≡ is_resident self.now }
    {
        matches!(self.state, State::Mru | State::Mfu) && !self.reading
    }

    /// Whether nobody holds it.
    pub fn is_unheld(&self) -> bool
        ensures { result ≡ is_unheld self.now }
    {
        self.holds.is_none()
    }

    /// Whether it keeps this digest.
    pub fn keeps(&self, digest: Digest) -> bool
        ensures { result ≡ keeps_digest digest self.now }
    {
        match self.digest {
            Some(kept) => kept == digest,
            None => false,
        }
    }

    /// Whether entries of its state stand on a sequence.
    pub fn has_sequence(&self) -> bool
        ensures { result ≡ has_sequence self.now.state }
    {
        match self.state {
            State::Mru | State::MruGhost | State::Mfu | State::MfuGhost => true,
            State::Anon | State::L2Only => false,
        }
    }

    /// Whether it is as it was when it was picked, and may gain a place on the cache device.
    pub fn may_be_placed(&self, pick: &Picked) -> bool
        ensures { result ≡ may_be_placed pick.now self.now }
    {
        self.has_sequence()
            && !self.reading
            && same_digest(self.digest, pick.digest)
            && self.place.is_none()
    }

    /// Whether it is being read, and `n` holds it.
    pub fn reads(&self, n: u32) -> bool
        requires { n < numbers }
        ensures { result ≡ reads n self.now }
    {
        self.reading && self.holds.has(n)
    }

    /// Whether nobody reads it just now, and `n` holds it.
    pub fn is_held(&self, n: u32) -> bool
        requires { n < numbers }
        ensures { result ≡ holds n self.now }
    {
        !self.reading && self.holds.has(n)
    }

    /// An access at tick `t`: an MRU entry becomes MFU where its last access was more than `mintime` ticks ago (`arc_access` of
    /// OpenZFS's `arc.c`).
    pub fn access(&mut self, mintime: u64, t: u64)
        ensures { self.new ≡ accessed mintime t self.old }
    {
        match self.state {
            State::Mru if t > self.last && t - self.last > mintime => {
                self.state = State::Mfu;
                self.last = t;
            }
            State::Mfu => self.last = t,
            _ => {}
        }
    }
}

/// A key that the feeder picked, with the digest that it had then.
#[derive(Clone, Copy, Debug, PartialEq, Eq)]
pub struct Picked {
    /// The key.
    pub key: Key,
    /// The SHA-256 that its entry had at the pick.
    pub digest: Option<Digest>,
}

/// How far a feed of the cache device has come in a shard.
#[derive(Clone, Copy, Debug, PartialEq, Eq)]
pub enum Phase {
    /// There is no feed.
    Idle,
    /// Keys are being picked.
    Picking,
    /// The picked blocks are being written.
    Writing,
}
