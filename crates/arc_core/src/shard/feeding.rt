//! The calls of the events of cells, of scans that pass keys, of the feed and of the capacity.
ghost use Rattle.std.specs.Prelude.{◌≡◌, IsTrue};
ghost use Rattle.arc_core.specs.declared.event.Event.{Event};
ghost use Rattle.arc_core.specs.Candidate.{candidate};
ghost use Rattle.arc_core.specs.ShardLog.{HasRoom, IsUnpicked, Makes, MayUnpick};
ghost use Rattle.arc_core.specs.Step.{legal};

use super::{Shard, append};
use crate::event::{Event, Why};
use blk_ptr::{Digest, Key};

impl Shard {
    /// The scan of `n` passes a key, since `owner` holds its bucket.
    pub fn pass(&mut self, n: u32, key: Key, owner: u32) -> Event
        requires legal { IsTrue (legal self.old.now (Event.Pass n key owner)) }
        requires room { HasRoom (Event.Pass n key owner) self.old }
        ensures event { result ≡ Event.Pass n key owner }
        ensures makes { Makes (Event.Pass n key owner) self.old self.new }
    {
        let event = Event::Pass { n, key, owner };
        self.table.pass(n, key, owner);
        append(&mut self.history, event);
        self.spare_events -= 1;
        let walk = self.table.walked_if_begun(self.halts.walk);
        self.halts.keep_walk(walk);
        event
    }

    /// `n` hands one hold to the cell `to`.
    pub fn hand(&mut self, n: u32, key: Key, to: u32) -> Event
        requires legal { IsTrue (legal self.old.now (Event.Hand n key to)) }
        requires room { HasRoom (Event.Hand n key to) self.old }
        ensures event { result ≡ Event.Hand n key to }
        ensures makes { Makes (Event.Hand n key to) self.old self.new }
    {
        let event = Event::Hand { n, key, to };
        self.table.hand(n, key, to);
        self.table.end_scan();
        self.halts.forget();
        append(&mut self.history, event);
        self.spare_events -= 1;
        event
    }

    /// The cell `n` puts a block in that it wrote at tick `t` (`arc_write_done` of OpenZFS's `arc.c`).
    pub fn insert(&mut self, n: u32, key: Key, digest: Digest, t: u64) -> Event
        requires legal { IsTrue (legal self.old.now (Event.Insert n key digest t)) }
        requires room { HasRoom (Event.Insert n key digest t) self.old }
        ensures event { result ≡ Event.Insert n key digest t }
        ensures makes { Makes (Event.Insert n key digest t) self.old self.new }
    {
        let event = Event::Insert { n, key, digest, t };
        self.table.insert(n, key, digest, t);
        self.table.end_scan();
        self.halts.forget();
        append(&mut self.history, event);
        self.spare_events -= 2;
        event
    }

    /// `n` gives one hold back and keeps a private copy; where it was the only hold, the entry goes (`arc_release` of OpenZFS's `arc.c`).
    pub fn release(&mut self, n: u32, key: Key, sole: bool) -> Event
        requires { IsTrue (legal self.old.now (Event.Release n key sole)) }
        ensures event { result ≡ Event.Release n key sole }
        ensures makes { Makes (Event.Release n key sole) self.old self.new }
    {
        let event = Event::Release { n, key, sole };
        self.table.release(n, key, sole);
        self.table.end_scan();
        self.halts.forget();
        append(&mut self.history, event);
        event
    }

    /// The feeder picks the candidate (`l2arc_write_buffers` of OpenZFS's `arc.c`).
    pub fn pick(&mut self, n: u32, key: Key) -> Event
        requires legal { IsTrue (legal self.old.now (Event.Pick n key)) }
        requires room { HasRoom (Event.Pick n key) self.old }
        ensures event { result ≡ Event.Pick n key }
        ensures makes { Makes (Event.Pick n key) self.old self.new }
    {
        let event = Event::Pick { n, key };
        let walk = self.table.walk_from(self.halts.walk);
        self.table.pick(n, key);
        append(&mut self.history, event);
        self.spare_events -= 2;
        self.halts.keep_walk(Some(self.table.walked(walk)));
        event
    }

    /// The feeder has picked all that it may.
    pub fn feed_end(&mut self, n: u32) -> Event
        requires legal { IsTrue (legal self.old.now (Event.FeedEnd n)) }
        requires room { HasRoom (Event.FeedEnd n) self.old }
        ensures event { result ≡ Event.FeedEnd n }
        ensures makes { Makes (Event.FeedEnd n) self.old self.new }
    {
        let event = Event::FeedEnd { n };
        self.table.feed_end(n);
        self.table.end_scan();
        self.halts.forget();
        append(&mut self.history, event);
        self.spare_events -= 1;
        event
    }

    /// A picked key was written at this place of the cache device (`l2arc_write_done` of OpenZFS's `arc.c`).
    pub fn set(&mut self, n: u32, key: Key, place: u64) -> Event
        requires { IsTrue (legal self.old.now (Event.Set n key place)) }
        ensures event { result ≡ Event.Set n key place }
        ensures makes { Makes (Event.Set n key place) self.old self.new }
    {
        let event = Event::Set { n, key, place };
        self.table.set(n, key, place);
        self.table.end_scan();
        self.halts.forget();
        append(&mut self.history, event);
        event
    }

    /// A picked key gets no place.
    pub fn leave(&mut self, n: u32, key: Key, why: Why) -> Event
        requires { IsTrue (legal self.old.now (Event.Leave n key why)) }
        ensures event { result ≡ Event.Leave n key why }
        ensures makes { Makes (Event.Leave n key why) self.old self.new }
    {
        let event = Event::Leave { n, key, why };
        self.table.settle(key);
        self.table.end_scan();
        self.halts.forget();
        append(&mut self.history, event);
        event
    }

    /// A key loses its place; where only the cache device had it, the entry goes (`l2arc_evict` of OpenZFS's `arc.c`).
    pub fn clear(&mut self, n: u32, key: Key) -> Event
        requires legal { IsTrue (legal self.old.now (Event.Clear n key)) }
        requires room { HasRoom (Event.Clear n key) self.old }
        ensures event { result ≡ Event.Clear n key }
        ensures makes { Makes (Event.Clear n key) self.old self.new }
    {
        let event = Event::Clear { n, key };
        self.table.clear(n, key);
        self.table.end_scan();
        self.halts.forget();
        append(&mut self.history, event);
        self.spare_events -= 1;
        event
    }

    /// A key stands at this place of the cache device since an earlier run, with this digest where the device tells one
    /// (`l2arc_hdr_restore` of OpenZFS's `arc.c`).
    pub fn restore(&mut self, n: u32, key: Key, place: u64, digest: Option<Digest>) -> Event
        requires legal { IsTrue (legal self.old.now (Event.Restore n key place digest)) }
        requires room { HasRoom (Event.Restore n key place digest) self.old }
        ensures event { result ≡ Event.Restore n key place digest }
        ensures makes { Makes (Event.Restore n key place digest) self.old self.new }
    {
        let event = Event::Restore {
            n,
            key,
            place,
            digest,
        };
        self.table.restore(n, key, place, digest);
        self.table.end_scan();
        self.halts.forget();
        append(&mut self.history, event);
        self.spare_events -= 1;
        event
    }

    /// The capacity becomes `c` bytes: blocks are evicted and ghosts dropped as far as it asks.
    pub fn resize(&mut self, n: u32, c: u64) -> Event
        requires legal { IsTrue (legal self.old.now (Event.Resize n c)) }
        requires room { HasRoom (Event.Resize n c) self.old }
        ensures event { result ≡ Event.Resize n c }
        ensures makes { Makes (Event.Resize n c) self.old self.new }
    {
        let event = Event::Resize { n, c };
        self.table.resize(c);
        self.table.end_scan();
        self.halts.forget();
        append(&mut self.history, event);
        self.spare_events -= 1;
        event
    }

    /// The next key that the feed may pick (`l2arc_write_eligible` of OpenZFS's `arc.c`). None exactly where it may pick none.
    pub fn candidate(&self) -> Option<Key>
        ensures { result ≡ candidate self.now.now }
    {
        self.table.candidate(self.halts.walk)
    }

    /// Takes back the events from this place on, and what they changed. They are picks and passes alone, made since there was no feed
    /// and no passed key.
    pub fn unpick(&mut self, len: usize)
        requires { MayUnpick len self.old }
        ensures { IsUnpicked len self.old self.new }
    {
        self.history.truncate(len);
        self.table.unpick();
        self.halts.forget();
    }
}
