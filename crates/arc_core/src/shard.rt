//! One shard with the history that leads to it. Each event is a call; here are those of reads, and more stand in `shard/`. A hit's
//! and a drop's are part of the code that calls them, so an event is written once, in the history.
ghost use Rattle.std.specs.Prelude.{◌≡◌, ℕ, ◌+◌, ◌≤◌, ◌++◌, ◌∷◌, [], length, IsTrue, OnOk, OnErr, option_map, ◌<◌};
ghost use Rattle.arc_lists.specs.Adapting.{IsCapacity};
ghost use Rattle.arc_core.specs.declared.event.Event.{Event};
ghost use Rattle.arc_core.specs.PlainShard.{entry_of, size_in};
ghost use Rattle.arc_core.specs.ShardLog.{HasRoom, IsReplayed, Makes, opening_log};
ghost use Rattle.arc_core.specs.Step.{legal};
ghost use Rattle.arc_core.specs.View.{view_of};

mod counting;
mod feeding;
mod halts;
mod naming;
mod rules;

use crate::config::Bounds;
use crate::entry::Entry;
use crate::event::{Event, FailedAt, Origin};
use crate::history::History;
use crate::table::Table;
use blk_ptr::{Digest, Key, NoMemory, State};
use halts::Halts;
use key_table::NO_PLACE;
use std::alloc::Global;
use std::marker::Model;

/// What a shard shows of an entry.
#[derive(Clone, Copy, Debug, PartialEq, Eq)]
pub struct EntryView {
    /// Where it stands.
    pub state: State,
    /// Who reads its bytes, where they are being read.
    pub reader: Option<u32>,
    /// The tick of its last access.
    pub last: u64,
    /// Its place on the cache device.
    pub place: Option<u64>,
    /// The SHA-256 of its bytes.
    pub digest: Option<Digest>,
    /// How many holds there are on it.
    pub held: u64,
}

// The numbers with which a shard was made.
#[derive(Clone, Copy, Debug)]
struct Opened {
    c: u64,
    mintime: u64,
    bounds: Bounds,
}

/// One shard of the cache with its history. Contracts see a plain shard now and at the start, and the list of the events
/// between; the shard is always the replay of its history.
#[derive(Debug, Drop)]
pub struct Shard {
    table: Table,
    opened: Opened,
    history: History,
    spare_events: usize,
    halts: Halts,
}

impl Model for Shard {
    ghost use Rattle.arc_core.specs.ShardLog.{ShardLog};

    ghost Value = { ShardLog };

    ghost use Rattle.arc_core.specs.ShardModel.{log_in, ShardKeeps};

    ghost view = { log_in };

    ghost invariant = { ShardKeeps };
}

// Appends an event for which there is room.
fn append(history: &mut History, event: Event)
    requires { 0 < history.old.room }
    ensures items { history.new.events ≡ history.old.events ++ event ∷ [] }
    ensures len { length history.new.events ≡ length history.old.events + 1 }
    ensures capacity { history.new.room + 1 ≡ history.old.room }
{
    history.push_reserved(event);
}

// Who holds an entry that is being read, and how many holds there are.
#[inline(always)]
fn view_of(entry: &Entry) -> EntryView
    ensures { result ≡ view_of entry.now }
{
    EntryView {
        state: entry.state,
        reader: if entry.reading {
            entry.holds.first()
        } else {
            None
        },
        last: entry.last,
        place: entry.place,
        digest: entry.digest,
        held: u64::from(entry.holds.total()),
    }
}

impl Shard {
    ghost use Rattle.arc_core.specs.View.{view_of};

    /// A shard with no entries and no history. `c` is its capacity in bytes, from 4,096 to 2^32.
    pub fn new(alloc: Global, c: u64, mintime: u64, bounds: Bounds) -> Shard
        requires { IsCapacity c }
        ensures log { result.now ≡ (opening_log c mintime bounds).now }
        ensures opening { result.opening ≡ (opening_log c mintime bounds).opening }
        ensures history { result.history ≡ [] }
        ensures marked { result.marked ≡ [] }
    {
        Shard {
            table: Table::new(alloc, c, mintime, bounds),
            opened: Opened { c, mintime, bounds },
            history: History::new(alloc),
            spare_events: 0,
            halts: Halts::none(),
        }
    }

    /// Makes room for `events` more events, and for `entries` more entries. Events that are owed, since something is held, being
    /// read or picked that is to end, have room already and don't count. After want of memory the shard is as before. A history that would have more than
    /// 2^32 - 1 events with those that are owed is want of memory too.
    #[inline(always)]
    pub fn reserve(&mut self, events: usize, entries: usize) -> Result<(), NoMemory>
        ensures log { self.new ≡ record self.old { event_room = self.new.event_room; entry_room = self.new.entry_room } }
        ensures events { OnOk result (events ≤ self.new.event_room) }
        ensures entries { OnOk result (entries ≤ self.new.entry_room) }
        ensures kept_events { self.old.event_room ≤ self.new.event_room }
        ensures kept_entries { self.old.entry_room ≤ self.new.entry_room }
        ensures err { OnErr result (self.new ≡ self.old) }
    {
        // Most calls ask for what there is already.
        if events <= self.spare_events && self.table.has_room(entries, events) {
            return Ok(());
        }
        self.reserve_more(events, entries)
    }

    // Makes the room that `reserve` asks for.
    fn reserve_more(&mut self, events: usize, entries: usize) -> Result<(), NoMemory>
        ensures log { self.new ≡ record self.old { event_room = self.new.event_room; entry_room = self.new.entry_room } }
        ensures events { OnOk result (events ≤ self.new.event_room) }
        ensures entries { OnOk result (entries ≤ self.new.entry_room) }
        ensures kept_events { self.old.event_room ≤ self.new.event_room }
        ensures kept_entries { self.old.entry_room ≤ self.new.entry_room }
        ensures err { OnErr result (self.new ≡ self.old) }
    {
        let before = self.history.room();
        if self.spare_events < events {
            self.history.reserve(events - self.spare_events)?;
        }
        let spare = self.spare_events + (self.history.room() - before);
        if spare < events {
            return Err(NoMemory);
        }
        self.table.reserve_more(entries, events)?;
        self.spare_events = spare;
        Ok(())
    }

    /// `n` asks for a key at tick `t` whose bytes are cached (`arc_access` and `add_reference` of OpenZFS's `arc.c`).
    #[inline(always)]
    pub fn hit(&mut self, n: u32, key: Key, t: u64) -> Event
        requires legal { IsTrue (legal self.old.now (Event.Hit n key t)) }
        requires room { HasRoom (Event.Hit n key t) self.old }
        ensures event { result ≡ Event.Hit n key t }
        ensures makes { Makes (Event.Hit n key t) self.old self.new }
    {
        self.hit_near(NO_PLACE, n, key, t)
    }

    /// Where the entry of a key stands just now, for `hit_near` and `drop_near`. It holds until entries come or go.
    #[inline(always)]
    pub fn place_of(&self, key: Key) -> usize {
        self.table.place_of(key)
    }

    /// `n` asks for a key as by `hit`. `near` is where its entry stood, so that there is mostly nothing to search; it may be any number.
    #[inline(always)]
    pub fn hit_near(&mut self, near: usize, n: u32, key: Key, t: u64) -> Event
        requires legal { IsTrue (legal self.old.now (Event.Hit n key t)) }
        requires room { HasRoom (Event.Hit n key t) self.old }
        ensures event { result ≡ Event.Hit n key t }
        ensures makes { Makes (Event.Hit n key t) self.old self.new }
    {
        let event = Event::Hit { n, key, t };
        self.table.hit_near(near, n, key, t);
        self.table.end_scan();
        self.halts.forget();
        append(&mut self.history, event);
        self.spare_events -= 2;
        event
    }

    /// `n` begins to read a key at tick `t` (a miss of `arc_read` in OpenZFS's `arc.c`).
    pub fn miss(&mut self, n: u32, key: Key, t: u64) -> Event
        requires legal { IsTrue (legal self.old.now (Event.Miss n key t)) }
        requires room { HasRoom (Event.Miss n key t) self.old }
        ensures event { result ≡ Event.Miss n key t }
        ensures makes { Makes (Event.Miss n key t) self.old self.new }
    {
        let event = Event::Miss { n, key, t };
        self.table.miss(n, key, t);
        self.table.end_scan();
        self.halts.forget();
        append(&mut self.history, event);
        self.spare_events -= 3;
        event
    }

    /// The bytes of a read of `n` have arrived, with this digest (`arc_read_done` of OpenZFS's `arc.c`).
    pub fn arrive(&mut self, n: u32, key: Key, digest: Digest, from: Origin) -> Event
        requires { IsTrue (legal self.old.now (Event.Arrive n key digest from)) }
        ensures event { result ≡ Event.Arrive n key digest from }
        ensures makes { Makes (Event.Arrive n key digest from) self.old self.new }
    {
        let event = Event::Arrive {
            n,
            key,
            digest,
            from,
        };
        self.table.arrive(n, key, digest, from);
        self.table.end_scan();
        self.halts.forget();
        append(&mut self.history, event);
        event
    }

    /// A read of `n` has failed.
    pub fn fail(&mut self, n: u32, key: Key, at: FailedAt) -> Event
        requires { IsTrue (legal self.old.now (Event.Fail n key at)) }
        ensures event { result ≡ Event.Fail n key at }
        ensures makes { Makes (Event.Fail n key at) self.old self.new }
    {
        let event = Event::Fail { n, key, at };
        self.table.fail(n, key, at);
        self.table.end_scan();
        self.halts.forget();
        append(&mut self.history, event);
        event
    }

    /// `n` gives one hold back (`remove_reference` of OpenZFS's `arc.c`).
    #[inline(always)]
    pub fn drop_one(&mut self, n: u32, key: Key) -> Event
        requires { IsTrue (legal self.old.now (Event.Drop n key)) }
        ensures event { result ≡ Event.Drop n key }
        ensures makes { Makes (Event.Drop n key) self.old self.new }
    {
        self.drop_near(NO_PLACE, n, key)
    }

    /// `n` gives one hold back as by `drop_one`. `near` is where the key's entry stood, and may be any number.
    #[inline(always)]
    pub fn drop_near(&mut self, near: usize, n: u32, key: Key) -> Event
        requires { IsTrue (legal self.old.now (Event.Drop n key)) }
        ensures event { result ≡ Event.Drop n key }
        ensures makes { Makes (Event.Drop n key) self.old self.new }
    {
        let event = Event::Drop { n, key };
        self.table.give_back_near(near, n, key);
        self.table.end_scan();
        self.halts.forget();
        append(&mut self.history, event);
        event
    }

    /// `n` has read the pool past the cache, which keeps bytes of the digest `kept` under the key.
    pub fn past(&mut self, n: u32, key: Key, kept: Digest) -> Event
        requires legal { IsTrue (legal self.old.now (Event.Past n key kept)) }
        requires room { HasRoom (Event.Past n key kept) self.old }
        ensures event { result ≡ Event.Past n key kept }
        ensures makes { Makes (Event.Past n key kept) self.old self.new }
    {
        let event = Event::Past { n, key, kept };
        self.table.end_scan();
        self.halts.forget();
        append(&mut self.history, event);
        self.spare_events -= 1;
        event
    }

    /// The events so far. The shard is sound, and it is their replay.
    pub fn history(&self) -> &History
        ensures history { result.now.events ≡ self.now.history }
        ensures replayed { IsReplayed self.now }
    {
        &self.history
    }

    /// What is known of a key. It is part of the code that calls it, so a caller that asks for a part reads no more of the entry.
    #[inline(always)]
    pub fn entry(&self, key: Key) -> Option<EntryView>
        ensures { result ≡ option_map view_of (entry_of key self.now.now) }
    {
        match self.table.find(key) {
            Some(entry) => Some(view_of(entry)),
            None => None,
        }
    }

    /// The size of a state in bytes, held entries included.
    pub fn size(&self, state: State) -> u128
        ensures { result ≡ size_in state self.now.now }
    {
        self.table.size(state)
    }

    /// The target of anonymous and MRU bytes.
    pub fn p(&self) -> u64
        ensures { result ≡ self.now.now.p }
    {
        self.table.p()
    }

    /// The capacity in bytes.
    pub fn c(&self) -> u64
        ensures { result ≡ self.now.now.c }
    {
        self.table.c()
    }
}
