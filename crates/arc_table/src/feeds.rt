//! How the feeder settles its picks, and takes places from entries.
ghost use Rattle.std.specs.Prelude.{◌≡◌, ◌≢◌, IsTrue, IfOk, OnErr, [], if◌then◌else◌};
ghost use Rattle.arc_core.specs.declared.event.Why.{Why};
ghost use Rattle.arc_core.specs.PlainShard.{is_number};
ghost use Rattle.arc_core.specs.Step.{is_writing, may_set};
ghost use Rattle.arc_table.specs.Both.{Does};
ghost use Rattle.arc_table.specs.Cache.{IsPartyOf};
ghost use Rattle.arc_table.specs.feeder.Feeding.{AnswersClear, AnswersSet, IsFeeder, IsPicked, Leaves, has_place};
ghost use Rattle.arc_table.specs.Looking.{HasNoLook};

use crate::arcs::{Arcs, Party};
use crate::front::Front;
use crate::headers::follow;
use arc_core::{Event, Keeps, Shard, Why};
use blk_ptr::{Key, NoMemory};
use std::sync::Wait;

/// What `clear` gave.
#[derive(Clone, Copy, Debug, PartialEq, Eq)]
pub enum Cleared {
    /// The entry had the place and lost it.
    Done,
    /// The entry that the front's replay has of the key, if any, has another place or none.
    Not(Front),
}

// Whether the key has this place.
fn has_place(shard: &Shard, key: Key, place: u64) -> bool
    ensures { result ≡ has_place place key shard.now.now }
{
    match shard.entry(key) {
        Some(entry) => match entry.place {
            Some(x) => x == place,
            None => false,
        },
        None => false,
    }
}

// Whether a picked key may gain a place.
fn may_set(shard: &Shard, n: u32, key: Key) -> bool
    requires number { IsTrue (is_number n) }
    requires writing { IsTrue (is_writing shard.now.now.phase) }
    ensures { result ≡ may_set key shard.now.now }
{
    shard.legal(&Event::Set { n, key, place: 0 })
}

// Why a picked key is left: for this reason where it might gain a place, and else since it is gone.
fn reason_for(shard: &Shard, n: u32, key: Key, why: Why) -> Why
    requires number { IsTrue (is_number n) }
    requires writing { IsTrue (is_writing shard.now.now.phase) }
    ensures { result ≡ (if may_set key shard.now.now then why else Why.Gone) }
{
    if may_set(shard, n, key) {
        why
    } else {
        Why::Gone
    }
}

impl<C: Keeps> Arcs<C> {
    /// A picked key was written at this place of the cache device: its entry has the place from now on. False where the entry is gone, is
    /// being read, has another digest or a place already: the pick is left as gone. The party is the feeder. It may wait, and takes no
    /// memory (`l2arc_write_done` of OpenZFS's `arc.c`).
    pub fn set(&self, rt: &impl Wait, party: &mut Party<C>, key: Key, place: u64) -> bool
        requires party { IsPartyOf self.now party.old }
        requires look { HasNoLook self.now party.old }
        requires feeder { IsFeeder self.now party.old }
        requires picked { IsPicked self.now.config party.old key }
        ensures { AnswersSet C.Keeps self.now.config key place party.old party.new result }
    {
        let mut both = self.take_both(rt, party, key);
        let n = party.number();
        let shard = &mut *both.shard;
        if !may_set(shard, n, key) {
            shard.leave(n, key, Why::Gone);
            self.give_both(party, key, both);
            return false;
        }
        shard.set(n, key, place);
        follow(&mut both.hand.own.bucket, shard, key);
        self.give_both(party, key, both);
        true
    }

    /// A picked key gets no place, for this reason, or since it is gone. The party is the feeder. It may wait, and takes no memory.
    pub fn leave(&self, rt: &impl Wait, party: &mut Party<C>, key: Key, why: Why)
        requires party { IsPartyOf self.now party.old }
        requires look { HasNoLook self.now party.old }
        requires feeder { IsFeeder self.now party.old }
        requires picked { IsPicked self.now.config party.old key }
        requires why { why ≢ Why.Gone }
        ensures { Leaves C.Keeps self.now.config key why party.old party.new }
    {
        let mut both = self.take_both(rt, party, key);
        let n = party.number();
        let shard = &mut *both.shard;
        let why = reason_for(shard, n, key, why);
        shard.leave(n, key, why);
        self.give_both(party, key, both);
    }

    /// The key's place on the cache device is no longer its own: its entry loses the place, where it has this one, and goes where only the
    /// device had it (`l2arc_evict` of OpenZFS's `arc.c`). After want of memory there is no event. The party is the feeder. It may wait.
    pub fn clear(
        &self,
        rt: &impl Wait,
        party: &mut Party<C>,
        key: Key,
        place: u64,
    ) -> Result<Cleared, NoMemory>
        requires party { IsPartyOf self.now party.old }
        requires look { HasNoLook self.now party.old }
        requires feeder { IsFeeder self.now party.old }
        ensures ok { IfOk result (AnswersClear C.Keeps self.now.config key place party.old party.new) }
        ensures err { OnErr result (Does C.Keeps self.now.config key [] party.old party.new) }
    {
        let mut both = self.take_both(rt, party, key);
        let shard = &mut *both.shard;
        if !has_place(shard, key, place) {
            let front = self.front_of(key, shard);
            self.give_back(party, key, both);
            return Ok(Cleared::Not(front));
        }
        let Ok(()) = shard.reserve(1, 0) else {
            self.give_back(party, key, both);
            return Err(NoMemory);
        };
        shard.clear(party.number(), key);
        follow(&mut both.hand.own.bucket, shard, key);
        self.give_both(party, key, both);
        Ok(Cleared::Done)
    }
}
