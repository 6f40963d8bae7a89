//! A new capacity of every shard.
ghost use Rattle.std.specs.Prelude.{◌≡◌, ℕ, ◌<◌, [], OnOk, OnErr};
ghost use Rattle.arc_lists.specs.Adapting.{IsCapacity};
ghost use Rattle.arc_core.specs.declared.event.Event.{Event};
ghost use Rattle.turn_table.specs.Board.{IsAmong};
ghost use Rattle.arc_table.specs.Both.{Does, Makes};
ghost use Rattle.arc_table.specs.Cache.{IsPartyOf};
ghost use Rattle.arc_table.specs.scans.Ending.{MakesRoomy};
ghost use Rattle.arc_table.specs.feeder.Feeding.{IsFeeder};
ghost use Rattle.arc_table.specs.Geometry.{IsBucket, bucket_turn};
ghost use Rattle.arc_table.specs.Looking.{HasNoLook};
ghost use Rattle.arc_table.specs.Making.{IsTaken};
ghost use Rattle.arc_table.specs.Resizing.{AnswersResize, ResizesOne, key_in};

use crate::arcs::{Arcs, Party};
use crate::both::Both;
use arc_core::{Event, Keeps};
use blk_ptr::{Key, NoMemory};
use std::sync::Wait;

/// Memory was refused before all shards were resized.
#[derive(Clone, Copy, Debug, PartialEq, Eq)]
pub struct ResizeStop {
    /// The number of the shard that was not resized. Those below it have the new capacity.
    pub done: u32,
}

// A key of this shard, in its first bucket.
fn key_in(shard: u32) -> Key
    ensures { result ≡ key_in shard }
{
    Key {
        offset: 0,
        size: 0,
        birth: u64::from(shard),
    }
}

impl<C: Keeps> Arcs<C> {
    /// Every shard has a capacity of `c` bytes from now on, one after the other: blocks are evicted and ghosts dropped as far as it asks.
    /// It stops where memory is refused; what was resized before stays. The party is the feeder. It may wait.
    pub fn resize(&self, rt: &impl Wait, party: &mut Party<C>, c: u64) -> Result<(), ResizeStop>
        requires party { IsPartyOf self.now party.old }
        requires look { HasNoLook self.now party.old }
        requires feeder { IsFeeder self.now party.old }
        requires capacity { IsCapacity c }
        ensures party { IsPartyOf self.now party.new }
        ensures free { HasNoLook self.now party.new }
        ensures held { party.new.held ≡ party.old.held }
        ensures number { party.new.number ≡ party.old.number }
        ensures answer { AnswersResize C.Keeps self.now.config c party.old party.new result }
    {
        for shard in 0..self.config.shards {
            match self.resize_one(rt, party, shard, c) {
                Ok(()) => {}
                Err(NoMemory) => return Err(ResizeStop { done: shard }),
            }
        }
        Ok(())
    }

    // Resizes one shard. Where memory is refused there is no event.
    fn resize_one(
        &self,
        rt: &impl Wait,
        party: &mut Party<C>,
        shard: u32,
        c: u64,
    ) -> Result<(), NoMemory>
        requires party { IsPartyOf self.now party.old }
        requires look { HasNoLook self.now party.old }
        requires feeder { IsFeeder self.now party.old }
        requires shard { shard < self.now.config.shards }
        requires capacity { IsCapacity c }
        ensures party { IsPartyOf self.now party.new }
        ensures number { party.new.number ≡ party.old.number }
        ensures held { party.new.held ≡ party.old.held }
        ensures ok { OnOk result (ResizesOne C.Keeps self.now.config party.old.number c shard party.old party.new) }
        ensures err { OnErr result (Does C.Keeps self.now.config (key_in shard) [] party.old party.new) }
    {
        let key = key_in(shard);
        let both = self.take_both(rt, party, key);
        self.resize_taken(party, both, key, c)
    }

    // Resizes the shard that the party has just taken with the key's bucket, and gives all back.
    fn resize_taken(
        &self,
        party: &mut Party<C>,
        both: Both,
        key: Key,
        c: u64,
    ) -> Result<(), NoMemory>
        requires party { IsPartyOf self.now party.old }
        requires taken { IsTaken C.Keeps self.now.config key both party.old }
        requires others { (j : ℕ) → IsAmong j party.old.held → IsBucket self.now.config j → j ≡ bucket_turn self.now.config key }
        requires feeder { IsFeeder self.now party.old }
        requires capacity { IsCapacity c }
        ensures ok { OnOk result (MakesRoomy C.Keeps self.now.config key both.shard (Event.Resize party.old.number c) party.old party.new) }
        ensures err { OnErr result (Makes C.Keeps self.now.config key both.shard [] party.old party.new) }
    {
        let n = party.number();
        let event = Event::Resize { n, c };
        let mut scan = match self.begin_scan(party, both, &event) {
            Ok(scan) => scan,
            Err(both) => {
                self.give_both(party, key, both);
                return Err(NoMemory);
            }
        };
        scan.both.shard.resize(n, c);
        self.end_scan(party, scan);
        Ok(())
    }
}
