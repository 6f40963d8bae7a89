//! The feed's picks.
ghost use Rattle.std.specs.Prelude.{◌≡◌, ◌<◌, ◌≤◌, ◌++◌, ◌∷◌, IfOk, OnErr, OnOk, List, [], Some, None, length, take};
ghost use Rattle.arc_core.specs.declared.event.Event.{Event};
ghost use Rattle.arc_core.specs.Candidate.{candidate};
ghost use Rattle.turn_table.specs.Board.{IsAmong};
ghost use Rattle.turn_table.specs.Places.{IsOther, gave_back};
ghost use Rattle.turn_table.specs.Taken.{IfBusy, IfTaken};
ghost use Rattle.arc_table.specs.declared.item.Item.TheVariants as item;
ghost use Rattle.arc_table.specs.Both.{Takes};
ghost use Rattle.arc_table.specs.Cache.{IsPartyOf};
ghost use Rattle.arc_table.specs.feeder.Feeding.{IsFeeder};
ghost use Rattle.arc_table.specs.Fronts.{list_at};
ghost use Rattle.arc_table.specs.Geometry.{IsShard};
ghost use Rattle.arc_table.specs.InHand.{made_since};
ghost use Rattle.arc_table.specs.Looking.{HasNoLook};
ghost use Rattle.arc_table.specs.feeder.Picking.{EndsFeed, Feeds, HasNoted, HasPicked, IsBlockOf, IsFeeding, KeepsFeed, PicksAll, left_to_pick, nth_shard_turn};
ghost use Rattle.arc_table.specs.ShardGiving.{IsGivenShard, after_shard};

use crate::arcs::{Arcs, Party};
use crate::gives;
use crate::headers::block_of;
use crate::heap_shard::HeapShard;
use crate::item::Item;
use crate::looking::bucket_turn_of;
use crate::view::Known;
use arc_core::{Event, Keeps};
use blk_ptr::{Block, Key, NoMemory};
use std::snapshot::Snapshot;
use std::sync::{Arc, Wait};
use turn_table::{GivenView, Take};

/// A key that the feeder picked, with its block, which has the digest that the key was picked with.
#[derive(Debug, Drop)]
pub struct Picked {
    /// The key, whose numbers are in their ranges.
    pub key: Key,
    /// One owner of the block that the key's header has.
    pub block: Arc<Block>,
}

/// A feed's scan in hand: the shard, as it is and as it was when it was taken, the party then, how many
/// blocks `out` had, and how many events the shard.
#[derive(Drop)]
pub(crate) struct Feed<C: Keeps> {
    pub(crate) turn: u32,
    pub(crate) shard: HeapShard,
    pub(crate) before: Snapshot<HeapShard>,
    pub(crate) began: Snapshot<Party<C>>,
    pub(crate) had: usize,
    pub(crate) len: usize,
}

impl<C: Keeps> Arcs<C> {
    /// Picks the keys that a feed of the cache device may take from this shard, and gives their blocks to `out`, in the order of the picks.
    /// A key whose bucket another party has is passed. Until the feed's end is made the shard isn't given back. After want of
    /// memory there is no event, and `out` is as before. The party is the feeder, and has settled what it picked there. It may wait
    /// (`l2arc_write_buffers` of OpenZFS's `arc.c`).
    pub fn pick(
        &self,
        rt: &impl Wait,
        party: &mut Party<C>,
        shard: u32,
        out: &mut Vec<Picked>,
    ) -> Result<(), NoMemory>
        requires party { IsPartyOf self.now party.old }
        requires look { HasNoLook self.now party.old }
        requires feeder { IsFeeder self.now party.old }
        requires shard { shard < self.now.config.shards }
        requires settled { list_at (nth_shard_turn self.now.config shard) party.old.own.ledger.picked ≡ [] }
        ensures party { IsPartyOf self.now party.new }
        ensures free { HasNoLook self.now party.new }
        ensures held { party.new.held ≡ party.old.held }
        ensures number { party.new.number ≡ party.old.number }
        ensures ok { OnOk result (PicksAll C.Keeps self.now.config (nth_shard_turn self.now.config shard) party.old party.new out.old.items out.new.items) }
        ensures err { OnErr result (Feeds C.Keeps self.now.config (nth_shard_turn self.now.config shard) [] party.old party.new) }
        ensures unchanged { OnErr result (out.new.items ≡ out.old.items) }
    {
        let mut feed = self.begin_feed(rt, party, shard, out.as_slice().len());
        match self.pick_all(party, &mut feed, out) {
            Ok(()) => {
                self.end_feed(party, feed);
                Ok(())
            }
            Err(NoMemory) => {
                out.truncate(feed.had);
                self.end_unpicked(party, feed);
                Err(NoMemory)
            }
        }
    }

    // Takes the shard.
    fn begin_feed(&self, rt: &impl Wait, party: &mut Party<C>, shard: u32, had: usize) -> Feed<C>
        requires party { IsPartyOf self.now party.old }
        requires look { HasNoLook self.now party.old }
        requires feeder { IsFeeder self.now party.old }
        requires shard { shard < self.now.config.shards }
        requires settled { list_at (nth_shard_turn self.now.config shard) party.old.own.ledger.picked ≡ [] }
        ensures party { IsPartyOf self.now party.new }
        ensures number { party.new.number ≡ party.old.number }
        ensures own { party.new.own.number ≡ party.new.number }
        ensures turn { result.turn ≡ nth_shard_turn self.now.config shard }
        ensures had { result.had ≡ had }
        ensures len { result.len ≡ length result.before.value.history }
        ensures began { result.began.value ≡ party.new }
        ensures takes { Takes C.Keeps result.turn (item.Shard result.before.value) party.old party.new }
        ensures scan { HasPicked self.now.config result party.new [] }
        ensures picked { result.shard.now.picked ≡ [] }
    {
        let turn = self.config.cells + (self.config.shards * self.config.buckets + shard);
        let shard = self.turns.take(rt, party, turn).into_shard();
        Feed {
            turn,
            before: Snapshot::of(&shard),
            began: Snapshot::of(party),
            had,
            len: shard.history().len(),
            shard,
        }
    }

    // Picks and passes all candidates.
    fn pick_all(
        &self,
        party: &mut Party<C>,
        feed: &mut Feed<C>,
        out: &mut Vec<Picked>,
    ) -> Result<(), NoMemory>
        requires party { IsPartyOf self.now party.old }
        requires feeding { IsFeeding self.now.config feed.old party.old out.old.items }
        ensures party { IsPartyOf self.now party.new }
        ensures kept { KeepsFeed feed.old feed.new }
        ensures feeding { IsFeeding self.now.config feed.new party.new out.new.items }
        ensures front { take feed.old.had out.new.items ≡ take feed.old.had out.old.items }
        ensures end { OnOk result (candidate feed.new.shard.now ≡ None) }
        ensures room { OnOk result (1 ≤ feed.new.shard.event_room) }
    {
        feed.shard.reserve(1, 0)?;
        while let Some(key) = feed.shard.candidate() {
            self.pick_one(party, feed, key, out)?;
        }
        Ok(())
    }

    // Picks a candidate, or passes it where another party has its bucket.
    fn pick_one(
        &self,
        party: &mut Party<C>,
        feed: &mut Feed<C>,
        key: Key,
        out: &mut Vec<Picked>,
    ) -> Result<(), NoMemory>
        requires party { IsPartyOf self.now party.old }
        requires candidate { candidate feed.old.shard.now ≡ Some key }
        requires feeding { IsFeeding self.now.config feed.old party.old out.old.items }
        ensures party { IsPartyOf self.now party.new }
        ensures kept { KeepsFeed feed.old feed.new }
        ensures feeding { IsFeeding self.now.config feed.new party.new out.new.items }
        ensures front { take feed.old.had out.new.items ≡ take feed.old.had out.old.items }
        ensures room { OnOk result (1 ≤ feed.new.shard.event_room) }
        ensures fewer { OnOk result (left_to_pick feed.new.shard.now < left_to_pick feed.old.shard.now) }
    {
        feed.shard.reserve(3, 0)?;
        out.reserve(1)?;
        match self.try_block(party, feed, key) {
            Take::Busy { owner } => {
                feed.shard.pass(party.number(), key, owner);
                Ok(())
            }
            Take::Taken(block) => {
                let block = block?;
                feed.shard.pick(party.number(), key);
                out.push_reserved(Picked { key, block });
                Ok(())
            }
        }
    }

    // The block of a candidate, where its bucket is free. The bucket is given back.
    fn try_block(
        &self,
        party: &mut Party<C>,
        feed: &Feed<C>,
        key: Key,
    ) -> Take<Result<Arc<Block>, NoMemory>>
        requires party { IsPartyOf self.now party.old }
        requires candidate { candidate feed.now.shard.now ≡ Some key }
        requires scan { (es : List Event) × HasPicked self.now.config feed.now party.old es }
        ensures party { IsPartyOf self.now party.new }
        ensures taken { IfTaken result (λ block. (es : List Event) → HasPicked self.now.config feed.now party.old es → HasPicked self.now.config feed.now party.new es) }
        ensures block { IfTaken result (λ r. IfOk r (λ block. IsBlockOf key feed.now.shard.now block.value)) }
        ensures busy { IfBusy result (λ owner. (es : List Event) → HasPicked self.now.config feed.now party.old es → HasNoted self.now.config feed.now party.new key owner es) }
        ensures owner { IfBusy result (λ owner. IsOther owner party.old) }
        ensures few { IfBusy result (λ owner. owner ≤ 16) }
    {
        let turn = bucket_turn_of(&self.config, key);
        match self.turns.try_take(party, turn) {
            Take::Busy { owner } => Take::Busy { owner },
            Take::Taken(value) => {
                let bucket = value.into_bucket();
                let block = block_of(&bucket, key);
                self.turns
                    .give::<gives::Same>(party, turn, Item::Bucket(bucket));
                Take::Taken(block)
            }
        }
    }

    // Makes the feed's end, and gives the shard back.
    fn end_feed(&self, party: &mut Party<C>, mut feed: Feed<C>)
        requires party { IsPartyOf self.now party.old }
        requires feeder { IsFeeder self.now party.old }
        requires scan { (es : List Event) × HasPicked self.now.config feed party.old es }
        requires end { candidate feed.shard.now ≡ None }
        requires room { 1 ≤ feed.shard.event_room }
        ensures { (es : List Event) → HasPicked self.now.config feed party.old es → EndsFeed C.Keeps feed (es ++ Event.FeedEnd party.old.number ∷ []) feed.shard.now.picked party.old party.new }
    {
        feed.shard.feed_end(party.number());
        self.give_alone(party, feed);
    }

    // Takes the picks and passes back, and gives the shard back.
    fn end_unpicked(&self, party: &mut Party<C>, mut feed: Feed<C>)
        requires party { IsPartyOf self.now party.old }
        requires scan { (es : List Event) × HasPicked self.now.config feed party.old es }
        ensures { EndsFeed C.Keeps feed [] [] party.old party.new }
    {
        feed.shard.unpick(feed.len);
        self.give_alone(party, feed);
    }

    // Gives the shard back, with no bucket in hand.
    fn give_alone(&self, party: &mut Party<C>, feed: Feed<C>)
        requires party { IsPartyOf self.now party.old }
        requires range { IsShard self.now.config feed.turn }
        requires held { IsAmong feed.turn party.old.held }
        requires given { IsGivenShard party.old.own.about.config party.old feed.turn [] feed.before.value (made_since feed.before.value feed.shard) feed.shard }
        ensures { party.new ≡ gave_back party.old feed.turn (after_shard C.Keeps [] feed.turn feed.before.value (made_since feed.before.value feed.shard) feed.shard party.old.own) }
    {
        let Feed {
            turn,
            shard,
            before,
            began: _,
            had: _,
            len: _,
        } = feed;
        self.turns
            .give_with::<Snapshot<HeapShard>, Alone>(party, turn, Item::Shard(shard), &before);
    }
}

/// A shard was given back, with no bucket in hand.
pub(crate) struct Alone;

impl<C: Keeps> GivenView<Item<C>, Known<C>, Snapshot<HeapShard>> for Alone {
    ghost use Rattle.std.specs.Prelude.{[]};
    ghost use Rattle.arc_table.specs.InHand.{made_since};
    ghost use Rattle.arc_table.specs.Items.{log_in};
    ghost use Rattle.arc_table.specs.ShardGiving.{after_shard};

    ghost given = { λ before w i v. after_shard C.Keeps [] i before.value
        (made_since before.value (log_in w.about.config v)) (log_in w.about.config v) w };
}
