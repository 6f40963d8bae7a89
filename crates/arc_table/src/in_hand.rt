//! What a call has in hand: the bucket of its key, its shard, and the buckets of the keys that its event evicts or drops.
ghost use Rattle.std.specs.Prelude.{◌≡◌};
ghost use Rattle.turn_table.specs.Board.{IsAmong};
ghost use Rattle.turn_table.specs.Places.{gave_back};
ghost use Rattle.arc_table.specs.Cache.{IsPartyOf};
ghost use Rattle.arc_table.specs.Geometry.{IsShard};
ghost use Rattle.arc_table.specs.InHand.{buckets_of, made_since};
ghost use Rattle.arc_table.specs.ShardGiving.{IsGivenShard, after_shard};

use crate::arcs::{Arcs, Party};
use crate::heap_bucket::HeapBucket;
use crate::heap_shard::HeapShard;
use crate::item::Item;
use crate::view::Known;
use arc_core::Keeps;
use std::snapshot::Snapshot;
use turn_table::GivenView;

/// A bucket whose turn a call has taken.
#[derive(Drop)]
pub(crate) struct Taken {
    pub(crate) turn: u32,
    pub(crate) bucket: HeapBucket,
}

/// The buckets in hand while a shard is given back, with the shard as it was when it was taken.
#[derive(Drop)]
pub(crate) struct Hand {
    pub(crate) own: Taken,
    pub(crate) victims: Vec<Taken>,
    pub(crate) before: Snapshot<HeapShard>,
}

/// A shard was given back, with these buckets in hand.
pub(crate) struct Events;

impl<C: Keeps> GivenView<Item<C>, Known<C>, Hand> for Events {
    ghost use Rattle.arc_table.specs.InHand.{buckets_of, made_since};
    ghost use Rattle.arc_table.specs.Items.{log_in};
    ghost use Rattle.arc_table.specs.ShardGiving.{after_shard};

    ghost given = { λ hand w i v. after_shard C.Keeps (buckets_of hand) i hand.before.value
        (made_since hand.before.value (log_in w.about.config v)) (log_in w.about.config v) w };
}

impl<C: Keeps> Arcs<C> {
    // Gives the shard back, with the buckets in hand. These stay in hand, as the records of the party have them from then on.
    pub(crate) fn give_shard(&self, party: &mut Party<C>, turn: u32, shard: HeapShard, hand: &Hand)
        requires party { IsPartyOf self.now party.old }
        requires range { IsShard self.now.config turn }
        requires held { IsAmong turn party.old.held }
        requires given { IsGivenShard party.old.own.about.config party.old turn (buckets_of hand.now) hand.now.before.value (made_since hand.now.before.value shard) shard }
        ensures { party.new ≡ gave_back party.old turn (after_shard C.Keeps (buckets_of hand.now) turn hand.now.before.value (made_since hand.now.before.value shard) shard party.old.own) }
    {
        self.turns
            .give_with::<Hand, Events>(party, turn, Item::Shard(shard), hand);
    }
}
