//! What an event evicts and drops: the scan for it, its headers, and its buckets given back.
ghost use Rattle.std.specs.Prelude.{◌≡◌, IsTrue, IsSome, List, []};
ghost use Rattle.blk_ptr.specs.declared.key.Key.{Key};
ghost use Rattle.arc_lists.specs.Sequences.{stands_on};
ghost use Rattle.arc_core.specs.Config.{IsConfig};
ghost use Rattle.arc_core.specs.declared.event.Event.{Event};
ghost use Rattle.arc_core.specs.ShardLog.{ShardLog};
ghost use Rattle.hash_chain.specs.Chain.{Chain};
ghost use Rattle.arc_table.specs.Cache.{IsPartyOf};
ghost use Rattle.turn_table.specs.Places.{Place, gave_back};
ghost use Rattle.arc_table.specs.Views.{after_same};
ghost use Rattle.arc_table.specs.scans.Ending.{GivesAll, HasMade};
ghost use Rattle.arc_table.specs.InHand.{buckets_of, made_since};
ghost use Rattle.arc_table.specs.Fronts.{item_at};
ghost use Rattle.arc_table.specs.Geometry.{bucket_turn};
ghost use Rattle.arc_table.specs.scans.Sparing.{AreHeadsBut, turns_in};
ghost use Rattle.arc_table.specs.declared.view.Known.{Known};
ghost use Rattle.arc_table.specs.scans.Scanning.{AllPairs, AreApart, IsInHand, gave_all, pairs_of};

use crate::arcs::{Arcs, Party};
use crate::both::Both;
use crate::gives;
use crate::heap_shard::{HeapShard, ScanLists};
use crate::in_hand::{Hand, Taken};
use crate::item::Item;
use crate::scan::Scan;
use crate::spare::spare_all;
use arc_core::{Config, Keeps};
use blk_ptr::Key;
use std::mem;

// The shard keeps a scan's lists for its next scan. The buckets in hand stay so in a list of their number; where memory is refused for that, the shard keeps none.
fn keep_lists(hand: &mut Hand, shard: &mut HeapShard, marked: Vec<Key>)
    ensures shard { shard.new ≡ shard.old }
    ensures before { hand.new.before ≡ hand.old.before }
    ensures buckets { buckets_of hand.new ≡ buckets_of hand.old }
{
    if let Ok(taken) = hand.victims.split_off(0) {
        let victims = mem::replace(&mut hand.victims, taken);
        shard.keep_lists(ScanLists { marked, victims });
    }
}

// The headers of the marked keys say what their entries do now, as by `spare_all`, and the shard keeps the lists.
fn spare_marked(hand: &mut Hand, config: &Config, shard: &mut HeapShard, marked: Vec<Key>)
    requires valid { IsConfig config.now }
    requires apart { AreApart (buckets_of hand.old) }
    requires in_hand { (k : Key) → IsTrue (stands_on k marked.items) → IsSome (item_at (bucket_turn config.now k) (buckets_of hand.old)) }
    requires heads { AllPairs (AreHeadsBut config.now hand.old.before.value.now shard.old.now marked.items) (buckets_of hand.old) }
    ensures shard { shard.new ≡ shard.old }
    ensures before { hand.new.before ≡ hand.old.before }
    ensures turns { turns_in (buckets_of hand.new) ≡ turns_in (buckets_of hand.old) }
    ensures heads { AllPairs (AreHeadsBut config.now hand.old.before.value.now shard.old.now []) (buckets_of hand.new) }
{
    spare_all(hand, config, shard, &marked);
    keep_lists(hand, shard, marked);
}

impl<C: Keeps> Arcs<C> {
    // Gives buckets back as they are in hand.
    pub(crate) fn give_buckets(&self, party: &mut Party<C>, buckets: Vec<Taken>)
        requires party { IsPartyOf self.now party.old }
        requires apart { AreApart (pairs_of buckets.items) }
        requires held { AllPairs (IsInHand C.Keeps party.old) (pairs_of buckets.items) }
        ensures { party.new ≡ gave_all (pairs_of buckets.items) party.old }
    {
        for taken in buckets {
            self.give_bucket(party, taken);
        }
    }

    // Gives a bucket back as it is in hand.
    pub(crate) fn give_bucket(&self, party: &mut Party<C>, taken: Taken)
        requires party { IsPartyOf self.now party.old }
        requires held { IsInHand C.Keeps party.old taken.turn taken.bucket }
        ensures { party.new ≡ gave_back party.old taken.turn (after_same taken.turn party.old.own) }
    {
        let Taken { turn, bucket } = taken;
        self.turns
            .give::<gives::Same>(party, turn, Item::Bucket(bucket));
    }

    // Gives all back once the event of a scan is made and the header of its own key is right: the victims' headers are put right first.
    pub(crate) fn end_scan(&self, party: &mut Party<C>, scan: Scan)
        requires party { IsPartyOf self.now party.old }
        requires made { (e : Event) × (passes : List Event) × (p : Place (Known C)) × (l : ShardLog) × (chain : Chain)
            × HasMade C.Keeps self.now.config e passes p party.old l chain scan }
        ensures { GivesAll C.Keeps scan.both.turn (turns_in (buckets_of scan.both.hand)) scan.both.hand.before.value
            (made_since scan.both.hand.before.value scan.both.shard) scan.both.shard party.old party.new }
    {
        let Scan { both, marked } = scan;
        let Both {
            mut hand,
            turn,
            mut shard,
        } = both;
        spare_marked(&mut hand, &self.config, &mut shard, marked);
        self.give_shard(party, turn, shard, &hand);
        let Hand {
            own,
            victims,
            before: _,
        } = hand;
        self.give_bucket(party, own);
        self.give_buckets(party, victims);
    }
}
