//! The bucket and the shard of a key, taken one after the other, and given back with the events made in between. These and the other
//! steps of a hit and a drop are part of the code that calls them: they would hand what they have on through memory, which is a fourth of their instructions.
ghost use Rattle.std.specs.Prelude.{◌≡◌, ◌<◌, ◌≢◌, [], ◌∷◌, IfNone, IfSome};
ghost use Rattle.arc_core.specs.Config.{IsConfig};
ghost use Rattle.arc_table.specs.declared.item.Item.TheVariants as item;
ghost use Rattle.arc_table.specs.Both.{Makes, Takes, TakesBoth};
ghost use Rattle.arc_table.specs.Cache.{IsPartyOf};
ghost use Rattle.arc_table.specs.Geometry.{bucket_turn, shard_turn};
ghost use Rattle.arc_table.specs.InHand.{made_since};
ghost use Rattle.arc_table.specs.Looking.{HasNoLook};
ghost use Rattle.arc_table.specs.Making.{IsMade, IsOf, IsTaken};
ghost use Rattle.arc_table.specs.Ready.{IsReady};
ghost use Rattle.arc_table.specs.pact.Standing.{IsCachedWith};
ghost use Rattle.arc_table.specs.Trying.{FindsBusy};
ghost use Rattle.turn_table.specs.Board.{IsAmong};
ghost use Rattle.turn_table.specs.Places.{IsOther};
ghost use Rattle.turn_table.specs.Taken.{IfBusy, IfTaken};

use crate::arcs::{Arcs, Party};
use crate::gives;
use crate::headers::find_ready;
use crate::heap_shard::HeapShard;
use crate::in_hand::{Hand, Taken};
use crate::item::Item;
use crate::looking::bucket_turn_of;
use arc_core::{Config, Keeps};
use blk_ptr::{Key, Ptr};
use std::snapshot::Snapshot;
use std::sync::Wait;
use turn_table::Take;

/// The bucket and the shard of a key in hand.
#[derive(Drop)]
pub(crate) struct Both {
    pub(crate) hand: Hand,
    pub(crate) turn: u32,
    pub(crate) shard: HeapShard,
}

// The turn of a key's shard.
pub(crate) fn shard_turn_of(config: &Config, key: Key) -> u32
    requires { IsConfig config.now }
    ensures { result ≡ shard_turn config.now key }
{
    config.cells + (config.shards * config.buckets + key.shard(config.shards))
}

impl<C: Keeps> Arcs<C> {
    // Takes the bucket of a key and then its shard, and waits while other parties have them.
    #[inline(always)]
    pub(crate) fn take_both(&self, rt: &impl Wait, party: &mut Party<C>, key: Key) -> Both
        requires party { IsPartyOf self.now party.old }
        requires look { HasNoLook self.now party.old }
        ensures party { IsPartyOf self.now party.new }
        ensures kind { IsOf self.now.config key result }
        ensures new { result.hand.before.value ≡ result.shard }
        ensures takes { TakesBoth C.Keeps self.now.config key result.hand.own.bucket result.shard party.old party.new }
    {
        let turn = shard_turn_of(&self.config, key);
        let own = self.take_bucket(rt, party, key);
        self.take_shard(rt, party, key, own, turn)
    }

    // The same for a pointer's key, and where the bytes are cached with the pointer's digest, where their header stands. That is seen in the bucket, before the shard is
    // taken, so that the shard isn't kept meanwhile.
    pub(crate) fn take_ready(
        &self,
        rt: &impl Wait,
        party: &mut Party<C>,
        ptr: &Ptr,
    ) -> (Both, Option<usize>)
        requires party { IsPartyOf self.now party.old }
        requires look { HasNoLook self.now party.old }
        ensures party { IsPartyOf self.now party.new }
        ensures kind { IsOf self.now.config ptr.now.key result.0 }
        ensures new { result.0.hand.before.value ≡ result.0.shard }
        ensures takes { TakesBoth C.Keeps self.now.config ptr.now.key result.0.hand.own.bucket result.0.shard party.old party.new }
        ensures ready { IfSome result.1 (λ at. IsReady ptr.now at result.0.hand.own.bucket.headers) }
        ensures here { IfSome result.1 (λ at. IsCachedWith ptr.now result.0.shard.now) }
        ensures elsewhere { IfNone result.1 (IsCachedWith ptr.now result.0.shard.now → ⊥) }
    {
        let turn = shard_turn_of(&self.config, ptr.key);
        let own = self.take_bucket(rt, party, ptr.key);
        let ready = find_ready(&own.bucket, ptr);
        (self.take_shard(rt, party, ptr.key, own, turn), ready)
    }

    // Takes the bucket of a key, and waits while another party has it.
    #[inline(always)]
    fn take_bucket(&self, rt: &impl Wait, party: &mut Party<C>, key: Key) -> Taken
        requires party { IsPartyOf self.now party.old }
        requires look { HasNoLook self.now party.old }
        ensures valid { IsConfig self.now.config }
        ensures turn { result.turn ≡ bucket_turn self.now.config key }
        ensures takes { Takes C.Keeps (bucket_turn self.now.config key) (item.Bucket result.bucket) party.old party.new }
    {
        let turn = bucket_turn_of(&self.config, key);
        let bucket = self.turns.take(rt, party, turn).into_bucket();
        Taken { turn, bucket }
    }

    // Takes the shard of a key whose bucket the party has taken before, and waits while another party has it. The shard's turn comes from the caller, who finds it
    // together with the bucket's: the key is hashed once for both.
    #[inline(always)]
    fn take_shard(
        &self,
        rt: &impl Wait,
        party: &mut Party<C>,
        key: Key,
        own: Taken,
        turn: u32,
    ) -> Both
        requires party { IsPartyOf self.now party.old }
        requires turn { turn ≡ shard_turn self.now.config key }
        requires free { ¬ IsAmong (shard_turn self.now.config key) party.old.held }
        requires own { own.turn ≡ bucket_turn self.now.config key }
        ensures kind { IsOf self.now.config key result }
        ensures own { result.hand.own ≡ own }
        ensures new { result.hand.before.value ≡ result.shard }
        ensures takes { Takes C.Keeps (shard_turn self.now.config key) (item.Shard result.shard) party.old party.new }
    {
        let _ = key;
        let shard = self.turns.take(rt, party, turn).into_shard();
        let hand = Hand {
            own,
            victims: Vec::new(self.alloc),
            before: Snapshot::of(&shard),
        };
        Both { hand, turn, shard }
    }

    // Takes the bucket of a key and then its shard, where no other party has them. Where another has the shard, the bucket is given back.
    pub(crate) fn try_both(&self, party: &mut Party<C>, key: Key) -> Take<Both>
        requires party { IsPartyOf self.now party.old }
        requires look { HasNoLook self.now party.old }
        ensures party { IfTaken result (λ both. IsPartyOf self.now party.new) }
        ensures kind { IfTaken result (λ both. IsOf self.now.config key both) }
        ensures new { IfTaken result (λ both. both.hand.before.value ≡ both.shard) }
        ensures takes { IfTaken result (λ both. TakesBoth C.Keeps self.now.config key both.hand.own.bucket both.shard party.old party.new) }
        ensures busy { IfBusy result (λ n. FindsBusy C.Keeps self.now.config key n party.old party.new) }
        ensures owner { IfBusy result (λ n. IsOther n party.old) }
    {
        let own = bucket_turn_of(&self.config, key);
        let turn = shard_turn_of(&self.config, key);
        let bucket = match self.turns.try_take(party, own) {
            Take::Busy { owner } => return Take::Busy { owner },
            Take::Taken(value) => value.into_bucket(),
        };
        let shard = match self.turns.try_take(party, turn) {
            Take::Busy { owner } => {
                self.turns
                    .give::<gives::Same>(party, own, Item::Bucket(bucket));
                return Take::Busy { owner };
            }
            Take::Taken(value) => value.into_shard(),
        };
        let hand = Hand {
            own: Taken { turn: own, bucket },
            victims: Vec::new(self.alloc),
            before: Snapshot::of(&shard),
        };
        Take::Taken(Both { hand, turn, shard })
    }

    // Gives both back as they were taken: there is no event.
    pub(crate) fn give_back(&self, party: &mut Party<C>, key: Key, both: Both)
        requires party { IsPartyOf self.now party.old }
        requires taken { IsTaken C.Keeps self.now.config key both party.old }
        ensures { Makes C.Keeps self.now.config key both.shard [] party.old party.new }
    {
        self.give_both(party, key, both);
    }

    // Gives the shard back, and then the bucket.
    #[inline(always)]
    pub(crate) fn give_both(&self, party: &mut Party<C>, key: Key, both: Both)
        requires party { IsPartyOf self.now party.old }
        requires made { IsMade C.Keeps self.now.config key (made_since both.hand.before.value both.shard) both party.old }
        ensures { Makes C.Keeps self.now.config key both.hand.before.value (made_since both.hand.before.value both.shard) party.old party.new }
    {
        let Both { hand, turn, shard } = both;
        self.give_shard(party, turn, shard, &hand);
        let Taken { turn, bucket } = hand.own;
        self.turns
            .give::<gives::Same>(party, turn, Item::Bucket(bucket));
    }
}
