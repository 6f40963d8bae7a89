//! Looking at a bucket.
ghost use Rattle.std.specs.Prelude.{◌≡◌, ◌≢◌, ◌<◌};
ghost use Rattle.arc_core.specs.Config.{IsConfig};
ghost use Rattle.turn_table.specs.Moments.{WasFree, WasTaken};
ghost use Rattle.turn_table.specs.Places.{saw, took, gave_back, Apart};
ghost use Rattle.arc_table.specs.Cache.{IsPartyOf};
ghost use Rattle.arc_table.specs.Geometry.{bucket_turn};
ghost use Rattle.arc_table.specs.Looking.{HasNoLook, IfLookBusy, IfSeen, IsOpen};
ghost use Rattle.arc_table.specs.pact.Rule.{Pact as pact};
ghost use Rattle.arc_table.specs.Views.{after_lost, after_same, after_won};
ghost use Rattle.arc_table.specs.declared.item.Item.TheVariants as item;

use crate::arcs::{Arcs, Party};
use crate::gives;
use crate::item::Item;
use crate::look::{BucketTurn, Look};
use arc_core::{Config, Keeps};
use blk_ptr::Key;
use turn_table::Take;

// The turn of a key's bucket.
pub(crate) fn bucket_turn_of(config: &Config, key: Key) -> u32
    requires { IsConfig config.now }
    ensures { result ≡ bucket_turn config.now key }
{
    config.cells
        + (key.shard(config.shards) * config.buckets + key.bucket(config.shards, config.buckets))
}

impl<C: Keeps> Arcs<C> {
    /// Looks at the bucket of a key, where no other party has it. The party keeps the bucket's turn until `end_look`.
    pub fn try_look(&self, party: &mut Party<C>, key: Key) -> Look
        requires party { IsPartyOf self.now party.old }
        requires look { HasNoLook self.now party.old }
        ensures seen { IfSeen result (λ look. (look.turn ≡ bucket_turn self.now.config key) × (look.key ≡ key)
            × WasFree (pact C.Keeps) party.old look.turn (item.Bucket look.bucket)
            × (party.new ≡ took party.old look.turn (after_won C.Keeps look.turn (item.Bucket look.bucket) party.old.own))) }
        ensures open { IfSeen result (λ look. IsOpen C.Keeps look party.new) }
        ensures busy { IfLookBusy result (λ m. WasTaken (pact C.Keeps) party.old (bucket_turn self.now.config key) m
            × (party.new ≡ saw party.old (after_lost (bucket_turn self.now.config key) m party.old.own))) }
        ensures owner { IfLookBusy result (λ m. (m < self.now.row.parties) × (m ≢ party.old.number) × Apart m party.old.joined) }
    {
        let turn = bucket_turn_of(&self.config, key);
        match self.turns.try_take(party, turn) {
            Take::Busy { owner } => Look::Busy { owner },
            Take::Taken(value) => Look::Seen(BucketTurn {
                turn,
                key,
                bucket: value.into_bucket(),
            }),
        }
    }

    /// Ends the look, which is the party's open one.
    pub fn end_look(&self, party: &mut Party<C>, look: BucketTurn)
        requires party { IsPartyOf self.now party.old }
        requires open { IsOpen C.Keeps look party.old }
        ensures { party.new ≡ gave_back party.old look.turn (after_same look.turn party.old.own) }
    {
        let BucketTurn {
            turn,
            key: _,
            bucket,
        } = look;
        self.turns
            .give::<gives::Same>(party, turn, Item::Bucket(bucket));
    }
}
