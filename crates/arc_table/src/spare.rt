//! The headers of keys that an event may have evicted or dropped.
ghost use Rattle.std.specs.Prelude.{◌≡◌, IsTrue, IsSome, Some, []};
ghost use Rattle.blk_ptr.specs.declared.key.Key.{Key};
ghost use Rattle.arc_lists.specs.Sequences.{stands_on};
ghost use Rattle.arc_core.specs.Config.{IsConfig};
ghost use Rattle.blk_ptr.specs.State.{is_cached};
ghost use Rattle.hash_chain.specs.Chain.{Chain, header_at, IsWith};
ghost use Rattle.arc_table.specs.Fronts.{item_at};
ghost use Rattle.arc_table.specs.Geometry.{bucket_turn};
ghost use Rattle.arc_table.specs.InHand.{buckets_of};
ghost use Rattle.arc_table.specs.scans.Scanning.{AllPairs, AreApart};
ghost use Rattle.arc_table.specs.scans.Sparing.{AreHeadsBut, spared_header, turn_place, turns_in, with_bucket};

use crate::heap_bucket::HeapBucket;
use crate::in_hand::{Hand, Taken};
use crate::looking::bucket_turn_of;
use arc_core::{Config, EntryView, Shard};
use blk_ptr::{Key, State};

// Whether a state's bytes are cached.
pub(crate) fn is_cached(state: State) -> bool
    ensures { result ≡ is_cached state }
{
    match state {
        State::Mru | State::Mfu => true,
        State::Anon | State::MruGhost | State::MfuGhost | State::L2Only => false,
    }
}

// The header of a key says what the key's entry does, which is seen so.
#[inline(always)]
pub(crate) fn spare(bucket: &mut HeapBucket, key: Key, entry: Option<EntryView>)
    ensures { IsWith key (spared_header entry (header_at key bucket.old.headers)) bucket.old.headers bucket.new.headers }
{
    let Some(at) = bucket.find(key) else { return };
    match entry {
        None => {
            bucket.remove(at);
        }
        Some(view) if is_cached(view.state) => {}
        Some(view) => bucket.evict(at, view.state),
    }
}

// Where the bucket of a turn stands among those in hand.
pub(crate) fn place_of(buckets: &[Taken], turn: u32) -> Option<usize>
    ensures { result ≡ turn_place turn buckets.now }
{
    buckets.iter().position(|taken| taken.turn == turn)
}

// The same in the bucket of this turn, where it is in hand.
#[inline(always)]
fn spare_in(hand: &mut Hand, turn: u32, key: Key, entry: Option<EntryView>)
    ensures before { hand.new.before ≡ hand.old.before }
    ensures spared { (b : Chain) → item_at turn (buckets_of hand.old) ≡ Some b → (new : Chain) × IsWith key (spared_header entry (header_at key b.headers)) b.headers new.headers × (buckets_of hand.new ≡ with_bucket turn new (buckets_of hand.old)) }
{
    if hand.own.turn == turn {
        spare(&mut hand.own.bucket, key, entry);
        return;
    }
    if let Some(at) = place_of(&hand.victims, turn) {
        spare(&mut hand.victims[at].bucket, key, entry);
    }
}

// The headers of these keys say what their entries do now; those of all others do already.
pub(crate) fn spare_all(hand: &mut Hand, config: &Config, shard: &Shard, keys: &[Key])
    requires valid { IsConfig config.now }
    requires apart { AreApart (buckets_of hand.old) }
    requires in_hand { (k : Key) → IsTrue (stands_on k keys.now) → IsSome (item_at (bucket_turn config.now k) (buckets_of hand.old)) }
    requires heads { AllPairs (AreHeadsBut config.now hand.old.before.value.now shard.now.now keys.now) (buckets_of hand.old) }
    ensures before { hand.new.before ≡ hand.old.before }
    ensures turns { turns_in (buckets_of hand.new) ≡ turns_in (buckets_of hand.old) }
    ensures heads { AllPairs (AreHeadsBut config.now hand.old.before.value.now shard.now.now []) (buckets_of hand.new) }
{
    for key in keys {
        let turn = bucket_turn_of(config, *key);
        spare_in(hand, turn, *key, shard.entry(*key));
    }
}
