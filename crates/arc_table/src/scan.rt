//! The scan for the keys that an event evicts and drops.
ghost use Rattle.std.specs.Prelude.{◌≡◌, ℕ, ◌+◌, ◌<◌, ◌≤◌, ◌||◌, ◌++◌, ◌∷◌, [], List, false, IsTrue, IsSome, IfOk, IfErr, OnErr, None, vec_len, vec_capacity};
ghost use Rattle.blk_ptr.specs.declared.key.Key.{Key};
ghost use Rattle.blk_ptr.specs.Order.{key_eq};
ghost use Rattle.arc_lists.specs.Sequences.{stands_on};
ghost use Rattle.arc_core.specs.declared.event.Event.{Event};
ghost use Rattle.arc_core.specs.Owed.{room_for};
ghost use Rattle.arc_core.specs.PlainShard.{entry_of};
ghost use Rattle.arc_core.specs.ShardLog.{AreAllNamed, IsUnnamed};
ghost use Rattle.arc_core.specs.Step.{legal};
ghost use Rattle.turn_table.specs.Places.{Place};
ghost use Rattle.arc_table.specs.Cache.{IsPartyOf};
ghost use Rattle.arc_table.specs.scans.Evicting.{HasBothRoom, HasScanRoom, HasScanned, IsScan, IsScanning, KeepsBoth, KeepsHand, MayBegin, left_of};
ghost use Rattle.arc_table.specs.Fronts.{item_at};
ghost use Rattle.arc_table.specs.InHand.{buckets_of};
ghost use Rattle.arc_table.specs.scans.Scanning.{takes_room};
ghost use Rattle.arc_table.specs.declared.view.Known.{Known};

use crate::arcs::{Arcs, Party};
use crate::both::Both;
use crate::heap_shard::{HeapShard, ScanLists};
use crate::in_hand::{Hand, Taken};
use crate::looking::bucket_turn_of;
use crate::spare::place_of;
use arc_core::{Event, Keeps};
use blk_ptr::{Key, NoMemory};
use std::alloc::Global;
use turn_table::Take;

/// A scan in hand: the key's bucket and shard with the victims' buckets, and the keys that are marked.
#[derive(Drop)]
pub(crate) struct Scan {
    pub(crate) both: Both,
    pub(crate) marked: Vec<Key>,
}

// Whether the bucket of a turn is in hand.
fn has_bucket(hand: &Hand, turn: u32) -> bool
    ensures yes { IsTrue result → IsSome (item_at turn (buckets_of hand.now)) }
    ensures no { result ≡ false → item_at turn (buckets_of hand.now) ≡ None }
{
    hand.own.turn == turn || place_of(&hand.victims, turn).is_some()
}

// Marks a victim, whose bucket is in hand.
fn mark(scan: &mut Scan, key: Key)
    requires there { IsSome (entry_of key scan.old.both.shard.now) }
    requires room { vec_len scan.old.marked < vec_capacity scan.old.marked }
    ensures both { scan.new.both ≡ record scan.old.both { shard = record scan.old.both.shard { marked = scan.new.both.shard.marked } } }
    ensures marked { (j : Key) → stands_on j scan.new.both.shard.marked ≡ (key_eq key j || stands_on j scan.old.both.shard.marked) }
    ensures keys { scan.new.marked.items ≡ scan.old.marked.items ++ key ∷ [] }
    ensures len { vec_len scan.new.marked ≡ vec_len scan.old.marked + 1 }
    ensures capacity { vec_capacity scan.new.marked ≡ vec_capacity scan.old.marked }
{
    scan.both.shard.mark(key);
    scan.marked.push_reserved(key);
}

// An empty list with room for so many: this one where it has that, and else one with twice the room, so that a shard that grows seldom asks for another.
fn emptied<T: Drop>(mut list: Vec<T>, most: usize, alloc: Global) -> Result<Vec<T>, NoMemory>
    ensures { IfOk result (λ empty. (empty.items ≡ []) × (vec_len empty ≡ 0) × (most ≤ vec_capacity empty)) }
{
    list.clear();
    if list.capacity() < most {
        list = Vec::with_capacity(alloc, most.saturating_mul(2))?;
    }
    Ok(list)
}

// Empty lists with room for so many keys and buckets: those of the shard's last scan, where they have it.
fn lists_for(shard: &mut HeapShard, most: usize, alloc: Global) -> Result<ScanLists, NoMemory>
    ensures shard { shard.new ≡ shard.old }
    ensures marked { IfOk result (λ lists. (lists.marked.items ≡ []) × (most ≤ vec_capacity lists.marked)) }
    ensures victims { IfOk result (λ lists. (lists.victims.items ≡ []) × (vec_len lists.victims ≡ 0) × (most ≤ vec_capacity lists.victims)) }
{
    let (marked, victims) = match shard.take_lists() {
        Some(lists) => (lists.marked, lists.victims),
        None => (Vec::new(alloc), Vec::new(alloc)),
    };
    Ok(ScanLists {
        marked: emptied(marked, most, alloc)?,
        victims: emptied(victims, most, alloc)?,
    })
}

// Makes room for a scan, its event and a header. Where memory is refused, nothing but the room has changed.
fn reserve(both: &mut Both, alloc: Global) -> Result<Vec<Key>, NoMemory>
    requires alone { both.old.hand.victims.items ≡ [] }
    ensures same { KeepsBoth both.old both.new }
    ensures room { IfOk result (λ keys. HasBothRoom both.new (vec_capacity keys) × (keys.items ≡ [])) }
    ensures bucket { OnErr result (both.new.hand.own ≡ both.old.hand.own) }
{
    let shard = &mut *both.shard;
    let most = shard.entries();
    let events = most.checked_add(3).ok_or(NoMemory)?;
    shard.reserve(events, 1)?;
    let lists = lists_for(&mut both.shard, most, alloc)?;
    both.hand.victims = lists.victims;
    both.hand.own.bucket.reserve(1)?;
    Ok(lists.marked)
}

impl<C: Keeps> Arcs<C> {
    // Marks a victim whose bucket is in hand or can be had, and passes it where another party has its bucket.
    fn name_victim(&self, party: &mut Party<C>, scan: &mut Scan, key: Key)
        requires party { IsPartyOf self.now party.old }
        requires victim { (e : Event) × IsUnnamed key e scan.old.both.shard }
        requires scan { IsScanning C.Keeps self.now.config scan.old party.old }
        requires room { HasScanRoom 0 scan.old }
        ensures hand { KeepsHand scan.old.both scan.new.both }
        ensures scan { (p : Place (Known C)) (es : List Event) → MayBegin self.now.config scan.old.both p → IsScan C.Keeps self.now.config p party.old scan.old es
            → (more : List Event) × IsScan C.Keeps self.now.config p party.new scan.new more }
        ensures room { (n : ℕ) → HasScanRoom n scan.old → HasScanRoom n scan.new }
        ensures fewer { left_of scan.new < left_of scan.old }
        ensures entry_room { scan.old.both.shard.entry_room ≤ scan.new.both.shard.entry_room }
    {
        let turn = bucket_turn_of(&self.config, key);
        if has_bucket(&scan.both.hand, turn) {
            mark(scan, key);
            return;
        }
        match self.turns.try_take(party, turn) {
            Take::Taken(value) => {
                let bucket = value.into_bucket();
                scan.both.hand.victims.push_reserved(Taken { turn, bucket });
                mark(scan, key);
            }
            Take::Busy { owner } => {
                scan.both.shard.pass(party.number(), key, owner);
            }
        }
    }

    // Names the victims of an event, one after the other.
    fn name_victims(&self, party: &mut Party<C>, scan: &mut Scan, event: &Event)
        requires party { IsPartyOf self.now party.old }
        requires event { IsTrue (takes_room event.now) }
        requires legal { IsTrue (legal scan.old.both.shard.now event.now) }
        requires scan { IsScanning C.Keeps self.now.config scan.old party.old }
        requires room { HasScanRoom (room_for event.now) scan.old }
        ensures hand { KeepsHand scan.old.both scan.new.both }
        ensures scan { (p : Place (Known C)) (es : List Event) → MayBegin self.now.config scan.old.both p → IsScan C.Keeps self.now.config p party.old scan.old es
            → (more : List Event) × IsScan C.Keeps self.now.config p party.new scan.new more }
        ensures room { HasScanRoom (room_for event.now) scan.new }
        ensures entry_room { scan.old.both.shard.entry_room ≤ scan.new.both.shard.entry_room }
        ensures named { AreAllNamed event.now scan.new.both.shard }
    {
        while let Some(key) = scan.both.shard.victim(event) {
            self.name_victim(party, scan, key);
        }
    }

    // Names the victims of an event, and makes room for all first. Where memory is refused, nothing but the room has changed.
    pub(crate) fn begin_scan(
        &self,
        party: &mut Party<C>,
        mut both: Both,
        event: &Event,
    ) -> Result<Scan, Both>
        requires party { IsPartyOf self.now party.old }
        requires new { both.hand.before.value ≡ both.shard }
        requires alone { both.hand.victims.items ≡ [] }
        requires may { MayBegin self.now.config both party.old }
        requires event { IsTrue (takes_room event.now) }
        requires legal { IsTrue (legal both.shard.now event.now) }
        ensures ok { IfOk result (λ scan. HasScanned C.Keeps self.now.config both event.now party.old party.new scan) }
        ensures err { IfErr result (λ back. KeepsBoth both back × (back.hand.own ≡ both.hand.own) × (party.new ≡ party.old)) }
    {
        let Ok(marked) = reserve(&mut both, self.alloc) else {
            return Err(both);
        };
        both.shard.unmark_all();
        let mut scan = Scan { both, marked };
        self.name_victims(party, &mut scan, event);
        Ok(scan)
    }
}
