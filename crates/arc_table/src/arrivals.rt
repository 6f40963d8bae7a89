//! How a read ends: its bytes arrive, or it has failed.
ghost use Rattle.std.specs.Prelude.{◌≡◌, ◌<◌, IsTrue, IfSome, IfNone, Some, None, [], ◌∷◌, false, length, slice_get};
ghost use Rattle.blk_ptr.specs.Ptr.{IsOf};
ghost use Rattle.arc_core.specs.declared.entry.Entry.{Entry};
ghost use Rattle.arc_core.specs.declared.event.Event.{Event};
ghost use Rattle.arc_core.specs.PlainShard.{entry_is};
ghost use Rattle.arc_core.specs.Rules.{arrived_state};
ghost use Rattle.arc_core.specs.Step.{may_come_from};
ghost use Rattle.hash_chain.specs.Chain.{header_at};
ghost use Rattle.hash_chain.specs.Keeping.{kept};
ghost use Rattle.arc_table.specs.Arriving.{FindsCleared, IsReading};
ghost use Rattle.arc_table.specs.Both.{Does, Makes};
ghost use Rattle.arc_table.specs.Cache.{IsPartyOf};
ghost use Rattle.arc_table.specs.Holding.{IsHeld, IsHoldOf};
ghost use Rattle.arc_table.specs.Looking.{HasNoLook};
ghost use Rattle.arc_table.specs.Making.{IsTaken};

use crate::arcs::{Arcs, Party};
use crate::both::Both;
use crate::fetch::Fetched;
use crate::headers::follow;
use crate::hold::Hold;
use arc_core::{Event, FailedAt, Keeps, Origin};
use blk_ptr::{Block, Digest, Key, Ptr, State};
use hash_chain::{Header, Kept};
use std::sync::{Arc, Wait};

// Whether bytes from there may arrive: those of the cache device only while the entry has a place there.
fn may_come(place: Option<u64>, from: Origin) -> bool
    ensures { (e : Entry) → place ≡ e.place → result ≡ may_come_from from e }
{
    match from {
        Origin::Pool => true,
        Origin::L2 => place.is_some(),
    }
}

// The state of an entry whose bytes have arrived.
fn arrived_state(state: State) -> State
    ensures { result ≡ arrived_state state }
{
    match state {
        State::Anon => State::Mru,
        other => other,
    }
}

// What a header says of an entry whose bytes have arrived, where it said this while they were being read.
fn arrived_header(header: &Header, digest: Digest, block: Arc<Block>) -> Header
    ensures { result ≡ record { key = header.now.key; state = arrived_state header.now.state; reading = false; place = header.now.place; digest = Some digest; block = Some (kept block) } }
{
    Header {
        key: header.key,
        state: arrived_state(header.state),
        reading: false,
        place: header.place,
        digest: Some(digest),
        block: Some(Kept::new(block)),
    }
}

impl<C: Keeps> Arcs<C> {
    // Ends a read of the party's, whose bytes were fetched: they arrive, and the party has a hold. Bytes of the cache device arrive only
    // while the entry has a place there; where the feeder has cleared it, there is no event, the party reads still, and the pool is to be
    // asked. It may wait, and takes no memory.
    pub(crate) fn arrive_read(
        &self,
        rt: &impl Wait,
        party: &mut Party<C>,
        ptr: &Ptr,
        fetched: Fetched,
    ) -> Option<Hold>
        requires party { IsPartyOf self.now party.old }
        requires look { HasNoLook self.now party.old }
        requires reading { IsReading ptr.now.key party.old }
        requires of { IsOf fetched.block.value ptr.now }
        requires shared { fetched.shared.value ≡ fetched.block.value }
        ensures arrived { IfSome result (λ hold. Does C.Keeps self.now.config ptr.now.key (Event.Arrive party.old.number ptr.now.key ptr.now.digest fetched.from ∷ []) party.old party.new) }
        ensures hold { IfSome result (λ hold. IsHoldOf ptr.now party.old.number hold × IsHeld self.now.config party.new hold) }
        ensures block { IfSome result (λ hold. hold.block.value ≡ fetched.block.value) }
        ensures cleared { IfNone result ((fetched.from ≡ Origin.L2) × FindsCleared C.Keeps self.now.config ptr.now.key party.old party.new) }
    {
        let both = self.take_both(rt, party, ptr.key);
        let Some(at) = both.hand.own.bucket.find(ptr.key) else {
            unreachable!()
        };
        if !may_come(both.hand.own.bucket.at(at).place, fetched.from) {
            self.give_back(party, ptr.key, both);
            return None;
        }
        Some(self.arrive_taken(party, both, at, *ptr, fetched))
    }

    // The bytes of a read arrive, of the key whose bucket and shard the party has just taken, and whose header stands at `at`. Both are
    // given back.
    fn arrive_taken(
        &self,
        party: &mut Party<C>,
        mut both: Both,
        at: usize,
        ptr: Ptr,
        fetched: Fetched,
    ) -> Hold
        requires party { IsPartyOf self.now party.old }
        requires taken { IsTaken C.Keeps self.now.config ptr.key both party.old }
        requires range { at < length both.hand.own.bucket.headers }
        requires found { header_at ptr.key both.hand.own.bucket.headers ≡ slice_get both.hand.own.bucket.headers at }
        requires key { IfSome (slice_get both.hand.own.bucket.headers at) (λ h. h.key ≡ ptr.key) }
        requires reading { IsReading ptr.key party.old }
        requires of { IsOf fetched.block.value ptr }
        requires shared { fetched.shared.value ≡ fetched.block.value }
        requires comes { IsTrue (entry_is (may_come_from fetched.from) ptr.key both.shard.now) }
        ensures makes { Makes C.Keeps self.now.config ptr.key both.shard (Event.Arrive party.old.number ptr.key ptr.digest fetched.from ∷ []) party.old party.new }
        ensures hold { IsHoldOf ptr party.old.number result × IsHeld self.now.config party.new result }
        ensures block { result.block.value ≡ fetched.block.value }
    {
        let Fetched {
            block,
            shared,
            from,
        } = fetched;
        let owner = party.number();
        let shard = &mut *both.shard;
        shard.arrive(owner, ptr.key, ptr.digest, from);
        let header = arrived_header(both.hand.own.bucket.at(at), ptr.digest, shared);
        both.hand.own.bucket.change(at, header);
        self.give_both(party, ptr.key, both);
        let Ptr { key, digest: _ } = ptr;
        Hold { key, owner, block }
    }

    // Ends a read of the party's that has failed: the entry goes, with its place on the cache device. It may wait, and takes no memory.
    pub(crate) fn fail_read(&self, rt: &impl Wait, party: &mut Party<C>, key: Key, at: FailedAt)
        requires party { IsPartyOf self.now party.old }
        requires look { HasNoLook self.now party.old }
        requires reading { IsReading key party.old }
        ensures { Does C.Keeps self.now.config key (Event.Fail party.old.number key at ∷ []) party.old party.new }
    {
        let both = self.take_both(rt, party, key);
        self.fail_taken(party, both, key, at);
    }

    // The read has failed, of the key whose bucket and shard the party has just taken, and both are given back.
    fn fail_taken(&self, party: &mut Party<C>, mut both: Both, key: Key, at: FailedAt)
        requires party { IsPartyOf self.now party.old }
        requires taken { IsTaken C.Keeps self.now.config key both party.old }
        requires reading { IsReading key party.old }
        ensures { Makes C.Keeps self.now.config key both.shard (Event.Fail party.old.number key at ∷ []) party.old party.new }
    {
        let n = party.number();
        let shard = &mut *both.shard;
        shard.fail(n, key, at);
        follow(&mut both.hand.own.bucket, shard, key);
        self.give_both(party, key, both);
    }
}
