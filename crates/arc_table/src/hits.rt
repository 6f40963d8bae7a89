//! Hits that never wait.
ghost use Rattle.std.specs.Prelude.{◌≡◌, ℕ, IfOk, OnErr, [], ◌∷◌, length, option_map};
ghost use Rattle.blk_ptr.specs.Hash.{shard_of};
ghost use Rattle.arc_core.specs.declared.event.Event.{Event};
ghost use Rattle.arc_core.specs.PlainShard.{PlainShard, entry_of};
ghost use Rattle.arc_core.specs.Sound.{IsSound};
ghost use Rattle.arc_core.specs.View.{view_of};
ghost use Rattle.arc_table.specs.Both.{Makes};
ghost use Rattle.arc_table.specs.Cache.{IsPartyOf};
ghost use Rattle.arc_table.specs.Holding.{IsHeld, IsHoldOf, IsListed};
ghost use Rattle.arc_table.specs.Looking.{HasNoLook};
ghost use Rattle.arc_table.specs.Making.{IsTaken};
ghost use Rattle.arc_table.specs.Ready.{IsReady};
ghost use Rattle.arc_table.specs.pact.Standing.{StandsSo, IsCachedWith};
ghost use Rattle.arc_table.specs.Trying.{AnswersHit, MayAnswerHolder};

use crate::arcs::{Arcs, Party};
use crate::both::Both;
use crate::front::Front;
use crate::headers::{find_ready, follow_hit, near_of};
use crate::hold::Hold;
use crate::spare::is_cached;
use arc_core::{EntryView, Event, Keeps, Shard};
use blk_ptr::{Digest, Key, NoMemory, Ptr};
use turn_table::Take;

/// What `try_hit` gave.
#[derive(Debug, Drop)]
pub enum TryHit {
    /// The bytes are cached and have the pointer's digest.
    Held(Hold),
    /// The cache has no bytes of the key: in the replay of the front it has no entry, or a ghost, or one that only the cache device has.
    NotHere(Front),
    /// In the replay of the front the cached bytes have the digest `kept`, which isn't the pointer's.
    Other { kept: Digest, front: Front },
    /// In the replay of the front the bytes are being read by `owner`.
    Reading { owner: u32, front: Front },
    /// The party of this number had the bucket or the shard of the key.
    Busy { owner: u32 },
    /// Memory was refused.
    NoMemory,
}

/// What a shard says of a pointer.
#[derive(Drop)]
pub(crate) enum Standing {
    /// The cache has no bytes of the key.
    Missing,
    /// They are being read.
    Reading { owner: u32 },
    /// They have another digest.
    Other { kept: Digest },
    /// They are cached with the pointer's digest.
    Here,
}

// What a shard says of the pointer that shows this of its key.
pub(crate) fn standing_of(found: Option<EntryView>, ptr: Ptr) -> Standing
    ensures { (s : PlainShard) → IsSound s → found ≡ option_map view_of (entry_of ptr.key s) → StandsSo ptr s result }
{
    let Some(entry) = found else {
        return Standing::Missing;
    };
    if let Some(owner) = entry.reader {
        return Standing::Reading { owner };
    }
    if !is_cached(entry.state) {
        return Standing::Missing;
    }
    // A sound shard shows a digest wherever it shows cached bytes.
    let Some(kept) = entry.digest else {
        return Standing::Missing;
    };
    if kept == ptr.digest {
        return Standing::Here;
    }
    Standing::Other { kept }
}

impl<C: Keeps> Arcs<C> {
    /// Asks for a block at a tick, and takes a hold on it where its bytes are cached with the pointer's digest. It never waits. All answers
    /// but `Held` make no event. A party that holds the block already gets a hold, unless another party has its bucket or its shard, or
    /// memory is refused.
    pub fn try_hit(&self, party: &mut Party<C>, ptr: &Ptr, tick: u64) -> TryHit
        requires party { IsPartyOf self.now party.old }
        requires look { HasNoLook self.now party.old }
        ensures answer { AnswersHit C.Keeps self.now.config ptr.now tick party.old party.new result }
        ensures holder { (n : ℕ) → IsListed self.now.config party.old n ptr.now → MayAnswerHolder result }
    {
        let both = match self.try_both(party, ptr.key) {
            Take::Busy { owner } => return TryHit::Busy { owner },
            Take::Taken(both) => both,
        };
        if let Some(at) = find_ready(&both.hand.own.bucket, ptr) {
            return match self.hit_taken(party, both, *ptr, tick, at) {
                Ok(hold) => TryHit::Held(hold),
                Err(NoMemory) => TryHit::NoMemory,
            };
        }
        let shard: &Shard = &both.shard;
        let front = self.front_of(ptr.key, shard);
        let found = shard.entry(ptr.key);
        match standing_of(found, *ptr) {
            Standing::Here => unreachable!(),
            Standing::Missing => {
                self.give_back(party, ptr.key, both);
                TryHit::NotHere(front)
            }
            Standing::Other { kept } => {
                self.give_back(party, ptr.key, both);
                TryHit::Other { kept, front }
            }
            Standing::Reading { owner } => {
                self.give_back(party, ptr.key, both);
                TryHit::Reading { owner, front }
            }
        }
    }

    // All of the shard's history.
    pub(crate) fn front_of(&self, key: Key, shard: &Shard) -> Front
        ensures shard { result.shard ≡ shard_of self.now.config.shards key }
        ensures len { result.len ≡ length shard.now.history }
    {
        Front {
            shard: key.shard(self.config.shards),
            len: shard.history().len() as u64,
        }
    }

    // Takes a hold on the entry whose bucket and shard the party has just taken, and whose header stands at `at` and has a block, and gives both back. After want of memory there is no event.
    #[inline(always)]
    pub(crate) fn hit_taken(
        &self,
        party: &mut Party<C>,
        mut both: Both,
        ptr: Ptr,
        tick: u64,
        at: usize,
    ) -> Result<Hold, NoMemory>
        requires party { IsPartyOf self.now party.old }
        requires taken { IsTaken C.Keeps self.now.config ptr.key both party.old }
        requires here { IsCachedWith ptr both.shard.now }
        requires ready { IsReady ptr at both.hand.own.bucket.headers }
        ensures ok { IfOk result (λ hold. Makes C.Keeps self.now.config ptr.key both.shard (Event.Hit party.old.number ptr.key tick ∷ []) party.old party.new) }
        ensures hold { IfOk result (λ hold. IsHoldOf ptr party.old.number hold × IsHeld self.now.config party.new hold) }
        ensures err { OnErr result (Makes C.Keeps self.now.config ptr.key both.shard [] party.old party.new) }
    {
        let shard = &mut *both.shard;
        let Ok(()) = shard.reserve(2, 0) else {
            self.give_back(party, ptr.key, both);
            return Err(NoMemory);
        };
        let near = near_of(both.hand.own.bucket.at(at));
        let Ok(block) = both.hand.own.bucket.take_block(at) else {
            self.give_both(party, ptr.key, both);
            return Err(NoMemory);
        };
        let owner = party.number();
        shard.hit_near(near, owner, ptr.key, tick);
        follow_hit(&mut both.hand.own.bucket, shard, ptr.key, at);
        self.give_both(party, ptr.key, both);
        let Ptr { key, digest: _ } = ptr;
        Ok(Hold { key, owner, block })
    }
}
