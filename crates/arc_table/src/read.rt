//! Reading a block: from the cache, or through it, or past it.
ghost use Rattle.std.specs.Prelude.{◌≡◌, ℕ};
ghost use Rattle.blk_ptr.specs.Key.{IsValid};
ghost use Rattle.turn_table.specs.Places.{Place};
ghost use Rattle.arc_table.specs.declared.view.Known.{Known};
ghost use Rattle.arc_table.specs.Arriving.{IsReading};
ghost use Rattle.arc_table.specs.Cache.{IsPartyOf};
ghost use Rattle.arc_table.specs.Looking.{HasNoLook};
ghost use Rattle.vdev_io.specs.Calls.{KeepsPool};
ghost use Rattle.arc_table.specs.Reading.{Answers, AnswersRead, AnswersRound, EndsMiss, GoesToPool, KeepsDevice, Waits, failed_at, fault_of, outside, served_as};
ghost use Rattle.arc_table.specs.pact.Waiting.{HasAllIdle};

use crate::arcs::{Arcs, Party};
use crate::fetch::Unfetched;
use crate::hits::{Standing, standing_of};
use crate::hold::Hold;
use arc_core::{EntryView, FailedAt, Keeps, Origin, ReadFault, Served};
use blk_ptr::{Block, Digest, NoMemory, Ptr};
use std::sync::{Arc, Wait};
use std::thread;
use vdev_io::{CacheDev, Pool};

/// What `read` gave.
#[derive(Debug, Drop)]
pub enum Read {
    /// A hold on the block, and where its bytes came from: the cache, the pool or the cache device.
    Held(Hold, Served),
    /// The cache keeps bytes of the digest `kept` under the key, which isn't the pointer's. The block was read from the pool, past the
    /// cache.
    Past { block: Arc<Block>, kept: Digest },
}

/// What one round of a read came to.
#[derive(Drop)]
pub(crate) enum Round {
    /// The read is over.
    Answered(Result<Read, ReadFault>),
    /// The key is being read.
    Reading,
}

// Where bytes that were fetched came from, as it is answered.
fn served_from(from: Origin) -> Served
    ensures { result ≡ served_as from }
{
    match from {
        Origin::Pool => Served::Pool,
        Origin::L2 => Served::L2,
    }
}

impl Unfetched {
    // What a read answers that had no bytes.
    fn fault(self) -> ReadFault
        ensures { result ≡ fault_of self }
    {
        match self {
            Unfetched::PoolFault => ReadFault::PoolFault,
            Unfetched::Mismatch { found } => ReadFault::Mismatch { found },
            Unfetched::NoMemory { at: _ } => ReadFault::NoMemory,
        }
    }

    // Where its entry fails.
    fn failed_at(self) -> FailedAt
        ensures { result ≡ failed_at self }
    {
        match self {
            Unfetched::NoMemory { at } => at,
            Unfetched::PoolFault | Unfetched::Mismatch { found: _ } => FailedAt::Pool,
        }
    }
}

impl<C: Keeps> Arcs<C> {
    /// Reads a block at a tick. Where its bytes are cached with the pointer's digest it is a hit. Where another party reads them just now,
    /// it waits and begins again. Where they are cached with another digest, it reads the pool past the cache and changes no entry. Else it
    /// is a miss: the bytes are read from the cache device where it has them, or else from the pool, with no turn held. A read that fails
    /// takes the entry out. The block has the pointer's digest (`arc_read` of OpenZFS's `arc.c`). A party that has every number by a join, and
    /// reads nothing under any, doesn't wait.
    pub fn read<P: Pool, D: CacheDev>(
        &self,
        rt: &impl Wait,
        party: &mut Party<C>,
        ptr: &Ptr,
        tick: u64,
        pool: &mut P,
        cache: &mut D,
    ) -> Result<Read, ReadFault>
        requires party { IsPartyOf self.now party.old }
        requires look { HasNoLook self.now party.old }
        ensures answer { AnswersRead C.Keeps P.Pool D.CacheDev self.now.config ptr.now tick
            (outside pool.old cache.old) (outside pool.new cache.new)
            party.old party.new result }
        ensures alone { HasAllIdle self.now.config party.old → IsValid (P.size pool.old) ptr.now.key
            → Answers C.Keeps P.Pool D.CacheDev self.now.config ptr.now tick
            (outside pool.old cache.old) (outside pool.new cache.new) party.old party.new result }
        ensures party { IsPartyOf self.now party.new }
        ensures held { party.new.held ≡ party.old.held }
        ensures pool { KeepsPool P.Pool pool.old pool.new }
        ensures cache { KeepsDevice D.CacheDev cache.old cache.new }
    {
        if let Err(fault) = ptr.key.check(pool.len()) {
            return Err(ReadFault::Key(fault));
        }
        // Where nobody reads the key just now the read ends here, with no loop to set up.
        match self.read_round(rt, party, *ptr, tick, pool, cache) {
            Round::Answered(answer) => answer,
            Round::Reading => self.read_later(rt, party, ptr, tick, pool, cache),
        }
    }

    // Goes on with a read whose key was being read just before: it lets another thread run, and begins again.
    fn read_later<P: Pool, D: CacheDev>(
        &self,
        rt: &impl Wait,
        party: &mut Party<C>,
        ptr: &Ptr,
        tick: u64,
        pool: &mut P,
        cache: &mut D,
    ) -> Result<Read, ReadFault>
        requires party { IsPartyOf self.now party.old }
        requires look { HasNoLook self.now party.old }
        requires valid { IsValid (P.size pool.old) ptr.now.key }
        ensures answer { (times : ℕ) × (r : Place (Known C))
            × Waits C.Keeps self.now.config ptr.now.key times party.old r
            × Answers C.Keeps P.Pool D.CacheDev self.now.config ptr.now tick
            (outside pool.old cache.old) (outside pool.new cache.new) r party.new result }
        ensures party { IsPartyOf self.now party.new }
        ensures held { party.new.held ≡ party.old.held }
        ensures pool { KeepsPool P.Pool pool.old pool.new }
        ensures cache { KeepsDevice D.CacheDev cache.old cache.new }
    {
        for _ in rt.forever() {
            thread::yield_now();
            if let Round::Answered(answer) = self.read_round(rt, party, *ptr, tick, pool, cache) {
                return answer;
            }
        }
        unreachable!()
    }

    // One round of a read: an answer, or the key is being read, and nothing was done.
    fn read_round<P: Pool, D: CacheDev>(
        &self,
        rt: &impl Wait,
        party: &mut Party<C>,
        ptr: Ptr,
        tick: u64,
        pool: &mut P,
        cache: &mut D,
    ) -> Round
        requires party { IsPartyOf self.now party.old }
        requires look { HasNoLook self.now party.old }
        requires valid { IsValid (P.size pool.old) ptr.key }
        ensures answer { AnswersRound C.Keeps P.Pool D.CacheDev self.now.config ptr tick
            (outside pool.old cache.old) (outside pool.new cache.new)
            party.old party.new result }
        ensures party { IsPartyOf self.now party.new }
        ensures held { party.new.held ≡ party.old.held }
        ensures pool { KeepsPool P.Pool pool.old pool.new }
        ensures cache { KeepsDevice D.CacheDev cache.old cache.new }
    {
        let (both, ready) = self.take_ready(rt, party, &ptr);
        if let Some(at) = ready {
            return match self.hit_taken(party, both, ptr, tick, at) {
                Ok(hold) => Round::Answered(Ok(Read::Held(hold, Served::Hit))),
                Err(NoMemory) => Round::Answered(Err(ReadFault::NoMemory)),
            };
        }
        let found = both.shard.entry(ptr.key);
        match standing_of(found, ptr) {
            Standing::Here => unreachable!(),
            Standing::Reading { owner: _ } => {
                self.give_back(party, ptr.key, both);
                Round::Reading
            }
            Standing::Other { kept } => match self.past_taken(party, both, ptr.key, kept) {
                Ok(bytes) => Round::Answered(self.read_past(party, pool, &ptr, bytes, kept)),
                Err(NoMemory) => Round::Answered(Err(ReadFault::NoMemory)),
            },
            Standing::Missing => match self.miss_taken(party, both, ptr.key, found, tick) {
                Ok(()) => { Round::Answered(self.end_miss(rt, party, &ptr, found, pool, cache)) }
                Err(NoMemory) => Round::Answered(Err(ReadFault::NoMemory)),
            },
        }
    }

    // Ends a read that the party has begun, where this was known of the key right before: its bytes are fetched with no turn held, and
    // arrive, or it fails.
    fn end_miss<P: Pool, D: CacheDev>(
        &self,
        rt: &impl Wait,
        party: &mut Party<C>,
        ptr: &Ptr,
        found: Option<EntryView>,
        pool: &mut P,
        cache: &mut D,
    ) -> Result<Read, ReadFault>
        requires party { IsPartyOf self.now party.old }
        requires look { HasNoLook self.now party.old }
        requires reading { IsReading ptr.now.key party.old }
        requires valid { IsValid (P.size pool.old) ptr.now.key }
        ensures answer { EndsMiss C.Keeps P.Pool D.CacheDev self.now.config ptr.now found
            (outside pool.old cache.old) (outside pool.new cache.new)
            party.old party.new result }
        ensures pool { KeepsPool P.Pool pool.old pool.new }
        ensures cache { KeepsDevice D.CacheDev cache.old cache.new }
    {
        let fetched = match self.fetch(party, pool, cache, ptr, found) {
            Ok(fetched) => fetched,
            Err(why) => {
                self.fail_read(rt, party, ptr.key, why.failed_at());
                return Err(why.fault());
            }
        };
        let from = served_from(fetched.from);
        match self.arrive_read(rt, party, ptr, fetched) {
            Some(hold) => Ok(Read::Held(hold, from)),
            None => self.end_cleared(rt, party, ptr, pool),
        }
    }

    // Ends a read that the party has begun, and whose bytes came from the cache device, but whose place there was cleared since: the block
    // is fetched from the pool, and arrives, or the read fails.
    fn end_cleared<P: Pool>(
        &self,
        rt: &impl Wait,
        party: &mut Party<C>,
        ptr: &Ptr,
        pool: &mut P,
    ) -> Result<Read, ReadFault>
        requires party { IsPartyOf self.now party.old }
        requires look { HasNoLook self.now party.old }
        requires reading { IsReading ptr.now.key party.old }
        requires valid { IsValid (P.size pool.old) ptr.now.key }
        ensures answer { GoesToPool C.Keeps P.Pool self.now.config ptr.now
            pool.old pool.new party.old party.new result }
        ensures pool { KeepsPool P.Pool pool.old pool.new }
    {
        match self.fetch_pool(party, pool, ptr) {
            Ok(fetched) => {
                let Some(hold) = self.arrive_read(rt, party, ptr, fetched) else {
                    unreachable!()
                };
                Ok(Read::Held(hold, Served::Pool))
            }
            Err(why) => {
                self.fail_read(rt, party, ptr.key, why.failed_at());
                Err(why.fault())
            }
        }
    }
}
