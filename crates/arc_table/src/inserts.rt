//! Putting in a block that a cell wrote.
ghost use Rattle.std.specs.Prelude.{◌≡◌, ℕ, IsTrue, IsSome, IfOk, OnOk, OnErr, Some, length, [], false};
ghost use Rattle.blk_ptr.specs.Key.{is_well_formed};
ghost use Rattle.blk_ptr.specs.Ptr.{sha256_of};
ghost use Rattle.arc_core.specs.declared.entry.Entry.{Entry};
ghost use Rattle.arc_core.specs.declared.event.Event.{Event};
ghost use Rattle.arc_core.specs.PlainShard.{entry_of};
ghost use Rattle.arc_core.specs.Step.{is_new_here};
ghost use Rattle.turn_table.specs.Board.{IsAmong};
ghost use Rattle.hash_chain.specs.Keeping.{kept};
ghost use Rattle.arc_table.specs.Both.{Does, Makes};
ghost use Rattle.arc_table.specs.Cache.{IsPartyOf};
ghost use Rattle.arc_table.specs.scans.Ending.{MakesRoomy};
ghost use Rattle.arc_table.specs.Geometry.{IsBucket, IsCell, bucket_turn};
ghost use Rattle.arc_table.specs.Handing.{IsCellInHand};
ghost use Rattle.arc_table.specs.Inserting.{AnswersInsert};
ghost use Rattle.arc_table.specs.Looking.{HasNoLook};
ghost use Rattle.arc_table.specs.Making.{IsTaken};

use crate::arcs::{Arcs, Party};
use crate::both::Both;
use crate::front::Front;
use crate::hold::Hold;
use crate::misses::put_header;
use arc_core::{Event, Keeps, Shard};
use blk_ptr::{Block, Key, NoMemory, State};
use hash_chain::{Header, Kept};
use std::sync::{Arc, Wait};

/// What `insert` gave.
#[derive(Debug, Drop)]
pub enum Inserted {
    /// The block is in, and the cell has a hold on it.
    Held(Hold),
    /// The front's replay has an entry of the key that isn't L2-only.
    There(Front),
}

// Whether nothing is kept of the key, or only its place on the cache device.
fn is_new_here(shard: &Shard, key: Key) -> bool
    ensures { result ≡ is_new_here key shard.now.now }
{
    match shard.entry(key) {
        Some(entry) => matches!(entry.state, State::L2Only),
        None => true,
    }
}

// What a header says of an entry whose bytes are these.
fn written_header(shard: &Shard, key: Key, block: Arc<Block>) -> Header
    requires { IsSome (entry_of key shard.now.now) }
    ensures { (e : Entry) × (entry_of key shard.now.now ≡ Some e)
        × (result ≡ record { key = key; state = e.state; reading = false; place = e.place; digest = e.digest; block = Some (kept block) }) }
{
    let Some(entry) = shard.entry(key) else {
        unreachable!()
    };
    Header {
        key,
        state: entry.state,
        reading: false,
        place: entry.place,
        digest: entry.digest,
        block: Some(Kept::new(block)),
    }
}

impl<C: Keeps> Arcs<C> {
    // The number `n`, of a cell in hand, puts in this block of the key whose bucket and shard the party has just taken, and all is given
    // back. Where memory is refused there is no event.
    fn insert_taken(
        &self,
        party: &mut Party<C>,
        both: Both,
        n: u32,
        key: Key,
        block: Arc<Block>,
        tick: u64,
    ) -> Result<(), NoMemory>
        requires party { IsPartyOf self.now party.old }
        requires taken { IsTaken C.Keeps self.now.config key both party.old }
        requires others { (j : ℕ) → IsAmong j party.old.held → IsBucket self.now.config j → j ≡ bucket_turn self.now.config key }
        requires cell { IsCellInHand self.now.config party.old n }
        requires formed { IsTrue (is_well_formed key) }
        requires size { length block.value ≡ key.size }
        requires new { IsTrue (is_new_here key both.shard.now) }
        ensures ok { OnOk result (MakesRoomy C.Keeps self.now.config key both.shard (Event.Insert n key (sha256_of block.value) tick) party.old party.new) }
        ensures err { OnErr result (Makes C.Keeps self.now.config key both.shard [] party.old party.new) }
    {
        let digest = block.digest();
        let event = Event::Insert {
            n,
            key,
            digest,
            t: tick,
        };
        let mut scan = match self.begin_scan(party, both, &event) {
            Ok(scan) => scan,
            Err(both) => {
                self.give_both(party, key, both);
                return Err(NoMemory);
            }
        };
        let shard = &mut *scan.both.shard;
        shard.insert(n, key, digest, tick);
        let header = written_header(shard, key, block);
        put_header(&mut scan.both.hand.own.bucket, header);
        self.end_scan(party, scan);
        Ok(())
    }

    /// Puts in a block that a cell wrote, with one hold of the cell, which the party has in hand. The key's numbers are in their ranges,
    /// and the block has its size. Where the key is there, and not on the cache device alone, there is no event; nor where memory is
    /// refused. It may wait (`arc_write` of OpenZFS's `arc.c`).
    pub fn insert(
        &self,
        rt: &impl Wait,
        party: &mut Party<C>,
        cell: u32,
        key: Key,
        block: Arc<Block>,
        tick: u64,
    ) -> Result<Inserted, NoMemory>
        requires party { IsPartyOf self.now party.old }
        requires look { HasNoLook self.now party.old }
        requires cell { IsCell self.now.config cell × IsAmong cell party.old.held }
        requires formed { IsTrue (is_well_formed key) }
        requires size { length block.value ≡ key.size }
        ensures party { IsPartyOf self.now party.new }
        ensures free { HasNoLook self.now party.new }
        ensures ok { IfOk result (AnswersInsert C.Keeps self.now.config cell key block.value tick party.old party.new) }
        ensures err { OnErr result (Does C.Keeps self.now.config key [] party.old party.new) }
    {
        let both = self.take_both(rt, party, key);
        let shard: &Shard = &both.shard;
        if !is_new_here(shard, key) {
            let front = self.front_of(key, shard);
            self.give_back(party, key, both);
            return Ok(Inserted::There(front));
        }
        let Ok(shared) = Arc::try_clone(&block) else {
            self.give_back(party, key, both);
            return Err(NoMemory);
        };
        let owner = self.config.callers + 1 + cell;
        self.insert_taken(party, both, owner, key, shared, tick)?;
        Ok(Inserted::Held(Hold { key, owner, block }))
    }
}
