//! Holds handed to cells, and given up for a copy of the bytes.
ghost use Rattle.std.specs.Prelude.{◌≡◌, ◌==◌, ◌∷◌, [], ℕ, Bool, IfErr, IfOk, false};
ghost use Rattle.std.specs.Option.{option_map_or};
ghost use Rattle.arc_core.specs.declared.event.Event.{Event};
ghost use Rattle.arc_core.specs.PlainShard.{entry_of, holds_of};
ghost use Rattle.arc_table.specs.Both.{Makes};
ghost use Rattle.arc_table.specs.Cache.{IsPartyOf};
ghost use Rattle.arc_table.specs.Geometry.{IsCell, cell_number};
ghost use Rattle.arc_table.specs.Handing.{AnswersHand, IsCellInHand, Releases};
ghost use Rattle.arc_table.specs.Holding.{IsHeld};
ghost use Rattle.arc_table.specs.Looking.{HasNoLook};
ghost use Rattle.arc_table.specs.Making.{IsTaken};

use crate::arcs::{Arcs, Party};
use crate::both::Both;
use crate::headers::follow;
use crate::hold::Hold;
use arc_core::{Event, Keeps, Shard};
use blk_ptr::Key;
use std::sync::Wait;

// Whether there is one hold on the entry of the key.
fn is_sole(shard: &Shard, key: Key) -> bool
    ensures { result ≡ option_map_or (λ e. holds_of e == 1) (entry_of key shard.now.now) false }
{
    match shard.entry(key) {
        Some(entry) => entry.held == 1,
        None => false,
    }
}

impl<C: Keeps> Arcs<C> {
    /// Hands a hold of the party's own to the cell with the number `to`, which the party has in hand. Err is want of memory: the hold
    /// comes back, and there is no event. It may wait.
    pub fn hand(
        &self,
        rt: &impl Wait,
        party: &mut Party<C>,
        mut hold: Hold,
        to: u32,
    ) -> Result<Hold, Hold>
        requires party { IsPartyOf self.now party.old }
        requires look { HasNoLook self.now party.old }
        requires hold { IsHeld self.now.config party.old hold }
        requires owner { hold.owner ≡ party.old.number }
        requires cell { IsCellInHand self.now.config party.old to }
        ensures { AnswersHand C.Keeps self.now.config hold to party.old party.new result }
    {
        let mut both = self.take_both(rt, party, hold.key);
        let shard = &mut *both.shard;
        let Ok(()) = shard.reserve(1, 0) else {
            self.give_back(party, hold.key, both);
            return Err(hold);
        };
        shard.hand(hold.owner, hold.key, to);
        self.give_both(party, hold.key, both);
        hold.owner = to;
        Ok(hold)
    }

    /// Gives up a hold of the party's own, or of a cell in its hands, and keeps a private copy of its bytes. Where it was
    /// the only hold, the entry goes (`arc_release` of OpenZFS's `arc.c`). Err is want of memory: the hold comes back, and the party is as before. It may wait.
    pub fn release(&self, rt: &impl Wait, party: &mut Party<C>, hold: Hold) -> Result<Vec<u8>, Hold>
        requires party { IsPartyOf self.now party.old }
        requires look { HasNoLook self.now party.old }
        requires hold { IsHeld self.now.config party.old hold }
        ensures bytes { IfOk result (λ bytes. bytes.items ≡ hold.block.value) }
        ensures released { IfOk result (λ bytes. Releases C.Keeps self.now.config hold party.old party.new) }
        ensures err { IfErr result (λ back. (back ≡ hold) × (party.new ≡ party.old)) }
    {
        let Ok(bytes) = hold.block.bytes().to_vec(self.alloc) else {
            return Err(hold);
        };
        self.give_up(rt, party, hold);
        Ok(bytes)
    }

    /// Gives up a hold of the party's own, or of a cell in its hands, whose bytes nobody needs any more. Where it was the only hold, the entry
    /// goes. It may wait, and takes no memory.
    pub fn give_up(&self, rt: &impl Wait, party: &mut Party<C>, hold: Hold)
        requires party { IsPartyOf self.now party.old }
        requires look { HasNoLook self.now party.old }
        requires hold { IsHeld self.now.config party.old hold }
        ensures { Releases C.Keeps self.now.config hold party.old party.new }
    {
        let both = self.take_both(rt, party, hold.key);
        self.release_taken(party, both, &hold);
    }

    /// A hold that the cell `i` keeps, whoever put it there: it has the cell's number. Only a party that has the cell in hand and lists the hold
    /// there may give it back, so this takes no turn.
    pub fn of_cell(&self, mut hold: Hold, i: u32) -> Hold
        requires range { IsCell self.now.config i }
        ensures { result ≡ record hold { owner = cell_number self.now.config i } }
    {
        hold.owner = self.config.callers + 1 + i;
        hold
    }

    // Gives a hold up on the entry whose bucket and shard the party has just taken.
    fn release_taken(&self, party: &mut Party<C>, mut both: Both, hold: &Hold)
        requires party { IsPartyOf self.now party.old }
        requires taken { IsTaken C.Keeps self.now.config hold.now.key both party.old }
        requires hold { IsHeld self.now.config party.old hold.now }
        ensures { (sole : Bool) × Makes C.Keeps self.now.config hold.now.key both.shard (Event.Release hold.now.owner hold.now.key sole ∷ []) party.old party.new }
    {
        let shard = &mut *both.shard;
        let sole = is_sole(shard, hold.key);
        shard.release(hold.owner, hold.key, sole);
        follow(&mut both.hand.own.bucket, shard, hold.key);
        self.give_both(party, hold.key, both);
    }
}
