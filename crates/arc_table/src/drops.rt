//! Giving holds back.
ghost use Rattle.std.specs.Prelude.{◌≡◌, ◌≢◌, ◌<◌, ℕ, [], ◌∷◌};
ghost use Rattle.arc_core.specs.declared.event.Event.{Event};
ghost use Rattle.turn_table.specs.Places.{Apart, Place};
ghost use Rattle.arc_table.specs.Both.{Does, Makes};
ghost use Rattle.arc_table.specs.Cache.{IsPartyOf};
ghost use Rattle.arc_table.specs.Holding.{IsHeld};
ghost use Rattle.arc_table.specs.Looking.{HasNoLook};
ghost use Rattle.arc_table.specs.Making.{IsTaken};
ghost use Rattle.arc_table.specs.Trying.{AnswersDrop};

use crate::arcs::{Arcs, Party};
use crate::both::Both;
use crate::headers::give_block;
use crate::hold::Hold;
use arc_core::{Event, Keeps};
use std::sync::Wait;
use turn_table::Take;

/// What `try_drop` gave.
#[derive(Debug, Drop)]
pub enum TryDrop {
    /// The hold is given back.
    Done,
    /// The party of this number had the bucket or the shard of the key; the hold comes back.
    Busy { owner: u32, hold: Hold },
}

impl<C: Keeps> Arcs<C> {
    /// Gives back a hold of the party's own, or of a cell in its hands (`arc_buf_destroy` of OpenZFS's `arc.c`). It may
    /// wait, and takes no memory.
    pub fn drop_hold(&self, rt: &impl Wait, party: &mut Party<C>, hold: Hold)
        requires party { IsPartyOf self.now party.old }
        requires look { HasNoLook self.now party.old }
        requires hold { IsHeld self.now.config party.old hold }
        ensures { Does C.Keeps self.now.config hold.key (Event.Drop hold.owner hold.key ∷ []) party.old party.new }
    {
        let both = self.take_both(rt, party, hold.key);
        self.drop_taken(party, both, hold);
    }

    /// Gives a hold back, on the condition of `drop_hold`, where no other party has the bucket or the shard of its key.
    pub fn try_drop(&self, party: &mut Party<C>, hold: Hold) -> TryDrop
        requires party { IsPartyOf self.now party.old }
        requires look { HasNoLook self.now party.old }
        requires hold { IsHeld self.now.config party.old hold }
        ensures { AnswersDrop C.Keeps self.now.config hold party.old party.new result }
    {
        match self.try_both(party, hold.key) {
            Take::Busy { owner } => TryDrop::Busy { owner, hold },
            Take::Taken(both) => {
                self.drop_taken(party, both, hold);
                TryDrop::Done
            }
        }
    }

    // Gives one hold back on the entry whose bucket and shard the party has just taken.
    #[inline(always)]
    fn drop_taken(&self, party: &mut Party<C>, mut both: Both, hold: Hold)
        requires party { IsPartyOf self.now party.old }
        requires taken { IsTaken C.Keeps self.now.config hold.key both party.old }
        requires hold { IsHeld self.now.config party.old hold }
        ensures { Makes C.Keeps self.now.config hold.key both.shard (Event.Drop hold.owner hold.key ∷ []) party.old party.new }
    {
        let Hold { key, owner, block } = hold;
        let near = give_block(&mut both.hand.own.bucket, &both.shard, key, block);
        both.shard.drop_near(near, owner, key);
        self.give_both(party, key, both);
    }
}
