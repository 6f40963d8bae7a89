//! Keys that stand on the cache device since an earlier run.
ghost use Rattle.std.specs.Prelude.{◌≡◌, ℕ, IsTrue, false, Some, None};
ghost use mathlib.Core.Option.{some};
ghost use lib.ListN.{get_elem?};
ghost use Rattle.arc_core.specs.declared.served.Restored.{Restored};
ghost use Rattle.blk_ptr.specs.Key.{is_well_formed};
ghost use Rattle.blk_ptr.specs.declared.state.State.{State};
ghost use Rattle.arc_table.specs.Cache.{IsPartyOf};
ghost use Rattle.arc_table.specs.feeder.Feeding.{AnswersOne, AnswersRestore, IsFeeder, stop_after};
ghost use Rattle.arc_table.specs.Looking.{HasNoLook};

use crate::arcs::{Arcs, Party};
use crate::front::Front;
use arc_core::{Keeps, Restored};
use blk_ptr::State;
use hash_chain::Header;
use std::sync::Wait;

/// Why `restore` stopped.
#[derive(Clone, Copy, Debug, PartialEq, Eq)]
pub enum RestoreStop {
    /// Memory was refused after the first `done`.
    NoMemory { done: usize },
    /// After the first `done`, since the front's replay has an entry of the next key.
    There { done: usize, front: Front },
}

/// Why one key was not restored.
#[derive(Clone, Copy, Debug, PartialEq, Eq)]
pub(crate) enum Refused {
    /// Memory was refused.
    NoMemory,
    /// The front's replay has an entry of the key.
    There(Front),
}

impl Refused {
    // Where the key is the one after the first `done`.
    fn after(self, done: usize) -> RestoreStop
        ensures { result ≡ stop_after self done }
    {
        match self {
            Refused::NoMemory => RestoreStop::NoMemory { done },
            Refused::There(front) => RestoreStop::There { done, front },
        }
    }
}

// The header of a key that only the cache device has.
fn restored_header(restored: &Restored) -> Header
    ensures { result ≡ record { key = restored.now.key; state = State.L2Only; reading = false; place = Some restored.now.place; digest = restored.now.digest; block = None } }
{
    Header {
        key: restored.key,
        state: State::L2Only,
        reading: false,
        place: Some(restored.place),
        digest: restored.digest,
        block: None,
    }
}

impl<C: Keeps> Arcs<C> {
    /// These keys stand on the cache device: each gets an entry of the kind that only the device has, in this order. It stops at a key that
    /// has an entry, and where memory is refused; what was restored before stays. The party is the feeder. It may wait
    /// (`l2arc_hdr_restore` of OpenZFS's `arc.c`).
    pub fn restore(
        &self,
        rt: &impl Wait,
        party: &mut Party<C>,
        list: &[Restored],
    ) -> Result<(), RestoreStop>
        requires party { IsPartyOf self.now party.old }
        requires look { HasNoLook self.now party.old }
        requires feeder { IsFeeder self.now party.old }
        requires keys { (i : ℕ) (r : Restored) → get_elem? list.now i ≡ some r → IsTrue (is_well_formed r.key) }
        ensures { AnswersRestore C.Keeps self.now.config list.now party.old party.new result }
    {
        for done in 0..list.len() {
            match self.restore_one(rt, party, &list[done]) {
                Ok(()) => {}
                Err(refused) => return Err(refused.after(done)),
            }
        }
        Ok(())
    }

    // Restores one key.
    fn restore_one(
        &self,
        rt: &impl Wait,
        party: &mut Party<C>,
        restored: &Restored,
    ) -> Result<(), Refused>
        requires party { IsPartyOf self.now party.old }
        requires look { HasNoLook self.now party.old }
        requires feeder { IsFeeder self.now party.old }
        requires key { IsTrue (is_well_formed restored.now.key) }
        ensures party { IsPartyOf self.now party.new }
        ensures number { party.new.number ≡ party.old.number }
        ensures held { party.new.held ≡ party.old.held }
        ensures answer { AnswersOne C.Keeps self.now.config restored.now party.old party.new result }
    {
        let mut both = self.take_both(rt, party, restored.key);
        let shard = &mut *both.shard;
        if shard.entry(restored.key).is_some() {
            let front = self.front_of(restored.key, shard);
            self.give_back(party, restored.key, both);
            return Err(Refused::There(front));
        }
        let Ok(()) = shard.reserve(1, 1) else {
            self.give_back(party, restored.key, both);
            return Err(Refused::NoMemory);
        };
        let Ok(()) = both.hand.own.bucket.reserve(1) else {
            self.give_both(party, restored.key, both);
            return Err(Refused::NoMemory);
        };
        shard.restore(
            party.number(),
            restored.key,
            restored.place,
            restored.digest,
        );
        both.hand.own.bucket.add(restored_header(restored));
        self.give_both(party, restored.key, both);
        Ok(())
    }
}
