//! Going past the cache, which keeps other bytes under the key.
ghost use Rattle.std.specs.Prelude.{◌≡◌, [], ◌∷◌, vec_len, IfOk, OnOk, OnErr};
ghost use Rattle.arc_core.specs.declared.event.Event.{Event};
ghost use Rattle.arc_table.specs.Both.{Makes};
ghost use Rattle.arc_table.specs.Cache.{IsPartyOf};
ghost use Rattle.arc_table.specs.Making.{IsTaken};
ghost use Rattle.arc_table.specs.pact.Standing.{IsCachedWith};

use crate::arcs::{Arcs, Party};
use crate::both::Both;
use arc_core::Keeps;
use blk_ptr::{Digest, Key, NoMemory};

impl<C: Keeps> Arcs<C> {
    // Goes past the entry whose bucket and shard the party has just taken, which keeps bytes of another digest, and gives both back. It
    // answers memory for the bytes. Where memory is refused there is no event.
    pub(crate) fn past_taken(
        &self,
        party: &mut Party<C>,
        mut both: Both,
        key: Key,
        kept: Digest,
    ) -> Result<Vec<u8>, NoMemory>
        requires party { IsPartyOf self.now party.old }
        requires taken { IsTaken C.Keeps self.now.config key both party.old }
        requires kept { IsCachedWith (record { key = key; digest = kept }) both.shard.now }
        ensures room { IfOk result (λ bytes. vec_len bytes ≡ key.size) }
        ensures ok { OnOk result (Makes C.Keeps self.now.config key both.shard (Event.Past party.old.number key kept ∷ []) party.old party.new) }
        ensures err { OnErr result (Makes C.Keeps self.now.config key both.shard [] party.old party.new) }
    {
        let Ok(bytes) = vec![in self.alloc; 0u8; key.size as usize] else {
            self.give_back(party, key, both);
            return Err(NoMemory);
        };
        let shard = &mut *both.shard;
        let Ok(()) = shard.reserve(1, 0) else {
            self.give_back(party, key, both);
            return Err(NoMemory);
        };
        shard.past(party.number(), key, kept);
        self.give_both(party, key, both);
        Ok(bytes)
    }
}
