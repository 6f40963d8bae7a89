//! What a cell keeps of the cache, and what it shows of itself.
ghost use Rattle.std.specs.Prelude.{◌≡◌, ℕ, List, map, if◌then◌else◌};
ghost use Rattle.arc_core.specs.Keeps.{holds_on};
ghost use Rattle.dbuf_state.specs.Held.{IsSoundCell};
ghost use Rattle.dbuf_state.specs.Numbers.{claims_in, event_numbers, mapping_numbers, opening_numbers};
ghost use Rattle.dbuf_state.specs.Soundness.{hold_in, holds_in};

use crate::cell::Cell;
use crate::dbuf::Dbuf;
use arc_core::Keeps;
use blk_ptr::{Key, Shows};

// Whether a dbuf keeps a hold on a key.
pub fn is_hold_on<H: Shows>(dbuf: &Dbuf<H>, key: Key) -> bool
    ensures { (if result then 1 else 0) ≡ holds_on key (hold_in H.key_of H.bytes_of H.is_held dbuf.now.kept) }
{
    match &dbuf.kept {
        Some(kept) => kept.held() && key == kept.key(),
        None => false,
    }
}

impl<H: Shows + Drop> Keeps for Cell<H> {
    ghost holds = { λ c. holds_in H.key_of H.bytes_of H.is_held c.dbufs };

    ghost entries = { λ c. map event_numbers c.history };

    ghost opening = { λ c. opening_numbers c.limit c.opening };

    ghost claims = { λ c n. mapping_numbers (claims_in n c.dbufs) };

    ghost sound = { IsSoundCell H.is_held };

    fn keeps(&self, key: Key) -> u64 {
        self.holds_on(key)
    }
}
