//! A key as a table by key hashes it.
use blk_ptr::{Key, hash_of};
use key_table::Hashed;

/// The golden ratio of 2^64. A table goes by the upper half of a hash, and of keys of one offset that half is the same
/// in `hash_of`, which the formats fix.
const SPREAD: u64 = 0x9e37_79b9_7f4a_7c15;

/// A key, found in a table by its hash.
#[derive(Clone, Copy, Debug)]
pub struct Name(pub Key);

impl Hashed for Name {
    ghost use Rattle.std.specs.Prelude.{◌*◌, ◌%◌, ◌^◌};
    ghost use Rattle.blk_ptr.specs.Hash.{hash_of_key};
    ghost use Rattle.arc_lists.specs.declared.name.TheConstants.{SPREAD};

    ghost hash = { λ n. hash_of_key n.0 * SPREAD % 2 ^ 64 };

    fn hash(&self) -> u64 {
        hash_of(self.0).wrapping_mul(SPREAD)
    }

    fn is(&self, other: &Self) -> bool {
        self.0 == other.0
    }
}
