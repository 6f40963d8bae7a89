//! What the cache asks of a cell of the layer above, which keeps holds of its own.
ghost use Rattle.std.specs.Prelude.{◌≡◌, ℕ, List};
ghost use Rattle.arc_core.specs.Keeps.{holds_on};
ghost use Rattle.blk_ptr.specs.declared.ptr.Ptr.{Ptr};

use blk_ptr::Key;

/// A value that keeps holds on entries of the cache under a number of its own, as a cell of dbufs does.
///
/// What it keeps is told as plain data. The cache ties the holds to the counts of its entries, and carries the rest from one
/// owner of the value to the next without knowing what it means.
pub trait Keeps {
    /// The holds: for each one the key of its entry and the digest of its block. Their order means nothing.
    ghost holds: { Self → List Ptr };

    /// What was done to it, in order. Each entry is a list of numbers that begins with the number of who did it.
    ghost entries: { Self → List (List ℕ) };

    /// What it was before all entries.
    ghost opening: { Self → List ℕ };

    /// What each number claims of it for a while.
    ghost claims: { Self → ℕ → List ℕ };

    /// What is so of it whenever its turn is free.
    ghost sound: { Self → Type 0 };

    /// How many holds it keeps on a key.
    fn keeps(&self, key: Key) -> u64
        ensures { result ≡ holds_on key (holds self.now) };
}

/// A boxed value keeps what is in the box.
impl<T: Keeps> Keeps for Box<T> {
    ghost holds = { λ b. T.holds b.value };

    ghost entries = { λ b. T.entries b.value };

    ghost opening = { λ b. T.opening b.value };

    ghost claims = { λ b n. T.claims b.value n };

    ghost sound = { λ b. T.sound b.value };

    fn keeps(&self, key: Key) -> u64 {
        (**self).keeps(key)
    }
}
