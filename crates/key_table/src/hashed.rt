//! What a table asks of its keys.
ghost use Rattle.std.specs.Prelude.{◌≡◌, ℕ, ◌↔◌, ◌*◌, ◌%◌, ◌^◌, IsTrue};

/// A key of a table.
pub trait Hashed {
    /// The number by which a key is found. A table goes by its upper half, so that is the one to spread the keys.
    ghost hash: { Self → ℕ };

    /// That number.
    fn hash(&self) -> u64
        ensures { result ≡ hash self.now };

    /// Whether the two are one key.
    fn is(&self, other: &Self) -> bool
        ensures { IsTrue result ↔ (self.now ≡ other.now) };
}

/// The golden ratio of 2^64, which spreads numbers that follow one another.
const SPREAD: u64 = 0x9e37_79b9_7f4a_7c15;

impl Hashed for u64 {
    ghost use Rattle.key_table.specs.declared.hashed.TheConstants.{SPREAD};

    ghost hash = { λ n. n * SPREAD % 2 ^ 64 };

    fn hash(&self) -> u64 {
        self.wrapping_mul(SPREAD)
    }

    fn is(&self, other: &Self) -> bool {
        *self == *other
    }
}
