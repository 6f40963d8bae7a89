//! The key of a block, and the tests that it has to pass before the block is read.
ghost use Rattle.std.specs.Prelude.{◌≡◌, ◌↔◌, IsTrue, MatchResult, Some};
ghost use Rattle.blk_ptr.specs.Size.{IsBlockSize};

use std::fmt;

/// The bytes of a sector. Every place and every size on a pool or a cache device is a multiple of it.
pub const SECTOR: u64 = 512;

/// The most bytes that a block has.
pub const LARGEST_BLOCK: u64 = 16_777_216;

/// The name of a block: where it lies in the pool, how many bytes it has, and in which transaction group it was born.
#[derive(Clone, Copy, Debug, PartialEq, Eq, PartialOrd, Ord)]
pub struct Key {
    /// The first byte's place in the pool, a multiple of [`SECTOR`].
    pub offset: u64,
    /// The number of bytes: a multiple of [`SECTOR`], at least one sector and at most [`LARGEST_BLOCK`].
    pub size: u64,
    /// The transaction group in which the block was written, at least 1.
    pub birth: u64,
}

/// Why a key names no block of a pool. The tests are made in this order, and the first that fails is told.
#[derive(Clone, Copy, Debug, PartialEq, Eq)]
pub enum KeyFault {
    /// The offset is no multiple of [`SECTOR`].
    Unaligned,
    /// The size is no block size.
    Size,
    /// The block would end at `end`, past the pool's length `len`.
    OutOfPool { end: u128, len: u64 },
    /// The birth is 0.
    BirthZero,
}

/// Whether a block may have this many bytes.
pub fn is_block_size(size: u64) -> bool
    ensures { IsTrue result ↔ IsBlockSize size }
{
    size.is_multiple_of(SECTOR) && (SECTOR..=LARGEST_BLOCK).contains(&size)
}

impl Key {
    ghost use Rattle.blk_ptr.specs.Key.{IsValid, IsFirstKeyFault};

    /// Tests whether this key names a block of a pool of `pool_len` bytes, and gives it back where it does. Err is the first test that
    /// fails, in the order of [`KeyFault`] (`zfs_blkptr_verify` of OpenZFS's `zio.c` makes such tests).
    pub fn check(self, pool_len: u64) -> Result<Key, KeyFault>
        ensures valid { MatchResult result
            (λ key. (key ≡ self) × IsValid pool_len self)
            (λ fault. IsFirstKeyFault pool_len self fault) }
    {
        if !self.offset.is_multiple_of(SECTOR) {
            return Err(KeyFault::Unaligned);
        }
        if !is_block_size(self.size) {
            return Err(KeyFault::Size);
        }
        let end = u128::from(self.offset) + u128::from(self.size);
        if end > u128::from(pool_len) {
            return Err(KeyFault::OutOfPool { end, len: pool_len });
        }
        if self.birth == 0 {
            return Err(KeyFault::BirthZero);
        }
        Ok(self)
    }
}

impl fmt::Display for KeyFault {
    ghost use Rattle.blk_ptr.specs.Key.{fault_text};

    ghost output = { λ fault. Some (fault_text fault) };

    fn fmt<W: fmt::Write>(&self, f: &mut fmt::Formatter<W>) -> fmt::Result {
        match self {
            KeyFault::Unaligned => write!(f, "unaligned"),
            KeyFault::Size => write!(f, "size"),
            KeyFault::OutOfPool { end, len } => write!(f, "range {end} {len}"),
            KeyFault::BirthZero => write!(f, "birth"),
        }
    }
}
