//! What a log block tells of one block.
ghost use Rattle.std.specs.Prelude.{◌≡◌, ◌≤◌, ◌%◌};
ghost use Rattle.blk_ptr.specs.Size.{sector};
ghost use Rattle.blk_ptr.specs.Key.{IsWellFormed};
ghost use Rattle.l2_log.specs.Rules.{largest_with, is_there};

use blk_ptr::{Digest, Key};

/// The most bytes of a block that an entry of version 1 names.
pub const LARGEST_OLD_BLOCK: u64 = 1_048_576;

/// That a block lies on the device, and where (`l2arc_log_ent_phys_t`).
#[derive(Clone, Copy, Debug, PartialEq, Eq)]
pub struct LogEntry {
    /// The block, whose numbers are in their ranges.
    pub key: Key,
    /// The place of its first byte on the device, a multiple of [`SECTOR`](blk_ptr::SECTOR).
    pub place: u64,
    /// The SHA-256 of its bytes, which only an entry of version 2 has. A block of an entry without one has at most
    /// [`LARGEST_OLD_BLOCK`] bytes.
    pub digest: Option<Digest>,
    pub ghost formed: { IsWellFormed key },
    pub ghost aligned: { place % sector ≡ 0 },
    pub ghost sized: { key.size ≤ largest_with (is_there digest) },
}
