ghost use Rattle.l2_log.specs.Rules.{IsCount};

use blk_ptr::Digest;

/// A pointer to a log block of 65,536 bytes (`l2arc_log_blkptr_t`).
#[derive(Clone, Copy, Debug, PartialEq, Eq)]
pub struct LogPtr {
    /// The place of its first byte on the device.
    pub place: u64,
    /// How many entries it has, from 1 to [`MOST_OLD_ENTRIES`](crate::MOST_OLD_ENTRIES).
    pub count: u64,
    /// The SHA-256 of its bytes.
    pub digest: Digest,
    pub ghost counted: { IsCount count },
}
