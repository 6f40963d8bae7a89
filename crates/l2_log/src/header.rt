//! The header of a cache device.
ghost use Rattle.std.specs.Prelude.{◌≤◌};
ghost use Rattle.l2_log.specs.Rules.{IsVersion, IsRingEnd, IsRingPlace};

use crate::fault::LogFault;
use crate::header_bytes::{check_front, check_numbers};
use crate::log_block::most_of;
use crate::pointer::LogPtr;
use crate::pointer_bytes::{pointer_at, put_pointer};
use crate::words::{check_zeros, clear, digest_before, put_digest, put_words, word_at};

/// The bytes of a device header.
pub const HEADER_LEN: usize = 512;

/// The place at which the ring begins.
pub const RING_START: u64 = 4096;

/// The least place at which a ring may end.
pub const LEAST_RING_END: u64 = 266_240;

pub(crate) const MAGIC: u64 = 0x5a46_5343_4143_4845;

/// The version of the format that is written. Version 1 is read beside it.
pub const VERSION: u64 = 2;

pub(crate) const OLD_VERSION: u64 = 1;

/// The header of the device, in its first 512 bytes (`l2arc_dev_hdr_phys_t`). Its places are multiples of
/// [`SECTOR`](blk_ptr::SECTOR) from [`RING_START`] to `end`.
#[derive(Clone, Copy, Debug, PartialEq, Eq)]
pub struct DevHeader {
    /// The version of the format, 1 or 2. A chain of version 1 has log blocks of version 1 alone.
    pub version: u64,
    /// The place at which the ring ends, at least [`LEAST_RING_END`].
    pub end: u64,
    /// The place that is written next.
    pub hand: u64,
    /// The end of what the next writes may overwrite, at least `hand`.
    pub evict: u64,
    /// The end of what was written in the lap before.
    pub top: u64,
    /// The number of the lap, at least 1.
    pub lap: u64,
    /// The newest log block.
    pub newest: Option<LogPtr>,
    /// The second newest log block.
    pub second: Option<LogPtr>,
    pub ghost versioned: { IsVersion version },
    pub ghost ends: { IsRingEnd end },
    pub ghost hand_in: { IsRingPlace end hand },
    pub ghost evict_in: { IsRingPlace end evict },
    pub ghost top_in: { IsRingPlace end top },
    pub ghost order: { hand ≤ evict },
    pub ghost lapped: { 1 ≤ lap },
}

impl DevHeader {
    ghost use Rattle.std.specs.Prelude.{◌≡◌, ℕ, List, length, Ok, MatchResult};
    ghost use Rattle.l2_log.specs.Bytes.{AreBytes};
    ghost use Rattle.l2_log.specs.HeaderBytes.{IsHeader, IsHeaderFront, IsSealed, IsFirstRefusal};

    /// Reads the header that these bytes are, or tells the first refusal of the order: the length, the magic, the
    /// version, the digest, and then the fields by rising place.
    pub fn read(bytes: &[u8]) -> Result<DevHeader, LogFault>
        ensures exact { MatchResult result (λ header. IsHeader bytes.now header) (λ fault. IsFirstRefusal bytes.now fault) }
        ensures complete { (header : DevHeader) → IsHeader bytes.now header → result ≡ Ok header }
    {
        check_front(bytes)?;
        DevHeader::read_fields(bytes)
    }

    fn read_fields(bytes: &[u8]) -> Result<DevHeader, LogFault>
        requires front { IsHeaderFront bytes.now }
        requires sealed { IsSealed bytes.now }
        ensures { MatchResult result (λ header. IsHeader bytes.now header) (λ fault. IsFirstRefusal bytes.now fault) }
    {
        check_numbers(bytes)?;
        check_zeros(bytes, 72, 128)?;
        let newest = pointer_at(bytes, 128)?;
        let second = pointer_at(bytes, 192)?;
        check_zeros(bytes, 256, 480)?;
        Ok(DevHeader {
            version: word_at(bytes, 8),
            end: word_at(bytes, 24),
            hand: word_at(bytes, 32),
            evict: word_at(bytes, 40),
            top: word_at(bytes, 48),
            lap: word_at(bytes, 56),
            newest,
            second,
        })
    }

    /// Writes the one spelling of this header.
    pub fn write(&self, out: &mut [u8; 512])
        ensures spelled { IsHeader out.new self.now }
        ensures bytes { AreBytes out.new }
        ensures only { (bytes : List ℕ) → AreBytes bytes → IsHeader bytes self.now → bytes ≡ out.new }
    {
        clear(out);
        let numbers = [
            MAGIC,
            self.version,
            RING_START,
            self.end,
            self.hand,
            self.evict,
            self.top,
            self.lap,
            most_of(self.version == VERSION),
        ];
        put_words(out, &numbers);
        put_pointer(out, 128, self.newest);
        put_pointer(out, 192, self.second);
        let digest = digest_before(out, 480);
        put_digest(out, 480, digest);
    }
}
