//! A log block and its entries.
ghost use Rattle.std.specs.Prelude.{◌≡◌, ◌≤◌, length};
ghost use Rattle.std.specs.List.{All};
ghost use Rattle.l2_log.specs.Rules.{IsVersion, IsCount, IsCountWith, has_digests, most_with, stored_version, is_there};

use crate::entry::LogEntry;
use crate::fault::LogReadFault;
use crate::header::{OLD_VERSION, VERSION};
use crate::log_bytes::{check_log_front, entry_place, put_entries, read_entries};
use crate::pointer::LogPtr;
use crate::pointer_bytes::{pointer_at, put_pointer};
use crate::words::{check_zeros, clear, put_words, word_at};
use blk_ptr::digest_of;
use std::alloc::Global;
use std::marker::Model;

/// The bytes of a log block.
pub const LOG_LEN: usize = 65_536;

/// The most entries of a log block that is written. One of version 1 may have up to [`MOST_OLD_ENTRIES`].
pub const MOST_ENTRIES: usize = 681;

/// The most entries of a log block of version 1, and the most that a pointer may tell of.
pub const MOST_OLD_ENTRIES: usize = 1022;

pub(crate) const LOG_MAGIC: u64 = 0x4c4f_4742_4c4b_4844;

/// The most entries of a log block, with digests and without.
pub(crate) fn most_of(digests: bool) -> u64
    ensures { result ≡ most_with digests }
{
    if digests {
        MOST_ENTRIES as u64
    } else {
        MOST_OLD_ENTRIES as u64
    }
}

/// The number at place 24 of a log block, with digests and without.
fn stored_of(digests: bool) -> u64
    ensures { result ≡ stored_version digests }
{
    if digests { VERSION } else { 0 }
}

/// The entries of a log block, from 1 to [`MOST_OLD_ENTRIES`]. Contracts see the list.
#[derive(Debug, Drop)]
pub struct Entries {
    entries: Vec<LogEntry>,
}

impl Model for Entries {
    ghost use Rattle.std.specs.Prelude.{List, length};
    ghost use Rattle.l2_log.specs.Rules.{IsCount};
    ghost use Rattle.l2_log.specs.declared.entry.LogEntry.{LogEntry};

    ghost Value = { List LogEntry };

    ghost view = { λ entries. entries.entries.items };

    ghost invariant = { λ entries. IsCount (length entries.entries.items) };
}

impl Entries {
    /// These entries. It takes no memory.
    pub fn new(entries: Vec<LogEntry>) -> Entries
        requires { IsCount (length entries.items) }
        ensures { result ≡ entries.items }
    {
        Entries { entries }
    }

    /// The entries, in their order.
    pub fn as_slice(&self) -> &[LogEntry]
        ensures entries { result.now ≡ self.now }
        ensures counted { IsCount (length self.now) }
    {
        &self.entries
    }

    /// Gives the vector back. It takes no memory.
    pub fn into_vec(self) -> Vec<LogEntry>
        ensures entries { result.items ≡ self }
        ensures counted { IsCount (length self) }
    {
        let Entries { entries } = self;
        entries
    }
}

/// A log block: the entries of one run of blocks that were written one behind the other (`l2arc_log_blk_phys_t`).
#[derive(Debug, Drop)]
pub struct LogBlock {
    /// The version of the format: 2, or 1, in which no entry has a digest.
    pub version: u64,
    /// The lap of the ring in which it was written, at least 1.
    pub lap: u64,
    /// The log block before the one before.
    pub prev: Option<LogPtr>,
    /// The entries, in the order in which their blocks were written.
    pub entries: Entries,
    pub ghost lapped: { 1 ≤ lap },
    pub ghost versioned: { IsVersion version },
    pub ghost counted: { IsCountWith (has_digests version) (length entries) },
    pub ghost told: { All (λ entry. is_there entry.digest ≡ has_digests version) entries },
}

impl LogBlock {
    ghost use Rattle.std.specs.Prelude.{ℕ, List, OnErr, MatchResult, IsErrOf};
    ghost use Rattle.blk_ptr.specs.Ptr.{sha256_of};
    ghost use Rattle.l2_log.specs.Rules.{log_len};
    ghost use Rattle.l2_log.specs.Bytes.{AreBytes};
    ghost use Rattle.l2_log.specs.LogBytes.{IsLogBlock, IsLogFront, IsLogRefusal};

    /// Reads the log block that these bytes are, or tells the first refusal of the order: the length, the magic, and
    /// then the fields by rising place.
    pub fn read(alloc: Global, bytes: &[u8]) -> Result<LogBlock, LogReadFault>
        ensures exact { MatchResult result (λ block. IsLogBlock bytes.now block) (λ fault. IsLogRefusal bytes.now fault) }
        ensures complete { (block : LogBlock) → IsLogBlock bytes.now block
            → MatchResult result (λ read. read ≡ block) (λ fault. fault ≡ LogReadFault.NoMemory) }
    {
        check_log_front(bytes)?;
        LogBlock::read_fields(alloc, bytes)
    }

    fn read_fields(alloc: Global, bytes: &[u8]) -> Result<LogBlock, LogReadFault>
        requires { IsLogFront bytes.now }
        ensures { MatchResult result (λ block. IsLogBlock bytes.now block) (λ fault. IsLogRefusal bytes.now fault) }
    {
        let count = word_at(bytes, 16) as usize;
        let digests = word_at(bytes, 24) == VERSION;
        check_zeros(bytes, 32, 64)?;
        let prev = pointer_at(bytes, 64)?;
        let entries = read_entries(alloc, bytes, count, digests)?;
        check_zeros(bytes, entry_place(digests, count), LOG_LEN)?;
        Ok(LogBlock {
            version: if digests { VERSION } else { OLD_VERSION },
            lap: word_at(bytes, 8),
            prev,
            entries: Entries::new(entries),
        })
    }

    /// Writes the one spelling of this log block, and answers the pointer to it, whose place is 0.
    pub fn write(&self, out: &mut [u8]) -> LogPtr
        requires { length out.old ≡ log_len }
        ensures spelled { IsLogBlock out.new self.now }
        ensures bytes { AreBytes out.new }
        ensures only { (bytes : List ℕ) → AreBytes bytes → IsLogBlock bytes self.now → bytes ≡ out.new }
        ensures place { result.place ≡ 0 }
        ensures count { result.count ≡ length self.now.entries }
        ensures digest { result.digest ≡ sha256_of out.new }
    {
        clear(out);
        let entries = self.entries.as_slice();
        let count = entries.len() as u64;
        let digests = self.version == VERSION;
        put_words(out, &[LOG_MAGIC, self.lap, count, stored_of(digests)]);
        put_pointer(out, 64, self.prev);
        put_entries(out, entries, digests);
        LogPtr {
            place: 0,
            count,
            digest: digest_of(out),
        }
    }
}
