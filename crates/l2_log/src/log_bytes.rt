//! The tests of a log block's bytes, and its entries one by one.
ghost use Rattle.std.specs.Prelude.{◌≡◌, ℕ, ◌+◌, ◌*◌, ◌<◌, ◌≤◌, length, MatchResult};
ghost use Rattle.std.specs.List.{All};
ghost use Rattle.l2_log.specs.Rules.{log_len, entry_len, first_entry, most_with, is_there, IsCountWith};
ghost use Rattle.l2_log.specs.Bytes.{word, AreBytes, AreZero, IsKeptOutside};
ghost use Rattle.l2_log.specs.EntryBytes.{AreEntries};
ghost use Rattle.l2_log.specs.LogBytes.{IsLogFront, IsFirstLogFault, IsEntryRefusal};

use crate::entry::LogEntry;
use crate::entry_bytes::{entry_at, put_entry};
use crate::fault::{LogFault, LogReadFault};
use crate::header::VERSION;
use crate::log_block::{LOG_LEN, LOG_MAGIC, most_of};
use crate::words::word_at;
use std::alloc::Global;

/// Refuses bytes that are no log block by their length, magic, lap or count.
pub(crate) fn check_log_front(bytes: &[u8]) -> Result<(), LogFault>
    ensures { MatchResult result (λ _. IsLogFront bytes.now) (λ fault. IsFirstLogFault bytes.now fault) }
{
    if bytes.len() != LOG_LEN {
        let len = bytes.len() as u64;
        return Err(LogFault::Length { len });
    }
    if word_at(bytes, 0) != LOG_MAGIC {
        return Err(LogFault::Magic);
    }
    if word_at(bytes, 8) == 0 {
        return Err(LogFault::Field { at: 8 });
    }
    let stored = word_at(bytes, 24);
    if !(1..=most_of(stored == VERSION)).contains(&word_at(bytes, 16)) {
        return Err(LogFault::Field { at: 16 });
    }
    if stored != 0 && stored != VERSION {
        return Err(LogFault::Field { at: 24 });
    }
    Ok(())
}

/// The place of the entry number `i`, among entries with digests or without.
pub(crate) fn entry_place(digests: bool, i: usize) -> usize
    requires { i ≤ most_with digests }
    ensures place { result ≡ first_entry + entry_len digests * i }
    ensures inside { result ≤ log_len }
    ensures whole { i < most_with digests → result + entry_len digests ≤ log_len }
{
    if digests { 128 + 96 * i } else { 128 + 64 * i }
}

/// Reads the entries from the first on, as many as there are.
pub(crate) fn read_entries(
    alloc: Global,
    bytes: &[u8],
    count: usize,
    digests: bool,
) -> Result<Vec<LogEntry>, LogReadFault>
    requires whole { length bytes.now ≡ log_len }
    requires counted { IsCountWith digests count }
    ensures { MatchResult result
        (λ entries. (length entries.items ≡ count) × AreEntries digests bytes.now first_entry entries.items × All (λ entry. is_there entry.digest ≡ digests) entries.items)
        (λ fault. IsEntryRefusal digests bytes.now count fault) }
{
    let mut entries = Vec::with_capacity(alloc, count)?;
    for i in 0..count {
        entries.push(entry_at(bytes, entry_place(digests, i), digests)?)?;
    }
    Ok(entries)
}

/// Writes the entries from the first place on, where all is zero.
pub(crate) fn put_entries(out: &mut [u8], entries: &[LogEntry], digests: bool)
    requires whole { length out.old ≡ log_len }
    requires counted { IsCountWith digests (length entries.now) }
    requires told { All (λ entry. is_there entry.digest ≡ digests) entries.now }
    requires zero { AreZero first_entry log_len out.old }
    ensures entries { AreEntries digests out.new first_entry entries.now }
    ensures zeros { AreZero (first_entry + entry_len digests * length entries.now) log_len out.new }
    ensures kept { IsKeptOutside first_entry log_len out.old out.new }
    ensures bytes { AreBytes out.new }
{
    for (i, entry) in entries.iter().enumerate() {
        put_entry(out, entry_place(digests, i), entry);
    }
}
