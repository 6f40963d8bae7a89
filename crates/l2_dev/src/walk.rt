//! The walk along the chain of log blocks, from the newest on (`l2arc_log_blkptr_valid` and `l2arc_log_blk_read` of OpenZFS's `arc.c`).
ghost use Rattle.std.specs.Prelude.{◌≡◌, ◌≢◌, ℕ, ◌+◌, ◌≤◌, ◌++◌, ◌∷◌, [], List, length, Option, Some, Ok, IfOk, IfErr, OnOk, OnErr, IsErrOf, MatchResult, IsTrue, ◌↔◌};
ghost use Rattle.std.specs.List.{All};
ghost use Rattle.blk_ptr.specs.Ptr.{sha256_of};
ghost use Rattle.vdev_io.specs.Calls.{MakesDeviceCalls, Read, answer_of, answered};
ghost use Rattle.vdev_io.specs.Faults.{HasCause, Rose};
ghost use Rattle.l2_log.specs.Rules.{log_len};
ghost use Rattle.l2_log.specs.LogBytes.{IsLogBlock};
ghost use Rattle.l2_log.specs.declared.header.DevHeader.{DevHeader as Header};
ghost use Rattle.l2_dev.specs.Asking.{AreReads, end_reads, last_read, visit_read, walk_reads};
ghost use Rattle.l2_dev.specs.Chain.{Visit, IsInPart, IsInRing, IsReached, IsStop, IsBlockFault, IsMisfit, IsPassed, bytes_at, numbers_in, ring_len};
ghost use Rattle.l2_dev.specs.Restoring.{is_valid, valid_of, written_in};
ghost use Rattle.l2_dev.specs.Reading.{OnlyRead};
ghost use Rattle.l2_dev.specs.Walking.{EndsWith, HasWalked, IsFit, IsOfRebuild, IsVisited, visit_of};
ghost use Rattle.l2_dev.specs.declared.stop.Stop.TheVariants as why;
ghost use Rattle.l2_dev.specs.declared.walk.WalkEnd.TheVariants as ends;

use crate::stop::Stop;
use blk_ptr::{NoMemory, SECTOR, digest_of};
use l2_log::{DevHeader, LOG_LEN, LogBlock, LogEntry, LogFault, LogPtr, LogReadFault, RING_START};
use l2_ring::{Live, Plan, Written};
use std::alloc::{AllocError, AllocFailed, Global};
use vdev_io::{CacheDev, Failed};

/// Why a walk goes no further.
#[derive(Clone, Copy, Debug, Drop)]
pub(crate) enum WalkEnd {
    /// The chain ends, or is followed no further, for this reason.
    Stop(Stop),
    /// Memory was refused.
    NoMemory,
}

impl From<Stop> for WalkEnd {
    ghost from_gives = { λ stop end. end ≡ ends.Stop stop };

    fn from(stop: Stop) -> Self {
        WalkEnd::Stop(stop)
    }
}

/// The entries that a walk found, in the order in which it came to them, and why it ended.
#[derive(Debug, Drop)]
pub(crate) struct Walked {
    pub found: Vec<Written>,
    pub stop: Stop,
}

/// Reads bytes of the device.
pub(crate) fn read_at<D: CacheDev>(dev: &mut D, offset: u64, buf: &mut [u8]) -> Result<(), Failed>
    requires inside { offset + length buf.old ≤ D.size dev.old }
    ensures bytes { OnOk result ((image : List ℕ) → D.told dev.old ≡ Some image → buf.new ≡ bytes_at image offset (length buf.old)) }
    ensures read { OnlyRead D.size D.told D.has_sectors D.may_leave D.moment D.left_since D.faults dev.old dev.new }
    ensures cause { HasCause (D.faults dev.old) (D.faults dev.new) result }
    ensures call { MakesDeviceCalls D.CacheDev (answered (answer_of result) (Read offset (length buf.old)) ∷ []) dev.old dev.new }
{
    dev.read(offset, buf)
}

/// Whether a log block at this place, which lies in the ring, lies in a part of it.
fn is_in_part(header: &DevHeader, ptr: LogPtr) -> bool
    requires { ptr.place + log_len ≤ header.now.end }
    ensures { IsTrue result ↔ IsInPart (numbers_in header.now) ptr }
{
    let (place, end) = (ptr.place, ptr.place + LOG_LEN as u64);
    RING_START <= place && end <= header.hand || header.evict <= place && end <= header.top
}

/// Tests a pointer before its log block is read.
fn reach(header: &DevHeader, walked: u64, ptr: LogPtr) -> Result<(), Stop>
    requires { walked ≤ ring_len header.now }
    ensures reached { OnOk result (IsReached header.now walked ptr) }
    ensures stop { MatchResult result (λ _. IsReached header.now walked ptr) (λ stop. (image : List ℕ) → IsStop image header.now walked (Some ptr) stop) }
    ensures well { ¬ IsErrOf result why.DevFault }
    ensures unread { IfErr result (λ stop. last_read stop (Some ptr) ≡ []) }
    ensures kind { IfErr result IsOfRebuild }
{
    let place = ptr.place;
    let last = header.end - LOG_LEN as u64;
    if !place.is_multiple_of(SECTOR) || place < RING_START || place > last {
        return Err(Stop::Outside { place });
    }
    if !is_in_part(header, ptr) {
        return Err(Stop::Evicted { place });
    }
    if walked > last - RING_START {
        return Err(Stop::Length { walked });
    }
    Ok(())
}

/// Reads the log block of the pointer from its bytes.
fn read_block(alloc: Global, bytes: &[u8], ptr: LogPtr) -> Result<LogBlock, WalkEnd>
    ensures block { IfOk result (λ block. (sha256_of bytes.now ≡ ptr.digest) × IsLogBlock bytes.now block) }
    ensures stop { MatchResult result (λ _. Unit {0}) (EndsWith (λ stop. (fault : _) × (stop ≡ why.Block fault) × ((header : Header) → IsBlockFault header ptr bytes.now fault))) }
    ensures well { ¬ IsErrOf result (ends.Stop why.DevFault) }
    ensures kind { IfErr result (EndsWith IsOfRebuild) }
{
    let found = digest_of(bytes);
    if found != ptr.digest {
        let kept = ptr.digest;
        return Err(WalkEnd::Stop(Stop::Block(LogFault::Digest { kept, found })));
    }
    match LogBlock::read(alloc, bytes) {
        Ok(block) => Ok(block),
        Err(LogReadFault::Fault(fault)) => Err(WalkEnd::Stop(Stop::Block(fault))),
        Err(LogReadFault::NoMemory) => Err(WalkEnd::NoMemory),
    }
}

/// Tests a log block by the header and by the pointer that named it.
fn check_block(header: &DevHeader, ptr: LogPtr, block: &LogBlock) -> Result<(), LogFault>
    requires { IsInRing header.now.end ptr }
    ensures { MatchResult result (λ _. IsPassed header.now (visit_of ptr block.now)) (λ fault. IsMisfit header.now ptr block.now fault) }
{
    if header.version < block.version {
        return Err(LogFault::Field { at: 24 });
    }
    if !plan_of(header).keeps(block.lap, ptr.place, LOG_LEN as u64) {
        return Err(LogFault::Field { at: 8 });
    }
    if block.entries.as_slice().len() as u64 != ptr.count {
        return Err(LogFault::Field { at: 16 });
    }
    Ok(())
}

/// The numbers of the header's ring.
pub(crate) fn plan_of(header: &DevHeader) -> Plan
    ensures { result ≡ numbers_in header.now }
{
    Plan {
        hand: header.hand,
        evict: header.evict,
        top: header.top,
        lap: header.lap,
    }
}

/// Follows a pointer to its log block.
fn visit<D: CacheDev>(
    alloc: Global,
    dev: &mut D,
    buf: &mut [u8],
    header: &DevHeader,
    walked: u64,
    ptr: LogPtr,
) -> Result<LogBlock, WalkEnd>
    requires len { length buf.old ≡ log_len }
    requires inside { header.now.end ≤ D.size dev.old }
    requires short { walked ≤ ring_len header.now }
    ensures reached { OnOk result (IsReached header.now walked ptr) }
    ensures passed { IfOk result (λ block. IsPassed header.now (visit_of ptr block)) }
    ensures reads { MatchResult result (λ block. MakesDeviceCalls D.CacheDev (visit_read (visit_of ptr block) ∷ []) dev.old dev.new) (λ end. MakesDeviceCalls D.CacheDev (end_reads ptr end) dev.old dev.new) }
    ensures told { (image : List ℕ) → D.told dev.old ≡ Some image → MatchResult result
        (λ block. IsVisited image header.now (visit_of ptr block))
        (EndsWith (IsStop image header.now walked (Some ptr))) }
    ensures read { OnlyRead D.size D.told D.has_sectors D.may_leave D.moment D.left_since D.faults dev.old dev.new }
    ensures cause { IsErrOf result (ends.Stop why.DevFault) → Rose (D.faults dev.old) (D.faults dev.new) }
    ensures kind { IfErr result (EndsWith IsOfRebuild) }
{
    reach(header, walked, ptr)?;
    let Ok(()) = read_at(dev, ptr.place, buf) else {
        return Err(WalkEnd::Stop(Stop::DevFault));
    };
    let block = read_block(alloc, buf, ptr)?;
    match check_block(header, ptr, &block) {
        Ok(()) => Ok(block),
        Err(fault) => Err(WalkEnd::Stop(Stop::Block(fault))),
    }
}

/// Whether the entry lies in the part of its log block, which is at this place, and ends at or before it.
fn is_valid(plan: Plan, place: u64, written: &Written) -> bool
    ensures { result ≡ is_valid plan place written.now }
{
    let Live { key, place: at, .. } = written.live;
    plan.keeps(written.lap, at, key.size) && key.size <= place && at <= place - key.size
}

/// What an entry of a log block of this lap tells of.
fn written_in(lap: u64, entry: &LogEntry) -> Written
    ensures { result ≡ written_in lap entry.now }
{
    let LogEntry { key, place, digest } = *entry;
    Written {
        live: Live { key, place, digest },
        lap,
    }
}

/// The valid entries of a log block, from the last to the first.
fn valid_of(
    alloc: Global,
    plan: Plan,
    ptr: LogPtr,
    block: &LogBlock,
) -> Result<Vec<Written>, AllocError>
    ensures valid { IfOk result (λ valid. valid.items ≡ valid_of plan (visit_of ptr block.now)) }
    ensures fit { IfOk result (λ valid. All (IsFit plan) valid.items) }
{
    let lap = block.lap;
    let entries = block.entries.as_slice();
    entries
        .iter()
        .rev()
        .map(|entry| written_in(lap, entry))
        .filter(|written| is_valid(plan, ptr.place, written))
        .collect(alloc)
}

/// What a walk that found these entries answers at its end.
fn ended(end: WalkEnd, found: Vec<Written>) -> Result<Walked, NoMemory>
    ensures { IfOk result (λ walked. (end ≡ ends.Stop walked.stop) × (walked.found.items ≡ found.items)) }
{
    match end {
        WalkEnd::Stop(stop) => Ok(Walked { found, stop }),
        WalkEnd::NoMemory => Err(NoMemory),
    }
}

/// Walks along the chain of the header. Each log block is read once.
pub(crate) fn walk<D: CacheDev>(
    alloc: Global,
    dev: &mut D,
    header: &DevHeader,
) -> Result<Walked, NoMemory>
    requires { header.now.end ≤ D.size dev.old }
    ensures chain { IfOk result (λ walked. (visits : List Visit) × MakesDeviceCalls D.CacheDev (walk_reads header.now visits walked.stop) dev.old dev.new
        × ((image : List ℕ) → D.told dev.old ≡ Some image → HasWalked image header.now visits walked.found.items walked.stop)) }
    ensures refused { OnErr result ((reads : _) × MakesDeviceCalls D.CacheDev reads dev.old dev.new × AreReads reads) }
    ensures fit { IfOk result (λ walked. All (IsFit (numbers_in header.now)) walked.found.items) }
    ensures read { OnlyRead D.size D.told D.has_sectors D.may_leave D.moment D.left_since D.faults dev.old dev.new }
    ensures cause { IfOk result (λ walked. walked.stop ≡ why.DevFault → Rose (D.faults dev.old) (D.faults dev.new)) }
    ensures kind { IfOk result (λ walked. IsOfRebuild walked.stop) }
{
    let plan = plan_of(header);
    // The end is below 2^64, and so are the bytes walked; a proof knows it of a number that was read.
    let _end = header.end;
    let mut bytes = vec![in alloc; 0u8; LOG_LEN]?;
    let mut found = Vec::new(alloc);
    let mut next = header.newest;
    let mut behind = header.second;
    let mut walked = 0;
    while let Some(ptr) = next {
        let block = match visit(alloc, dev, &mut bytes, header, walked, ptr) {
            Ok(block) => block,
            Err(end) => return ended(end, found),
        };
        let valid = valid_of(alloc, plan, ptr, &block)?;
        found.extend_from_slice(&valid)?;
        walked += LOG_LEN as u64;
        next = behind;
        behind = block.prev;
    }
    Ok(Walked {
        found,
        stop: Stop::Zero,
    })
}
