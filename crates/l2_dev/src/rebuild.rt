//! What is found on a device again: its header, and the entries that the walk restores (`l2arc_rebuild`, `l2arc_dev_hdr_read` and
//! `l2arc_log_blk_restore` of OpenZFS's `arc.c`).
ghost use Rattle.std.specs.Prelude.{◌≡◌, ◌<◌, ◌≤◌, ◌⊎◌, ◌++◌, ◌∷◌, ℕ, [], List, length, map, reverse, Option, None, Some, IfOk, IfErr, OnOk, OnErr, IsErrOf, MatchResult};
ghost use Rattle.std.specs.List.{All};
ghost use Rattle.vdev_io.specs.Calls.{DeviceCall, Gave, MakesDeviceCalls};
ghost use Rattle.vdev_io.specs.Faults.{HasCause, Rose};
ghost use Rattle.l2_log.specs.Rules.{header_len, IsRingEnd};
ghost use Rattle.l2_ring.specs.Ring.{IsSameRing, numbers_of};
ghost use Rattle.l2_dev.specs.Asking.{AreReads, header_read, unread_answer};
ghost use Rattle.l2_dev.specs.Chain.{numbers_in};
ghost use Rattle.l2_dev.specs.Restoring.{IsHeaderOf, IsUnread, first_sector, firsts, restored_of};
ghost use Rattle.l2_dev.specs.Reading.{OnlyRead};
ghost use Rattle.l2_dev.specs.Rebuilding.{HaveKeys, IsBuilt, IsOpened, IsFresh, IsStarted};
ghost use Rattle.l2_dev.specs.Walking.{IsFit, IsOfRebuild};
ghost use Rattle.l2_dev.specs.declared.stop.Stop.TheVariants as why;

use crate::cursor::Cursor;
use crate::stop::Stop;
use crate::walk::{Walked, read_at, walk};
use arc_core::Restored;
use blk_ptr::NoMemory;
use l2_log::{DevHeader, HEADER_LEN, LogFault};
use l2_ring::{Ring, Written};
use std::alloc::{AllocError, Global};
use std::collections::BTreeSet;
use vdev_io::CacheDev;

/// What a rebuild found: where the device is written next, the restored entries, and why the walk ended.
#[derive(Debug, Drop)]
pub(crate) struct Rebuilt {
    pub cursor: Cursor,
    pub restored: Vec<Restored>,
    pub stop: Stop,
}

/// Reads the header of a device whose ring ends here.
fn read_header<D: CacheDev>(dev: &mut D, end: u64) -> Result<DevHeader, Stop>
    requires { header_len ≤ D.size dev.old }
    ensures ends { IfOk result (λ header. header.end ≡ end) }
    ensures told { (image : List ℕ) → D.told dev.old ≡ Some image → MatchResult result (λ header. IsHeaderOf end (first_sector image) header) (λ stop. IsUnread end image stop) }
    ensures read { OnlyRead D.size D.told D.has_sectors D.may_leave D.moment D.left_since D.faults dev.old dev.new }
    ensures cause { IsErrOf result why.DevFault → Rose (D.faults dev.old) (D.faults dev.new) }
    ensures kind { IfErr result IsOfRebuild }
    ensures call { MatchResult result (λ _. MakesDeviceCalls D.CacheDev (header_read Gave ∷ []) dev.old dev.new) (λ stop. MakesDeviceCalls D.CacheDev (header_read (unread_answer stop) ∷ []) dev.old dev.new) }
{
    let mut sector = [0; HEADER_LEN];
    let Ok(()) = read_at(dev, 0, &mut sector) else {
        return Err(Stop::DevFault);
    };
    match DevHeader::read(&sector) {
        Ok(header) if header.end == end => Ok(header),
        Ok(_) => Err(Stop::Header(LogFault::Field { at: 24 })),
        Err(fault) => Err(Stop::Header(fault)),
    }
}

/// Of the entries with one key only the first.
fn firsts(alloc: Global, found: &[Written]) -> Result<Vec<Written>, NoMemory>
    ensures { IfOk result (λ first. first.items ≡ firsts found.now) }
{
    let mut keys = BTreeSet::new(alloc);
    let mut first = Vec::new(alloc);
    for written in found {
        if keys.insert(written.live.key)? {
            first.push(*written)?;
        }
    }
    Ok(first)
}

/// The entry as it is told.
fn restored_of(written: &Written) -> Restored
    ensures { result ≡ restored_of written.now }
{
    Restored {
        key: written.live.key,
        place: written.live.place,
        digest: written.live.digest,
    }
}

/// The entries as they are told.
fn restored_list(alloc: Global, first: &[Written]) -> Result<Vec<Restored>, AllocError>
    ensures { IfOk result (λ list. list.items ≡ map restored_of first.now) }
{
    first.iter().map(restored_of).collect(alloc)
}

/// Adds the entries to a ring without any.
fn add_live(ring: &mut Ring, entries: &[Written]) -> Result<(), NoMemory>
    requires none { ring.old.live ≡ [] }
    requires fit { All (IsFit (numbers_of ring.old)) entries.now }
    ensures numbers { IsSameRing ring.old ring.new }
    ensures live { OnOk result (ring.new.live ≡ entries.now) }
{
    ring.reserve(entries.len())?;
    for entry in entries {
        ring.add(entry.live);
    }
    Ok(())
}

/// A device on which no header was found.
fn bare(alloc: Global, end: u64, stop: Stop) -> Rebuilt
    requires { IsRingEnd end }
    ensures opened { IsOpened end result.cursor result.restored.items }
    ensures fresh { IsFresh end result.cursor }
    ensures none { result.restored.items ≡ [] }
    ensures stop { result.stop ≡ stop }
{
    Rebuilt {
        cursor: Cursor::new(alloc, Ring::fresh(alloc, end), None, None),
        restored: Vec::new(alloc),
        stop,
    }
}

/// The device of this header, with what the walk found.
fn along(alloc: Global, header: &DevHeader, walked: Walked) -> Result<Rebuilt, NoMemory>
    requires { All (IsFit (numbers_in header.now)) walked.found.items }
    ensures opened { IfOk result (λ r. IsOpened header.now.end r.cursor r.restored.items) }
    ensures keys { IfOk result (λ r. HaveKeys r.restored.items) }
    ensures built { IfOk result (λ r. IsBuilt header.now walked.found.items r.cursor r.restored.items × (r.stop ≡ walked.stop)) }
{
    let Walked { found, stop } = walked;
    let mut first = firsts(alloc, &found)?;
    let restored = restored_list(alloc, &first)?;
    let mut ring = Ring::of(alloc, header);
    first.reverse();
    add_live(&mut ring, &first)?;
    Ok(Rebuilt {
        cursor: Cursor::new(alloc, ring, header.newest, header.second),
        restored,
        stop,
    })
}

/// Reads the header of a device whose ring ends here, and walks along its chain.
pub(crate) fn rebuild<D: CacheDev>(
    alloc: Global,
    dev: &mut D,
    end: u64,
) -> Result<Rebuilt, NoMemory>
    requires ends { IsRingEnd end }
    requires inside { end ≤ D.size dev.old }
    ensures opened { IfOk result (λ r. IsOpened end r.cursor r.restored.items) }
    ensures keys { IfOk result (λ r. HaveKeys r.restored.items) }
    ensures started { IfOk result (λ r. (reads : List DeviceCall) × MakesDeviceCalls D.CacheDev reads dev.old dev.new
        × ((image : List ℕ) → D.told dev.old ≡ Some image → IsStarted end image reads r.cursor r.restored.items r.stop)) }
    ensures refused { OnErr result ((reads : List DeviceCall) × MakesDeviceCalls D.CacheDev reads dev.old dev.new × AreReads reads) }
    ensures read { OnlyRead D.size D.told D.has_sectors D.may_leave D.moment D.left_since D.faults dev.old dev.new }
    ensures cause { IfOk result (λ r. r.stop ≡ why.DevFault → Rose (D.faults dev.old) (D.faults dev.new)) }
    ensures kind { IfOk result (λ r. IsOfRebuild r.stop) }
{
    let header = match read_header(dev, end) {
        Ok(header) => header,
        Err(stop) => return Ok(bare(alloc, end, stop)),
    };
    let walked = walk(alloc, dev, &header)?;
    along(alloc, &header, walked)
}
