//! A caller's lines on objects: blocks of the object map, whose bytes cells of dbufs keep (`dmu_read` and `dmu_write` of OpenZFS's `dmu.c`).
ghost use Rattle.std.specs.Prelude.{◌≡◌, IfOk, List, is_some, true};
ghost use Rattle.arc_table.specs.Reading.{KeepsDevice, outside};
ghost use Rattle.blk_ptr.specs.Size.{IsBlockSize};
ghost use Rattle.vdev_io.specs.Calls.{KeepsPool};
ghost use Rattle.trace_run.specs.KeptBlocks.{Stands};
ghost use Rattle.trace_run.specs.dbufs.ObjectLines.{DidGet, DidObjectLine, DidPatch, DidPin, DidPut, DidUnpin, IsSized, TellsFault, on_object};
ghost use Rattle.trace_run.specs.declared.kept_blocks.KeptBlock.{KeptBlock};

use crate::lines::refusal_of as refusal_of_read;
use arc_table::Party;
use blk_ptr::NoMemory;
use dbuf_cells::{Cells, HeapCell, get, hold, patch, put, unhold};
use dbuf_state::{DbufFault, Oid, Shown, Window};
use std::alloc::Global;
use std::sync::Wait;
use trace_text::{Op, Refusal, Reply, ShownBytes};
use vdev_io::{CacheDev, Pool};

/// What a caller is told of a fault of a call on dbufs. Want of memory ends the run.
fn refusal_of(fault: DbufFault) -> Result<Refusal, NoMemory>
    ensures { IfOk result (TellsFault fault) }
{
    match fault {
        DbufFault::Read(why) => refusal_of_read(why),
        DbufFault::NoBlock(named) => Ok(Refusal::NoBlock(named)),
        DbufFault::Range { end, size } => Ok(Refusal::Range { end, size }),
        DbufFault::NoPin(named) => Ok(Refusal::NoPin(named)),
        DbufFault::NoMemory => Err(NoMemory),
    }
}

/// What a caller is told of a block whose bytes were there.
fn got(alloc: Global, size: u64, shown: &Shown) -> Result<Reply, NoMemory>
    requires { IsBlockSize size }
    ensures { IfOk result (λ reply. reply ≡ Reply.Got size shown.now) }
{
    let size = size as u32;
    let shown = ShownBytes::of(alloc, shown.bytes())?;
    Ok(Reply::Got { size, shown })
}

/// Answers a read of a window of a block.
pub(crate) fn get_line<P: Pool, D: CacheDev>(
    alloc: Global,
    rt: &impl Wait,
    arcs: &Cells,
    party: &mut Party<HeapCell>,
    pool: &mut P,
    device: &mut D,
    at: Oid,
    w: Window,
    t: u64,
) -> Result<Reply, NoMemory>
    requires { (kept : List KeptBlock) × Stands arcs.now party.old kept }
    ensures stands { (kept : List KeptBlock) → Stands arcs.now party.old kept → IfOk result (λ reply. Stands arcs.now party.new kept) }
    ensures did { IfOk result (DidGet P.Pool D.CacheDev arcs.now.config at t (outside pool.old device.old) (outside pool.new device.new) party.old party.new w) }
    ensures pool { KeepsPool P.Pool pool.old pool.new }
    ensures device { KeepsDevice D.CacheDev device.old device.new }
{
    match get(arcs, rt, party, at, w, t, pool, device) {
        Ok((size, shown)) => got(alloc, size, &shown),
        Err(fault) => Ok(Reply::Refused(refusal_of(fault)?)),
    }
}

/// Answers a write of a whole block.
pub(crate) fn put_line(
    alloc: Global,
    rt: &impl Wait,
    arcs: &Cells,
    party: &mut Party<HeapCell>,
    at: Oid,
    size: u32,
    fill: u8,
) -> Result<Reply, NoMemory>
    requires stands { (kept : List KeptBlock) × Stands arcs.now party.old kept }
    requires size { IsBlockSize size }
    ensures stands { (kept : List KeptBlock) → Stands arcs.now party.old kept → IfOk result (λ reply. Stands arcs.now party.new kept) }
    ensures did { IfOk result (DidPut arcs.now.config at party.old party.new size fill) }
{
    match put(alloc, arcs, rt, party, at, size, fill) {
        Ok(()) => Ok(Reply::Done),
        Err(fault) => Ok(Reply::Refused(refusal_of(fault)?)),
    }
}

/// Answers a write of a part of a block.
pub(crate) fn patch_line<P: Pool, D: CacheDev>(
    alloc: Global,
    rt: &impl Wait,
    arcs: &Cells,
    party: &mut Party<HeapCell>,
    pool: &mut P,
    device: &mut D,
    at: Oid,
    from: u32,
    bytes: &Shown,
    t: u64,
) -> Result<Reply, NoMemory>
    requires { (kept : List KeptBlock) × Stands arcs.now party.old kept }
    ensures stands { (kept : List KeptBlock) → Stands arcs.now party.old kept → IfOk result (λ reply. Stands arcs.now party.new kept) }
    ensures did { IfOk result (DidPatch P.Pool D.CacheDev arcs.now.config at t (outside pool.old device.old) (outside pool.new device.new) party.old party.new from bytes.now) }
    ensures pool { KeepsPool P.Pool pool.old pool.new }
    ensures device { KeepsDevice D.CacheDev device.old device.new }
{
    match patch(alloc, arcs, rt, party, at, from, bytes, t, pool, device) {
        Ok(()) => Ok(Reply::Done),
        Err(fault) => Ok(Reply::Refused(refusal_of(fault)?)),
    }
}

/// Answers a pin of a block.
pub(crate) fn pin_line<P: Pool, D: CacheDev>(
    rt: &impl Wait,
    arcs: &Cells,
    party: &mut Party<HeapCell>,
    pool: &mut P,
    device: &mut D,
    at: Oid,
    t: u64,
) -> Result<Reply, NoMemory>
    requires { (kept : List KeptBlock) × Stands arcs.now party.old kept }
    ensures stands { (kept : List KeptBlock) → Stands arcs.now party.old kept → IfOk result (λ reply. Stands arcs.now party.new kept) }
    ensures did { IfOk result (DidPin P.Pool D.CacheDev arcs.now.config at t (outside pool.old device.old) (outside pool.new device.new) party.old party.new) }
    ensures pool { KeepsPool P.Pool pool.old pool.new }
    ensures device { KeepsDevice D.CacheDev device.old device.new }
{
    match hold(arcs, rt, party, at, t, pool, device) {
        Ok(()) => Ok(Reply::Done),
        Err(fault) => Ok(Reply::Refused(refusal_of(fault)?)),
    }
}

/// Answers a pin that is taken back.
pub(crate) fn unpin_line(
    rt: &impl Wait,
    arcs: &Cells,
    party: &mut Party<HeapCell>,
    at: Oid,
) -> Result<Reply, NoMemory>
    requires { (kept : List KeptBlock) × Stands arcs.now party.old kept }
    ensures stands { (kept : List KeptBlock) → Stands arcs.now party.old kept → IfOk result (λ reply. Stands arcs.now party.new kept) }
    ensures did { IfOk result (DidUnpin arcs.now.config at party.old party.new) }
{
    match unhold(arcs, rt, party, at) {
        Ok(()) => Ok(Reply::Done),
        Err(fault) => Ok(Reply::Refused(refusal_of(fault)?)),
    }
}

/// Answers a caller's line on an object.
pub(crate) fn object_line<P: Pool, D: CacheDev>(
    alloc: Global,
    rt: &impl Wait,
    arcs: &Cells,
    party: &mut Party<HeapCell>,
    pool: &mut P,
    device: &mut D,
    op: &Op,
) -> Result<Reply, NoMemory>
    requires stands { (kept : List KeptBlock) × Stands arcs.now party.old kept }
    requires object { is_some (on_object op.now) ≡ true }
    requires sized { IsSized op.now }
    ensures stands { (kept : List KeptBlock) → Stands arcs.now party.old kept → IfOk result (λ reply. Stands arcs.now party.new kept) }
    ensures did { IfOk result (DidObjectLine P.Pool D.CacheDev arcs.now.config (outside pool.old device.old) (outside pool.new device.new) party.old party.new op.now) }
    ensures pool { KeepsPool P.Pool pool.old pool.new }
    ensures device { KeepsDevice D.CacheDev device.old device.new }
{
    match op {
        Op::Get { t, at, w, .. } => get_line(alloc, rt, arcs, party, pool, device, *at, *w, *t),
        Op::Put { at, size, fill, .. } => put_line(alloc, rt, arcs, party, *at, *size, *fill),
        Op::Patch {
            t,
            at,
            from,
            bytes,
            ..
        } => {
            let bytes = Shown::of(bytes.bytes());
            patch_line(alloc, rt, arcs, party, pool, device, *at, *from, &bytes, *t)
        }
        Op::Pin { t, at, .. } => pin_line(rt, arcs, party, pool, device, *at, *t),
        Op::Unpin { at, .. } => unpin_line(rt, arcs, party, *at),
        Op::Read { .. }
        | Op::Hold { .. }
        | Op::Drop { .. }
        | Op::Feed
        | Op::Txg { .. }
        | Op::Cap { .. } => { unreachable!() }
    }
}
