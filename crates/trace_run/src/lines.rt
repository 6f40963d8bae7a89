//! One caller's lines over the shared cache.
ghost use Rattle.std.specs.Prelude.{◌≡◌, ◌≢◌, ◌<◌, ◌+◌, ◌^◌, [], IfOk, IfSome, List, None, OnErr, filter, length, map, true};
ghost use Rattle.arc_table.specs.Reading.{KeepsDevice, outside};
ghost use Rattle.arc_table.specs.Seen.{HasAll};
ghost use Rattle.blk_ptr.specs.Hash.{shard_of};
ghost use Rattle.vdev_io.specs.Calls.{KeepsPool, MakesCalls};
ghost use Rattle.dbuf_state.specs.Dbufs.{window_of};
ghost use Rattle.trace_run.specs.Acts.{acts_of_hold, acts_of_read};
ghost use Rattle.trace_run.specs.Answering.{KeepsImage, ReadsImage};
ghost use Rattle.trace_run.specs.Answers.{AnswersDrop, AnswersHold, AnswersRead, IsInside};
ghost use Rattle.trace_run.specs.callers.WorkLines.{DidOps, DidWith, at_work};
ghost use Rattle.trace_run.specs.DeviceReads.{AsksFor};
ghost use Rattle.trace_run.specs.dbufs.ObjectLines.{IsSized};
ghost use Rattle.trace_run.specs.Effects.{calls_of, effect_of};
ghost use Rattle.trace_run.specs.KeptBlocks.{Drops, Stands, read_of};
ghost use Rattle.trace_run.specs.Lines.{caller_of, is_of_caller};
ghost use Rattle.trace_run.specs.one_caller.Asking.{Asks};
ghost use Rattle.trace_run.specs.one_caller.OneCaller.{NamesSource, events_of_hold, events_of_read, kept_after_drop, kept_after_hold, oldest_key};
ghost use Rattle.trace_run.specs.one_caller.OverShards.{AreNamed};
ghost use Rattle.trace_run.specs.Reads.{CameFromPool, DidActs, IsRefused, access_now, now_of};
ghost use Rattle.trace_run.specs.Tally.{AreDeclared, kept_of_block};
ghost use Rattle.trace_text.specs.Grammar.{IsOnDeclared};
ghost use Rattle.trace_run.specs.declared.kept_blocks.KeptBlock.{KeptBlock};

use crate::get::{Got, get};
use crate::kept_blocks::{KeptBlocks, give_back, give_back_oldest};
use crate::objects::object_line;
use arc_core::{Keeps, ReadFault};
use arc_table::{Arcs, Party};
use blk_ptr::{Block, NoMemory, Ptr, Shows};
use dbuf_cells::{Cells, HeapCell};
use std::alloc::{AllocError, Global};
use std::sync::Wait;
use trace_text::{Op, Refusal, Reply, ShownBytes, Window};
use vdev_io::{CacheDev, Gate, Pool};

/// The bytes that a window shows.
fn window_of(alloc: Global, block: &Block, window: Window) -> Result<ShownBytes, AllocError>
    requires { IsInside window (length block.now) }
    ensures { IfOk result (λ shown. shown ≡ window_of window block.now) }
{
    let at = window.at as usize;
    ShownBytes::of(alloc, &block.bytes()[at..at + window.len as usize])
}

/// What a caller is told of a read that was refused. Want of memory ends the run.
pub(crate) fn refusal_of(fault: ReadFault) -> Result<Refusal, NoMemory>
    ensures ok { IfOk result (IsRefused fault) }
    ensures err { OnErr result (fault ≡ ReadFault.NoMemory) }
{
    match fault {
        ReadFault::PoolFault => Ok(Refusal::PoolFault),
        ReadFault::Mismatch { found } => Ok(Refusal::Mismatch { found }),
        ReadFault::Key(fault) => Ok(Refusal::Key(fault)),
        ReadFault::NoMemory => Err(NoMemory),
    }
}

/// Answers a read that is kept.
fn hold_line<C: Keeps, P: Pool, D: CacheDev>(
    rt: &impl Wait,
    arcs: &Arcs<C>,
    party: &mut Party<C>,
    kept: &mut KeptBlocks,
    pool: &mut P,
    device: &mut D,
    ptr: &Ptr,
    block: u32,
    t: u64,
) -> Result<Reply, NoMemory>
    requires { Stands arcs.now party.old kept.old }
    ensures answer { IfOk result (AnswersHold (P.size pool.old) (P.told pool.old) ptr.now) }
    ensures stands { IfOk result (λ reply. Stands arcs.now party.new kept.new) }
    ensures kept { IfOk result (λ reply. map read_of kept.new ≡ kept_after_hold block ptr.now (effect_of reply) (map read_of kept.old)) }
    ensures did { IfOk result (λ reply. DidActs arcs.now.config (shard_of arcs.now.config.shards ptr.now.key)
        (acts_of_hold party.old.number t ptr.now (effect_of reply))
        (events_of_hold party.old.number t (now_of arcs.now.config (shard_of arcs.now.config.shards ptr.now.key) party.old) ptr.now (effect_of reply))
        party.old party.new) }
    ensures asks { IfOk result (λ reply. HasAll party.old
        → Asks D.CacheDev (now_of arcs.now.config (shard_of arcs.now.config.shards ptr.now.key) party.old) ptr.now (effect_of reply) device.old device.new) }
    ensures keeps { KeepsDevice D.CacheDev device.old device.new }
    ensures found { IfOk result (λ reply. HasAll party.old → NamesSource (access_now arcs.now.config ptr.now party.old) (effect_of reply)) }
    ensures range { IfOk result (λ reply. CameFromPool (effect_of reply) → IfSome (P.told pool.old) (λ image. KeepsImage image ptr.now reply)) }
    ensures calls { IfOk result (λ reply. MakesCalls P.Pool (calls_of (effect_of reply)) pool.old pool.new) }
    ensures pool { KeepsPool P.Pool pool.old pool.new }
    ensures device { D.size device.new ≡ D.size device.old }
    ensures asked { IfOk result (λ reply. AsksFor D.CacheDev ptr.now.key.size (effect_of reply) device.old device.new) }
{
    match get(rt, arcs, party, pool, device, ptr, block, t) {
        Ok(Got { served, read }) => {
            kept.push(read)?;
            Ok(Reply::Kept { served })
        }
        Err(fault) => Ok(Reply::Refused(refusal_of(fault)?)),
    }
}

/// Answers a read that shows a window of its block.
fn read_line<C: Keeps, P: Pool, D: CacheDev>(
    alloc: Global,
    rt: &impl Wait,
    arcs: &Arcs<C>,
    party: &mut Party<C>,
    pool: &mut P,
    device: &mut D,
    ptr: &Ptr,
    block: u32,
    t: u64,
    window: Window,
) -> Result<Reply, NoMemory>
    requires { (kept : List KeptBlock) × Stands arcs.now party.old kept }
    ensures answer { IfOk result (AnswersRead (P.size pool.old) (P.told pool.old) ptr.now window) }
    ensures stands { (kept : List KeptBlock) → Stands arcs.now party.old kept → IfOk result (λ reply. Stands arcs.now party.new kept) }
    ensures did { IfOk result (λ reply. DidActs arcs.now.config (shard_of arcs.now.config.shards ptr.now.key)
        (acts_of_read party.old.number t ptr.now (effect_of reply))
        (events_of_read party.old.number t (now_of arcs.now.config (shard_of arcs.now.config.shards ptr.now.key) party.old) ptr.now (effect_of reply))
        party.old party.new) }
    ensures asks { IfOk result (λ reply. HasAll party.old
        → Asks D.CacheDev (now_of arcs.now.config (shard_of arcs.now.config.shards ptr.now.key) party.old) ptr.now (effect_of reply) device.old device.new) }
    ensures keeps { KeepsDevice D.CacheDev device.old device.new }
    ensures found { IfOk result (λ reply. HasAll party.old → NamesSource (access_now arcs.now.config ptr.now party.old) (effect_of reply)) }
    ensures range { IfOk result (λ reply. CameFromPool (effect_of reply) → IfSome (P.told pool.old) (λ image. ReadsImage image ptr.now window reply)) }
    ensures calls { IfOk result (λ reply. MakesCalls P.Pool (calls_of (effect_of reply)) pool.old pool.new) }
    ensures pool { KeepsPool P.Pool pool.old pool.new }
    ensures device { D.size device.new ≡ D.size device.old }
    ensures asked { IfOk result (λ reply. AsksFor D.CacheDev ptr.now.key.size (effect_of reply) device.old device.new) }
{
    let end = u64::from(window.at) + u64::from(window.len);
    let size = ptr.key.size;
    if end > size {
        return Ok(Reply::Refused(Refusal::Range { end, size }));
    }
    match get(rt, arcs, party, pool, device, ptr, block, t) {
        Ok(Got { served, read }) => {
            let shown = window_of(alloc, read.kept.block(), window);
            give_back(rt, arcs, party, read);
            let shown = shown?;
            let digest = ptr.digest;
            Ok(Reply::Read {
                served,
                digest,
                shown,
            })
        }
        Err(fault) => Ok(Reply::Refused(refusal_of(fault)?)),
    }
}

/// Answers a drop of the oldest kept read of a block.
fn drop_line<C: Keeps>(
    rt: &impl Wait,
    arcs: &Arcs<C>,
    party: &mut Party<C>,
    kept: &mut KeptBlocks,
    block: u32,
) -> Reply
    requires { Stands arcs.now party.old kept.old }
    ensures answer { AnswersDrop (kept_of_block block (map read_of kept.old)) 0 block result }
    ensures stands { Stands arcs.now party.new kept.new }
    ensures kept { map read_of kept.new ≡ kept_after_drop block (effect_of result) (map read_of kept.old) }
    ensures drops { Drops arcs.now.config (oldest_key block (map read_of kept.old)) party.old party.new }
    ensures none { result ≢ Reply.Dropped → oldest_key block (map read_of kept.old) ≡ None }
    ensures calls { calls_of (effect_of result) ≡ [] }
{
    if give_back_oldest(rt, arcs, party, kept, block) {
        Reply::Dropped
    } else {
        Reply::Refused(Refusal::NoHold { block })
    }
}

/// Answers one operation of a caller.
pub(crate) fn line<P: Pool, D: CacheDev>(
    alloc: Global,
    rt: &impl Wait,
    arcs: &Cells,
    party: &mut Party<HeapCell>,
    kept: &mut KeptBlocks,
    pool: &mut P,
    device: &mut D,
    blocks: &[Ptr],
    op: &Op,
) -> Result<Reply, NoMemory>
    requires stands { Stands arcs.now party.old kept.old }
    requires own { is_of_caller party.old.number op.now ≡ true }
    requires declared { IsOnDeclared (length blocks.now) op.now }
    requires named { AreNamed blocks.now (map read_of kept.old) }
    requires sized { IsSized op.now }
    ensures stands { IfOk result (λ reply. Stands arcs.now party.new kept.new) }
    ensures did { IfOk result (λ reply. DidWith P.Pool D.CacheDev arcs.now.config blocks.now op.now reply
        (at_work party.old (map read_of kept.old) (outside pool.old device.old)) (at_work party.new (map read_of kept.new) (outside pool.new device.new))) }
    ensures pool { KeepsPool P.Pool pool.old pool.new }
    ensures device { KeepsDevice D.CacheDev device.old device.new }
{
    match *op {
        Op::Read { t, x, w, .. } => {
            read_line(
                alloc,
                rt,
                arcs,
                party,
                pool,
                device,
                &blocks[x as usize],
                x,
                t,
                w,
            )
        }
        Op::Hold { t, x, .. } => {
            hold_line(
                rt,
                arcs,
                party,
                kept,
                pool,
                device,
                &blocks[x as usize],
                x,
                t,
            )
        }
        Op::Drop { x, .. } => Ok(drop_line(rt, arcs, party, kept, x)),
        Op::Get { .. } | Op::Put { .. } | Op::Patch { .. } | Op::Pin { .. } | Op::Unpin { .. } => {
            object_line(alloc, rt, arcs, party, pool, device, op)
        }
        Op::Feed | Op::Txg { .. } | Op::Cap { .. } => unreachable!(),
    }
}

/// The caller of an operation, where it is a caller's.
pub(crate) fn caller_of(op: &Op) -> Option<u32>
    ensures { result ≡ caller_of op.now }
{
    match *op {
        Op::Read { n, .. } | Op::Hold { n, .. } | Op::Drop { n, .. } => Some(n),
        Op::Get { n, .. }
        | Op::Put { n, .. }
        | Op::Patch { n, .. }
        | Op::Pin { n, .. }
        | Op::Unpin { n, .. } => Some(n),
        Op::Feed | Op::Txg { .. } | Op::Cap { .. } => None,
    }
}

/// Whether an operation is this caller's.
pub(crate) fn is_of_caller(op: &Op, caller: u32) -> bool
    ensures { result ≡ is_of_caller caller op.now }
{
    match *op {
        Op::Read { n, .. } | Op::Hold { n, .. } | Op::Drop { n, .. } => n == caller,
        Op::Get { n, .. }
        | Op::Put { n, .. }
        | Op::Patch { n, .. }
        | Op::Pin { n, .. }
        | Op::Unpin { n, .. } => n == caller,
        Op::Feed | Op::Txg { .. } | Op::Cap { .. } => false,
    }
}

/// Answers those of these operations that are this caller's, in their order, each between the gate's calls with its number in the trace, where
/// the first of them has this one.
pub(crate) fn all_lines<P: Pool, D: CacheDev, G: Gate>(
    alloc: Global,
    rt: &impl Wait,
    arcs: &Cells,
    party: &mut Party<HeapCell>,
    kept: &mut KeptBlocks,
    pool: &mut P,
    device: &mut D,
    blocks: &[Ptr],
    ops: &[Op],
    first: u32,
    gate: &G,
) -> Result<Vec<Reply>, NoMemory>
    requires stands { Stands arcs.now party.old kept.old }
    requires declared { AreDeclared (length blocks.now) ops.now }
    requires named { AreNamed blocks.now (map read_of kept.old) }
    requires few { first + length ops.now < 2 ^ 32 }
    ensures stands { IfOk result (λ replies. Stands arcs.now party.new kept.new) }
    ensures did { IfOk result (λ replies. DidOps P.Pool D.CacheDev arcs.now.config blocks.now (filter (is_of_caller party.old.number) ops.now) replies.items
        (at_work party.old (map read_of kept.old) (outside pool.old device.old)) (at_work party.new (map read_of kept.new) (outside pool.new device.new))) }
    ensures pool { KeepsPool P.Pool pool.old pool.new }
    ensures device { KeepsDevice D.CacheDev device.old device.new }
{
    let caller = party.number();
    let mut replies = Vec::new(alloc);
    for (number, op) in ops.iter().enumerate() {
        if !is_of_caller(op, caller) {
            continue;
        }
        let number = first + number as u32;
        gate.before(caller, number);
        let reply = line(alloc, rt, arcs, party, kept, pool, device, blocks, op)?;
        gate.after(caller, number);
        replies.push(reply)?;
    }
    Ok(replies)
}
