//! One read of a caller through the shared cache (arc_read of OpenZFS 2.1's arc.c).
ghost use Rattle.std.specs.Prelude.{◌≡◌, IfErr, IfOk, List};
ghost use Rattle.arc_table.specs.Reading.{KeepsDevice};
ghost use Rattle.arc_table.specs.Seen.{HasAll};
ghost use Rattle.blk_ptr.specs.Hash.{shard_of};
ghost use Rattle.blk_ptr.specs.Key.{IsValid};
ghost use Rattle.vdev_io.specs.Calls.{KeepsPool};
ghost use Rattle.trace_run.specs.DeviceReads.{GetAsks};
ghost use Rattle.trace_run.specs.KeptBlocks.{Stands};
ghost use Rattle.trace_run.specs.one_caller.Asking.{AsksGot};
ghost use Rattle.trace_run.specs.Reads.{CallsFor, DidRead, IsCauseOf, IsGot, kept_then, now_of};
ghost use Rattle.trace_run.specs.declared.kept_blocks.KeptBlock.{KeptBlock};

use crate::kept_blocks::KeptBlock;
use arc_core::{Keeps, ReadFault, Served};
use arc_table::{Arcs, Party, Read};
use blk_ptr::Ptr;
use dbuf_cells::Kept;
use std::sync::Wait;
use vdev_io::{CacheDev, Pool};

/// What an answered read gives.
#[derive(Debug, Drop)]
pub(crate) struct Got {
    /// Where its bytes came from.
    pub(crate) served: Served,
    /// The read, which holds its entry in the cache, if it is not past it.
    pub(crate) read: KeptBlock,
}

/// Reads a block through the cache for a caller that stands between its lines. The caller stands then with the read besides what it kept.
pub(crate) fn get<C: Keeps, P: Pool, D: CacheDev>(
    rt: &impl Wait,
    arcs: &Arcs<C>,
    party: &mut Party<C>,
    pool: &mut P,
    device: &mut D,
    ptr: &Ptr,
    block: u32,
    t: u64,
) -> Result<Got, ReadFault>
    requires { (kept : List KeptBlock) × Stands arcs.now party.old kept }
    ensures stands { (kept : List KeptBlock) → Stands arcs.now party.old kept → Stands arcs.now party.new (kept_then kept result) }
    ensures did { DidRead arcs.now.config t ptr.now party.old party.new result }
    ensures asks { HasAll party.old → AsksGot D.CacheDev (now_of arcs.now.config (shard_of arcs.now.config.shards ptr.now.key) party.old) ptr.now result device.old device.new }
    ensures keeps { KeepsDevice D.CacheDev device.old device.new }
    ensures got { IfOk result (IsGot (P.told pool.old) block ptr.now) }
    ensures valid { IfOk result (λ got. IsValid (P.size pool.old) ptr.now.key) }
    ensures cause { IfErr result (IsCauseOf (P.size pool.old) (P.told pool.old) ptr.now) }
    ensures calls { CallsFor P.Pool pool.old pool.new result }
    ensures pool { KeepsPool P.Pool pool.old pool.new }
    ensures device { D.size device.new ≡ D.size device.old }
    ensures asked { GetAsks D.CacheDev ptr.now.key.size result device.old device.new }
{
    match arcs.read(rt, party, ptr, t, pool, device) {
        Ok(Read::Held(hold, served)) => {
            let kept = Kept::Held(hold);
            Ok(Got {
                served,
                read: KeptBlock { block, kept },
            })
        }
        Ok(
            Read::Past {
                block: bytes,
                kept: _,
            },
        ) => {
            let key = ptr.key;
            let kept = Kept::Loose { key, block: bytes };
            Ok(Got {
                served: Served::Past,
                read: KeptBlock { block, kept },
            })
        }
        Err(fault) => Err(fault),
    }
}
