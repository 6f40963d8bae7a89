//! The feed of all shards.
ghost use Rattle.std.specs.Prelude.{◌≡◌, ◌<◌, ◌≤◌};
ghost use Rattle.vdev_io.specs.Faults.{Rose};
ghost use Rattle.l2_dev.specs.declared.report.FeedStop.TheVariants as stop;
ghost use Rattle.l2_ring.specs.Ring.{last_lap};
ghost use Rattle.l2_feed.specs.Crashes.{FeedAsks, FeedKeeps};
ghost use Rattle.l2_feed.specs.Ready.{IsDeviceReady, IsFeederReady};
ghost use Rattle.l2_feed.specs.Fed.{HasFed};
ghost use Rattle.l2_feed.specs.Shape.{stop_of};

use crate::batch::feed_shard;
use arc_core::Keeps;
use arc_table::{Arcs, Party};
use l2_dev::{DevErr, FeedReport, FeedStop, L2Dev};
use std::alloc::Global;
use std::sync::Wait;
use vdev_io::CacheDev;

/// How a feed ends after this fault.
fn stop_of(fault: DevErr) -> FeedStop
    ensures { result ≡ stop_of fault }
{
    match fault {
        DevErr::DevFault => FeedStop::DevFault,
        DevErr::NoMemory => FeedStop::NoMemory,
    }
}

/// Feeds the cache device once: of each shard, by rising number, it picks blocks that have no place yet, makes room for them on the ring, takes the
/// places back that are written over, writes the blocks in runs of at most 681, each with its log block, and gives their keys their places. The first
/// fault of the device, or want of memory, ends it: what is picked then is left, and the other shards are not fed. The party is the feeder. It may
/// wait (`l2arc_feed_thread` of OpenZFS's `arc.c`).
pub fn feed<C: Keeps, D: CacheDev>(
    alloc: Global,
    rt: &impl Wait,
    arcs: &Arcs<C>,
    party: &mut Party<C>,
    l2: &mut L2Dev<D>,
) -> FeedReport
    requires feeder { IsFeederReady arcs.now party.old }
    requires device { IsDeviceReady arcs.now.config (D.size l2.old.dev) l2.old.cursor }
    ensures feeder { IsFeederReady arcs.now party.new }
    ensures device { IsDeviceReady arcs.now.config (D.size l2.new.dev) l2.new.cursor }
    ensures size { D.size l2.new.dev ≡ D.size l2.old.dev }
    ensures faults { D.faults l2.old.dev ≤ D.faults l2.new.dev }
    ensures cause { result.end ≡ stop.DevFault → Rose (D.faults l2.old.dev) (D.faults l2.new.dev) }
    ensures asks { FeedAsks D.CacheDev l2.old.dev l2.new.dev result.end }
    ensures crash { l2.new.cursor.ring.lap < last_lap → FeedKeeps D.told D.has_sectors D.may_leave l2.old.dev l2.new.dev l2.old.cursor l2.new.cursor result.end }
    ensures fed { HasFed C.Keeps arcs.now.config D.CacheDev l2.old.dev l2.new.dev l2.old.cursor l2.new.cursor party.old party.new result }
{
    let mut report = FeedReport {
        picked: 0,
        bytes: 0,
        written: 0,
        cleared: 0,
        end: FeedStop::Done,
    };
    let mut dropped = Vec::new(alloc);
    for shard in 0..arcs.config().shards {
        let fed = feed_shard(alloc, rt, arcs, party, l2, shard, &mut dropped, &mut report);
        if let Err(fault) = fed {
            report.end = stop_of(fault);
            return report;
        }
    }
    report
}
