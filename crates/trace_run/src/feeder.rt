//! The lines `feed`: those of a group, which the feeder does while the callers do theirs, and one that it does while they have joined it.
ghost use Rattle.std.specs.Prelude.{◌≡◌, [], ◌∷◌, IfOk, filter};
ghost use Rattle.std.specs.List.{list_any};
ghost use Rattle.trace_text.specs.declared.op.Op.TheVariants as ops;
ghost use Rattle.trace_run.specs.FeedEvents.{FedJoined};
ghost use Rattle.trace_run.specs.Feeds.{DoesFeeds, IsIdleFeeder, IsSettledFeeder, MayBeFed, TriesFeeds, is_feed};
ghost use Rattle.trace_run.specs.Meeting.{MayGoOn};
ghost use Rattle.trace_run.specs.callers.Beside.{WasInUse};

use crate::device::Device;
use crate::ending::{join_all, numbers_of, part_all};
use arc_core::Keeps;
use arc_table::{Arcs, Party};
use blk_ptr::NoMemory;
use l2_feed::feed;
use std::alloc::Global;
use std::sync::Wait;
use trace_text::{Op, Reply};
use vdev_io::CacheDev;

/// Whether the line asks for a feed.
fn is_feed(op: &Op) -> bool
    ensures { result ≡ is_feed op.now }
{
    matches!(op, Op::Feed)
}

/// Whether one of the lines does.
pub(crate) fn has_feed(ops: &[Op]) -> bool
    ensures { result ≡ list_any is_feed ops.now }
{
    ops.iter().any(is_feed)
}

/// Does one line `feed`. Where no device was started there is nothing to feed.
pub(crate) fn feed_line<C: Keeps, D: CacheDev>(
    alloc: Global,
    rt: &impl Wait,
    arcs: &Arcs<C>,
    party: &mut Party<C>,
    device: &mut Device<D>,
) -> Reply
    requires feeder { IsSettledFeeder arcs.now party.old }
    requires device { MayBeFed D.CacheDev arcs.now.config device.old }
    ensures feeder { IsSettledFeeder arcs.now party.new }
    ensures joined { party.new.joined ≡ party.old.joined }
    ensures device { MayBeFed D.CacheDev arcs.now.config device.new }
    ensures fed { DoesFeeds C.Keeps D.CacheDev arcs.now (ops.Feed ∷ []) (result ∷ []) device.old device.new party.old party.new }
{
    match device {
        Device::Ready(l2) => Reply::Fed(feed(alloc, rt, arcs, party, l2)),
        Device::None | Device::Short(_) => Reply::FedNone,
    }
}

/// Does the lines `feed` among these, in their order. A feed that fails, or is short of memory, is told in its reply, and the next one is made all
/// the same.
pub(crate) fn feed_lines<C: Keeps, D: CacheDev>(
    alloc: Global,
    rt: &impl Wait,
    arcs: &Arcs<C>,
    party: &mut Party<C>,
    device: &mut Device<D>,
    ops: &[Op],
) -> Result<Vec<Reply>, NoMemory>
    requires feeder { IsIdleFeeder arcs.now party.old }
    requires device { MayBeFed D.CacheDev arcs.now.config device.old }
    ensures feeder { IsIdleFeeder arcs.now party.new }
    ensures device { MayBeFed D.CacheDev arcs.now.config device.new }
    ensures tried { TriesFeeds C.Keeps D.CacheDev arcs.now (filter is_feed ops.now) device.old device.new party.old party.new }
    ensures fed { IfOk result (λ replies. DoesFeeds C.Keeps D.CacheDev arcs.now (filter is_feed ops.now) replies.items device.old device.new party.old party.new) }
{
    let mut replies = Vec::new(alloc);
    for op in ops {
        if is_feed(op) {
            let reply = feed_line(alloc, rt, arcs, party, device);
            replies.push(reply)?;
        }
    }
    Ok(replies)
}

/// Does one line `feed`. The callers join the feeder before, so that it has seen all that they did and is met by nobody, and part from it behind.
pub(crate) fn feed_joined<C: Keeps, D: CacheDev>(
    alloc: Global,
    rt: &impl Wait,
    arcs: &Arcs<C>,
    mut feeder: Party<C>,
    callers: Vec<Party<C>>,
    device: &mut Device<D>,
) -> Result<(Party<C>, Vec<Party<C>>, Reply), NoMemory>
    requires may { MayGoOn arcs.now [] feeder callers.items }
    requires feeder { IsIdleFeeder arcs.now feeder }
    requires device { MayBeFed D.CacheDev arcs.now.config device.old }
    ensures fed { IfOk result (λ r. FedJoined C.Keeps D.CacheDev arcs.now r.2 device.old device.new feeder callers.items r.0 r.1.items) }
    ensures device { MayBeFed D.CacheDev arcs.now.config device.new }
    ensures used { WasInUse D.CacheDev (ops.Feed ∷ []) device.old device.new }
{
    let numbers = numbers_of(alloc, &callers)?;
    join_all(arcs, &mut feeder, callers);
    let reply = feed_line(alloc, rt, arcs, &mut feeder, device);
    let callers = part_all(alloc, arcs, &mut feeder, numbers)?;
    Ok((feeder, callers, reply))
}
