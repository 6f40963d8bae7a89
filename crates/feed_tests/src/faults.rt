//! Feeds in which one call of the device fails.
use arc_core::{Event, Origin, Shard, Why};
use arc_examples::Plain;
use arc_table::Closed;
use blk_ptr::{NoMemory, Ptr};
use feed_examples::{closed, config_of_one, fed, memory, opened, read, zeros_of};
use l2_dev::{FeedReport, FeedStop};
use std::alloc::Global;
use std::sync::Wait;
use std::test::Fail;

/// What the feeder did to a shard's block.
#[derive(Clone, Copy)]
enum Fed {
    /// Nothing.
    Not,
    /// It picked the block, and left it, since the device failed.
    Left,
    /// It picked the block, and gave it this place.
    At(u64),
}

/// The history of a shard whose block was read at this tick, and then fed so.
fn history(alloc: Global, ptr: &Ptr, t: u64, fed: Fed) -> Result<Vec<Event>, NoMemory> {
    let key = ptr.key;
    let mut events = vec![in alloc;
        Event::Miss { n: 0, key, t },
        Event::Arrive {
            n: 0,
            key,
            digest: ptr.digest,
            from: Origin::Pool
        },
        Event::Drop { n: 0, key },
    ]?;
    let settled = match fed {
        Fed::Not => return Ok(events),
        Fed::Left => Event::Leave {
            n: 1,
            key,
            why: Why::Device,
        },
        Fed::At(place) => Event::Set { n: 1, key, place },
    };
    events.extend_from_slice(&[Event::Pick { n: 1, key }, Event::FeedEnd { n: 1 }, settled])?;
    Ok(events)
}

/// Whether the shard has this history.
fn has_history(shard: &Shard, events: &[Event]) -> bool {
    shard.history().iter().eq(events.iter().copied())
}

/// Whether both shards have these histories.
fn are_of_both(closed: &Closed<Plain>, first: &[Event], second: &[Event]) -> bool {
    match closed.shards() {
        [one, two] => has_history(one, first) && has_history(two, second),
        _ => false,
    }
}

/// Feeds two shards, of which a block of each was read, over a device whose call of this number fails. Answers the report, and whether the histories
/// are of blocks that were fed so.
fn fed_with<R: Wait>(
    rt: &R,
    alloc: Global,
    fail: u64,
    blocks: [Fed; 2],
) -> Result<(FeedReport, bool), Fail> {
    let numbers = config_of_one(2, 4096, 131_072);
    let device = memory(alloc, 266_240, &[fail])?;
    let mut scene = opened(alloc, &numbers, 16_384, device)?;
    // one of each shard
    let first = zeros_of(alloc, 0, 512)?;
    let second = zeros_of(alloc, 3, 512)?;
    if !read(rt, &mut scene, &first, 1) || !read(rt, &mut scene, &second, 2) {
        return Err("read".into());
    }
    let report = fed(rt, alloc, &mut scene);
    let closed = closed(alloc, scene)?;
    let one = history(alloc, &first, 1, blocks[0])?;
    let two = history(alloc, &second, 2, blocks[1])?;
    Ok((report, are_of_both(&closed, &one, &two)))
}

/// What is reported where so many blocks were picked, and so many have a place.
fn report(picked: u32, written: u32, end: FeedStop) -> FeedReport {
    FeedReport {
        picked,
        bytes: u64::from(picked).wrapping_mul(512),
        written,
        cleared: 0,
        end,
    }
}

#[test]
fn each_call_of_a_feed_of_two_shards_fails(rt: HostRuntime) -> Result<(), Fail> {
    let alloc = rt.alloc();
    let whole = report(2, 2, FeedStop::Done);
    let both = [Fed::At(4096), Fed::At(70_144)];
    // the first and the last call that fails, what is reported, and what was done to the blocks
    let rows = [
        (0, 0, whole, both),
        (
            1,
            7,
            report(1, 0, FeedStop::DevFault),
            [Fed::Left, Fed::Not],
        ),
        (
            8,
            14,
            report(2, 1, FeedStop::DevFault),
            [Fed::At(4096), Fed::Left],
        ),
        (15, 15, whole, both),
    ];
    for (first, last, reported, blocks) in rows {
        for call in first..=last {
            assert!(rt; fed_with(&rt, alloc, call, blocks)? == (reported, true));
        }
    }
    Ok(())
}
