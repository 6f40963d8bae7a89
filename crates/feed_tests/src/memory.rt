//! A feed that memory may be refused to, wherever that comes: its report is of what stands in the histories. With ample memory it is done; by hand each
//! allocation is refused in turn.
use arc_core::{Event, Why};
use arc_examples::Plain;
use arc_table::Closed;
use feed_examples::{closed, config_of_one, fed, memory, opened, read, zeros_of};
use l2_dev::FeedStop;
use std::test::Fail;

/// Where an event is counted: a pick, a set, a leave for want of memory, or another.
fn place_of(event: &Event) -> usize {
    match event {
        Event::Pick { .. } => 0,
        Event::Set { .. } => 1,
        Event::Leave { why, .. } if *why == Why::Memory => 2,
        _ => 3,
    }
}

/// How many of each the shards have.
fn counts(closed: &Closed<Plain>) -> [u32; 4] {
    let mut counts = [0u32; 4];
    for shard in closed.shards() {
        for event in shard.history().iter() {
            if let Some(count) = counts.get_mut(place_of(&event)) {
                *count = count.saturating_add(1);
            }
        }
    }
    counts
}

#[test]
fn a_feed_tells_what_it_did(rt: HostRuntime) -> Result<(), Fail> {
    let alloc = rt.alloc();
    let numbers = config_of_one(2, 4096, 131_072);
    let device = memory(alloc, 266_240, &[])?;
    let mut scene = opened(alloc, &numbers, 16_384, device)?;
    // one of each shard
    if !read(&rt, &mut scene, &zeros_of(alloc, 0, 512)?, 1) {
        return Err("read".into());
    }
    if !read(&rt, &mut scene, &zeros_of(alloc, 3, 512)?, 2) {
        return Err("read".into());
    }
    let report = fed(&rt, alloc, &mut scene);
    let [picks, sets, leaves, _] = counts(&closed(alloc, scene)?);
    let left = report.picked.saturating_sub(report.written);
    assert!(rt; [picks, sets, leaves] == [report.picked, report.written, left]);
    assert!(rt; (report.end == FeedStop::Done) == (report.written == 2));
    Ok(())
}
