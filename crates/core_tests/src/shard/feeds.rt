//! Which blocks a feed picks.
use super::{BOUNDS, block, fetch_quarters, make};
use arc_core::{Event, Shard};
use blk_ptr::Key;

/// Whether this event comes, and the candidate behind it is this key.
fn is_next(shard: &mut Shard, event: Event, next: Option<Key>) -> bool {
    make(shard, event) && shard.candidate() == next
}

/// A feed's walk goes past a passed key, and past a picked one.
fn passes_and_picks(shard: &mut Shard) -> bool {
    let (a, b, c) = (block(1024, 0), block(1024, 1), block(1024, 2));
    let (n, key, owner) = (1, a, 0);
    fetch_quarters(shard, 3)
        && is_next(shard, Event::Pass { n, key, owner }, Some(b))
        && is_next(shard, Event::Pick { n, key: b }, Some(c))
        && is_next(shard, Event::Pick { n, key: c }, None)
}

#[test]
fn a_feed_passes_and_picks(rt: HostRuntime) {
    let mut shard = Shard::new(rt.alloc(), 4096, 0, BOUNDS);
    assert!(rt; passes_and_picks(&mut shard));
}
