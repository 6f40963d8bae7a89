//! Counts the events of all shards.
ghost use Rattle.std.specs.Prelude.{◌≡◌, ◌<◌, ◌^◌, length};
ghost use Rattle.trace_text.specs.Counting.{AreAtMost, AreFew, counts_in, counts_of_shard, with_counts, with_event};

use crate::counts::Counts;
use crate::items::History;
use arc_core::{Event, Events, FailedAt, Origin};

/// What no events are counted as.
const NONE: Counts = Counts {
    hit: 0,
    miss: 0,
    past: 0,
    pool: 0,
    l2: 0,
    pass: 0,
    set: 0,
};

/// Counts the events of all shards. A history is long, so it is gone over once for all counts.
pub fn counts_of(histories: &[History]) -> Counts
    ensures { result ≡ counts_in histories.now }
{
    let mut counts = NONE;
    for history in histories {
        let counted = events_counted(history.iter());
        counts = sum_of(counts, counted);
    }
    counts
}

/// The counts of two lists of events together.
fn sum_of(some: Counts, others: Counts) -> Counts
    requires { AreFew (with_counts some others) }
    ensures { result ≡ with_counts some others }
{
    Counts {
        hit: some.hit + others.hit,
        miss: some.miss + others.miss,
        past: some.past + others.past,
        pool: some.pool + others.pool,
        l2: some.l2 + others.l2,
        pass: some.pass + others.pass,
        set: some.set + others.set,
    }
}

/// Counts the events of one shard.
fn events_counted(events: Events<'_>) -> Counts
    requires { length events < 2 ^ 64 }
    ensures counts { result ≡ counts_of_shard events.entry }
    ensures bound { AreAtMost (length events.entry) result }
{
    let mut counts = NONE;
    for event in events {
        count(&mut counts, &event);
    }
    counts
}

/// Counts one event more.
fn count(counts: &mut Counts, event: &Event)
    requires { AreFew (with_event counts.old event.now) }
    ensures { counts.new ≡ with_event counts.old event.now }
{
    match event {
        Event::Hit { .. } => counts.hit += 1,
        Event::Miss { .. } => counts.miss += 1,
        // A read past the cache is one of the pool too.
        Event::Past { .. } => {
            counts.past += 1;
            counts.pool += 1;
        }
        Event::Arrive { from, .. } => match from {
            Origin::Pool => counts.pool += 1,
            Origin::L2 => counts.l2 += 1,
        },
        Event::Fail { at, .. } => match at {
            FailedAt::Pool => counts.pool += 1,
            FailedAt::Unread => {}
        },
        Event::Pass { .. } => counts.pass += 1,
        Event::Set { .. } => counts.set += 1,
        Event::Drop { .. } | Event::Hand { .. } | Event::Insert { .. } => {}
        Event::Release { .. } | Event::Pick { .. } | Event::FeedEnd { .. } => {}
        Event::Leave { .. } | Event::Clear { .. } => {}
        Event::Restore { .. } | Event::Resize { .. } => {}
    }
}
