//! What a plan keeps of some entries, and what it drops.
ghost use Rattle.std.specs.Prelude.{◌≡◌, ◌+◌, ◌<◌, ◌≤◌, ◌++◌, [], ◌∷◌, drop, length, take, map, vec_len};
ghost use Rattle.std.specs.List.{filter};
ghost use Rattle.std.specs.Vec.{vec_capacity};
ghost use Rattle.l2_ring.specs.Queue.{fallen};
ghost use Rattle.l2_ring.specs.Stays.{stays, falls, live_of};

use crate::live::{Live, Written};
use crate::plan::Plan;

/// Whether the plan keeps the entry.
fn stays(plan: Plan, written: Written) -> bool
    ensures { result ≡ stays plan written }
{
    let Live { key, place, .. } = written.live;
    plan.keeps(written.lap, place, key.size)
}

/// Pushes one more entry, for which there is room.
fn push(dropped: &mut Vec<Live>, live: Live)
    requires { vec_len dropped.old < vec_capacity dropped.old }
    ensures items { dropped.new.items ≡ dropped.old.items ++ live ∷ [] }
    ensures len { vec_len dropped.new ≡ vec_len dropped.old + 1 }
    ensures capacity { vec_capacity dropped.old ≤ vec_capacity dropped.new }
{
    if dropped.push(live).is_err() {
        unreachable!();
    }
}

/// Moves the entries that the plan keeps to the front, in their order, and answers how many they are. The others go
/// to the end of `dropped`, in their order.
fn sift(live: &mut [Written], plan: Plan, dropped: &mut Vec<Live>) -> usize
    requires { vec_len dropped.old + length (filter (falls plan) live.old) ≤ vec_capacity dropped.old }
    ensures kept { take result live.new ≡ filter (stays plan) live.old }
    ensures dropped { dropped.new.items ≡ dropped.old.items ++ map live_of (filter (falls plan) live.old) }
{
    let mut kept = 0;
    for i in 0..live.len() {
        let written = live[i];
        if stays(plan, written) {
            live[kept] = written;
            kept += 1;
        } else {
            push(dropped, written.live);
        }
    }
    kept
}

/// Moves the entries that the plan drops to the end of `dropped`, and keeps the others, all in their order.
pub(crate) fn keep(live: &mut Vec<Written>, plan: Plan, dropped: &mut Vec<Live>)
    requires { vec_len dropped.old + length (filter (falls plan) live.old.items) ≤ vec_capacity dropped.old }
    ensures kept { live.new.items ≡ filter (stays plan) live.old.items }
    ensures len { length live.new.items ≤ length live.old.items }
    ensures capacity { vec_capacity live.new ≡ vec_capacity live.old }
    ensures dropped { dropped.new.items ≡ dropped.old.items ++ map live_of (filter (falls plan) live.old.items) }
{
    let kept = sift(live, plan, dropped);
    live.truncate(kept);
}

/// Pushes the entries, for which there is room.
pub(crate) fn push_all(dropped: &mut Vec<Live>, entries: &[Written])
    requires { vec_len dropped.old + length entries.now ≤ vec_capacity dropped.old }
    ensures { dropped.new.items ≡ dropped.old.items ++ map live_of entries.now }
{
    for written in entries {
        push(dropped, written.live);
    }
}

/// How many entries at the front the plan drops.
pub(crate) fn leading(live: &[Written], plan: Plan) -> usize
    ensures fallen { result ≡ fallen plan live.now }
    ensures bound { result ≤ length live.now }
{
    for i in 0..live.len() {
        if stays(plan, live[i]) {
            return i;
        }
    }
    live.len()
}

/// How many of the entries the plan drops.
pub(crate) fn count_fallen(live: &[Written], plan: Plan) -> usize
    ensures { result ≡ length (filter (falls plan) live.now) }
{
    let mut fallen = 0;
    for i in 0..live.len() {
        if !stays(plan, live[i]) {
            fallen += 1;
        }
    }
    fallen
}

/// Lets the entries before this one go.
pub(crate) fn let_go(entries: &mut Vec<Written>, first: usize)
    requires { first ≤ vec_len entries.old }
    ensures items { entries.new.items ≡ drop first entries.old.items }
    ensures capacity { vec_capacity entries.new ≡ vec_capacity entries.old }
{
    entries.drain(..first);
}
