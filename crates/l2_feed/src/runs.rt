//! How a run of picked blocks is written to the ring.
ghost use Rattle.std.specs.Prelude.{◌≡◌, ◌+◌, ◌<◌, ◌≤◌, ◌^◌, [], List, OnErr, OnOk, MatchResult, length, true};
ghost use Rattle.vdev_io.specs.Calls.{DeviceCall, MakesDeviceCalls};
ghost use Rattle.l2_log.specs.Rules.{log_len};
ghost use Rattle.l2_dev.specs.Calls.{HasDevCause};
ghost use Rattle.l2_dev.specs.Planned.{IsForgotten};
ghost use Rattle.l2_feed.specs.Asking.{PutsCalls, RunCalls};
ghost use Rattle.l2_feed.specs.Crashes.{KeepsSo};
ghost use Rattle.l2_feed.specs.Runs.{AreWhole, HasPut, HasWritten, bytes_of, most};

use arc_table::Picked;
use l2_dev::{DevErr, L2Dev};
use vdev_io::CacheDev;

/// Puts the blocks of a run side by side at the hand.
fn put_all<D: CacheDev>(l2: &mut L2Dev<D>, run: &[Picked]) -> Result<(), DevErr>
    requires whole { l2.old.cursor.ring.end ≤ D.size l2.old.dev }
    requires ready { l2.old.cursor.ready ≡ true }
    requires none { l2.old.cursor.pending ≡ [] }
    requires few { length run.now ≤ most }
    requires formed { AreWhole run.now }
    requires room { l2.old.cursor.ring.hand + (bytes_of run.now + log_len) ≤ l2.old.cursor.ring.evict }
    ensures size { D.size l2.new.dev ≡ D.size l2.old.dev }
    ensures cause { HasDevCause (D.faults l2.old.dev) (D.faults l2.new.dev) result }
    ensures asks { (calls : List DeviceCall) × MakesDeviceCalls D.CacheDev calls l2.old.dev l2.new.dev × PutsCalls result l2.old.cursor run.now calls }
    ensures crash { KeepsSo D.told D.has_sectors D.may_leave l2.old.dev l2.new.dev l2.old.cursor l2.new.cursor result }
    ensures put { MatchResult result (λ _. HasPut run.now l2.old.cursor l2.new.cursor) (λ _. IsForgotten l2.old.cursor l2.new.cursor) }
{
    for picked in run {
        l2.put(picked.key, &picked.block)?;
    }
    Ok(())
}

/// Puts the blocks of a run at the hand, and commits them. Answers the place of the first.
pub(crate) fn write_run<D: CacheDev>(l2: &mut L2Dev<D>, run: &[Picked]) -> Result<u64, DevErr>
    requires whole { l2.old.cursor.ring.end ≤ D.size l2.old.dev }
    requires ready { l2.old.cursor.ready ≡ true }
    requires none { l2.old.cursor.pending ≡ [] }
    requires some { 0 < length run.now }
    requires few { length run.now ≤ most }
    requires formed { AreWhole run.now }
    requires room { l2.old.cursor.ring.hand + (bytes_of run.now + log_len) ≤ l2.old.cursor.ring.evict }
    ensures size { D.size l2.new.dev ≡ D.size l2.old.dev }
    ensures cause { HasDevCause (D.faults l2.old.dev) (D.faults l2.new.dev) result }
    ensures asks { (calls : List DeviceCall) × MakesDeviceCalls D.CacheDev calls l2.old.dev l2.new.dev × RunCalls result l2.old.cursor run.now calls }
    ensures crash { KeepsSo D.told D.has_sectors D.may_leave l2.old.dev l2.new.dev l2.old.cursor l2.new.cursor result }
    ensures written { MatchResult result (λ place. (place ≡ l2.old.cursor.ring.hand) × HasWritten run.now l2.old.cursor l2.new.cursor) (λ _. IsForgotten l2.old.cursor l2.new.cursor) }
    ensures fits { l2.old.cursor.ring.hand + bytes_of run.now < 2 ^ 64 }
{
    let place = l2.ring().hand();
    // the run ends before what it may not write over, which is a number of 64 bits
    let _evict = l2.ring().evict();
    put_all(l2, run)?;
    l2.commit()?;
    Ok(place)
}
