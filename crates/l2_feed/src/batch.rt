//! The batch of one shard: what is picked there, the plan for it, and its runs.
ghost use Rattle.std.specs.Prelude.{◌≡◌, ◌⊎◌, ◌+◌, ◌*◌, ◌^◌, ◌<◌, ◌≤◌, ◌++◌, ℕ, List, [], OnOk, IsErrOf, MatchResult, count_by, drop, length, take, true, vec_len};
ghost use Rattle.arc_table.specs.declared.picks.Picked.{Picked as Block};
ghost use Rattle.l2_dev.specs.Calls.{HasDevCause};
ghost use Rattle.l2_dev.specs.declared.fault.DevErr.TheVariants as err;
ghost use Rattle.l2_feed.specs.Acts.{Act, DoesActs};
ghost use Rattle.vdev_io.specs.Calls.{DeviceCall, MakesDeviceCalls};
ghost use Rattle.l2_feed.specs.Asking.{RunsCalls};
ghost use Rattle.l2_feed.specs.Crashes.{KeepsSo};
ghost use Rattle.l2_ring.specs.Ring.{last_lap};
ghost use Rattle.l2_feed.specs.Ready.{IsDeviceReady, IsFeederReady, IsFeeding};
ghost use Rattle.l2_feed.specs.Runs.{AreWhole, batch_len, bytes_of, most, runs_of};
ghost use Rattle.l2_feed.specs.Shape.{FedShard, HasBegun, HaveRun, IsUnwritten, IsWritten, WrittenCalls, end_of, first_fault};
ghost use Rattle.l2_feed.specs.Sums.{CountsMore, HasRoom, is_cleared, is_placed};

use crate::runs::write_run;
use crate::settle::{clear_all, leave_all, set_run};
use arc_core::Keeps;
use arc_table::{Arcs, Party, Picked};
use blk_ptr::NoMemory;
use l2_dev::{DevErr, FeedReport, L2Dev};
use l2_log::{LOG_LEN, MOST_ENTRIES};
use l2_ring::Live;
use std::alloc::Global;
use std::sync::Wait;
use vdev_io::CacheDev;

/// The sum of the blocks' sizes.
fn bytes_of(blocks: &[Picked]) -> u64
    requires { bytes_of blocks.now < 2 ^ 64 }
    ensures { result ≡ bytes_of blocks.now }
{
    let mut bytes = 0;
    for picked in blocks {
        bytes += picked.key.size;
    }
    bytes
}

/// How many runs so many blocks are written in.
fn runs_of(blocks: usize) -> usize
    requires { blocks < 2 ^ 32 }
    ensures { result ≡ runs_of blocks }
{
    (blocks + (MOST_ENTRIES - 1)) / MOST_ENTRIES
}

/// The blocks behind so many full runs.
fn left_after(blocks: &[Picked], runs: usize) -> &[Picked]
    requires { runs * most ≤ length blocks.now }
    ensures { result.now ≡ drop (runs * most) blocks.now }
{
    &blocks[runs * MOST_ENTRIES..]
}

/// The next run of these blocks.
fn run_of(left: &[Picked]) -> &[Picked]
    ensures { result.now ≡ take most left.now }
{
    &left[..left.len().min(MOST_ENTRIES)]
}

/// What was dropped behind the first so many.
fn since(dropped: &[Live], had: usize) -> &[Live]
    requires { had ≤ length dropped.now }
    ensures { result.now ≡ drop had dropped.now }
{
    &dropped[had..]
}

/// The first fault of a begin and of the clears behind it.
fn first_of(begun: Result<(), DevErr>, taken: Result<(), NoMemory>) -> Result<(), DevErr>
    ensures { result ≡ first_fault begun taken }
{
    match begun {
        Err(fault) => Err(fault),
        Ok(()) => match taken {
            Err(NoMemory) => Err(DevErr::NoMemory),
            Ok(()) => Ok(()),
        },
    }
}

/// Takes the plan for these blocks and their log blocks, and then the places of what it drops, also where the device failed. The first fault is
/// told.
fn begin_batch<C: Keeps, D: CacheDev>(
    rt: &impl Wait,
    arcs: &Arcs<C>,
    party: &mut Party<C>,
    l2: &mut L2Dev<D>,
    blocks: &[Picked],
    bytes: u64,
    dropped: &mut Vec<Live>,
    cleared: &mut u64,
) -> Result<(), DevErr>
    requires feeding { (turn : ℕ) × IsFeeding arcs.now turn blocks.now party.old }
    requires device { IsDeviceReady arcs.now.config (D.size l2.old.dev) l2.old.cursor }
    requires formed { AreWhole blocks.now }
    requires some { 0 < length blocks.now }
    requires sum { bytes ≡ bytes_of blocks.now }
    requires few { bytes ≤ arcs.now.config.bounds.write_max }
    requires counted { cleared.old ≤ vec_len dropped.old }
    ensures feeding { (turn : ℕ) → IsFeeding arcs.now turn blocks.now party.old → IsFeeding arcs.now turn blocks.now party.new }
    ensures size { D.size l2.new.dev ≡ D.size l2.old.dev }
    ensures cause { HasDevCause (D.faults l2.old.dev) (D.faults l2.new.dev) result }
    ensures crash { l2.new.cursor.ring.lap < last_lap → KeepsSo D.told D.has_sectors D.may_leave l2.old.dev l2.new.dev l2.old.cursor l2.new.cursor result }
    ensures counted { cleared.new ≤ vec_len dropped.new }
    ensures acts { (acts : List Act) × (calls : List DeviceCall) × DoesActs C.Keeps arcs.now.config acts party.old party.new × (cleared.new ≡ cleared.old + count_by is_cleared acts)
        × MakesDeviceCalls D.CacheDev calls l2.old.dev l2.new.dev × HasBegun l2.old.cursor l2.new.cursor (batch_len blocks.now) acts calls result }
{
    // that the ring is sound
    let _ring = l2.ring();
    let had = dropped.as_slice().len();
    let runs = runs_of(blocks.len());
    let begun = l2.begin(bytes + LOG_LEN as u64 * runs as u64, dropped);
    let taken = clear_all(rt, arcs, party, since(dropped.as_slice(), had), cleared);
    first_of(begun, taken)
}

/// Writes the blocks in runs, and sets the keys of each run once it is committed. After a fault the blocks of its run and all behind it are left.
fn write_runs<C: Keeps, D: CacheDev>(
    rt: &impl Wait,
    arcs: &Arcs<C>,
    party: &mut Party<C>,
    l2: &mut L2Dev<D>,
    blocks: &[Picked],
    written: &mut u32,
) -> Result<(), DevErr>
    requires feeding { (turn : ℕ) × IsFeeding arcs.now turn blocks.now party.old }
    requires whole { l2.old.cursor.ring.end ≤ D.size l2.old.dev }
    requires ready { l2.old.cursor.ready ≡ true }
    requires none { l2.old.cursor.pending ≡ [] }
    requires based { l2.old.cursor.base ≡ l2.old.cursor.ring.hand }
    requires formed { AreWhole blocks.now }
    requires few { length blocks.now < 2 ^ 32 }
    requires room { l2.old.cursor.ring.hand + batch_len blocks.now ≤ l2.old.cursor.ring.evict }
    requires counted { written.old + length blocks.now < 2 ^ 32 }
    ensures feeding { (turn : ℕ) → IsFeeding arcs.now turn blocks.now party.old → IsFeeding arcs.now turn [] party.new }
    ensures size { D.size l2.new.dev ≡ D.size l2.old.dev }
    ensures cause { HasDevCause (D.faults l2.old.dev) (D.faults l2.new.dev) result }
    ensures crash { KeepsSo D.told D.has_sectors D.may_leave l2.old.dev l2.new.dev l2.old.cursor l2.new.cursor result }
    ensures ends { (l2.new.cursor.ring.end ≡ l2.old.cursor.ring.end) × (l2.new.cursor.pending ≡ []) }
    ensures counted { written.new ≤ written.old + length blocks.now }
    ensures acts { (acts : List Act) × DoesActs C.Keeps arcs.now.config acts party.old party.new × (written.new ≡ written.old + count_by is_placed acts)
        × (ran : HaveRun l2.old.cursor l2.new.cursor blocks.now acts (end_of result)) × (calls : List DeviceCall) × MakesDeviceCalls D.CacheDev calls l2.old.dev l2.new.dev × RunsCalls l2.old.cursor blocks.now ran.count (end_of result) calls }
{
    for number in 0..runs_of(blocks.len()) {
        let left = left_after(blocks, number);
        let run = run_of(left);
        match write_run(l2, run) {
            Ok(place) => *written += set_run(rt, arcs, party, run, place),
            Err(fault) => {
                leave_all(rt, arcs, party, left, fault);
                return Err(fault);
            }
        }
    }
    Ok(())
}

/// Writes a batch, and settles it.
fn feed_batch<C: Keeps, D: CacheDev>(
    rt: &impl Wait,
    arcs: &Arcs<C>,
    party: &mut Party<C>,
    l2: &mut L2Dev<D>,
    blocks: &[Picked],
    bytes: u64,
    dropped: &mut Vec<Live>,
    report: &mut FeedReport,
) -> Result<(), DevErr>
    requires feeding { (turn : ℕ) × IsFeeding arcs.now turn blocks.now party.old }
    requires device { IsDeviceReady arcs.now.config (D.size l2.old.dev) l2.old.cursor }
    requires formed { AreWhole blocks.now }
    requires some { 0 < length blocks.now }
    requires sum { bytes ≡ bytes_of blocks.now }
    requires few { bytes ≤ arcs.now.config.bounds.write_max }
    requires cleared { report.old.cleared ≤ vec_len dropped.old }
    requires written { report.old.written + length blocks.now < 2 ^ 32 }
    ensures feeding { (turn : ℕ) → IsFeeding arcs.now turn blocks.now party.old → IsFeeding arcs.now turn [] party.new }
    ensures size { D.size l2.new.dev ≡ D.size l2.old.dev }
    ensures cause { HasDevCause (D.faults l2.old.dev) (D.faults l2.new.dev) result }
    ensures crash { l2.new.cursor.ring.lap < last_lap → KeepsSo D.told D.has_sectors D.may_leave l2.old.dev l2.new.dev l2.old.cursor l2.new.cursor result }
    ensures ends { (l2.new.cursor.ring.end ≡ l2.old.cursor.ring.end) × (l2.new.cursor.pending ≡ []) }
    ensures cleared { report.new.cleared ≤ vec_len dropped.new }
    ensures written { report.new.written ≤ report.old.written + length blocks.now }
    ensures same { (report.new.picked ≡ report.old.picked) × (report.new.bytes ≡ report.old.bytes) }
    ensures end { report.new.end ≡ report.old.end }
    ensures acts { (clears : List Act) × (settles : List Act) × DoesActs C.Keeps arcs.now.config (clears ++ settles) party.old party.new × CountsMore (clears ++ settles) report.old report.new
        × (written : IsWritten l2.old.cursor l2.new.cursor blocks.now clears settles (end_of result) ⊎ IsUnwritten l2.old.cursor l2.new.cursor blocks.now clears settles (end_of result))
        × (calls : List DeviceCall) × MakesDeviceCalls D.CacheDev calls l2.old.dev l2.new.dev × WrittenCalls written calls }
{
    let begun = begin_batch(
        rt,
        arcs,
        party,
        l2,
        blocks,
        bytes,
        dropped,
        &mut report.cleared,
    );
    if let Err(fault) = begun {
        leave_all(rt, arcs, party, blocks, fault);
        return Err(fault);
    }
    write_runs(rt, arcs, party, l2, blocks, &mut report.written)
}

/// Feeds one shard: picks, and writes what was picked.
pub(crate) fn feed_shard<C: Keeps, D: CacheDev>(
    alloc: Global,
    rt: &impl Wait,
    arcs: &Arcs<C>,
    party: &mut Party<C>,
    l2: &mut L2Dev<D>,
    shard: u32,
    dropped: &mut Vec<Live>,
    report: &mut FeedReport,
) -> Result<(), DevErr>
    requires feeder { IsFeederReady arcs.now party.old }
    requires device { IsDeviceReady arcs.now.config (D.size l2.old.dev) l2.old.cursor }
    requires shard { shard < arcs.now.config.shards }
    requires room { HasRoom shard (vec_len dropped.old) report.old }
    ensures feeder { IsFeederReady arcs.now party.new }
    ensures device { IsDeviceReady arcs.now.config (D.size l2.new.dev) l2.new.cursor }
    ensures size { D.size l2.new.dev ≡ D.size l2.old.dev }
    ensures cause { HasDevCause (D.faults l2.old.dev) (D.faults l2.new.dev) result }
    ensures crash { l2.new.cursor.ring.lap < last_lap → KeepsSo D.told D.has_sectors D.may_leave l2.old.dev l2.new.dev l2.old.cursor l2.new.cursor result }
    ensures room { HasRoom (shard + 1) (vec_len dropped.new) report.new }
    ensures end { report.new.end ≡ report.old.end }
    ensures fed { (acts : List Act) × (calls : List DeviceCall) × DoesActs C.Keeps arcs.now.config acts party.old party.new × CountsMore acts report.old report.new
        × MakesDeviceCalls D.CacheDev calls l2.old.dev l2.new.dev × FedShard shard l2.old.cursor l2.new.cursor acts calls (end_of result) }
{
    let mut blocks = Vec::new(alloc);
    let Ok(()) = arcs.pick(rt, party, shard, &mut blocks) else {
        return Err(DevErr::NoMemory);
    };
    let picked = blocks.as_slice();
    if picked.is_empty() {
        return Ok(());
    }
    let bytes = bytes_of(picked);
    report.picked += picked.len() as u32;
    report.bytes += bytes;
    feed_batch(rt, arcs, party, l2, picked, bytes, dropped, report)
}
