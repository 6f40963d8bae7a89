//! How the places of what a plan drops are taken back, and how the picks of a shard are settled.
ghost use Rattle.std.specs.Prelude.{◌≡◌, ◌+◌, ◌^◌, ◌<◌, ◌≤◌, ◌++◌, ℕ, List, [], OnOk, count_by, length};
ghost use Rattle.arc_table.specs.declared.picks.Picked.{Picked as Block};
ghost use Rattle.l2_feed.specs.Acts.{Act, DoesActs};
ghost use Rattle.l2_feed.specs.Ready.{IsFeederOn, IsFeeding};
ghost use Rattle.l2_feed.specs.Runs.{AreCleared, AreLeft, AreSet, bytes_of, most};
ghost use Rattle.l2_feed.specs.Shape.{NoneRefused, stop_of, why_of};
ghost use Rattle.l2_feed.specs.Sums.{is_cleared, is_placed};

use arc_core::{Keeps, Why};
use arc_table::{Arcs, Cleared, Party, Picked};
use blk_ptr::NoMemory;
use l2_dev::DevErr;
use l2_ring::Live;
use std::sync::Wait;

/// For which reason a picked key is left after this fault.
fn why_of(fault: DevErr) -> Why
    ensures { result ≡ why_of (stop_of fault) }
{
    match fault {
        DevErr::DevFault => Why::Device,
        DevErr::NoMemory => Why::Memory,
    }
}

/// Leaves the keys of these blocks, in their order.
pub(crate) fn leave_all<C: Keeps>(
    rt: &impl Wait,
    arcs: &Arcs<C>,
    party: &mut Party<C>,
    blocks: &[Picked],
    fault: DevErr,
)
    requires { (turn : ℕ) × IsFeeding arcs.now turn blocks.now party.old }
    ensures feeding { (turn : ℕ) → IsFeeding arcs.now turn blocks.now party.old → IsFeeding arcs.now turn [] party.new }
    ensures acts { (acts : List Act) × DoesActs C.Keeps arcs.now.config acts party.old party.new × AreLeft (why_of (stop_of fault)) blocks.now acts }
{
    let why = why_of(fault);
    for picked in blocks {
        arcs.leave(rt, party, picked.key, why);
    }
}

/// Gives the keys of a run their places, from this one on. Answers how many have one now.
pub(crate) fn set_run<C: Keeps>(
    rt: &impl Wait,
    arcs: &Arcs<C>,
    party: &mut Party<C>,
    run: &[Picked],
    place: u64,
) -> u32
    requires feeding { (turn : ℕ) × (rest : List Block) × IsFeeding arcs.now turn (run.now ++ rest) party.old }
    requires room { place + bytes_of run.now < 2 ^ 64 }
    requires few { length run.now ≤ most }
    ensures feeding { (turn : ℕ) (rest : List Block) → IsFeeding arcs.now turn (run.now ++ rest) party.old → IsFeeding arcs.now turn rest party.new }
    ensures acts { (acts : List Act) × DoesActs C.Keeps arcs.now.config acts party.old party.new × AreSet place run.now acts × (result ≡ count_by is_placed acts) }
    ensures few { result ≤ length run.now }
{
    let mut written = 0;
    let mut place = place;
    for picked in run {
        if arcs.set(rt, party, picked.key, place) {
            written += 1;
        }
        place += picked.key.size;
    }
    written
}

/// Takes the places of what a plan has dropped back, and counts those that were there still. After want of memory it goes on.
pub(crate) fn clear_all<C: Keeps>(
    rt: &impl Wait,
    arcs: &Arcs<C>,
    party: &mut Party<C>,
    dropped: &[Live],
    cleared: &mut u64,
) -> Result<(), NoMemory>
    requires on { IsFeederOn arcs.now party.old }
    requires room { cleared.old + length dropped.now < 2 ^ 64 }
    ensures feeding { (turn : ℕ) (blocks : List Block) → IsFeeding arcs.now turn blocks party.old → IsFeeding arcs.now turn blocks party.new }
    ensures acts { (acts : List Act) × DoesActs C.Keeps arcs.now.config acts party.old party.new × AreCleared dropped.now acts × (cleared.new ≡ cleared.old + count_by is_cleared acts) × OnOk result (NoneRefused acts) }
    ensures few { cleared.new ≤ cleared.old + length dropped.now }
{
    let mut result = Ok(());
    for live in dropped {
        match arcs.clear(rt, party, live.key, live.place) {
            Ok(Cleared::Done) => *cleared += 1,
            Ok(Cleared::Not(_)) => {}
            Err(NoMemory) => result = Err(NoMemory),
        }
    }
    result
}
