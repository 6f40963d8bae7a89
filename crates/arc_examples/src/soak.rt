//! A soak: four callers do drawn calls at the same time on few keys and little room, and then the histories are replayed.
ghost use Rattle.std.specs.Prelude.{◌≡◌, ◌<◌, ◌≤◌, ◌^◌, count_by, length};
ghost use Rattle.std.specs.Thread.{IsSync};
ghost use Rattle.arc_core.specs.Config.{IsConfig};
ghost use Rattle.arc_core.specs.Operations.{is_pass};
ghost use Rattle.arc_examples.specs.Ready.{IsAsBefore, IsReady};
ghost use Rattle.arc_examples.specs.Soaking.{events_of, passes_of};

use crate::calls::{look_at, read_and_try, read_one, try_one};
use crate::plain::{Caller, Plain, config_of, draw, ptr_of};
use crate::scene::{Scene, close_all, opened};
use arc_core::{Config, Event, Events, Shard};
use arc_table::{Arcs, Party};
use blk_ptr::{NoMemory, State};
use std::alloc::Global;
use std::sync::Wait;
use std::thread;
use std::thread::Threads;

// How many keys there are, and how many calls each caller does.
const KEYS: u64 = 24;

const CALLS: u64 = 10_000;

/// What a soak came to.
#[derive(Clone, Copy, Drop)]
pub struct Soaked {
    /// How many events all shards had.
    pub events: u128,
    /// How many of them are passes.
    pub passes: u128,
    /// Whether each history leads to its shard's end.
    pub replay: bool,
}

// One drawn call: of the key that `x` draws, and of the kind that `y` does.
fn call_one<R: Wait>(rt: &R, arcs: &Arcs<Plain>, caller: &mut Caller, x: u64, y: u64, tick: u64)
    requires { IsReady arcs.now caller.old.party }
    ensures { IsAsBefore arcs.now caller.old.party caller.new.party }
{
    let Caller {
        party,
        pool,
        seed: _,
    } = caller;
    let ptr = ptr_of(x / 65_536 % KEYS);
    let _ = match y / 65_536 % 4 {
        0 => try_one(rt, arcs, party, &ptr, tick),
        1 => read_and_try(rt, arcs, party, pool, &ptr, tick),
        2 => look_at(arcs, party, &ptr),
        _ => read_one(rt, arcs, party, pool, &ptr, tick),
    };
}

// All calls of one caller.
fn call_all<R: Wait>(rt: &R, arcs: &Arcs<Plain>, mut caller: Caller) -> Caller
    requires { IsReady arcs.now caller.party }
    ensures { IsAsBefore arcs.now caller.party result.party }
{
    let mut y = caller.seed;
    for tick in 0..CALLS {
        let x = draw(y);
        y = draw(x);
        call_one(rt, arcs, &mut caller, x, y, tick);
    }
    caller
}

// Two callers at the same time.
fn call_two<R: Threads + Wait + Sync>(
    rt: &R,
    arcs: &Arcs<Plain>,
    one: Caller,
    two: Caller,
) -> (Caller, Caller)
    requires one { IsReady arcs.now one.party }
    requires two { IsReady arcs.now two.party }
    ensures one { IsAsBefore arcs.now one.party result.0.party }
    ensures two { IsAsBefore arcs.now two.party result.1.party }
{
    thread::join(
        rt,
        move || -> Caller
            requires { IsReady arcs.now one.party }
            ensures { IsAsBefore arcs.entry.now one.party result.party }
        { call_all(rt, arcs, one) },
        move || -> Caller
            requires { IsReady arcs.now two.party }
            ensures { IsAsBefore arcs.entry.now two.party result.party }
        { call_all(rt, arcs, two) },
    )
}

// Four callers at the same time.
fn call_four<R: Threads + Wait + Sync>(
    rt: &R,
    arcs: &Arcs<Plain>,
    callers: (Caller, Caller, Caller, Caller),
) -> ((Caller, Caller), (Caller, Caller))
    requires one { IsReady arcs.now callers.0.party }
    requires two { IsReady arcs.now callers.1.party }
    requires three { IsReady arcs.now callers.2.party }
    requires four { IsReady arcs.now callers.3.party }
    ensures one { IsAsBefore arcs.now callers.0.party result.0.0.party }
    ensures two { IsAsBefore arcs.now callers.1.party result.0.1.party }
    ensures three { IsAsBefore arcs.now callers.2.party result.1.0.party }
    ensures four { IsAsBefore arcs.now callers.3.party result.1.1.party }
{
    let (one, two, three, four) = callers;
    thread::join(
        rt,
        move || -> (Caller, Caller)
            requires { IsSync R.row × IsReady arcs.now one.party × IsReady arcs.now two.party }
            ensures { IsAsBefore arcs.entry.now one.party result.0.party × IsAsBefore arcs.entry.now two.party result.1.party }
        { call_two(rt, arcs, one, two) },
        move || -> (Caller, Caller)
            requires { IsSync R.row × IsReady arcs.now three.party × IsReady arcs.now four.party }
            ensures { IsAsBefore arcs.entry.now three.party result.0.party × IsAsBefore arcs.entry.now four.party result.1.party }
        { call_two(rt, arcs, three, four) },
    )
}

// Makes an event, where it may come and memory is there.
fn make(shard: &mut Shard, event: Event) -> bool {
    if shard.reserve(3, 1).is_err() || !shard.legal(&event) {
        return false;
    }
    shard.step(event);
    true
}

// Makes all these events, one after another. False where one may not come, or memory is refused.
fn make_all(shard: &mut Shard, events: Events<'_>) -> bool {
    for event in events {
        if !make(shard, event) {
            return false;
        }
    }
    true
}

// Whether two shards have the same target, sizes and history.
fn are_same(one: &Shard, two: &Shard) -> bool {
    let sizes = [State::Mru, State::Mfu, State::MruGhost, State::MfuGhost]
        .iter()
        .all(|state| one.size(*state) == two.size(*state));
    sizes && one.p() == two.p() && one.history().iter().eq(two.history().iter())
}

// Whether the shard's history replays from its start, each event legal when it comes, and ends where the shard does.
fn replays(alloc: Global, config: &Config, shard: &Shard) -> bool
    requires { IsConfig config.now }
{
    let mut fresh = Shard::new(alloc, config.c, config.mintime, config.bounds);
    make_all(&mut fresh, shard.history().iter()) && are_same(&fresh, shard)
}

// How many passes these events have.
fn passes_in(events: Events<'_>) -> usize
    requires { length events < 2 ^ 32 }
    ensures count { result ≡ count_by is_pass events.entry }
    ensures bound { result ≤ length events.entry }
{
    events.filter(|event| is_pass(event)).count()
}

// Whether the event is a pass.
fn is_pass(event: &Event) -> bool
    ensures { result ≡ is_pass event.now }
{
    matches!(event, Event::Pass { .. })
}

// How many events the histories of these shards have.
fn count_events(shards: &[Shard]) -> u128
    ensures { result ≡ events_of shards.now }
{
    let mut count = 0;
    for shard in shards {
        count += shard.history().len() as u128;
    }
    count
}

// How many passes they have.
fn count_passes(shards: &[Shard]) -> u128
    ensures { result ≡ passes_of shards.now }
{
    let mut count = 0;
    for shard in shards {
        count += passes_in(shard.history().iter()) as u128;
    }
    count
}

/// Whether the history of each of these shards replays from its start. That those of a closed cache do is proved of `Arcs::close`; here they are run once
/// more, so there is no clause.
pub fn all_replay(alloc: Global, config: &Config, shards: &[Shard]) -> bool
    requires { IsConfig config.now }
{
    for shard in shards {
        if !replays(alloc, config, shard) {
            return false;
        }
    }
    true
}

// Counts the events and passes of all shards, and replays their histories.
fn judge(alloc: Global, config: &Config, shards: &[Shard]) -> Soaked
    requires { IsConfig config.now }
    ensures events { result.events ≡ events_of shards.now }
    ensures passes { result.passes ≡ passes_of shards.now }
{
    Soaked {
        events: count_events(shards),
        passes: count_passes(shards),
        replay: all_replay(alloc, config, shards),
    }
}

/// Four callers do their calls, and the histories are replayed.
pub fn run_soak<R: Threads + Wait + Sync>(rt: &R, alloc: Global) -> Result<Soaked, NoMemory> {
    let config = config_of(2, 2, 4096);
    if !config.check() {
        return Err(NoMemory);
    }
    let Scene {
        arcs,
        feeder,
        callers,
    } = opened(alloc, &config, KEYS)?;
    let (low, high) = call_four(rt, &arcs, callers);
    let closed = close_all(alloc, arcs, low, high, feeder)?;
    Ok(judge(alloc, &config, closed.shards()))
}
