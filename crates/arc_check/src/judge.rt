//! Judges a log: each history is played again on a shard that has just been opened, event by event.
ghost use Rattle.std.specs.Prelude.{◌≡◌, IfOk, length};
ghost use Rattle.arc_core.specs.Config.{IsConfig};
ghost use Rattle.arc_check.specs.Judging.{IsPlayed, IsTried, IsVerdict, end_of, log_opening};

use crate::log::Log;
use crate::verdict::Verdict;
use arc_core::{Config, Event, Shard};
use blk_ptr::{NoMemory, State};
use std::alloc::Global;
use trace_text::{Ends, History, ShardEnd};

/// The most room that an event takes in a shard's history, for itself and for what it begins.
const ROOM_OF_EVENT: usize = 3;

/// What became of a history that was played again.
#[derive(Clone, Copy)]
enum Played {
    /// It is legal, and this is what the shard ends with.
    Ended(ShardEnd),
    /// The event of this number, counted from 0, may not come where it stands.
    Stuck(u64),
}

/// Whether each history of a log is legal from the opening of the log's configuration, with what the shards end with; else the first
/// shard whose history isn't legal, and the first of its events that may not come. What an event may be and what it does is told by the
/// table of events of `arc_core` alone.
pub fn check(alloc: Global, log: &Log) -> Result<Verdict, NoMemory>
    requires config { IsConfig log.now.config }
    requires shards { length log.now.histories ≡ log.now.config.shards }
    ensures { IfOk result (IsVerdict log.now) }
{
    let histories = log.histories.as_slice();
    let mut ends = Vec::new(alloc);
    for number in 0..histories.len() {
        let Some(history) = histories.get(number) else {
            unreachable!()
        };
        match play(alloc, log.config, history)? {
            Played::Ended(end) => ends.push(end)?,
            Played::Stuck(index) => {
                let shard = number as u32;
                return Ok(Verdict::Illegal { shard, index });
            }
        }
    }
    let ends = Ends::from_vec(ends);
    Ok(Verdict::Legal { ends })
}

/// Plays a history again, from a shard of this cache before all events.
fn play(alloc: Global, config: Config, history: &History) -> Result<Played, NoMemory>
    requires { IsConfig config }
    ensures { IfOk result (IsPlayed (log_opening config) history.now) }
{
    let mut shard = Shard::new(alloc, config.c, config.mintime, config.bounds);
    for (index, event) in history.iter().enumerate() {
        if !try_event(&mut shard, event)? {
            return Ok(Played::Stuck(index as u64));
        }
    }
    Ok(Played::Ended(end_of(&shard)))
}

/// Makes an event where it may come, and tells whether it may.
fn try_event(shard: &mut Shard, event: Event) -> Result<bool, NoMemory>
    ensures { IfOk result (IsTried event shard.old.now shard.new.now) }
{
    if !shard.legal(&event) {
        return Ok(false);
    }
    shard.reserve(ROOM_OF_EVENT, 1)?;
    shard.step(event);
    Ok(true)
}

/// The states of an entry, in the order of the sizes of a `shard` line.
const STATES: [State; 6] = [
    State::Anon,
    State::Mru,
    State::MruGhost,
    State::Mfu,
    State::MfuGhost,
    State::L2Only,
];

/// What a shard ends with.
fn end_of(shard: &Shard) -> ShardEnd
    ensures { result ≡ end_of shard.now.now }
{
    ShardEnd {
        c: shard.c(),
        p: shard.p(),
        sizes: STATES.map(|state| shard.size(state)),
    }
}
