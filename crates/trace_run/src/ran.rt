//! What a run of a trace came to, and its report.
ghost use Rattle.std.specs.Prelude.{◌≡◌, IfOk, map};
ghost use Rattle.std.specs.Arc.{arc_value};
ghost use Rattle.arc_check.specs.Judging.{end_of};
ghost use Rattle.trace_run.specs.one_caller.PlainRun.{status_of};
ghost use Rattle.trace_run.specs.callers.Together.{report_of_closed};

use arc_core::Shard;
use arc_table::Closed;
use blk_ptr::{NoMemory, State};
use dbuf_cells::HeapCell;
use std::alloc::Global;
use std::sync::Arc;
use trace_text::{Ends, Histories, History, Rebuilt, Replies, Reply, Report, ShardEnd};

/// How the lines of a trace ended.
#[derive(Clone, Copy)]
pub enum Ending {
    /// All are done.
    Whole,
    /// A fork of the pool failed as a group of lines began.
    Fork,
    /// The pool failed in a sync.
    Sync,
    /// A sync's dirty blocks need so many bytes, and the pool has so many left for them, which are fewer.
    Full { need: u128, left: u64 },
}

/// What a run of a trace came to.
#[derive(Drop)]
pub(crate) struct Ran {
    /// The answers to the operations that were done, in the order of their lines.
    pub(crate) replies: Vec<Reply>,
    /// The shared cache at its end.
    pub(crate) closed: Closed<HeapCell>,
    /// How the lines ended.
    pub(crate) ending: Ending,
}

/// The report of a run, and the closed cache whose histories it has.
#[derive(Drop)]
pub(crate) struct Reported {
    pub(crate) report: Report,
    pub(crate) closed: Closed<HeapCell>,
    pub(crate) ending: Ending,
}

impl Ran {
    /// The report of the run, with all replies and what was found on the cache device.
    pub(crate) fn report(
        self,
        alloc: Global,
        rebuilt: Option<Rebuilt>,
    ) -> Result<Reported, NoMemory>
        ensures report { IfOk result (λ told. told.report ≡ report_of_closed self.ending rebuilt self.replies.items self.closed) }
        ensures closed { IfOk result (λ told. told.closed ≡ self.closed) }
        ensures ending { IfOk result (λ told. told.ending ≡ self.ending) }
    {
        let histories = histories_of(alloc, &self.closed.shared_shards()?)?;
        let ends = ends_of(alloc, self.closed.shards())?;
        let status = match self.ending {
            Ending::Whole => status_of(&self.replies),
            Ending::Fork | Ending::Sync => 6,
            Ending::Full { .. } => 8,
        };
        let report = Report {
            replies: Replies::from_vec(self.replies),
            histories,
            ends,
            io: None,
            rebuilt,
            status,
            short: false,
        };
        Ok(Reported {
            report,
            closed: self.closed,
            ending: self.ending,
        })
    }
}

/// The events of each shard, which lie where they are.
fn histories_of(alloc: Global, shards: &Arc<Vec<Shard>>) -> Result<Histories, NoMemory>
    ensures { IfOk result (λ all. all ≡ map (λ log. log.history) (arc_value shards.now).items) }
{
    let mut histories = Vec::new(alloc);
    for number in 0..shards.len() {
        histories.push(History::of_shard(shards, number)?)?;
    }
    Ok(Histories::from_vec(histories))
}

/// What each shard ends with.
fn ends_of(alloc: Global, shards: &[Shard]) -> Result<Ends, NoMemory>
    ensures { IfOk result (λ all. all ≡ map (λ log. end_of log.now) shards.now) }
{
    let mut ends = Vec::new(alloc);
    for shard in shards {
        ends.push(end_of(shard))?;
    }
    Ok(Ends::from_vec(ends))
}

/// The states of an entry, in the order of a report's sizes.
const STATES: [State; 6] = [
    State::Anon,
    State::Mru,
    State::MruGhost,
    State::Mfu,
    State::MfuGhost,
    State::L2Only,
];

/// What a shard ends with.
fn end_of(shard: &Shard) -> ShardEnd
    ensures { result ≡ end_of shard.now.now }
{
    ShardEnd {
        c: shard.c(),
        p: shard.p(),
        sizes: STATES.map(|state| shard.size(state)),
    }
}

/// 0 where no reply is a refusal, and else 1.
fn status_of(replies: &[Reply]) -> u8
    ensures { result ≡ status_of replies.now }
{
    for reply in replies {
        if let Reply::Refused(_) = reply {
            return 1;
        }
    }
    0
}
