//! How a run ended.
ghost use Rattle.std.specs.Prelude.{◌≡◌};

use arc_table::Closed;
use dbuf_cells::HeapCell;
use trace_text::{Kind, Report};

/// The status of a run.
#[derive(Clone, Copy, Debug, PartialEq, Eq)]
pub enum Status {
    /// Everything was done, and no reply is a refusal.
    Ok,
    /// The trace was run to its end, and some reply is a refusal.
    ReadsFailed,
    /// No command goes on with the word of this index, counted from 0.
    Usage { index: u32 },
    /// The source holds no trace, no list of pages or no log of events, whichever was asked for. `line` is the first line at fault, counted from 1.
    BadTrace { line: u32, kind: Kind },
    /// The source failed.
    SourceFault,
    /// The sink failed while the report was written.
    SinkFault,
    /// A fork of the pool failed, or the pool failed in a sync.
    PoolFault,
    /// Memory was refused.
    NoMemory,
    /// The dirty blocks of a sync need `need` bytes, and the pool has `left` for them, which are fewer.
    PoolFull { need: u128, left: u64 },
    /// A log of events was judged, and event `index` of shard `shard`, each counted from 0, may not come where it stands.
    Illegal { shard: u32, index: u64 },
}

impl Status {
    ghost use Rattle.trace_run.specs.Status.{code_of};

    /// The status as a number, which the program ends with.
    pub fn code(self) -> u8
        ensures { result ≡ code_of self }
    {
        match self {
            Status::Ok => 0,
            Status::ReadsFailed => 1,
            Status::Usage { .. } => 2,
            Status::BadTrace { .. } => 3,
            Status::SourceFault => 4,
            Status::SinkFault => 5,
            Status::PoolFault => 6,
            Status::NoMemory => 7,
            Status::PoolFull { .. } => 8,
            Status::Illegal { .. } => 10,
        }
    }
}

/// What a run answers.
#[derive(Drop)]
pub struct Outcome {
    /// How it ended.
    pub status: Status,
    /// The report, where the trace was run.
    pub report: Option<Report>,
    /// The shared cache at its end, whose histories the report has. It is there where the report is.
    pub closed: Option<Closed<HeapCell>>,
}
