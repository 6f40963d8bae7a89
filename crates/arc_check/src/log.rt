//! A log of events, and why a text is none.
use arc_core::Config;
use trace_text::{Histories, Kind};

/// What a log of events says.
#[derive(Drop)]
pub struct Log {
    /// The sizes of the cache, with the bounds of a feed.
    pub config: Config,
    /// The events of each shard, in the order of the shards' numbers.
    pub histories: Histories,
}

/// Why a text was not read as a log.
#[derive(Clone, Copy, Debug, PartialEq, Eq)]
pub enum LogTextFault {
    /// The text is no log. `line` is the first line at fault, counted from 1.
    Bad { line: u32, kind: Kind },
    /// Memory was refused.
    NoMemory,
}
