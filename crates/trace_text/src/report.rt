use crate::items::{Ends, Histories, Replies};
use crate::rebuilt::Rebuilt;
use crate::totals::Totals;

/// What a run reports.
#[derive(Drop)]
pub struct Report {
    /// What each operation was answered, in the order of the operations.
    pub replies: Replies,
    /// The events of each shard, in the order of the shards' numbers.
    pub histories: Histories,
    /// What each shard ends with, in the same order.
    pub ends: Ends,
    /// How often the workers that read the pool were asked, where there were some.
    pub io: Option<Totals>,
    /// What the start of the cache device found on it, where one was handed in.
    pub rebuilt: Option<Rebuilt>,
    /// How the run went: 0, 1 where a reply is a refusal, 6 where the pool could not be forked for each caller.
    pub status: u8,
    /// Whether the text leaves the replies out, as that of a generated trace does.
    pub short: bool,
}
