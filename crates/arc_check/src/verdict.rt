//! What becomes of a log that is judged.
use trace_text::Ends;

/// Whether the histories of a log are legal.
#[derive(Drop)]
pub enum Verdict {
    /// Each history is legal from the opening of the configuration; `ends` is what the shards end with, in the order of their numbers.
    Legal { ends: Ends },
    /// The history of shard `shard` is legal up to its event `index`, which may not come there. The shards before it have legal histories.
    Illegal { shard: u32, index: u64 },
}
