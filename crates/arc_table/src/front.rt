/// How much of a shard's history an answer rests on: the first `len` events, which the party has seen.
#[derive(Clone, Copy, Debug, PartialEq, Eq)]
pub struct Front {
    /// The shard, from 0 to 15.
    pub shard: u32,
    /// How many events.
    pub len: u64,
}
