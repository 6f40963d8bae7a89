//! What a try to take a turn answers.

/// What `try_take` gave.
#[derive(Debug, Drop)]
pub enum Take<V> {
    /// The turn was free, and this is its value.
    Taken(V),
    /// The party of this number had the turn.
    Busy { owner: u32 },
}
