use blk_ptr::{Key, State};

/// A key that is there, and its state.
#[derive(Clone, Copy, Debug, PartialEq, Eq)]
pub struct Member {
    /// The key.
    pub key: Key,
    /// Its state.
    pub state: State,
}
