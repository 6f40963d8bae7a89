/// One of the two ghosts: the names of blocks that were evicted from MRU, or from MFU.
#[derive(Clone, Copy, Debug, PartialEq, Eq)]
pub enum Ghost {
    /// What was evicted from MRU (`arc_mru_ghost`).
    Mru,
    /// What was evicted from MFU (`arc_mfu_ghost`).
    Mfu,
}
