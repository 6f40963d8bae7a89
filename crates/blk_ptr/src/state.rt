/// Where an entry of the cache stands (`arc_state_t` of OpenZFS's `arc_impl.h`).
#[derive(Clone, Copy, Debug, PartialEq, Eq)]
pub enum State {
    /// Being read for the first time, and on no list yet (`arc_anon`).
    Anon,
    /// Its bytes are cached, and it was asked for once lately (`arc_mru`).
    Mru,
    /// It was evicted from MRU; what is left is its name (`arc_mru_ghost`).
    MruGhost,
    /// Its bytes are cached, and it was asked for more than once (`arc_mfu`).
    Mfu,
    /// It was evicted from MFU; what is left is its name (`arc_mfu_ghost`).
    MfuGhost,
    /// Only the cache device has it (`arc_l2c_only`).
    L2Only,
}
