//! What part of a block a read shows.
ghost use Rattle.std.specs.Prelude.{◌≤◌};

/// A range of a block's bytes that a read shows.
#[derive(Clone, Copy, Debug, PartialEq, Eq)]
pub struct Window {
    /// Where in the block the range begins.
    pub at: u32,
    /// The number of bytes, at most 64.
    pub len: u32,
    pub ghost short: { len ≤ 64 },
}
