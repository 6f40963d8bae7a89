//! The numbers of a ring that has room for the next bytes, and what stays live under them.
ghost use Rattle.std.specs.Prelude.{◌≡◌};
ghost use Rattle.l2_ring.specs.Stays.{stays_at, lies_within};

use l2_log::RING_START;

/// The numbers that a ring has once there is room for the next bytes.
#[derive(Clone, Copy, Debug, PartialEq, Eq)]
pub struct Plan {
    /// The place of the first of these bytes.
    pub hand: u64,
    /// The end of what they may overwrite.
    pub evict: u64,
    /// The end of what was written in the lap before.
    pub top: u64,
    /// The number of the lap.
    pub lap: u64,
}

/// Whether `size` bytes from `place` on lie wholly between `from` and `to`.
fn lies_within(from: u64, to: u64, place: u64, size: u64) -> bool
    ensures { result ≡ lies_within from to place size }
{
    from <= place && size <= to && place <= to - size
}

impl Plan {
    /// Whether `size` bytes from `place` on, written in this lap, lie in the part that the lap asks for: the lower one if it is the
    /// plan's lap, the upper one if it is the lap before that.
    pub fn keeps(self, lap: u64, place: u64, size: u64) -> bool
        ensures { result ≡ stays_at self lap place size }
    {
        let lower = lies_within(RING_START, self.hand, place, size) && lap == self.lap;
        let upper = lies_within(self.evict, self.top, place, size)
            && lap < u64::MAX
            && lap + 1 == self.lap;
        lower || upper
    }
}
