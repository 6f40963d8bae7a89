use l2_log::LogFault;

/// Why a rebuild ended.
#[derive(Clone, Copy, Debug, PartialEq, Eq)]
pub enum Stop {
    /// The last pointer is none: the chain was walked to its end.
    Zero,
    /// The device has `len` bytes, too few to be used.
    Short { len: u64 },
    /// The first sector is no header of this device.
    Header(LogFault),
    /// A pointer leads to a place that is unaligned, or to a log block that isn't wholly inside the ring.
    Outside { place: u64 },
    /// A pointer's log block lies in neither part of the ring, so its bytes may have been written over.
    Evicted { place: u64 },
    /// The bytes are not the pointer's log block.
    Block(LogFault),
    /// With one log block more than these `walked` bytes the log blocks would be longer than the ring.
    Length { walked: u64 },
    /// The device failed.
    DevFault,
}
