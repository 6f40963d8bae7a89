//! Why bytes are no header, or no log block.
ghost use Rattle.std.specs.Prelude.{◌≡◌};
ghost use Rattle.l2_log.specs.declared.fault.LogReadFault.TheVariants.{Fault, NoMemory as Refused};

use blk_ptr::Digest as Sha256Digest;
use std::alloc::{AllocError, AllocFailed};

/// Why bytes are no header or no log block. The first test that fails is told: the length, the magic, the version,
/// the digest, and then the fields by rising place.
#[derive(Clone, Copy, Debug, PartialEq, Eq)]
pub enum LogFault {
    /// The first eight bytes are not the magic.
    Magic,
    /// The version is neither of the two that there are.
    Version,
    /// The digest at the end, `kept`, is not the one of the bytes before it, `found`.
    Digest {
        kept: Sha256Digest,
        found: Sha256Digest,
    },
    /// The field at this place breaks its rule, or the byte at this place is not zero.
    Field {
        at: u32,
    },
    /// There are `len` bytes, and not as many as there must be.
    Length {
        len: u64,
    },
}

/// Why a log block was not read.
#[derive(Clone, Copy, Debug, PartialEq, Eq, Drop)]
pub enum LogReadFault {
    /// The bytes are no log block.
    Fault(LogFault),
    /// Memory was refused.
    NoMemory,
}

impl From<LogFault> for LogReadFault {
    ghost from_gives = { λ fault read. read ≡ Fault fault };

    fn from(fault: LogFault) -> Self {
        LogReadFault::Fault(fault)
    }
}

impl From<AllocError> for LogReadFault {
    ghost from_gives = { λ _ read. read ≡ Refused };

    fn from(_refused: AllocError) -> Self {
        LogReadFault::NoMemory
    }
}

impl<T: Drop> From<AllocFailed<T>> for LogReadFault {
    ghost from_gives = { λ _ read. read ≡ Refused };

    fn from(_refused: AllocFailed<T>) -> Self {
        LogReadFault::NoMemory
    }
}
