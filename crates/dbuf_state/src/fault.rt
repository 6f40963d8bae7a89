//! Why an operation on a dbuf was refused.
ghost use Rattle.std.specs.Prelude.{◌≡◌};
ghost use Rattle.dbuf_state.specs.Faults.{fault_of};

use crate::oid::Oid;
use arc_core::ReadFault;

/// Why an operation on a dbuf was refused.
#[derive(Clone, Copy, Debug, PartialEq, Eq)]
pub enum DbufFault {
    /// The block could not be read. It never carries want of memory.
    Read(ReadFault),
    /// The object map has no such block.
    NoBlock(Oid),
    /// The bytes asked for end at `end`, past the block's size.
    Range { end: u64, size: u64 },
    /// There is no pin of the caller's.
    NoPin(Oid),
    /// Memory was refused.
    NoMemory,
}

impl From<ReadFault> for DbufFault {
    ghost from_gives = { λ read fault. fault ≡ fault_of read };

    fn from(fault: ReadFault) -> Self {
        match fault {
            ReadFault::NoMemory => DbufFault::NoMemory,
            fault => DbufFault::Read(fault),
        }
    }
}
