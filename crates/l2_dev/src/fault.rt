//! The faults of a call of the device, and what they come from.
ghost use Rattle.std.specs.Prelude.{◌≡◌};
ghost use Rattle.l2_dev.specs.declared.fault.DevErr.TheVariants as err;

use blk_ptr::NoMemory;
use std::alloc::{AllocError, AllocFailed};
use vdev_io::Failed;

/// Why a call of the device did not do its work.
#[derive(Clone, Copy, Debug, PartialEq, Eq, Drop)]
pub enum DevErr {
    /// The device failed. This comes only where its count of faults rose in the call.
    DevFault,
    /// Memory was refused.
    NoMemory,
}

impl From<Failed> for DevErr {
    ghost from_gives = { λ _ e. e ≡ err.DevFault };

    fn from(_failed: Failed) -> Self {
        DevErr::DevFault
    }
}

impl From<NoMemory> for DevErr {
    ghost from_gives = { λ _ e. e ≡ err.NoMemory };

    fn from(_refused: NoMemory) -> Self {
        DevErr::NoMemory
    }
}

impl From<AllocError> for DevErr {
    ghost from_gives = { λ _ e. e ≡ err.NoMemory };

    fn from(_refused: AllocError) -> Self {
        DevErr::NoMemory
    }
}

impl<T: Drop> From<AllocFailed<T>> for DevErr {
    ghost from_gives = { λ _ e. e ≡ err.NoMemory };

    fn from(_refused: AllocFailed<T>) -> Self {
        DevErr::NoMemory
    }
}
