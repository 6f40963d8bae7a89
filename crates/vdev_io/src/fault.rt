//! Why a call on the outside was not done, and the count of such calls.
ghost use Rattle.std.specs.Prelude.{◌≡◌, ◌+◌, ◌≤◌, ◌↔◌, Ok, IfErr, IsErr, IsErrOf, MatchResult, is_err, if◌then◌else◌};

use std::alloc::AllocError;
use std::io;
use std::io::ErrorKind;

/// A call on the outside failed. The count of faults of the object rose in that call.
#[derive(Clone, Copy, Debug, PartialEq, Eq)]
pub struct Failed;

/// Why a call on the outside that takes memory was not done.
#[derive(Clone, Copy, Debug, PartialEq, Eq)]
pub enum IoFault {
    /// The call failed, and the count of faults of the object rose in it.
    Failed,
    /// Memory was refused.
    NoMemory,
}

impl From<Failed> for IoFault {
    ghost use Rattle.std.specs.Prelude.{◌≡◌};
    ghost use Rattle.vdev_io.specs.declared.fault.IoFault.TheVariants.{Failed as IoFailed};

    ghost from_gives = { λ _ fault. fault ≡ IoFailed };

    fn from(_failed: Failed) -> Self {
        IoFault::Failed
    }
}

impl From<AllocError> for IoFault {
    ghost use Rattle.std.specs.Prelude.{◌≡◌};
    ghost use Rattle.vdev_io.specs.declared.fault.IoFault.TheVariants.{NoMemory};

    ghost from_gives = { λ _ fault. fault ≡ NoMemory };

    fn from(_refused: AllocError) -> Self {
        IoFault::NoMemory
    }
}

/// How many calls of an adapter failed. It stands still at its type's end.
#[derive(Debug, Drop)]
pub(crate) struct FaultCount {
    count: u64,
}

impl FaultCount {
    ghost use Rattle.std.specs.IoError.{error_kind};
    ghost use Rattle.vdev_io.specs.Faults.{CountsFault, CountsIoFault, HasCause, HasIoCause, sum_of_counts};

    /// No call failed yet.
    pub(crate) fn new() -> FaultCount
        ensures { result.count ≡ 0 }
    {
        FaultCount { count: 0 }
    }

    /// Hands on what the system answered, and counts its error.
    pub(crate) fn tell<T>(&mut self, answer: io::Result<T>) -> Result<T, Failed>
        ensures answer { MatchResult result (λ value. answer ≡ Ok value) (λ _. IsErr answer) }
        ensures cause { HasCause self.old.count self.new.count result }
        ensures fault { CountsFault self.old.count self.new.count result }
    {
        match answer {
            Ok(value) => Ok(value),
            Err(_) => {
                self.count = self.count.saturating_add(1);
                Err(Failed)
            }
        }
    }

    /// The same where the system may refuse memory, which is no fault.
    pub(crate) fn tell_memory<T>(&mut self, answer: io::Result<T>) -> Result<T, IoFault>
        ensures answer { MatchResult result (λ value. answer ≡ Ok value) (λ _. IsErr answer) }
        ensures refused { IfErr answer (λ error. IsErrOf result IoFault.NoMemory ↔ (error_kind error ≡ ErrorKind.OutOfMemory)) }
        ensures cause { HasIoCause self.old.count self.new.count result }
        ensures fault { CountsIoFault self.old.count self.new.count result }
    {
        match answer {
            Ok(value) => Ok(value),
            Err(error) if error.kind() == ErrorKind::OutOfMemory => Err(IoFault::NoMemory),
            Err(_) => {
                self.count = self.count.saturating_add(1);
                Err(IoFault::Failed)
            }
        }
    }

    /// Adds the faults of a fork.
    pub(crate) fn absorb(&mut self, other: &FaultCount)
        ensures { self.new.count ≡ sum_of_counts self.old.count other.now.count }
    {
        self.count = self.count.saturating_add(other.count);
    }
}
