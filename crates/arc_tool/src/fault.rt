//! What the program tells on the standard error, behind its name.
use std::fmt;
use thiserror::Error;
use trace_run::Status;

/// Why the program didn't do what it was asked.
#[derive(Debug, Drop, Error)]
pub(crate) enum Fault {
    /// There are fewer than two words, or one of the words is no text.
    #[error("usage: arc_tool POOL CACHE WORD..., where a file name may be -; arc_tool --help says more")]
    Names,
    /// The pool's file can't be had.
    #[error("the pool's file {name}: {why}")]
    Pool { name: String, why: Why },
    /// The cache device's file can't be had.
    #[error("the cache device's file {name}: {why}")]
    Cache { name: String, why: Why },
    /// No command goes on with this word, counted from 0 behind the file names.
    #[error("word {0}")]
    Word(u32),
    /// The run ended with this status.
    #[error("status {0}")]
    Ended(u8),
}

/// Why a file can't be had.
#[derive(Clone, Copy, Debug)]
pub(crate) enum Why {
    /// There is none of this name.
    Missing,
    /// The system gives no right to it.
    NoRight,
    /// It is a directory.
    Directory,
    /// It is longer than so many bytes.
    Long(u64),
    /// The system refuses it for another reason.
    Refused,
}

impl fmt::Display for Why {
    fn fmt<W: fmt::Write>(&self, f: &mut fmt::Formatter<W>) -> fmt::Result {
        match self {
            Why::Missing => write!(f, "there is none of this name"),
            Why::NoRight => write!(f, "there is no right to it"),
            Why::Directory => write!(f, "it is a directory"),
            Why::Long(most) => write!(f, "it is longer than {most} bytes"),
            Why::Refused => write!(f, "the system refuses it"),
        }
    }
}

impl Fault {
    /// Memory was refused, in the run or before it.
    pub(crate) const NO_MEMORY: Fault = Fault::Ended(7);

    /// The standard output failed while the help or the version was printed.
    pub(crate) const SINK: Fault = Fault::Ended(5);

    /// What is told of a run that ended with this status, if anything is: a report and a verdict speak for themselves.
    pub(crate) fn of(status: Status) -> Option<Fault> {
        match status {
            Status::Ok | Status::ReadsFailed | Status::Illegal { .. } => None,
            Status::Usage { index } => Some(Fault::Word(index)),
            Status::BadTrace { .. }
            | Status::SourceFault
            | Status::SinkFault
            | Status::PoolFault
            | Status::NoMemory
            | Status::PoolFull { .. } => Some(Fault::Ended(status.code())),
        }
    }

    /// The program's exit status.
    pub(crate) fn code(&self) -> u8 {
        match self {
            Fault::Word(_) => 2,
            Fault::Ended(code) => *code,
            Fault::Names => 9,
            Fault::Pool { .. } => 11,
            Fault::Cache { .. } => 12,
        }
    }
}
