//! What the start of a cache device found on it, and how that is printed.
ghost use Rattle.std.specs.Prelude.{◌≡◌, Some};
ghost use Rattle.trace_text.specs.RebuiltText.{fault_word};

use crate::items::RestoredList;
use l2_dev::Stop;
use l2_log::LogFault;
use std::fmt;

/// What the start of a cache device found on it.
#[derive(Drop)]
pub struct Rebuilt {
    /// The keys that it restored, in the order in which they were found.
    pub list: RestoredList,
    /// Why the walk along the log blocks ended, or why there was none.
    pub stop: Stop,
}

impl fmt::Display for Rebuilt {
    ghost use Rattle.trace_text.specs.RebuiltText.{rebuilt_words};

    ghost output = { λ rebuilt. Some (rebuilt_words rebuilt) };

    fn fmt<W: fmt::Write>(&self, f: &mut fmt::Formatter<W>) -> fmt::Result {
        let restored = self.list.len();
        write!(f, "{restored} {}", StopWords(self.stop))
    }
}

/// Why a walk ended, as its words.
#[derive(Clone, Copy)]
struct StopWords(Stop);

impl fmt::Display for StopWords {
    ghost use Rattle.trace_text.specs.RebuiltText.{stop_words};

    ghost output = { λ words. Some (stop_words words.0) };

    fn fmt<W: fmt::Write>(&self, f: &mut fmt::Formatter<W>) -> fmt::Result {
        match self.0 {
            Stop::Zero => write!(f, "zero"),
            Stop::Short { .. } => write!(f, "short"),
            Stop::Header(fault) => write!(f, "header {}", word_of_fault(fault)),
            Stop::Outside { .. } => write!(f, "outside"),
            Stop::Evicted { .. } => write!(f, "evicted"),
            Stop::Block(fault) => write!(f, "block {}", word_of_fault(fault)),
            Stop::Length { .. } => write!(f, "length"),
            Stop::DevFault => write!(f, "device"),
        }
    }
}

/// What is wrong with a header or a log block.
fn word_of_fault(fault: LogFault) -> &'static str
    ensures { result.now ≡ fault_word fault }
{
    match fault {
        LogFault::Magic => "magic",
        LogFault::Version => "version",
        LogFault::Digest { .. } => "digest",
        LogFault::Field { .. } => "field",
        LogFault::Length { .. } => "length",
    }
}
