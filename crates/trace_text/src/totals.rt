//! How often the workers that read the pool were asked, and how that is printed.
ghost use Rattle.std.specs.Prelude.{Some};

use std::fmt;

/// How often the workers that read the pool for callers were asked, over all groups. Each count goes round at 2^64.
#[derive(Clone, Copy)]
pub struct Totals {
    /// The reads that were asked for.
    pub asked: u64,
    /// Those that were done, by a worker or by a caller that waited.
    pub served: u64,
    /// Those that failed.
    pub failed: u64,
}

impl fmt::Display for Totals {
    ghost use Rattle.trace_text.specs.EndText.{io_words};

    ghost output = { λ totals. Some (io_words totals) };

    fn fmt<W: fmt::Write>(&self, f: &mut fmt::Formatter<W>) -> fmt::Result {
        let Totals {
            asked,
            served,
            failed,
        } = self;
        write!(f, "asked {asked} served {served} failed {failed}")
    }
}
