//! The bound of one feed: at most half of the ring of the cache device.
ghost use Rattle.std.specs.Prelude.{◌≡◌};
ghost use Rattle.trace_text.specs.Grammar.{IsFormed};
ghost use Rattle.trace_run.specs.Bounded.{feed_bound, with_bound};

use blk_ptr::SECTOR;
use l2_log::{LEAST_RING_END, RING_START};
use trace_text::Trace;

/// How many bytes one feed may write to a device of `size` bytes, where `w` is asked for.
fn feed_bound(w: u64, size: u64) -> u64
    ensures { result ≡ feed_bound w size }
{
    if size < LEAST_RING_END {
        return w;
    }
    w.min((size / SECTOR * SECTOR - RING_START) / 2)
}

/// The trace, with that bound of a feed.
pub(crate) fn with_bound(mut trace: Trace, size: u64) -> Trace
    requires formed { IsFormed trace }
    ensures bounded { result ≡ with_bound trace size }
    ensures formed { IsFormed result }
{
    trace.config.bounds.write_max = feed_bound(trace.config.bounds.write_max, size);
    trace
}
