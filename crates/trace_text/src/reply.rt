//! What an operation is answered, and how that is printed.
ghost use Rattle.std.specs.Prelude.{◌≡◌, Some};
ghost use Rattle.trace_text.specs.ReportWords.{end_word, served_word};

use crate::shown_bytes::ShownBytes;
use arc_core::Served;
use blk_ptr::{Digest, KeyFault};
use dbuf_state::Oid;
use l2_dev::{FeedReport, FeedStop};
use std::fmt;

/// Why an operation was refused.
#[derive(Clone, Copy)]
pub enum Refusal {
    /// The caller's pool failed in this operation.
    PoolFault,
    /// The bytes that the pool gave have another digest than the pointer's.
    Mismatch { found: Digest },
    /// The block's key names no block of the pool.
    Key(KeyFault),
    /// Memory was refused.
    NoMemory,
    /// The window ends at `end`, past the block's `size`.
    Range { end: u64, size: u64 },
    /// The object map has no such block.
    NoBlock(Oid),
    /// The caller keeps no read of this block.
    NoHold { block: u32 },
    /// The caller has no pin of this block's dbuf.
    NoPin(Oid),
}

impl fmt::Display for Refusal {
    ghost use Rattle.trace_text.specs.ReportWords.{refusal_text};

    ghost output = { λ refusal. Some (refusal_text refusal) };

    fn fmt<W: fmt::Write>(&self, f: &mut fmt::Formatter<W>) -> fmt::Result {
        match self {
            Refusal::PoolFault => write!(f, "pool"),
            Refusal::Mismatch { found } => write!(f, "digest {found}"),
            Refusal::Key(fault) => write!(f, "key {fault}"),
            Refusal::NoMemory => write!(f, "memory"),
            Refusal::Range { end, size } => write!(f, "window {end} {size}"),
            Refusal::NoBlock(Oid { object, block }) => write!(f, "block {object} {block}"),
            Refusal::NoHold { block } => write!(f, "hold {block}"),
            Refusal::NoPin(Oid { object, block }) => write!(f, "pin {object} {block}"),
        }
    }
}

/// What an operation of the trace was answered.
#[derive(Drop)]
pub enum Reply {
    /// A read: where its bytes came from, their digest, and those of its window.
    Read {
        served: Served,
        digest: Digest,
        shown: ShownBytes,
    },
    /// A read that is kept.
    Kept {
        served: Served,
    },
    /// The oldest kept read of the block was dropped.
    Dropped,
    /// A block of an object: how many bytes it has, and those of the window.
    Got {
        size: u32,
        shown: ShownBytes,
    },
    /// A block was written, or its dbuf is kept or let go.
    Done,
    /// What a feed of the cache device did.
    Fed(FeedReport),
    /// There is no cache device that could be fed.
    FedNone,
    /// All dirty blocks were written to the pool at the end of this group: how many there were, and their bytes.
    Synced {
        group: u64,
        blocks: u32,
        bytes: u64,
    },
    /// Every shard may cache so many bytes.
    Capped {
        c: u64,
    },
    /// The operation was refused. The cache may have changed all the same: a read that the pool refused had made room first.
    Refused(Refusal),
}

impl fmt::Display for Reply {
    ghost use Rattle.trace_text.specs.ReportText.{reply_text};

    ghost output = { λ reply. Some (reply_text reply) };

    fn fmt<W: fmt::Write>(&self, f: &mut fmt::Formatter<W>) -> fmt::Result {
        match self {
            Reply::Read {
                served,
                digest,
                shown,
            } => write!(f, "ok {} {digest} {shown}", word_of_served(*served)),
            Reply::Kept { served } => write!(f, "held {}", word_of_served(*served)),
            Reply::Dropped => write!(f, "dropped"),
            Reply::Got { size, shown } => write!(f, "got {size} {shown}"),
            Reply::Done => write!(f, "done"),
            Reply::Fed(report) => write!(f, "feed {}", FedWords(*report)),
            Reply::FedNone => write!(f, "feed none"),
            Reply::Synced {
                group,
                blocks,
                bytes,
            } => write!(f, "txg {group} blocks {blocks} bytes {bytes}"),
            Reply::Capped { c } => write!(f, "cap {c}"),
            Reply::Refused(refusal) => write!(f, "refused {refusal}"),
        }
    }
}

/// What a feed did, as its line says it.
#[derive(Clone, Copy)]
struct FedWords(FeedReport);

impl fmt::Display for FedWords {
    ghost use Rattle.trace_text.specs.ReportWords.{fed_words};

    ghost output = { λ words. Some (fed_words words.0) };

    fn fmt<W: fmt::Write>(&self, f: &mut fmt::Formatter<W>) -> fmt::Result {
        let FeedReport {
            picked,
            bytes,
            written,
            cleared,
            end,
        } = self.0;
        write!(
            f,
            "picked {picked} bytes {bytes} written {written} cleared {cleared} {}",
            word_of_end(end)
        )
    }
}

/// How a feed ended.
fn word_of_end(end: FeedStop) -> &'static str
    ensures { result.now ≡ end_word end }
{
    match end {
        FeedStop::Done => "ok",
        FeedStop::DevFault => "fault",
        FeedStop::NoMemory => "memory",
    }
}

/// Where the bytes of a read came from.
fn word_of_served(served: Served) -> &'static str
    ensures { result.now ≡ served_word served }
{
    match served {
        Served::Hit => "hit",
        Served::Pool => "pool",
        Served::L2 => "l2",
        Served::Past => "past",
    }
}
