//! How the lines of a trace are printed.
ghost use Rattle.std.specs.Prelude.{Some};
ghost use Rattle.trace_text.specs.TraceText.{line_words};
ghost use Rattle.trace_text.specs.declared.words.Line.TheVariants.{Declared, Limited, Mapped, Operation, Sizes};

use crate::mapping::Mapping;
use crate::op::Op;
use arc_core::{Bounds, Config};
use blk_ptr::{Hex, Key, Ptr};
use dbuf_state::{Oid, Window};
use std::fmt;

/// The sizes of the cache as their line.
#[derive(Clone, Copy)]
pub(crate) struct SizesWords(pub(crate) Config);

impl fmt::Display for SizesWords {
    ghost output = { λ words. Some (line_words (Sizes words.0)) };

    fn fmt<W: fmt::Write>(&self, f: &mut fmt::Formatter<W>) -> fmt::Result {
        let Config {
            callers,
            shards,
            buckets,
            cells,
            c,
            mintime,
            dbuf_bytes,
            bounds: _,
        } = self.0;
        write!(
            f,
            "arc {callers} {shards} {buckets} {cells} {c} {mintime} {dbuf_bytes}"
        )
    }
}

/// The bounds of a feed as their line.
#[derive(Clone, Copy)]
pub(crate) struct BoundsWords(pub(crate) Bounds);

impl fmt::Display for BoundsWords {
    ghost output = { λ words. Some (line_words (Limited words.0)) };

    fn fmt<W: fmt::Write>(&self, f: &mut fmt::Formatter<W>) -> fmt::Result {
        let Bounds {
            write_max,
            headroom,
        } = self.0;
        write!(f, "l2 {write_max} {headroom}")
    }
}

/// A block pointer as its line.
#[derive(Clone, Copy)]
pub(crate) struct BlockWords(pub(crate) Ptr);

impl fmt::Display for BlockWords {
    ghost output = { λ words. Some (line_words (Declared words.0)) };

    fn fmt<W: fmt::Write>(&self, f: &mut fmt::Formatter<W>) -> fmt::Result {
        let Ptr { key, digest } = self.0;
        let Key {
            offset,
            size,
            birth,
        } = key;
        write!(f, "block {offset} {size} {birth} {digest}")
    }
}

impl fmt::Display for Mapping {
    ghost output = { λ mapping. Some (line_words (Mapped mapping)) };

    fn fmt<W: fmt::Write>(&self, f: &mut fmt::Formatter<W>) -> fmt::Result {
        let Mapping { at, block } = *self;
        write!(f, "object {} {block}", OidWords(at))
    }
}

impl fmt::Display for Op {
    ghost output = { λ op. Some (line_words (Operation op)) };

    fn fmt<W: fmt::Write>(&self, f: &mut fmt::Formatter<W>) -> fmt::Result {
        match self {
            Op::Read { n, t, x, w } => write!(f, "read {n} {t} {x} {}", WindowWords(*w)),
            Op::Hold { n, t, x } => write!(f, "hold {n} {t} {x}"),
            Op::Drop { n, x } => write!(f, "drop {n} {x}"),
            Op::Get { n, t, at, w } => write!(
                f,
                "get {n} {t} {} {}",
                OidWords(*at),
                WindowWords(*w)
            ),
            Op::Put {
                n,
                t,
                at,
                size,
                fill,
            } => {
                let fill = [*fill];
                write!(
                    f,
                    "put {n} {t} {} {size} {}",
                    OidWords(*at),
                    Hex::new(&fill)
                )
            }
            Op::Patch {
                n,
                t,
                at,
                from,
                bytes,
            } => write!(
                f,
                "patch {n} {t} {} {from} {}",
                OidWords(*at),
                Hex::new(bytes.bytes())
            ),
            Op::Pin { n, t, at } => write!(f, "pin {n} {t} {}", OidWords(*at)),
            Op::Unpin { n, at } => write!(f, "unpin {n} {}", OidWords(*at)),
            Op::Feed => write!(f, "feed"),
            Op::Txg { t } => write!(f, "txg {t}"),
            Op::Cap { c } => write!(f, "cap {c}"),
        }
    }
}

/// A block of an object as its two numbers.
#[derive(Clone, Copy)]
struct OidWords(Oid);

impl fmt::Display for OidWords {
    ghost use Rattle.trace_text.specs.TraceText.{oid_words};

    ghost output = { λ words. Some (oid_words words.0) };

    fn fmt<W: fmt::Write>(&self, f: &mut fmt::Formatter<W>) -> fmt::Result {
        let Oid { object, block } = self.0;
        write!(f, "{object} {block}")
    }
}

/// A window as its two numbers.
#[derive(Clone, Copy)]
struct WindowWords(Window);

impl fmt::Display for WindowWords {
    ghost use Rattle.trace_text.specs.TraceText.{window_words};

    ghost output = { λ words. Some (window_words words.0) };

    fn fmt<W: fmt::Write>(&self, f: &mut fmt::Formatter<W>) -> fmt::Result {
        let Window { at, len } = self.0;
        write!(f, "{at} {len}")
    }
}
