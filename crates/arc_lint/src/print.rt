//! What is told of a text.
ghost use Rattle.std.specs.Prelude.{◌≡◌, IfOk, Some};
ghost use Rattle.arc_lint.specs.Told.{bad_text, declared_words, fault_words, kind_word, log_text, pages_text, sizes_words, trace_text, verdict_text};

use crate::line::{line_of, write_shown};
use crate::verdict::{Declared, Format, Verdict};
use crate::wanted::wanted;
use arc_core::{Bounds, Config};
use std::alloc::{AllocError, Global};
use std::fmt;
use std::fmt::Write;
use trace_text::Kind;

/// What is told of a text on which this is the verdict.
pub(crate) fn verdict_text(
    alloc: Global,
    format: Format,
    text: &[u8],
    verdict: Verdict,
) -> Result<Vec<u8>, AllocError>
    ensures { IfOk result (λ told. told.items ≡ verdict_text format text.now verdict) }
{
    match verdict {
        Verdict::Trace(declared) => trace_text(alloc, declared),
        Verdict::Pages(pages) => pages_text(alloc, pages),
        Verdict::Log { config, events } => log_text(alloc, config, events),
        Verdict::Bad { line, kind } => bad_text(alloc, format, text, line, kind),
    }
}

/// What is told of a trace.
fn trace_text(alloc: Global, declared: Declared) -> Result<Vec<u8>, AllocError>
    ensures { IfOk result (λ told. told.items ≡ trace_text declared) }
{
    let mut told = String::new(alloc);
    write!(told, "ok {declared}\n")?;
    Vec::from_slice(alloc, told.as_bytes())
}

/// What is told of a list of pages.
fn pages_text(alloc: Global, pages: usize) -> Result<Vec<u8>, AllocError>
    ensures { IfOk result (λ told. told.items ≡ pages_text pages) }
{
    let mut told = String::new(alloc);
    write!(told, "ok pages {pages}\n")?;
    Vec::from_slice(alloc, told.as_bytes())
}

/// What is told of a log of events.
fn log_text(alloc: Global, config: Config, events: u128) -> Result<Vec<u8>, AllocError>
    ensures { IfOk result (λ told. told.items ≡ log_text config events) }
{
    let mut told = String::new(alloc);
    write!(told, "ok {} events {events}\n", SizesWords(config))?;
    Vec::from_slice(alloc, told.as_bytes())
}

/// What is told of a text with a fault: the line's number and the kind, what is shown of the line, and what is wanted there.
fn bad_text(
    alloc: Global,
    format: Format,
    text: &[u8],
    line: u32,
    kind: Kind,
) -> Result<Vec<u8>, AllocError>
    ensures { IfOk result (λ told. told.items ≡ bad_text format text.now line kind) }
{
    let mut told = fault_words(alloc, line, kind)?;
    write_shown(&mut told, line_of(text, line))?;
    told.push(b'\n')?;
    told.extend_from_slice(wanted(format, kind).as_bytes())?;
    told.push(b'\n')?;
    Ok(told)
}

/// The line that has the number of the line at fault, and the kind.
fn fault_words(alloc: Global, line: u32, kind: Kind) -> Result<Vec<u8>, AllocError>
    ensures { IfOk result (λ told. told.items ≡ fault_words line kind) }
{
    let mut told = String::new(alloc);
    write!(told, "bad {line} {}\n", kind_word(kind))?;
    Vec::from_slice(alloc, told.as_bytes())
}

impl fmt::Display for Declared {
    ghost output = { λ declared. Some (declared_words declared) };

    fn fmt<W: fmt::Write>(&self, f: &mut fmt::Formatter<W>) -> fmt::Result {
        let Declared {
            config,
            blocks,
            objects,
            ops,
        } = *self;
        write!(
            f,
            "{} blocks {blocks} objects {objects} operations {ops}",
            SizesWords(config)
        )
    }
}

/// The sizes of a cache, with their names.
#[derive(Clone, Copy)]
struct SizesWords(Config);

impl fmt::Display for SizesWords {
    ghost output = { λ words. Some (sizes_words words.0) };

    fn fmt<W: fmt::Write>(&self, f: &mut fmt::Formatter<W>) -> fmt::Result {
        let Config {
            callers,
            shards,
            buckets,
            cells,
            c,
            mintime,
            dbuf_bytes,
            bounds: Bounds {
                write_max,
                headroom,
            },
        } = self.0;
        write!(
            f,
            "callers {callers} shards {shards} buckets {buckets} cells {cells} c {c} mintime {mintime} dbufs {dbuf_bytes} write_max {write_max} headroom {headroom}"
        )
    }
}

/// The name of a kind of fault.
fn kind_word(kind: Kind) -> &'static str
    ensures { result.now ≡ kind_word kind }
{
    match kind {
        Kind::First => "First",
        Kind::Word => "Word",
        Kind::Shape => "Shape",
        Kind::Number => "Number",
        Kind::Order => "Order",
        Kind::Count => "Count",
        Kind::Length => "Length",
    }
}
