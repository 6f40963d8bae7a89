//! A trace in the making: each line is taken in, or refused for its fault.
ghost use Rattle.std.specs.Prelude.{◌≡◌, ◌≤◌, IfErr, MatchOption, None, OnOk, length, vec_len};
ghost use Rattle.trace_text.specs.Grammar.{Adds, Content, content_of, fields_of, nothing, seen_of, with_bounds};
ghost use Rattle.trace_text.specs.Reading.{IsBegun, IsLineCause, IsLineRead, IsPlaced};

use crate::fault::Kind;
use crate::fields::word_of;
use crate::items::{Blocks, Objects, Ops};
use crate::line::{has_shape, line_after};
use crate::mappings::Mappings;
use crate::op::Op;
use crate::parts::Parts;
use crate::trace::Trace;
use crate::words::{Line, LineFault, Seen, Word};
use arc_core::{Bounds, Config};
use blk_ptr::Ptr;
use std::alloc::Global;
use std::marker::Model;

/// The most block lines of a trace.
const MOST_BLOCKS: usize = 100_000;

/// The most mappings of a trace.
const MOST_OBJECTS: usize = 100_000;

/// The most operations of a trace.
const MOST_OPERATIONS: usize = 1_000_000;

/// What the lines so far say.
#[derive(Drop)]
pub(crate) struct Draft {
    config: Option<Config>,
    // Whether a line gave the bounds of a feed.
    limited: bool,
    blocks: Vec<Ptr>,
    objects: Mappings,
    operations: Vec<Op>,
}

impl Model for Draft {
    ghost Value = { Content };

    ghost view = { λ draft. record { config = draft.config; limited = draft.limited; blocks = draft.blocks.items; objects = draft.objects; ops = draft.operations.items } };

    ghost invariant = { λ draft. (vec_len draft.blocks ≤ 100000) × (length draft.objects ≤ 100000) × (vec_len draft.operations ≤ 1000000) };
}

/// The word that a line begins with, where it may stand here: `arc` first, and the others after it.
fn begun(config: Option<Config>, first: &[u8]) -> Result<Word, Kind>
    ensures { IsBegun config first.now result }
{
    match (word_of(first), config) {
        (Some(Word::Arc), None) => Ok(Word::Arc),
        (_, None) => Err(Kind::First),
        (Some(Word::Arc) | None, Some(_)) => Err(Kind::Word),
        (Some(word), Some(_)) => Ok(word),
    }
}

/// The sizes with these bounds of a feed.
fn with_bounds(config: Option<Config>, bounds: Bounds) -> Option<Config>
    ensures { result ≡ with_bounds config bounds }
{
    match config {
        Some(config) => Some(Config { bounds, ..config }),
        None => None,
    }
}

impl Draft {
    /// What no line says.
    pub(crate) fn new(alloc: Global) -> Draft
        ensures { result ≡ nothing }
    {
        Draft {
            config: None,
            limited: false,
            blocks: Vec::new(alloc),
            objects: Mappings::new(alloc),
            operations: Vec::new(alloc),
        }
    }

    /// How much the lines so far say.
    fn seen(&self) -> Seen
        ensures { result ≡ seen_of self.now }
    {
        Seen {
            callers: self.config.map_or(0, |sizes| sizes.callers),
            shards: self.config.map_or(0, |sizes| sizes.shards),
            limited: self.limited,
            blocks: self.blocks.len() as u32,
            objects: self.objects.len() as u32,
            operations: self.operations.len() as u32,
        }
    }

    /// What a line that counts says.
    fn line_of(&self, line: &[u8]) -> Result<Line, LineFault>
        ensures { IsLineRead self.now (fields_of line.now) result }
    {
        let mut fields = Parts::new(line, b' ');
        let first = fields.next().unwrap_or(b"");
        let word = begun(self.config, first)?;
        let alloc = *self.operations.allocator();
        match line_after(alloc, word, self.seen(), &mut fields) {
            // A line that says something has the shape of its word, so only one at fault is looked at once more.
            Err(LineFault::Wrong(_)) if !has_shape(word, line) => Err(Kind::Shape.into()),
            said => said,
        }
    }

    /// Adds what the line says. Of an `Err` no line follows.
    pub(crate) fn add(&mut self, line: &[u8]) -> Result<(), LineFault>
        ensures added { OnOk result (Adds self.old line.now self.new) }
        ensures fault { IfErr result (IsLineCause self.old line.now) }
    {
        if line.is_empty() || line[0] == b'#' {
            return Ok(());
        }
        let said = self.line_of(line)?;
        self.push(said)
    }

    /// Adds a line that is in order, where it maps no block again and there is room.
    fn push(&mut self, said: Line) -> Result<(), LineFault>
        ensures { IsPlaced self.old said self.new result }
    {
        match said {
            Line::Sizes(config) => self.config = Some(config),
            Line::Limited(bounds) => {
                self.config = with_bounds(self.config, bounds);
                self.limited = true;
            }
            Line::Declared(ptr) => {
                if self.blocks.len() == MOST_BLOCKS {
                    return Err(LineFault::Wrong(Kind::Count));
                }
                self.blocks.push(ptr)?;
            }
            Line::Mapped(mapping) => {
                if self.objects.has(mapping.at) {
                    return Err(LineFault::Wrong(Kind::Order));
                }
                if self.objects.len() == MOST_OBJECTS {
                    return Err(LineFault::Wrong(Kind::Count));
                }
                self.objects.push(mapping)?;
            }
            Line::Operation(operation) => {
                if self.operations.len() == MOST_OPERATIONS {
                    return Err(LineFault::Wrong(Kind::Count));
                }
                self.operations.push(operation)?;
            }
        }
        Ok(())
    }

    /// The trace that the lines say, or None where they have no sizes.
    pub(crate) fn into_trace(self) -> Option<Trace>
        ensures { MatchOption result (self.config ≡ None) (λ trace. self ≡ content_of trace self.limited) }
    {
        let Draft {
            config,
            limited: _,
            blocks,
            objects,
            operations,
        } = self;
        Some(Trace {
            config: config?,
            blocks: Blocks::from_vec(blocks),
            objects: Objects::from_vec(objects.into_vec()),
            ops: Ops::from_vec(operations),
        })
    }
}
