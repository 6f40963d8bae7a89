//! A log in the making: each line is taken in, or refused for its fault.
ghost use Rattle.std.specs.Prelude.{◌≡◌, ◌≤◌, ◌<◌, ◌+◌, ◌-◌, ◌↔◌, ◌∷◌, ◌++◌, [], IfErr, IfOk, IfSome, IsTrue, MatchOption, None, OnOk, length, replicate, vec_len};
ghost use Rattle.arc_core.specs.Operations.{event_key};
ghost use Rattle.blk_ptr.specs.Hash.{shard_of};
ghost use Rattle.arc_check.specs.DraftKeeps.{DraftKeeps, content_in};
ghost use Rattle.trace_text.specs.Grammar.{fields_of, shards_of};
ghost use Rattle.arc_check.specs.LogText.{AddsToLog, LogContent, IsInLogRange, IsLog, IsLogSaid, IsNext, at_shard, empty_log};
ghost use Rattle.arc_check.specs.Reading.{IsLineCause, IsLineRead, IsPlaced};
ghost use Rattle.arc_check.specs.declared.words.Line.TheVariants as line_of;

use crate::forms::{first_line, next_line};
use crate::log::Log;
use crate::words::{Line, LineFault, Made};
use arc_core::{Bounds, Config, Event, History as EventList};
use blk_ptr::{Key, NoMemory};
use std::alloc::Global;
use std::marker::Model;
use std::mem;
use trace_text::{Histories, History, Kind};

/// The most events of a log.
const MOST_EVENTS: u32 = 1_000_000;

/// What the lines so far say.
#[derive(Drop)]
pub(crate) struct Draft {
    config: Option<Config>,
    // Whether the line of a feed's bounds is read.
    bounded: bool,
    // The histories of the shards before the one in hand.
    closed: Vec<History>,
    // The history of the shard in hand.
    events: EventList,
    // How many events there are.
    count: u32,
}

impl Model for Draft {
    ghost Value = { LogContent };

    ghost view = { content_in };

    ghost invariant = { DraftKeeps };
}

impl Draft {
    /// What no line says.
    pub(crate) fn new(alloc: Global) -> Draft
        ensures { result ≡ empty_log }
    {
        Draft {
            config: None,
            bounded: false,
            closed: Vec::new(alloc),
            events: EventList::new(alloc),
            count: 0,
        }
    }

    /// AddsToLog what the line says. Of an `Err` no line follows.
    pub(crate) fn add(&mut self, line: &[u8]) -> Result<(), LineFault>
        ensures added { OnOk result (AddsToLog self.old line.now self.new) }
        ensures fault { IfErr result (IsLineCause self.old line.now) }
    {
        if line.is_empty() || line[0] == b'#' {
            return Ok(());
        }
        let said = self.line_of(line).map_err(LineFault::Wrong)?;
        self.place(said)
    }

    /// What a line that counts says.
    fn line_of(&self, line: &[u8]) -> Result<Line, Kind>
        ensures { IsLineRead self.now.config (fields_of line.now) result }
    {
        match self.config {
            None => first_line(line),
            Some(config) => next_line(config, line),
        }
    }

    /// AddsToLog a line that is in its ranges, where it may stand here and there is room.
    fn place(&mut self, said: Line) -> Result<(), LineFault>
        requires { IsInLogRange self.old.config said }
        ensures { IsPlaced self.old said self.new result }
    {
        match said {
            Line::Sizes(config) => {
                self.config = Some(config);
                Ok(())
            }
            Line::Feed(bounds) => self.set_bounds(bounds),
            Line::Made(made) => self.push(made),
        }
    }

    /// Takes the bounds of a feed in, once and before all events.
    fn set_bounds(&mut self, bounds: Bounds) -> Result<(), LineFault>
        requires { IsInLogRange self.old.config (line_of.Feed bounds) }
        ensures { IsPlaced self.old (line_of.Feed bounds) self.new result }
    {
        if self.bounded || self.count != 0 {
            return Err(LineFault::Wrong(Kind::Order));
        }
        self.bounded = true;
        self.config = self.config.map(|config| Config { bounds, ..config });
        Ok(())
    }

    /// AddsToLog an event to its shard's history, where it is the next one there.
    fn push(&mut self, made: Made) -> Result<(), LineFault>
        requires { IsInLogRange self.old.config (line_of.Made made) }
        ensures { IsPlaced self.old (line_of.Made made) self.new result }
    {
        if !self.is_next(&made) {
            return Err(LineFault::Wrong(Kind::Order));
        }
        if self.count == MOST_EVENTS {
            return Err(LineFault::Wrong(Kind::Count));
        }
        self.go_to(made.shard as usize)?;
        self.events.push(made.event)?;
        self.count += 1;
        Ok(())
    }

    /// Whether an event is the next of the shard in hand or the first of a greater one, and its key is of its shard.
    fn is_next(&self, made: &Made) -> bool
        requires { IsInLogRange self.now.config (line_of.Made made.now) }
        ensures { IsTrue result ↔ IsNext self.now made.now }
    {
        let shard = made.shard as usize;
        let next = if shard == self.closed.len() {
            self.events.len()
        } else {
            0
        };
        self.closed.len() <= shard && made.index == next as u64 && self.is_of_shard(made)
    }

    /// Whether the key of an event is of its shard.
    fn is_of_shard(&self, made: &Made) -> bool
        requires { IsInLogRange self.now.config (line_of.Made made.now) }
        ensures { IsTrue result ↔ IfSome (event_key made.now.event) (λ key. shard_of (shards_of self.now.config) key ≡ made.now.shard) }
    {
        let Some(config) = self.config else {
            return false;
        };
        match key_of(&made.event) {
            Some(key) => key.shard(config.shards) == made.shard,
            None => true,
        }
    }

    /// Takes the shard of this number in hand.
    fn go_to(&mut self, shard: usize) -> Result<(), NoMemory>
        requires at { length self.old.closed ≤ shard }
        requires within { shard < shards_of self.old.config }
        ensures { OnOk result (self.new ≡ at_shard shard self.old) }
    {
        if shard > self.closed.len() {
            let alloc = *self.closed.allocator();
            let events = mem::replace(&mut self.events, EventList::new(alloc));
            close_to(&mut self.closed, events, shard)?;
        }
        Ok(())
    }

    /// The log that the lines say, or None where they have no sizes.
    pub(crate) fn into_log(self) -> Result<Option<Log>, NoMemory>
        ensures said { IfOk result (λ log. MatchOption log (self.config ≡ None) (IsLogSaid self)) }
        ensures formed { IfOk result (λ log. IfSome log IsLog) }
    {
        let Draft {
            config,
            mut closed,
            events,
            ..
        } = self;
        let Some(config) = config else {
            return Ok(None);
        };
        close_to(&mut closed, events, config.shards as usize)?;
        let histories = Histories::from_vec(closed);
        Ok(Some(Log { config, histories }))
    }
}

/// Adds a history, and empty ones behind it up to so many.
fn close_to(closed: &mut Vec<History>, events: EventList, shards: usize) -> Result<(), NoMemory>
    requires { length closed.old.items < shards }
    ensures closed { OnOk result (closed.new.items ≡ closed.old.items ++ events.events ∷ replicate (shards - (length closed.old.items + 1)) []) }
    ensures bound { vec_len closed.new ≤ shards }
{
    let alloc = *closed.allocator();
    closed.push(History::of_events(events))?;
    while closed.len() < shards {
        closed.push(History::of_events(EventList::new(alloc)))?;
    }
    Ok(())
}

/// The key of an event, where it has one.
fn key_of(event: &Event) -> Option<Key>
    ensures { result ≡ event_key event.now }
{
    match *event {
        Event::Pass { key, .. }
        | Event::Hit { key, .. }
        | Event::Miss { key, .. }
        | Event::Arrive { key, .. }
        | Event::Fail { key, .. }
        | Event::Drop { key, .. }
        | Event::Past { key, .. }
        | Event::Hand { key, .. }
        | Event::Insert { key, .. }
        | Event::Release { key, .. }
        | Event::Pick { key, .. }
        | Event::Set { key, .. }
        | Event::Leave { key, .. }
        | Event::Clear { key, .. }
        | Event::Restore { key, .. } => Some(key),
        Event::FeedEnd { .. } | Event::Resize { .. } => None,
    }
}
