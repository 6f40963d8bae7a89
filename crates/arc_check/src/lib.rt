//! Judges a log of events: whether what each shard of a cache is said to have done may have happened.
//!
//! A log is the text of a configuration and of the events of its shards, as a run prints them. What text is a log stands in
//! `specs/LogText.antt`, and what a verdict says in `specs/Judging.antt`.
#![tactic(auto)]

mod draft;
mod events;
mod fields;
mod forms;
mod judge;
mod laws;
mod log;
mod reader;
mod verdict;
mod words;

pub use judge::check;
pub use laws::{events_are_printed_as_spelled, histories_are_read_back, one_log, one_log_fault};
pub use log::{Log, LogTextFault};
pub use reader::read_events;
pub use trace_text::{Histories, History, Kind};
pub use verdict::Verdict;
