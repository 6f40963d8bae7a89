//! The texts of the program: the trace that it reads, and the report that it writes.
//!
//! A trace is a list of lines: the sizes of a cache, the block pointers that it may read, and the operations
//! of its callers. What text is a trace stands in `specs/Grammar.antt`, apart from the reader; where a text
//! is none, the reader names the first line at fault and what is wrong with it. What a report's text is stands in
//! `specs/ReportText.antt`.
#![tactic(auto)]

mod bounds;
mod counting;
mod counts;
mod dbuf_forms;
mod draft;
mod ends;
mod event_words;
mod events;
mod fault;
mod fields;
mod forms;
mod generator;
mod items;
mod laws;
mod line;
mod line_words;
mod mapping;
mod mappings;
mod op;
mod pages;
mod parts;
mod print;
mod print_events;
mod print_reply;
mod printer;
mod reader;
mod rebuilt;
mod reply;
mod report;
mod run;
mod shown_bytes;
mod totals;
mod trace;
mod words;

pub use arc_core::{Bounds, Config, Restored, Served};
pub use counting::counts_of;
pub use counts::Counts;
pub use dbuf_state::{MOST_SHOWN, Oid, Shown, Window};
pub use ends::ShardEnd;
pub use events::event_text;
pub use fault::{Kind, TraceFault};
pub use fields::{digest, number};
pub use generator::{MOST_GENERATED_BLOCKS, MOST_GENERATED_READS, gen_trace};
pub use items::{Blocks, Ends, Histories, History, Items, Objects, Ops, Replies, RestoredList};
pub use l2_dev::{FeedReport, FeedStop, Stop};
pub use l2_log::LogFault;
pub use laws::{one_fault, one_trace, printed_reads_back, written_lines};
pub use mapping::Mapping;
pub use op::Op;
pub use pages::read_pages;
pub use parts::Parts;
pub use print::report_text;
pub use printer::print_trace;
pub use reader::{LONGEST_TEXT, read_trace};
pub use rebuilt::Rebuilt;
pub use reply::{Refusal, Reply};
pub use report::Report;
pub use run::Run;
pub use shown_bytes::ShownBytes;
pub use totals::Totals;
pub use trace::Trace;
