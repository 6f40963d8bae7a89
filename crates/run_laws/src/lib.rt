//! Laws of runs: what follows from the contract of `trace_run::run` for two runs of one trace.
#![tactic(auto)]

mod laws;

pub use laws::{one_callers_reports_are_runs, one_callers_runs_are_alike};
