//! Tests of the reader and the judge of logs, above the crate `arc_check`.
#![tactic(auto)]

#[cfg(test)]
mod logs;
