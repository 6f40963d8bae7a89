//! Tests of the texts of traces and reports, above the crate `trace_text`: what the built program doesn't print. There is no code here
//! but tests, and what they share.
#![tactic(auto)]

#[cfg(test)]
mod printing;
#[cfg(test)]
mod reports;
