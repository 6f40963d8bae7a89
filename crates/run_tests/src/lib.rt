//! Tests of whole runs: what the built program can't show, since a part of the outside has to fail at a known call, or callers have to
//! meet. There is no code here but tests, and what they share.
#![tactic(auto)]

#[cfg(test)]
mod devices;
#[cfg(test)]
mod faults;
#[cfg(test)]
mod gates;
#[cfg(test)]
mod runs;
