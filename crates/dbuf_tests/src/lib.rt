//! Tests of dbufs over a shared cache, and of what a dbuf keeps of a block. There is no code here but tests, and what they share.
#![tactic(auto)]

#[cfg(test)]
mod ends;
#[cfg(test)]
mod kept;
#[cfg(test)]
mod memory;
