//! What is told when a caller begins and ends an operation.

/// What is told when a caller is about to begin an operation and when it has ended it, so that a test can hold callers back.
pub trait Gate: Sync {
    /// Caller `n` is about to begin its operation `op`, counted from 0 over all operations of the trace.
    fn before(&self, n: u32, op: u32);

    /// Caller `n` has ended its operation `op`.
    fn after(&self, n: u32, op: u32);
}

/// The gate that holds nobody back.
#[derive(Clone, Copy, Debug)]
pub struct FreeGate;

impl Gate for FreeGate {
    fn before(&self, _n: u32, _op: u32) {}

    fn after(&self, _n: u32, _op: u32) {}
}
