//! A run of bytes of a trace.
ghost use Rattle.std.specs.Prelude.{◌≡◌, ◌≤◌, IfOk, ℕ, List, length};

use dbuf_state::{MOST_SHOWN, Shown};
use std::alloc::{AllocError, Global};
use std::marker::Model;

/// From 1 to 64 bytes that a line writes. They lie on the heap, so that other operations don't take their room. Contracts see the list of them.
#[derive(Drop)]
pub struct Run {
    bytes: Box<Shown>,
}

impl Model for Run {
    ghost Value = { List ℕ };

    ghost view = { λ run. run.bytes.value };
}

impl Run {
    /// Moves the bytes to the heap.
    pub fn new(alloc: Global, bytes: Shown) -> Result<Run, AllocError>
        ensures { IfOk result (λ run. run ≡ bytes) }
    {
        Ok(Run {
            bytes: Box::new(alloc, bytes)?,
        })
    }

    /// The bytes.
    pub fn bytes(&self) -> &[u8]
        ensures bytes { result.now ≡ self.now }
        ensures few { length result.now ≤ MOST_SHOWN }
    {
        self.bytes.bytes()
    }
}
