//! A sink in memory.
ghost use Rattle.std.specs.Prelude.{◌≡◌, ◌≤◌, ◌<◌, ◌||◌, [], take, length, Some, IfOk, is_err};
ghost use Rattle.std.specs.Io.{WritesAtMost};
ghost use Rattle.std.specs.Io.KnownBytes.{WriteAppends};
ghost use Rattle.vdev_io.specs.Faults.{CountsFault, HasCause};
ghost use Rattle.vdev_io.specs.Memory.{MemorySink, counted, is_to_fail, new_log, takes_none, takes_of};

use super::calls::Calls;
use crate::fault::Failed;
use crate::sink::Sink;
use blk_ptr::NoMemory;
use std::alloc::Global;
use std::marker::Model;

/// A sink that keeps in memory what is written to it.
#[derive(Debug, Drop)]
pub struct MemSink {
    room: Vec<u8>,
    at: usize,
    most: usize,
    calls: Calls,
}

impl Model for MemSink {
    ghost Value = { MemorySink };

    ghost view = { λ sink. record { bytes = take sink.at sink.room.items; most = sink.most; room = length sink.room.items; log = sink.calls } };

    ghost invariant = { λ sink. sink.at ≤ length sink.room.items };
}

impl MemSink {
    /// An empty sink that takes at most `most` bytes in one call and `room` bytes in all, for which it takes the memory now.
    /// The calls numbered in `fail` are to fail, counted from 0.
    pub fn new(alloc: Global, most: usize, room: usize, fail: Vec<u64>) -> Result<MemSink, NoMemory>
        ensures { IfOk result (λ sink. sink ≡ record { bytes = []; most = most; room = room; log = new_log fail.items }) }
    {
        let room = vec![in alloc; 0; room]?;
        let calls = Calls::new(fail);
        Ok(MemSink {
            room,
            at: 0,
            most,
            calls,
        })
    }

    /// What was written so far.
    pub fn bytes(&self) -> &[u8]
        ensures { result.now ≡ self.now.bytes }
    {
        &self.room[..self.at]
    }
}

impl Sink for MemSink {
    ghost written = { λ sink. Some sink.bytes };

    ghost faults = { λ sink. sink.log.faults };

    fn write(&mut self, bytes: &[u8]) -> Result<usize, Failed>
        ensures bound { WritesAtMost result bytes.now }
        ensures taken { IfOk result (λ n. 0 < length bytes.now → 0 < n) }
        ensures bytes { WriteAppends (Some self.old.bytes) (Some self.new.bytes) result bytes.now }
        ensures most { IfOk result (λ n. n ≡ takes_of self.old (length bytes.now)) }
        ensures kept { (self.new.most ≡ self.old.most) × (self.new.room ≡ self.old.room) }
        ensures cause { HasCause self.old.log.faults self.new.log.faults result }
        ensures fault { CountsFault self.old.log.faults self.new.log.faults result }
        ensures listed { is_err result ≡ (is_to_fail self.old.log || takes_none self.old (length bytes.now)) }
        ensures calls { self.new.log ≡ counted self.old.log (is_err result) }
    {
        self.calls.begin()?;
        let n = bytes.len().min(self.most).min(self.room.len() - self.at);
        if n == 0 && !bytes.is_empty() {
            return Err(self.calls.fault());
        }
        self.room[self.at..self.at + n].copy_from_slice(&bytes[..n]);
        self.at += n;
        Ok(n)
    }
}
