//! A source in memory.
ghost use Rattle.std.specs.Prelude.{◌≡◌, ◌≤◌, drop, take, length, min, Some, is_err};
ghost use Rattle.std.specs.Io.{ReadsAtMost};
ghost use Rattle.std.specs.Io.KnownBytes.{ReadConsumes};
ghost use Rattle.vdev_io.specs.Faults.{CountsFault, HasCause};
ghost use Rattle.vdev_io.specs.Memory.{MemoryStream, after_call, is_to_fail, new_log};

use super::calls::Calls;
use crate::fault::Failed;
use crate::source::Source;
use std::marker::Model;

/// A source of bytes in memory.
#[derive(Debug, Drop)]
pub struct MemSource {
    bytes: Vec<u8>,
    at: usize,
    calls: Calls,
}

impl Model for MemSource {
    ghost Value = { MemoryStream };

    ghost view = { λ source. record { bytes = drop source.at source.bytes.items; log = source.calls } };

    ghost invariant = { λ source. source.at ≤ length source.bytes.items };
}

impl MemSource {
    /// A source of these bytes, of which the calls numbered in `fail` are to fail, counted from 0.
    pub fn new(bytes: Vec<u8>, fail: Vec<u64>) -> MemSource
        ensures { result ≡ record { bytes = bytes.items; log = new_log fail.items } }
    {
        let calls = Calls::new(fail);
        MemSource {
            bytes,
            at: 0,
            calls,
        }
    }
}

impl Source for MemSource {
    ghost left = { λ source. Some source.bytes };

    ghost faults = { λ source. source.log.faults };

    fn read(&mut self, buf: &mut [u8]) -> Result<usize, Failed>
        ensures bound { ReadsAtMost result buf.new }
        ensures bytes { ReadConsumes (Some self.old.bytes) (Some self.new.bytes) result buf.new }
        ensures cause { HasCause self.old.log.faults self.new.log.faults result }
        ensures fault { CountsFault self.old.log.faults self.new.log.faults result }
        ensures listed { is_err result ≡ is_to_fail self.old.log }
        ensures calls { self.new.log ≡ after_call self.old.log }
    {
        self.calls.begin()?;
        let n = copy_front(buf, &self.bytes[self.at..]);
        self.at += n;
        Ok(n)
    }
}

/// Copies as many bytes to the front of `buf` as there are and fit, and answers how many.
fn copy_front(buf: &mut [u8], bytes: &[u8]) -> usize
    ensures count { result ≡ min (length buf.new) (length bytes.now) }
    ensures copied { take result buf.new ≡ take result bytes.now }
{
    let n = buf.len().min(bytes.len());
    buf[..n].copy_from_slice(&bytes[..n]);
    n
}
