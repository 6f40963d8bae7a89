//! The standard streams as a source and a sink.
ghost use Rattle.std.specs.Prelude.{◌≡◌, ◌<◌, None, IfOk, is_err, if◌then◌else◌, length};
ghost use Rattle.std.specs.Io.{ReadsAtMost, WritesAtMost};
ghost use Rattle.std.specs.Io.KnownBytes.{ReadConsumes, WriteAppends};
ghost use Rattle.vdev_io.specs.Faults.{CountsFault, HasCause};

use crate::fault::{Failed, FaultCount};
use crate::sink::Sink;
use crate::source::Source;
use std::io;
use std::io::{ErrorKind, Read, Write};

/// The standard input. What std tells of it is told of this too. A read that a signal interrupts is made again.
#[derive(Drop)]
pub struct StdSource<'a, R: Input> {
    rt: &'a R,
    reader: R::Reader,
    faults: FaultCount,
}

impl<'a, R: Input> StdSource<'a, R> {
    /// The standard input from here on.
    pub fn new(rt: &'a R) -> StdSource<'a, R>
        ensures { result.faults.count ≡ 0 }
    {
        StdSource {
            rt,
            reader: rt.reader(),
            faults: FaultCount::new(),
        }
    }
}

impl<R: Input> Source for StdSource<'_, R> {
    ghost left = { λ source. R.Reader.remaining source.reader };

    ghost faults = { λ source. source.faults.count };

    fn read(&mut self, buf: &mut [u8]) -> Result<usize, Failed>
        ensures bound { ReadsAtMost result buf.new }
        ensures bytes { ReadConsumes (R.Reader.remaining self.old.reader) (R.Reader.remaining self.new.reader) result buf.new }
        ensures cause { HasCause self.old.faults.count self.new.faults.count result }
        ensures fault { CountsFault self.old.faults.count self.new.faults.count result }
    {
        self.faults.tell(read_some(&mut self.reader, buf))
    }
}

/// The standard output. Nothing is told of it. A write that a signal interrupts is made again, and one that takes nothing
/// has failed.
#[derive(Drop)]
pub struct StdSink<'a, R: Print> {
    rt: &'a R,
    faults: FaultCount,
}

impl<'a, R: Print> StdSink<'a, R> {
    /// The standard output, to which nothing was written by this sink yet.
    pub fn new(rt: &'a R) -> StdSink<'a, R>
        ensures { result.faults.count ≡ 0 }
    {
        StdSink {
            rt,
            faults: FaultCount::new(),
        }
    }
}

impl<R: Print> Sink for StdSink<'_, R> {
    ghost written = { λ _. None };

    ghost faults = { λ sink. sink.faults.count };

    fn write(&mut self, bytes: &[u8]) -> Result<usize, Failed> {
        self.faults
            .tell(write_some(&mut io::writer(self.rt), bytes))
    }
}

/// Reads once, and again where a signal interrupts it.
pub(crate) fn read_some<R: Read>(reader: &mut R, buf: &mut [u8]) -> io::Result<usize>
    ensures bound { ReadsAtMost result buf.new }
    ensures bytes { ReadConsumes (R.remaining reader.old) (R.remaining reader.new) result buf.new }
{
    for _ in 0..u64::MAX {
        match reader.read(buf) {
            Err(error) if error.kind() == ErrorKind::Interrupted => {}
            answer => return answer,
        }
    }
    Err(io::Error::from(ErrorKind::Interrupted))
}

/// Writes once, and again where a signal interrupts it. That nothing is taken of a nonempty piece is an error.
pub(crate) fn write_some<W: Write>(writer: &mut W, bytes: &[u8]) -> io::Result<usize>
    ensures bound { WritesAtMost result bytes.now }
    ensures taken { IfOk result (λ n. 0 < length bytes.now → 0 < n) }
    ensures bytes { WriteAppends (W.contents writer.old) (W.contents writer.new) result bytes.now }
{
    for _ in 0..u64::MAX {
        match writer.write(bytes) {
            Err(error) if error.kind() == ErrorKind::Interrupted => {}
            Ok(0) if !bytes.is_empty() => return Err(io::Error::from(ErrorKind::WriteZero)),
            answer => return answer,
        }
    }
    Err(io::Error::from(ErrorKind::Interrupted))
}
