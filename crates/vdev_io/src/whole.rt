//! All of a source, and all of a text to a sink.
ghost use Rattle.std.specs.Prelude.{◌≡◌, ◌≤◌, ◌+◌, ◌^◌, ◌<◌, length, IfOk, OnOk};
ghost use Rattle.std.specs.Io.KnownBytes.{Appends};
ghost use Rattle.vdev_io.specs.Faults.{CountsFault};
ghost use Rattle.vdev_io.specs.Streams.{Gives, GivesPiece, AppendsFront, CountsReading, TakesAtMost};

use crate::fault::Failed;
use crate::sink::Sink;
use crate::source::Source;
use std::alloc::{AllocError, Global};

/// The bytes that are asked for in one read.
const PIECE: usize = 65_536;

/// Why a source was not read.
#[derive(Clone, Copy, Debug, PartialEq, Eq)]
pub enum ReadAllFault {
    /// The source failed.
    SourceFault,
    /// Memory was refused.
    NoMemory,
}

impl From<AllocError> for ReadAllFault {
    ghost use Rattle.std.specs.Prelude.{◌≡◌};
    ghost use Rattle.vdev_io.specs.declared.whole.ReadAllFault.TheVariants.{NoMemory};

    ghost from_gives = { λ _ fault. fault ≡ NoMemory };

    fn from(_refused: AllocError) -> Self {
        ReadAllFault::NoMemory
    }
}

impl From<Failed> for ReadAllFault {
    ghost use Rattle.std.specs.Prelude.{◌≡◌};
    ghost use Rattle.vdev_io.specs.declared.whole.ReadAllFault.TheVariants.{SourceFault};

    ghost from_gives = { λ _ fault. fault ≡ SourceFault };

    fn from(_failed: Failed) -> Self {
        ReadAllFault::SourceFault
    }
}

/// Reads a source to its end, or up to the first byte past `most`. However it ends, no more was taken, and the first call that fails is the last.
pub fn read_all<S: Source>(
    alloc: Global,
    source: &mut S,
    most: usize,
) -> Result<Vec<u8>, ReadAllFault>
    requires { most < 2 ^ 32 }
    ensures took { TakesAtMost (S.left source.old) (S.left source.new) (most + 1) }
    ensures ok { IfOk result (λ text. Gives (S.left source.old) (S.left source.new) most text.items) }
    ensures faults { CountsReading (S.faults source.old) (S.faults source.new) result }
{
    let mut text = Vec::new(alloc);
    let mut piece = Vec::new(alloc);
    piece.resize(PIECE, 0)?;
    while text.len() <= most {
        let room = piece.len().min(most + 1 - text.len());
        if read_piece(source, &mut text, &mut piece[..room])? == 0 {
            return Ok(text);
        }
    }
    Ok(text)
}

/// Reads one piece of a source and appends it to the text.
fn read_piece<S: Source>(
    source: &mut S,
    text: &mut Vec<u8>,
    piece: &mut [u8],
) -> Result<usize, ReadAllFault>
    requires { 0 < length piece.old }
    ensures took { TakesAtMost (S.left source.old) (S.left source.new) (length piece.old) }
    ensures read { IfOk result (GivesPiece (S.left source.old) (S.left source.new) text.old.items text.new.items) }
    ensures bound { IfOk result (λ n. n ≤ length piece.old) }
    ensures faults { CountsReading (S.faults source.old) (S.faults source.new) result }
{
    let n = source.read(piece)?;
    text.extend_from_slice(&piece[..n])?;
    Ok(n)
}

/// Writes all of a text, or a front of it where a call of the sink fails, which is the last one.
pub fn write_all<K: Sink>(sink: &mut K, text: &[u8]) -> Result<(), Failed>
    ensures ok { OnOk result (Appends (K.written sink.old) (K.written sink.new) text.now) }
    ensures faults { CountsFault (K.faults sink.old) (K.faults sink.new) result }
    ensures front { AppendsFront (K.written sink.old) (K.written sink.new) text.now }
{
    let mut at = 0;
    while at < text.len() {
        at += sink.write(&text[at..])?;
    }
    Ok(())
}
