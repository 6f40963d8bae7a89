//! What the adapters over files share: why a file can't be had, its length, and reading and writing at a place.
ghost use Rattle.std.specs.Prelude.{◌≡◌, ◌≤◌, ◌↔◌, IfOk, OnOk};
ghost use Rattle.std.specs.IoError.{error_kind};
ghost use Rattle.std.specs.declared.io.ErrorKind.TheVariants.{OutOfMemory};
ghost use Rattle.vdev_io.specs.declared.file.OpenFault.TheVariants.{NoMemory as OpenNoMemory};
ghost use Rattle.vdev_io.specs.Place.{HasLength, ReadsAt, WritesAt};

use std::alloc::AllocError;
use std::fs::OpenOptions;
use std::io;
use std::io::{ErrorKind, Read, Seek, SeekFrom, Write};
use std::rt::Files;

/// Why a file can't be had.
#[derive(Clone, Copy, Debug, PartialEq, Eq)]
pub enum OpenFault {
    /// It can't be opened, is a directory, or is longer than it may be.
    File,
    /// Memory was refused.
    NoMemory,
}

impl From<io::Error> for OpenFault {
    ghost from_gives = { λ error fault. (fault ≡ OpenNoMemory) ↔ (error_kind error ≡ OutOfMemory) };

    fn from(error: io::Error) -> Self {
        match error.kind() {
            ErrorKind::OutOfMemory => OpenFault::NoMemory,
            _ => OpenFault::File,
        }
    }
}

impl From<AllocError> for OpenFault {
    ghost from_gives = { λ _ fault. fault ≡ OpenNoMemory };

    fn from(_refused: AllocError) -> Self {
        OpenFault::NoMemory
    }
}

/// Opens the file of this name to be read and written. It is neither made nor cut.
pub(crate) fn open_to_write<R: Files>(rt: &R, name: &str) -> io::Result<R::File> {
    OpenOptions::new().read(true).write(true).open(rt, name)
}

/// The length of an opened file, which may be at most `longest`.
pub(crate) fn length_of<F: Seek>(file: &mut F, longest: u64) -> Result<u64, OpenFault>
    ensures bound { IfOk result (λ len. len ≤ longest) }
    ensures told { IfOk result (HasLength F.stream_position F.stream_bytes file.old) }
{
    let len = file.seek(SeekFrom::End(0))?;
    if len <= longest {
        Ok(len)
    } else {
        Err(OpenFault::File)
    }
}

/// Fills `buf` with the bytes of the file from `offset` on. A read that gives less, or that a signal interrupts, is gone on
/// with; the end of the file before `buf` is full is an error.
pub(crate) fn read_at<F: Read + Seek>(file: &mut F, offset: u64, buf: &mut [u8]) -> io::Result<()>
    ensures { OnOk result (ReadsAt F.stream_position F.remaining offset file.old file.new buf.new) }
{
    file.seek(SeekFrom::Start(offset))?;
    file.read_exact(buf)
}

/// Writes `bytes` to the file from `offset` on. A write that takes less, or that a signal interrupts, is gone on with.
pub(crate) fn write_at<F: Write + Seek>(file: &mut F, offset: u64, bytes: &[u8]) -> io::Result<()>
    ensures { OnOk result (WritesAt F.stream_position F.contents offset file.old file.new bytes.now) }
{
    file.seek(SeekFrom::Start(offset))?;
    file.write_all(bytes)
}
