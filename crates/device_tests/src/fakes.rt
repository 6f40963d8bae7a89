//! A file that is short and fails, and a file system of such files.
ghost use Rattle.std.specs.Prelude.{◌≤◌, IfOk};

use std::alloc::Allocator;
use std::fs::{Metadata, OpenFile, OpenOptions};
use std::io;
use std::io::{Error, ErrorKind, Read, Seek, SeekFrom, Write};
use std::rt::Files;

/// A file of 16 bytes, of which a call moves at most three. Every second call is interrupted, and those at the place `bad` fail.
#[derive(Drop)]
pub(super) struct Choppy {
    bytes: [u8; 16],
    at: u64,
    bad: u64,
    interrupts: bool,
}

impl Choppy {
    fn new(bad: u64) -> Choppy {
        Choppy {
            bytes: *b"0123456789abcdef",
            at: 0,
            bad,
            interrupts: false,
        }
    }

    /// How many bytes the next call moves of so many.
    fn moves(&mut self, wanted: usize) -> io::Result<usize>
        ensures { IfOk result (λ n. n ≤ wanted) }
    {
        self.interrupts = !self.interrupts;
        if self.interrupts {
            return Err(Error::from(ErrorKind::Interrupted));
        }
        if self.at == self.bad {
            return Err(Error::from(ErrorKind::Other));
        }
        Ok(wanted.min(3))
    }
}

impl Read for Choppy {
    fn read(&mut self, buf: &mut [u8]) -> io::Result<usize> {
        let most = self.moves(buf.len())?;
        let mut left = &self.bytes[self.at.min(16) as usize..];
        let n = left.read(&mut buf[..most])?;
        self.at = self.at.saturating_add(n as u64);
        Ok(n)
    }
}

impl Write for Choppy {
    fn write(&mut self, bytes: &[u8]) -> io::Result<usize> {
        let most = self.moves(bytes.len())?;
        let mut left = &mut self.bytes[self.at.min(16) as usize..];
        let n = left.write(&bytes[..most])?;
        self.at = self.at.saturating_add(n as u64);
        Ok(n)
    }

    fn flush(&mut self) -> io::Result<()> {
        Ok(())
    }
}

impl Seek for Choppy {
    fn seek(&mut self, to: SeekFrom) -> io::Result<u64> {
        self.at = match to {
            SeekFrom::Start(at) => at,
            SeekFrom::End(_) => 16,
            SeekFrom::Current(_) => self.at,
        };
        Ok(self.at)
    }
}

/// It is made durable but at the place `bad`.
impl OpenFile for Choppy {
    fn metadata(&self) -> io::Result<Metadata> {
        Err(Error::from(ErrorKind::Unsupported))
    }

    fn set_len(&self, _size: u64) -> io::Result<()> {
        Err(Error::from(ErrorKind::Unsupported))
    }

    fn sync_all(&self) -> io::Result<()> {
        if self.at == self.bad {
            return Err(Error::from(ErrorKind::Other));
        }
        Ok(())
    }

    fn sync_data(&self) -> io::Result<()> {
        self.sync_all()
    }
}

/// A file system each of whose files is a [`Choppy`] one that is bad at this place. What it tells of a file is another's.
#[derive(Drop)]
pub(super) struct ChoppyFiles<'a, R>(pub(super) &'a R, pub(super) u64);

impl<R: Files> Files for ChoppyFiles<'_, R> {
    type File = Choppy;

    type Dir = R::Dir;

    fn open_file(&self, how: &OpenOptions, _path: &str) -> io::Result<Choppy> {
        how.check()?;
        Ok(Choppy::new(self.1))
    }

    fn open_dir(&self, path: &str) -> io::Result<R::Dir> {
        self.0.open_dir(path)
    }

    fn metadata(&self, path: &str) -> io::Result<Metadata> {
        self.0.metadata(path)
    }

    fn symlink_metadata(&self, path: &str) -> io::Result<Metadata> {
        self.0.symlink_metadata(path)
    }

    fn copy(&self, from: &str, to: &str) -> io::Result<u64> {
        self.0.copy(from, to)
    }

    fn rename(&self, from: &str, to: &str) -> io::Result<()> {
        self.0.rename(from, to)
    }

    fn remove_file(&self, path: &str) -> io::Result<()> {
        self.0.remove_file(path)
    }

    fn create_dir(&self, path: &str) -> io::Result<()> {
        self.0.create_dir(path)
    }

    fn remove_dir(&self, path: &str) -> io::Result<()> {
        self.0.remove_dir(path)
    }

    fn remove_dir_all<B: Allocator>(&self, alloc: B, path: &str) -> io::Result<()> {
        self.0.remove_dir_all(alloc, path)
    }
}
