//! A pool over a file or a block device. Nothing is told of its content.
ghost use Rattle.std.specs.Prelude.{◌≡◌, ◌^◌, ◌≤◌, None, IfOk, OnOk, IfSome, IsErrOf, IsNone, IsSome, is_err, if◌then◌else◌, string_bytes};
ghost use Rattle.vdev_io.specs.Faults.{CountsFault, CountsIoFault, CountsOne, HasCause, HasIoCause, sum_of_counts};
ghost use Rattle.vdev_io.specs.Place.{HasLength, OnDisk, ReadsAt, WritesAt};
ghost use Rattle.vdev_io.specs.Untold.{GivesAnything, TellsNothing, untold};

use crate::fault::{Failed, FaultCount, IoFault};
use crate::file::{OpenFault, length_of, open_to_write, read_at, write_at};
use crate::pool::Pool;
use std::alloc::Global;
use std::io::ErrorKind;
use std::rt::Files;
use std::{fs, io};

/// The greatest length of a pool, in bytes.
pub const LONGEST_POOL: u64 = 1 << 40;

/// A pool in a file or on a block device.
///
/// Its length is the one that it had when it was opened: where the file has shrunk since, a read behind its end fails, and
/// what it has grown by isn't seen. A read or a write that the system does in parts is gone on with, and one that a signal
/// interrupts is made again. A fork has the file open to be read alone, so no write through one comes to the pool.
#[derive(Drop)]
pub struct FilePool<'a, R: Files> {
    rt: &'a R,
    disk: Option<Disk<R::File>>,
    len: u64,
    reads: u64,
    other_calls: u64,
    faults: FaultCount,
    ghost no_file: { IsNone disk → len ≡ 0 },
}

/// An open file with its name, by which a fork opens it again.
#[derive(Drop)]
struct Disk<F> {
    name: String,
    file: F,
}

/// Opens a file to be read, and to be written where the system lets it be.
fn open_file<R: Files>(rt: &R, name: &str) -> io::Result<R::File> {
    match open_to_write(rt, name) {
        Err(error) if error.kind() != ErrorKind::OutOfMemory => fs::open(rt, name),
        opened => opened,
    }
}

impl<'a, R: Files> FilePool<'a, R> {
    /// Opens the file of this name to be read and written. Where the system lets it only be read, it is, and each write fails.
    /// Opening it changes nothing of it.
    pub fn open(alloc: Global, rt: &'a R, name: &str) -> Result<FilePool<'a, R>, OpenFault>
        ensures len { IfOk result (λ pool. pool.len ≤ 2 ^ 40) }
        ensures told { IfOk result (λ pool. (opened : R.File) × HasLength R.File.stream_position R.File.stream_bytes opened pool.len) }
        ensures name { IfOk result (λ pool. IsSome pool.disk × IfSome pool.disk (λ disk. string_bytes disk.name ≡ name.now)) }
        ensures counts { IfOk result (λ pool. (pool.reads ≡ 0) × (pool.other_calls ≡ 0) × (pool.faults.count ≡ 0)) }
    {
        if fs::metadata(rt, name)?.is_dir() {
            return Err(OpenFault::File);
        }
        let mut file = open_file(rt, name)?;
        let len = length_of(&mut file, LONGEST_POOL)?;
        let name = String::from_str(alloc, name)?;
        Ok(FilePool {
            rt,
            disk: Some(Disk { name, file }),
            len,
            reads: 0,
            other_calls: 0,
            faults: FaultCount::new(),
        })
    }

    /// A pool of length 0, of no file.
    pub fn empty(rt: &'a R) -> FilePool<'a, R>
        ensures len { result.len ≡ 0 }
        ensures counts { (result.reads ≡ 0) × (result.other_calls ≡ 0) × (result.faults.count ≡ 0) }
    {
        FilePool {
            rt,
            disk: None,
            len: 0,
            reads: 0,
            other_calls: 0,
            faults: FaultCount::new(),
        }
    }
}

impl<R: Files + Sync> Pool for FilePool<'_, R>
where
    R::File: Send,
{
    ghost size = { λ pool. pool.len };

    ghost told = { λ _. None };

    ghost faults = { λ pool. pool.faults.count };

    ghost reads = { λ pool. pool.reads };

    ghost other_calls = { λ pool. pool.other_calls };

    fn len(&self) -> u64 {
        self.len
    }

    fn read(&mut self, offset: u64, buf: &mut [u8]) -> Result<(), Failed>
        ensures bytes { OnOk result (OnDisk (λ old new. ReadsAt R.File.stream_position R.File.remaining offset old.file new.file buf.new) self.old.disk self.new.disk) }
        ensures disk { OnDisk (λ old new. new.name ≡ old.name) self.old.disk self.new.disk }
        ensures told { GivesAnything result }
        ensures size { self.new.len ≡ self.old.len }
        ensures counted { CountsOne self.old.reads self.new.reads }
        ensures others { self.new.other_calls ≡ self.old.other_calls }
        ensures cause { HasCause self.old.faults.count self.new.faults.count result }
        ensures fault { CountsFault self.old.faults.count self.new.faults.count result }
    {
        self.reads = self.reads.saturating_add(1);
        match &mut self.disk {
            Some(disk) => self.faults.tell(read_at(&mut disk.file, offset, buf)),
            None => Ok(()),
        }
    }

    fn write(&mut self, offset: u64, bytes: &[u8]) -> Result<(), IoFault>
        ensures bytes { OnOk result (OnDisk (λ old new. WritesAt R.File.stream_position R.File.contents offset old.file new.file bytes.now) self.old.disk self.new.disk) }
        ensures disk { OnDisk (λ old new. new.name ≡ old.name) self.old.disk self.new.disk }
        ensures size { self.new.len ≡ self.old.len }
        ensures reads { self.new.reads ≡ self.old.reads }
        ensures others { self.new.other_calls ≡ sum_of_counts self.old.other_calls 1 }
        ensures cause { HasIoCause self.old.faults.count self.new.faults.count result }
        ensures fault { CountsIoFault self.old.faults.count self.new.faults.count result }
    {
        self.other_calls = self.other_calls.saturating_add(1);
        if let Some(disk) = &mut self.disk {
            self.faults.tell(write_at(&mut disk.file, offset, bytes))?;
        }
        Ok(())
    }

    fn fork(&mut self, alloc: Global) -> Result<Self, IoFault>
        ensures fork { IfOk result (λ fork. (fork.len ≡ self.old.len) × TellsNothing × (fork.faults.count ≡ 0) × (fork.reads ≡ 0) × (fork.other_calls ≡ 0)) }
        ensures name { IfOk result (λ fork. OnDisk (λ disk other. string_bytes other.name ≡ string_bytes disk.name) self.old.disk fork.disk) }
        ensures disk { self.new.disk ≡ self.old.disk }
        ensures size { self.new.len ≡ self.old.len }
        ensures reads { self.new.reads ≡ self.old.reads }
        ensures others { self.new.other_calls ≡ sum_of_counts self.old.other_calls 1 }
        ensures cause { HasIoCause self.old.faults.count self.new.faults.count result }
        ensures fault { CountsIoFault self.old.faults.count self.new.faults.count result }
    {
        self.other_calls = self.other_calls.saturating_add(1);
        let disk = match &self.disk {
            Some(disk) => {
                let name = String::from_str(alloc, disk.name.as_str())?;
                let file = self.faults.tell_memory(fs::open(self.rt, name.as_str()))?;
                Some(Disk { name, file })
            }
            None => None,
        };
        Ok(FilePool {
            rt: self.rt,
            disk,
            len: self.len,
            reads: 0,
            other_calls: 0,
            faults: FaultCount::new(),
        })
    }

    fn absorb(&mut self, other: Self) {
        self.reads = self.reads.saturating_add(other.reads);
        self.faults.absorb(&other.faults);
    }

    ghost told_len = { λ pool image e. untold image e };
}
