//! A system for tests, whose next call answers as it is told.
ghost use Rattle.std.specs.Prelude.{◌≤◌, length, IfOk};

use std::alloc::Allocator;
use std::cell::Cell;
use std::fmt::Display;
use std::fs::{Metadata, OpenFile, OpenOptions};
use std::io::{self, Empty, Error, ErrorKind, Read, Seek, SeekFrom, Write};
use std::rt::Files;

/// How the next call of a system answers.
#[derive(Clone, Copy)]
pub(crate) enum Next {
    /// It moves so many bytes at most, and the calls after it move all.
    Most(usize),
    /// A signal interrupts it, and the call after it moves two bytes at most.
    Interrupted,
    /// It and all further calls fail.
    Full,
}

/// A system in which all files are one, with the bytes `abcdefgh` to be read. It keeps the first bytes that it took.
#[derive(Drop)]
pub(crate) struct Fake {
    next: Cell<Next>,
    taken: Cell<[u8; 8]>,
    count: Cell<usize>,
}

/// That system as a runtime.
#[derive(Clone, Copy)]
pub(crate) struct Handle<'a>(pub &'a Fake);

/// Its file.
#[derive(Drop)]
pub(crate) struct FakeFile<'a>(&'a Fake);

fn none<T>() -> io::Result<T> {
    Err(Error::from(ErrorKind::Unsupported))
}

impl Fake {
    pub fn of(next: Next) -> Fake {
        Fake {
            next: Cell::new(next),
            taken: Cell::new([b'.'; 8]),
            count: Cell::new(0),
        }
    }

    /// What it took so far, behind which there are points.
    pub fn taken(&self) -> [u8; 8] {
        self.taken.get()
    }

    // How many of so many bytes the next call moves.
    fn moves(&self, length: usize) -> io::Result<usize>
        ensures { IfOk result (λ n. n ≤ length) }
    {
        match self.next.get() {
            Next::Most(most) => {
                self.next.set(Next::Most(usize::MAX));
                Ok(length.min(most))
            }
            Next::Interrupted => {
                self.next.set(Next::Most(2));
                Err(Error::from(ErrorKind::Interrupted))
            }
            Next::Full => Err(Error::from(ErrorKind::StorageFull)),
        }
    }

    // Keeps a byte that was taken.
    fn keep(&self, byte: u8) {
        let count = self.count.get();
        let mut taken = self.taken.get();
        if count < 8 {
            taken[count] = byte;
            self.taken.set(taken);
            self.count.set(count + 1);
        }
    }

    fn take(&self, bytes: &[u8]) -> io::Result<usize>
        ensures { IfOk result (λ n. n ≤ length bytes.now) }
    {
        let count = self.moves(bytes.len())?;
        for byte in &bytes[..count] {
            self.keep(*byte);
        }
        Ok(count)
    }
}

impl Read for FakeFile<'_> {
    fn read(&mut self, buf: &mut [u8]) -> io::Result<usize> {
        let text = b"abcdefgh";
        let count = self.0.moves(buf.len().min(8))?;
        buf[..count].copy_from_slice(&text[..count]);
        Ok(count)
    }
}

impl Write for FakeFile<'_> {
    fn write(&mut self, buf: &[u8]) -> io::Result<usize> {
        self.0.take(buf)
    }

    fn flush(&mut self) -> io::Result<()> {
        Ok(())
    }
}

impl Seek for FakeFile<'_> {
    fn seek(&mut self, _to: SeekFrom) -> io::Result<u64> {
        none()
    }
}

impl OpenFile for FakeFile<'_> {
    fn metadata(&self) -> io::Result<Metadata> {
        none()
    }

    fn set_len(&self, _size: u64) -> io::Result<()> {
        none()
    }

    fn sync_all(&self) -> io::Result<()> {
        none()
    }

    fn sync_data(&self) -> io::Result<()> {
        none()
    }
}

impl<'a> Files for Handle<'a> {
    type File = FakeFile<'a>;

    type Dir = Empty;

    fn open_file(&self, _how: &OpenOptions, _path: &str) -> io::Result<FakeFile<'a>> {
        Ok(FakeFile(self.0))
    }

    fn open_dir(&self, _path: &str) -> io::Result<Empty> {
        none()
    }

    fn metadata(&self, _path: &str) -> io::Result<Metadata> {
        none()
    }

    fn symlink_metadata(&self, _path: &str) -> io::Result<Metadata> {
        none()
    }

    fn copy(&self, _from: &str, _to: &str) -> io::Result<u64> {
        none()
    }

    fn rename(&self, _from: &str, _to: &str) -> io::Result<()> {
        none()
    }

    fn remove_file(&self, _path: &str) -> io::Result<()> {
        none()
    }

    fn create_dir(&self, _path: &str) -> io::Result<()> {
        none()
    }

    fn remove_dir(&self, _path: &str) -> io::Result<()> {
        none()
    }

    fn remove_dir_all<B: Allocator>(&self, _alloc: B, _path: &str) -> io::Result<()> {
        none()
    }
}

impl Print for Handle<'_> {
    fn print<D: Display + Drop>(&self, _value: D) -> io::Result<()> {
        none()
    }

    fn println<D: Display + Drop>(&self, _value: D) -> io::Result<()> {
        none()
    }

    fn write_all(&self, _bytes: &[u8]) -> io::Result<()> {
        none()
    }

    fn write_some(&self, bytes: &[u8]) -> io::Result<usize> {
        self.0.take(bytes)
    }
}

impl Eprint for Handle<'_> {
    fn eprint<D: Display + Drop>(&self, _value: D) -> io::Result<()> {
        self.0.moves(1)?;
        Ok(())
    }

    fn eprintln<D: Display + Drop>(&self, _value: D) -> io::Result<()> {
        none()
    }
}
