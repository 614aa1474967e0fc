//! Real files as a source.
ghost use Rattle.std.specs.Prelude.{◌≡◌, ◌≢◌, ◌≤◌, ℕ, length, None, IfOk, IfErr};
ghost use Rattle.std.specs.IoError.{error_kind};

use crate::answers::{or_fault, received};
use crate::faults::count_fault;
use crate::{Failed, Source};
use std::io::{ErrorKind, Read};
use std::marker::Model;
use std::rt::Files;
use std::{fs, io};

/// Real files. They tell nothing, and contracts see a source of them as its count of faults. A read with
/// no file open is a fault too.
pub struct FileSource<'a, R: Files> {
    rt: &'a R,
    file: Option<R::File>,
    faults: u64,
}

impl<'a, R: Files> Model for FileSource<'a, R> {
    ghost Value = { ℕ };

    ghost view = { λ source. source.faults };
}

impl<R: Files> Drop for FileSource<'_, R> {
    fn drop(self) {
        let FileSource {
            rt: _,
            file: _,
            faults: _,
        } = self;
    }
}

impl<'a, R: Files> FileSource<'a, R> {
    /// A source with no file open.
    pub fn of(rt: &'a R) -> FileSource<'a, R>
        ensures no_faults { result ≡ 0 }
    {
        FileSource {
            rt,
            file: None,
            faults: 0,
        }
    }
}

// Asks the system for bytes, again where a signal interrupts that.
fn read_some<F: Read>(file: &mut F, buf: &mut [u8]) -> io::Result<usize>
    ensures within { IfOk result (λ n. n ≤ length buf.old) }
    ensures made_again { IfErr result (λ error. error_kind error ≢ ErrorKind.Interrupted) }
{
    for _ in 0..u64::MAX {
        match file.read(buf) {
            Err(error) if error.kind() == ErrorKind::Interrupted => {}
            answer => return answer,
        }
    }
    Err(io::Error::from(ErrorKind::TimedOut))
}

impl<R: Files> Source for FileSource<'_, R> {
    ghost told = { λ _. None };

    ghost faults = { λ count. count };

    fn open(&mut self, name: &str) -> Result<(), Failed> {
        let file = or_fault(fs::open(self.rt, name).ok(), &mut self.faults)?;
        self.file = Some(file);
        Ok(())
    }

    fn read(&mut self, buf: &mut [u8]) -> Result<usize, Failed> {
        let Some(file) = &mut self.file else {
            return Err(count_fault(&mut self.faults));
        };
        or_fault(received(read_some(file, buf)), &mut self.faults)
    }
}
