//! Standard output, standard error and real files as outlets.
ghost use Rattle.std.specs.Prelude.{◌≡◌, ◌≢◌, ◌+◌, ◌^◌, ◌<◌, ◌≤◌, [], None, IfOk, IfErr, OnOk, OnErr, IsErr, length, vec_len, vec_capacity};
ghost use Rattle.std.specs.IoError.{error_kind};
ghost use Rattle.smol_edge.specs.Faults.{Rose, Tells};
ghost use Rattle.smol_edge.specs.Outlets.{Names, Appends};
ghost use Rattle.smol_edge.specs.RealOutlets.{most_files, next_outlet_of};

use crate::answers::{accepted, or_fault};
use crate::{Failed, Outlets};
use std::alloc::{AllocError, Global};
use std::io::{ErrorKind, Write};
use std::marker::Model;
use std::rt::Files;
use std::{fs, io};

/// How many files can be opened.
const MOST_FILES: usize = 64;

/// Standard output, standard error and real files. They tell nothing of their bytes. Each write is handed
/// to the system at once, so what the system refuses fails at that call. Standard error takes text alone,
/// and what is no text is a fault there, as is a file after the 64th.
pub struct RealOutlets<'a, R: Files> {
    rt: &'a R,
    files: Vec<R::File>,
    faults: u64,
}

impl<'a, R: Files> Model for RealOutlets<'a, R> {
    ghost use Rattle.std.specs.Prelude.{◌≤◌, vec_len, vec_capacity};
    ghost use Rattle.smol_edge.specs.RealOutlets.{RealState};

    ghost Value = { RealState };

    ghost view = { λ outlets. record { opened = vec_len outlets.files; faults = outlets.faults } };

    ghost invariant = { λ outlets. 64 ≤ vec_capacity outlets.files };
}

impl<R: Files> Drop for RealOutlets<'_, R> {
    fn drop(self) {
        let RealOutlets {
            rt: _,
            files: _,
            faults: _,
        } = self;
    }
}

impl<'a, R: Files> RealOutlets<'a, R> {
    /// The outlets with no file opened. Room for all files is taken here.
    pub fn of(rt: &'a R, alloc: Global) -> Result<RealOutlets<'a, R>, AllocError>
        ensures none_opened { IfOk result (λ outlets. outlets.opened ≡ 0) }
        ensures no_faults { IfOk result (λ outlets. outlets.faults ≡ 0) }
    {
        Ok(RealOutlets {
            rt,
            files: Vec::with_capacity(alloc, MOST_FILES)?,
            faults: 0,
        })
    }
}

// The outlet of the next file, where there may be one more.
fn next_outlet(opened: usize) -> Option<u32>
    ensures { result ≡ next_outlet_of opened }
{
    if opened < MOST_FILES {
        Some(2 + opened as u32)
    } else {
        None
    }
}

// Hands bytes to the system once.
fn write_once<R: Files + Print + Eprint>(
    rt: &R,
    files: &mut Vec<R::File>,
    outlet: usize,
    bytes: &[u8],
) -> io::Result<usize>
    requires { outlet < 2 + vec_len files.old }
    ensures within { IfOk result (λ n. n ≤ length bytes.now) }
    ensures len { vec_len files.new ≡ vec_len files.old }
    ensures room { vec_capacity files.new ≡ vec_capacity files.old }
{
    match outlet {
        0 => rt.write_some(bytes),
        1 => write_text(rt, bytes),
        _ => files[outlet - 2].write(bytes),
    }
}

// Hands bytes to the system, again where a signal interrupts that.
fn write_some<R: Files + Print + Eprint>(
    rt: &R,
    files: &mut Vec<R::File>,
    outlet: usize,
    bytes: &[u8],
) -> io::Result<usize>
    requires { outlet < 2 + vec_len files.old }
    ensures within { IfOk result (λ n. n ≤ length bytes.now) }
    ensures made_again { IfErr result (λ error. error_kind error ≢ ErrorKind.Interrupted) }
    ensures len { vec_len files.new ≡ vec_len files.old }
    ensures room { vec_capacity files.new ≡ vec_capacity files.old }
{
    for _ in 0..u64::MAX {
        match write_once(rt, files, outlet, bytes) {
            Err(error) if error.kind() == ErrorKind::Interrupted => {}
            answer => return answer,
        }
    }
    Err(io::Error::from(ErrorKind::TimedOut))
}

// Writes text to standard error, all of it. The runtime makes it again where a signal interrupts it; what fails then
// has written a part, so it isn't made again here.
fn write_text(rt: &impl Eprint, bytes: &[u8]) -> io::Result<usize>
    ensures within { IfOk result (λ n. n ≤ length bytes.now) }
    ensures not_again { IfErr result (λ error. error_kind error ≢ ErrorKind.Interrupted) }
{
    let Ok(text) = std::str::from_utf8(bytes) else {
        return Err(io::Error::from(ErrorKind::InvalidData));
    };
    match rt.eprint(text) {
        Ok(()) => Ok(bytes.len()),
        Err(_) => Err(io::Error::from(ErrorKind::Other)),
    }
}

impl<R: Files + Print + Eprint> Outlets for RealOutlets<'_, R> {
    ghost told = { λ _. None };

    ghost opened = { λ outlets. outlets.opened };

    ghost faults = { λ outlets. outlets.faults };

    fn open(&mut self, name: &str) -> Result<u32, Failed>
        requires { self.old.opened < 2 ^ 31 }
        ensures outlet { IfOk result (λ outlet. outlet ≡ 2 + self.old.opened) }
        ensures named { OnOk result (Tells None None (Names name.now)) }
        ensures counted { OnOk result (self.new.opened ≡ self.old.opened + 1) }
        ensures not_named { OnErr result (Tells None None (Appends [])) }
        ensures not_counted { OnErr result (self.new.opened ≡ self.old.opened) }
        ensures faults_stay { self.old.faults ≤ self.new.faults }
        ensures cause { OnErr result (Rose self.old.faults self.new.faults) }
        ensures no_fault { OnOk result (self.new.faults ≡ self.old.faults) }

        // There is no further file.
        ensures full { most_files ≤ self.old.opened → IsErr result }
    {
        let outlet = or_fault(next_outlet(self.files.len()), &mut self.faults)?;
        let file = or_fault(fs::create(self.rt, name).ok(), &mut self.faults)?;
        self.files.push(file).unwrap();
        Ok(outlet)
    }

    fn write(&mut self, outlet: u32, bytes: &[u8]) -> Result<usize, Failed> {
        let answer = write_some(self.rt, &mut self.files, outlet as usize, bytes);
        or_fault(accepted(answer, bytes.len()), &mut self.faults)
    }

    ghost is_counted = { λ _. tt };
}
