//! The program: the words of the command line over real files and standard streams.
#![tactic(auto)]

mod descriptors;
mod exit;
mod words;

use descriptors::hold_closed;
use exit::exit_of;
use smol_edge::{FileSource, Open, RealOutlets};
use smol_run::{Status, run_program};
use std::alloc::AllocError;
use std::env;
use std::fs::File;
use std::process::ExitCode;
use std::rt::{Env, Files};
use std::thread::Threads;
use words::words_of;

// Without the descriptors of the standard streams nothing is opened.
fn run<R>(rt: &R) -> Result<Status, AllocError>
where
    R: AllocGlobal + Env + Eprint + Files<File = File> + Print + Sync + Threads,
{
    let Ok(_held) = hold_closed(rt) else {
        return Ok(Status::Output);
    };
    let words = words_of(rt.alloc(), env::args(rt))?;
    let mut source = FileSource::of(rt);
    let mut outlets = RealOutlets::of(rt, rt.alloc())?;
    Ok(run_program(rt, rt.alloc(), &words, &mut source, &mut outlets, &Open))
}

fn main(rt: HostRuntime) -> ExitCode {
    ExitCode::from(exit_of(run(&rt)))
}
