//! A caller of the top call over memory, as docs/CALLING.md shows it.
use crate::{Status, run_program};
use smol_edge::{MemOutlets, MemSource, Open};
use std::alloc::{AllocError, Global};
use std::thread::Threads;

/// How a run of a text ends, with the seed 7 and by four workers, and what it prints on standard output.
pub fn printed<R: Threads + Sync>(
    rt: &R,
    alloc: Global,
    text: &[u8],
) -> Result<(Status, Vec<u8>), AllocError> {
    let mut words = Vec::new(alloc);
    for word in ["model", "--seed", "7", "--workers", "4"] {
        words.push(String::from_str(alloc, word)?)?;
    }
    let mut source = MemSource::of(alloc, "model", text, &[])?;
    let mut outlets = MemOutlets::of(alloc, &[], 4096)?;
    let status = run_program(rt, alloc, &words, &mut source, &mut outlets, &Open);
    let bytes = Vec::from_slice(alloc, outlets.bytes(0))?;
    Ok((status, bytes))
}
