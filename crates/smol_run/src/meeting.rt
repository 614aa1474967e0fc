//! Two workers over pairs that they decide at the same time.
use crate::{Status, run_program};
use itoa::Buffer;
use smol_edge::{Gate, Meet, MemOutlets, MemSource, Open};
use std::alloc::{AllocError, Global};
use std::process::Abort;
use std::test::Fail;
use std::thread::Threads;

const FIRST_LINES: &str =
    "dim 3\nspecies A\nboundaries x 0 100 r\nboundaries y 0 100 r\nboundaries z 0 100 r\ntime_start 0\ntime_stop 1\ntime_step 1\n";

const LAST_LINES: &str =
    "reaction r1 A + A -> 0\nbinding_radius r1 0.1\ncmd b molcount stdout\ncmd a molcount stdout\n";

// 70 pairs of molecules that react, each pair at a place of its own, counted before the step and after it.
fn seventy_pairs(alloc: Global) -> Result<String, AllocError> {
    let mut text = String::from_str(alloc, FIRST_LINES)?;
    let mut number = Buffer::new();
    for x in 1..71u32 {
        text.push_str("mol 2 A ")?;
        text.push_str(number.format(x))?;
        text.push_str(" 50 50\n")?;
    }
    text.push_str(LAST_LINES)?;
    Ok(text)
}

// Runs the pairs by so many workers, which pass this gate: all of them react.
fn all_react<R: Abort + AllocGlobal + Sync + Threads, G: Gate + Sync>(
    rt: &R,
    workers: &str,
    gate: &G,
) -> Result<(), AllocError> {
    let text = seventy_pairs(rt.alloc())?;
    let mut words = Vec::new(rt.alloc());
    for word in ["f", "--workers", workers] {
        words.push(String::from_str(rt.alloc(), word)?)?;
    }
    let mut source = MemSource::of(rt.alloc(), "f", text.as_bytes(), &[])?;
    let mut outlets = MemOutlets::of(rt.alloc(), &[], 4096)?;
    let status = run_program(rt, rt.alloc(), &words, &mut source, &mut outlets, gate);
    assert_eq!(rt; status, Status::Done);
    assert_eq!(rt; outlets.bytes(0), b"0 140\n1 0\n".as_slice());
    assert_eq!(rt; outlets.bytes(1), b"".as_slice());
    Ok(())
}

// What two workers print that decide pairs at the same time is what one prints.
#[test]
fn workers_change_nothing(rt: HostRuntime) -> Result<(), Fail> {
    let meet = Meet::of();
    all_react(&rt, "1", &Open)?;
    all_react(&rt, "2", &meet)?;
    assert_eq!(rt; meet.met(), true);
    Ok(())
}
