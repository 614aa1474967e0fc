//! Runs over memory: what they end with, and what they write.
use crate::caller::printed;
use crate::{Status, make_config, run_program};
use smol_edge::{MemOutlets, MemSource, Open};
use std::alloc::{AllocError, Global};
use std::process::Abort;
use std::test::Fail;
use std::thread::Threads;

/// Three molecules that are counted before and after the one step.
const LINES: [&str; 11] = [
    "dim 3",
    "species A",
    "boundaries x 0 100 r",
    "boundaries y 0 100 r",
    "boundaries z 0 100 r",
    "time_start 0",
    "time_stop 1",
    "time_step 1",
    "mol 3 A 50 50 50",
    "cmd b molcount stdout",
    "cmd a molcount stdout",
];

const USAGE: &str = "usage: smol FILE [--seed N] [--workers N] [--runs N] or smol --make N\n";

/// A call over a source with the one file `f`, and how it is to end.
#[derive(Clone, Copy)]
struct Row<'a> {
    words: &'a [&'a str],
    bytes: &'a [u8],
    /// The calls of the source that fail, counted from 1.
    failing_reads: &'a [u32],
    /// The calls of the outlets that fail, counted from 1.
    failing_writes: &'a [u32],
    status: Status,
    stdout: &'a str,
    stderr: &'a str,
}

fn text_of(alloc: Global, lines: &[&str]) -> Result<String, AllocError> {
    let mut text = String::new(alloc);
    for line in lines {
        text.push_str(line)?;
        text.push_str("\n")?;
    }
    Ok(text)
}

fn owned(alloc: Global, words: &[&str]) -> Result<Vec<String>, AllocError> {
    let mut all = Vec::new(alloc);
    for word in words {
        all.push(String::from_str(alloc, word)?)?;
    }
    Ok(all)
}

fn meets<R: Abort + AllocGlobal + Sync + Threads>(rt: &R, row: &Row<'_>) -> Result<(), AllocError> {
    let words = owned(rt.alloc(), row.words)?;
    let mut source = MemSource::of(rt.alloc(), "f", row.bytes, row.failing_reads)?;
    let mut outlets = MemOutlets::of(rt.alloc(), row.failing_writes, 4096)?;
    let status = run_program(rt, rt.alloc(), &words, &mut source, &mut outlets, &Open);
    assert_eq!(rt; status, row.status);
    assert_eq!(rt; outlets.bytes(0), row.stdout.as_bytes());
    assert_eq!(rt; outlets.bytes(1), row.stderr.as_bytes());
    assert_eq!(rt; outlets.names().len(), 0);
    Ok(())
}

#[test]
fn ends_with_status_and_bytes(rt: HostRuntime) -> Result<(), Fail> {
    let text = text_of(rt.alloc(), &LINES)?;
    let counted = Row {
        words: &["f"],
        bytes: text.as_bytes(),
        failing_reads: &[],
        failing_writes: &[],
        status: Status::Done,
        stdout: "0 3\n1 3\n",
        stderr: "",
    };
    let misused = Row {
        status: Status::Usage,
        stdout: "",
        stderr: USAGE,
        ..counted
    };
    let unread = Row {
        status: Status::Input,
        stdout: "",
        ..counted
    };
    let unwritten = Row {
        status: Status::Output,
        stdout: "",
        ..counted
    };
    let rows = [
        counted,
        Row {
            words: &[],
            ..misused
        },
        Row {
            failing_reads: &[1],
            ..unread
        },
        Row {
            failing_reads: &[2],
            ..unread
        },
        Row {
            failing_writes: &[1],
            ..unwritten
        },
        Row {
            failing_writes: &[2],
            stdout: "0 3\n",
            ..unwritten
        },
        Row {
            words: &["--"],
            failing_writes: &[1],
            ..unwritten
        },
        Row {
            words: &["f", "--runs", "3", "--seed", "5"],
            stdout: "5 0 3\n6 0 3\n7 0 3\nmin 3\nmax 3\nsum 9\n",
            ..counted
        },
        Row {
            words: &["--runs", "2", "f"],
            failing_writes: &[1],
            ..unwritten
        },
        Row {
            words: &["--make", "2"],
            failing_reads: &[1],
            stdout: "time A B C\n0 1 1 0\n5 1 1 0\n10 1 1 0\n",
            ..counted
        },
    ];
    for row in &rows {
        meets(&rt, row)?;
    }
    Ok(())
}

#[test]
fn a_caller_has_what_was_printed(rt: HostRuntime) -> Result<(), Fail> {
    let text = text_of(rt.alloc(), &LINES)?;
    let (status, bytes) = printed(&rt, rt.alloc(), text.as_bytes())?;
    assert_eq!(rt; status, Status::Done);
    assert_eq!(rt; bytes.as_slice(), b"0 3\n1 3\n".as_slice());
    Ok(())
}

/// Lines behind the first eight of `LINES`, and what they print to standard output and to a file.
const PRINTING: [(&[&str], &str, &str); 3] = [
    (
        &[
            "mol 3 A 50 50 50",
            "cmd b molcount stdout",
            "cmd a molcount stdout",
        ],
        "0 3\n1 3\n",
        "",
    ),
    (
        &[
            "species B",
            "mol 3 A 50 50 50",
            "cmd @ 0 replacemol A B 1",
            "cmd @ 0 pointsource A 2 10 20 30",
            "cmd @ 0 ifmore A 1 echo stdout \"many\\n\"",
            "cmd @ 0 ifno B stop",
            "cmd @ 1 killmol B",
            "cmd a listmols stdout",
        ],
        "many\nA(solution) 10 20 30 4\nA(solution) 10 20 30 5\n",
        "",
    ),
    (
        &[
            "output_files o.txt",
            "mol 3 A 50 50 50",
            "cmd b molcount o.txt",
        ],
        "",
        "0 3\n",
    ),
];

// What the first file holds, which is nothing where none is open.
fn file_bytes(outlets: &MemOutlets) -> &[u8] {
    if outlets.names().is_empty() {
        &[]
    } else {
        outlets.bytes(2)
    }
}

// Runs a text over outlets that take so many bytes at once and fail at one call alone, and tells whether they met it. Where they
// did, what they hold is a front, and else all is there.
fn meets_failure<R: Abort + AllocGlobal + Sync + Threads>(
    rt: &R,
    text: &str,
    most: usize,
    call: u32,
    stdout: &str,
    file: &str,
) -> Result<bool, AllocError> {
    let words = owned(rt.alloc(), &["f"])?;
    let mut source = MemSource::of(rt.alloc(), "f", text.as_bytes(), &[])?;
    let mut outlets = MemOutlets::of(rt.alloc(), &[call], most.max(1))?;
    let status = run_program(rt, rt.alloc(), &words, &mut source, &mut outlets, &Open);
    assert_eq!(rt; outlets.bytes(1).len(), 0);
    if status == Status::Output {
        assert!(rt; stdout.as_bytes().starts_with(outlets.bytes(0)));
        assert!(rt; file.as_bytes().starts_with(file_bytes(&outlets)));
        return Ok(true);
    }
    assert_eq!(rt; status, Status::Done);
    assert_eq!(rt; outlets.bytes(0), stdout.as_bytes());
    assert_eq!(rt; file_bytes(&outlets), file.as_bytes());
    Ok(false)
}

// Lets each call of the outlets fail in turn, until a run meets none that fails.
fn leaves_fronts<R: Abort + AllocGlobal + Sync + Threads>(
    rt: &R,
    text: &str,
    most: usize,
    stdout: &str,
    file: &str,
) -> Result<(), AllocError> {
    for call in 1..100 {
        if !meets_failure(rt, text, most, call, stdout, file)? {
            assert!(rt; call > 1);
            return Ok(());
        }
    }
    panic!(rt; "some call fails in every run")
}

#[test]
fn a_failing_write_leaves_a_front(rt: HostRuntime) -> Result<(), Fail> {
    for (lines, stdout, file) in PRINTING {
        let mut text = text_of(rt.alloc(), &LINES[..8])?;
        text.push_str(&text_of(rt.alloc(), lines)?)?;
        for most in [1, 3, 4096] {
            leaves_fronts(&rt, &text, most, stdout, file)?;
        }
    }
    Ok(())
}

// Runs the three molecules over a source that fails at one call alone, and tells whether they met it. Where they did, nothing is
// written, and else all is there. The file may ask for the others.
fn meets_failing_read<R: Abort + AllocGlobal + Sync + Threads>(
    rt: &R,
    text: &str,
    others: &[(&str, &str)],
    call: u32,
) -> Result<bool, AllocError> {
    let words = owned(rt.alloc(), &["f"])?;
    let mut source = MemSource::of(rt.alloc(), "f", text.as_bytes(), &[call])?;
    for (name, other) in others {
        source.add(name, other.as_bytes())?;
    }
    let mut outlets = MemOutlets::of(rt.alloc(), &[], 4096)?;
    let status = run_program(rt, rt.alloc(), &words, &mut source, &mut outlets, &Open);
    assert_eq!(rt; outlets.bytes(1).len(), 0);
    if status == Status::Input {
        assert_eq!(rt; outlets.bytes(0).len(), 0);
        return Ok(true);
    }
    assert_eq!(rt; status, Status::Done);
    assert_eq!(rt; outlets.bytes(0), b"0 3\n1 3\n".as_slice());
    Ok(false)
}

// Lets each call of the source fail in turn, until a run meets none that fails, and answers the number of that one.
fn first_unmet<R: Abort + AllocGlobal + Sync + Threads>(
    rt: &R,
    text: &str,
    others: &[(&str, &str)],
) -> Result<u32, AllocError> {
    for call in 1..100 {
        if !meets_failing_read(rt, text, others, call)? {
            return Ok(call);
        }
    }
    panic!(rt; "some call fails in every run")
}

// A file is opened, read, and read once more to find its end: each of these calls fails in turn, and no other is made.
#[test]
fn a_failing_read_leaves_nothing(rt: HostRuntime) -> Result<(), Fail> {
    let text = text_of(rt.alloc(), &LINES)?;
    assert_eq!(rt; first_unmet(&rt, &text, &[])?, 4);
    let mut first = text_of(rt.alloc(), &LINES[..8])?;
    first.push_str("read_file g\n")?;
    let last = text_of(rt.alloc(), &LINES[8..])?;
    let others = [
        ("g", "define unused 3\nread_file h\n"),
        ("h", last.as_str()),
    ];
    assert_eq!(rt; first_unmet(&rt, &first, &others)?, 10);
    Ok(())
}

// Three commands print a line each, and the write of the third line fails.
#[test]
fn lines_before_a_failing_write_stay(rt: HostRuntime) -> Result<(), Fail> {
    let mut text = text_of(rt.alloc(), &LINES[..9])?;
    text.push_str("cmd b molcount stdout\ncmd e molcount stdout\ncmd a molcount stdout\n")?;
    let row = Row {
        words: &["f"],
        bytes: text.as_bytes(),
        failing_reads: &[],
        failing_writes: &[3],
        status: Status::Output,
        stdout: "0 3\n0 3\n",
        stderr: "",
    };
    meets(&rt, &row)?;
    Ok(())
}

/// The text with seven molecules.
const SEVEN: [&str; 28] = [
    "dim 3",
    "species A B C",
    "difstep A 0.5",
    "difstep B 0.5",
    "difstep C 0.25",
    "boundaries x 0 100 r",
    "boundaries y 0 100 r",
    "boundaries z 0 100 r",
    "max_mol 1000000",
    "random_seed 7",
    "time_start 0",
    "time_stop 10",
    "time_step 1",
    "start_surface box",
    "action both all reflect",
    "panel rect +0 40 40 40 20 20",
    "panel rect -0 60 40 40 20 20",
    "panel rect +1 40 40 40 20 20",
    "panel rect -1 40 60 40 20 20",
    "panel rect +2 40 40 40 20 20",
    "panel rect -2 40 40 60 20 20",
    "end_surface",
    "mol 3 A u u u",
    "mol 4 B u u u",
    "reaction bind A + B -> C",
    "binding_radius bind 1",
    "cmd b molcountheader stdout",
    "cmd n 5 molcount stdout",
];

#[test]
fn a_text_is_made(rt: HostRuntime) -> Result<(), Fail> {
    let text = make_config(rt.alloc(), 7)?;
    assert_eq!(rt; text.as_slice(), text_of(rt.alloc(), &SEVEN)?.as_bytes());
    Ok(())
}
