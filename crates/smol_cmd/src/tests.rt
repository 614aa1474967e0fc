//! A command with two tests, and the files of a line. `.ci/commands.cases` holds what other lines say, and the fault of each line that
//! is refused.
ghost use Rattle.std.specs.Prelude.{◌+◌, ◌≤◌, length, OnOk, IfOk};

use crate::{read_cmd, read_output_files};
use smol_line::{Axes, Bounds, NameSet, Refusal};
use smol_num::{Micro, Threshold};
use smol_text::{Text, split_lines};
use smol_types::{Act, Command, Kind, Letter, Test, When};
use std::alloc::{AllocError, Global};
use std::test::Fail;

// One axis, with walls from 0 to 10.
const AXES: Axes = Axes {
    dims: Some(1),
    x: Some(Bounds {
        low: Micro(0),
        high: Micro(10_000_000),
        letter: Letter::R,
    }),
    y: None,
    z: None,
};

// Names of species.
const SPECIES: [&str; 3] = ["A", "B", "C"];

fn names(alloc: Global, words: &[&str]) -> Result<NameSet, AllocError>
    ensures { IfOk result (λ names. length names ≤ length words.now) }
{
    let mut names = NameSet::new(alloc);
    for word in words {
        add_new(alloc, &mut names, word)?;
    }
    Ok(names)
}

fn add_new(alloc: Global, names: &mut NameSet, name: &str) -> Result<(), AllocError>
    ensures { OnOk result (length names.new ≤ length names.old + 1) }
{
    if names.number_of(name.as_bytes()).is_none() {
        names.add(alloc, name)?;
    }
    Ok(())
}

// What a line says. It has at most four mebibytes.
fn split(alloc: Global, line: &str) -> Result<Text, Refusal> {
    if line.len() > 4_194_304 {
        return Err(Refusal::At(Kind::TooLong));
    }
    split_lines(alloc, line.as_bytes()).map_err(|_| Refusal::OutOfMemory)
}

// The command of a line behind 255 others.
fn read(alloc: Global, line: &str) -> Result<Command, Refusal> {
    let species = names(alloc, &SPECIES)?;
    let none = NameSet::new(alloc);
    let text = split(alloc, line)?;
    if text.is_empty() {
        return Err(Refusal::At(Kind::WrongWordCount));
    }
    read_cmd(alloc, &AXES, &species, &none, &none, 255, &text.line(0))
}

#[test]
fn a_command_is_read(rt: HostRuntime) -> Result<(), Fail> {
    let line = "cmd i 2 -1 1e-9 ifno C ifmore all 7 replacemol B(soln) C 1e-9";
    let Command { when, tests, act } = read(rt.alloc(), line)?;
    let due = When::Times {
        on: 2_000_000_000,
        off: -1_000_000_000,
        dt: 1,
    };
    assert_eq!(rt; when, due);
    let [Test::IfNo { who: first }, Test::IfMore { who: second, n }] = tests.as_slice() else {
        assert!(rt; false);
        return Ok(());
    };
    assert_eq!(rt; first.as_slice(), [2].as_slice());
    assert_eq!(rt; second.as_slice(), [0, 1, 2].as_slice());
    assert_eq!(rt; *n, 7);
    let Act::Replace { who, to, p } = act else {
        assert!(rt; false);
        return Ok(());
    };
    assert_eq!(rt; who.as_slice(), [1].as_slice());
    assert_eq!(rt; (to, p), (2, Threshold(4)));
    Ok(())
}

#[test]
fn output_files_are_named(rt: HostRuntime) -> Result<(), Fail> {
    let text = split(rt.alloc(), "output_files o stdout ./o")?;
    if text.is_empty() {
        assert!(rt; false);
        return Ok(());
    }
    let mut outputs = NameSet::new(rt.alloc());
    read_output_files(rt.alloc(), &mut outputs, &text.line(0))?;
    assert_eq!(rt; outputs.len(), 2);
    assert_eq!(rt; outputs.number_of(b"./o"), Some(1));
    Ok(())
}
