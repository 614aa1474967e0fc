//! The lines on standard error that end a run.
ghost use Rattle.std.specs.Prelude.{◌≡◌, ◌++◌, ◌∷◌, [], codes, decimal, IfOk, IfErr, OnOk, OnErr};
ghost use Rattle.smol_edge.specs.Faults.{Tells};
ghost use Rattle.smol_edge.specs.Outlets.{Appends, AppendsFrontOf};
ghost use Rattle.smol_run.specs.Ends.{CountsLoss};
ghost use Rattle.smol_run.specs.Outcome.{no_place_line, over_line};

use crate::loss::Loss;
use itoa::Buffer;
use smol_edge::{Outlets, put_all};
use std::alloc::{AllocError, Global};

/// Standard error.
const STDERR: u32 = 1;

/// The line that tells the fault of a text.
pub fn fault_text(alloc: Global, line: u32, why: &str) -> Result<Vec<u8>, AllocError>
    ensures { IfOk result (λ text. text.items ≡ codes "line " ++ decimal line ++ codes ": " ++ why.now ++ codes "\n") }
{
    let mut number = Buffer::new();
    let mut text = Vec::from_slice(alloc, b"line ")?;
    text.extend_from_slice(number.format(line).as_bytes())?;
    text.extend_from_slice(b": ")?;
    text.extend_from_slice(why.as_bytes())?;
    text.extend_from_slice(b"\n")?;
    Ok(text)
}

/// The line that tells which molecule finds no place.
pub fn no_place_text(alloc: Global, line: u32, serial: u64) -> Result<Vec<u8>, AllocError>
    ensures { IfOk result (λ text. text.items ≡ no_place_line line serial ++ codes "\n") }
{
    let mut number = Buffer::new();
    let mut text = Vec::from_slice(alloc, b"line ")?;
    text.extend_from_slice(number.format(line).as_bytes())?;
    text.extend_from_slice(b": no place found for molecule ")?;
    text.extend_from_slice(number.format(serial).as_bytes())?;
    text.extend_from_slice(b"\n")?;
    Ok(text)
}

/// The line that tells at which step there are too many molecules.
pub fn over_text(alloc: Global, step: u32) -> Result<Vec<u8>, AllocError>
    ensures { IfOk result (λ text. text.items ≡ over_line step ++ codes "\n") }
{
    let mut number = Buffer::new();
    let mut text = Vec::from_slice(alloc, b"step ")?;
    text.extend_from_slice(number.format(step).as_bytes())?;
    text.extend_from_slice(b": more than max_mol molecules")?;
    text.extend_from_slice(b"\n")?;
    Ok(text)
}

/// Writes a line to standard error.
pub fn tell<K: Outlets>(outlets: &mut K, line: &[u8]) -> Result<(), Loss>
    ensures told { OnOk result (Tells (K.told outlets.old) (K.told outlets.new) (Appends ((1, line.now) ∷ []))) }
    ensures front_told { OnErr result (Tells (K.told outlets.old) (K.told outlets.new) (AppendsFrontOf ((1, line.now) ∷ []))) }
    ensures cause { IfErr result (λ loss. loss ≡ Loss.Output) }
    ensures faults { CountsLoss result (K.faults outlets.old) (K.faults outlets.new) }
{
    put_all(outlets, STDERR, line)?;
    Ok(())
}
