//! The text that `--make` runs.
ghost use Rattle.std.specs.Prelude.{◌≡◌, ◌≤◌, ◌++◌, decimal, IfOk, OnOk};
ghost use Rattle.smol_run.specs.Generated.{generated};

use itoa::Buffer;
use std::alloc::{AllocError, Global};

// Three species that move, between walls that reflect.
const SPACE: &[u8] = b"\
dim 3
species A B C
difstep A 0.5
difstep B 0.5
difstep C 0.25
boundaries x 0 100 r
boundaries y 0 100 r
boundaries z 0 100 r
max_mol 1000000
";

// Ten steps, and a box of six panels in the middle that let nothing through.
const BOX: &[u8] = b"\
time_start 0
time_stop 10
time_step 1
start_surface box
action both all reflect
panel rect +0 40 40 40 20 20
panel rect -0 60 40 40 20 20
panel rect +1 40 40 40 20 20
panel rect -1 40 60 40 20 20
panel rect +2 40 40 40 20 20
panel rect -2 40 40 60 20 20
end_surface
";

// A and B bind where they meet, and molecules are counted before the first step and at each fifth one.
const BINDING: &[u8] = b"\
reaction bind A + B -> C
binding_radius bind 1
cmd b molcountheader stdout
cmd n 5 molcount stdout
";

/// The text of a configuration with so many molecules, 1 to 1,000,000: half of them, rounded down, are of the species A, and the
/// others of B. Fails for want of memory alone.
pub fn make_config(alloc: Global, n: u32) -> Result<Vec<u8>, AllocError>
    requires least { 1 ≤ n }
    requires most { n ≤ 1000000 }
    ensures { IfOk result (λ text. text.items ≡ generated n) }
{
    let mut text = Vec::from_slice(alloc, SPACE)?;
    add_numbered(&mut text, b"random_seed ", n, b"\n")?;
    text.extend_from_slice(BOX)?;
    add_numbered(&mut text, b"mol ", n / 2, b" A u u u\n")?;
    add_numbered(&mut text, b"mol ", n - n / 2, b" B u u u\n")?;
    text.extend_from_slice(BINDING)?;
    Ok(text)
}

// Adds a number, and what stands before and behind it.
fn add_numbered(
    text: &mut Vec<u8>,
    before: &[u8],
    number: u32,
    behind: &[u8],
) -> Result<(), AllocError>
    ensures { OnOk result (text.new.items ≡ text.old.items ++ before.now ++ decimal number ++ behind.now) }
{
    let mut digits = Buffer::new();
    text.extend_from_slice(before)?;
    text.extend_from_slice(digits.format(number).as_bytes())?;
    text.extend_from_slice(behind)?;
    Ok(())
}
