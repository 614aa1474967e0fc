//! Texts that are added to a page. Where one could not be added, the page begins with what it had, and may have a part of the text.
ghost use Rattle.std.specs.Prelude.{◌≡◌, ◌++◌, OnErr, OnOk, codes, decimal, drop, flat_map, take};
ghost use Rattle.std.specs.Fmt.{signed_decimal};
ghost use Rattle.smol_num.specs.Print.{decimal_text};
ghost use Rattle.smol_types.specs.declared.species.Species.{Species as TheSpecies};
ghost use Rattle.smol_meaning.specs.Lines.{coordinates_text, micros_at, spaced, spaced_signed};
ghost use Rattle.smol_print.specs.Page.{BeginsWith};

use itoa::Buffer;
use smol_num::{write_micro, write_nano};
use smol_types::Species;
use std::alloc::AllocError;

/// Puts a page back to its old length where a text could not be added whole.
pub fn whole_or_nothing(
    page: &mut Vec<u8>,
    length: usize,
    added: Result<(), AllocError>,
) -> Result<(), AllocError>
    ensures same { result ≡ added }
    ensures whole { OnOk added (page.new.items ≡ page.old.items) }
    ensures nothing { OnErr added (page.new.items ≡ take length page.old.items) }
{
    if added.is_err() {
        page.truncate(length);
    }
    added
}

/// Adds numbers, each behind a space.
#[tactic(auto, using(crate::proofs::Growing::growing))]
pub fn add_numbers(page: &mut Vec<u8>, numbers: &[u64]) -> Result<(), AllocError>
    ensures ok { OnOk result (page.new.items ≡ page.old.items ++ spaced numbers.now) }
    ensures err { OnErr result (BeginsWith page.old.items page.new.items) }
{
    for number in numbers {
        add_number(page, *number)?;
    }
    Ok(())
}

/// Adds a number behind a space.
#[tactic(auto, using(crate::proofs::Growing::growing))]
pub fn add_number(page: &mut Vec<u8>, number: u64) -> Result<(), AllocError>
    ensures ok { OnOk result (page.new.items ≡ page.old.items ++ (codes " " ++ decimal number)) }
    ensures err { OnErr result (BeginsWith page.old.items page.new.items) }
{
    let mut digits = Buffer::new();
    page.extend_from_slice(b" ")?;
    page.extend_from_slice(digits.format(number).as_bytes())?;
    Ok(())
}

/// Adds numbers with a sign, each behind a space.
#[tactic(auto, using(crate::proofs::Growing::growing))]
pub fn add_signed_numbers(page: &mut Vec<u8>, numbers: &[i128]) -> Result<(), AllocError>
    ensures ok { OnOk result (page.new.items ≡ page.old.items ++ spaced_signed numbers.now) }
    ensures err { OnErr result (BeginsWith page.old.items page.new.items) }
{
    for number in numbers {
        add_signed_number(page, *number)?;
    }
    Ok(())
}

// Adds a number with a sign behind a space.
#[tactic(auto, using(crate::proofs::Growing::growing))]
fn add_signed_number(page: &mut Vec<u8>, number: i128) -> Result<(), AllocError>
    ensures ok { OnOk result (page.new.items ≡ page.old.items ++ (codes " " ++ signed_decimal number)) }
    ensures err { OnErr result (BeginsWith page.old.items page.new.items) }
{
    let mut digits = Buffer::new();
    page.extend_from_slice(b" ")?;
    page.extend_from_slice(digits.format(number).as_bytes())?;
    Ok(())
}

/// Ends a line.
pub fn end_line(page: &mut Vec<u8>) -> Result<(), AllocError>
    ensures ok { OnOk result (page.new.items ≡ page.old.items ++ codes "\n") }
    ensures err { OnErr result (page.new.items ≡ page.old.items) }
{
    page.extend_from_slice(b"\n")
}

/// Adds a time, which is in nanos.
pub fn add_time(page: &mut Vec<u8>, time: i64) -> Result<(), AllocError>
    ensures ok { OnOk result (page.new.items ≡ page.old.items ++ decimal_text 9 time) }
    ensures err { OnErr result (page.new.items ≡ page.old.items) }
{
    let mut text = [0; 24];
    let end = write_nano(time, &mut text);
    page.extend_from_slice(&text[..end])
}

// The coordinate in micros of a molecule that stands half a micro above it, at x ticks.
fn micros_at(x: i64) -> i64
    ensures { result ≡ micros_at x }
{
    (i128::from(x) - 1).div_euclid(2) as i64
}

// Adds the coordinate of a molecule that stands at x ticks.
fn add_coordinate(page: &mut Vec<u8>, x: i64) -> Result<(), AllocError>
    ensures ok { OnOk result (page.new.items ≡ page.old.items ++ decimal_text 6 (micros_at x)) }
    ensures err { OnErr result (page.new.items ≡ page.old.items) }
{
    let mut text = [0; 24];
    let end = write_micro(micros_at(x), &mut text);
    page.extend_from_slice(&text[..end])
}

/// Adds coordinates, each behind a space.
#[tactic(auto, using(crate::proofs::Growing::growing))]
pub fn add_coordinates(page: &mut Vec<u8>, xs: &[i64]) -> Result<(), AllocError>
    ensures ok { OnOk result (page.new.items ≡ page.old.items ++ coordinates_text xs.now) }
    ensures err { OnErr result (BeginsWith page.old.items page.new.items) }
{
    for x in xs {
        page.extend_from_slice(b" ")?;
        add_coordinate(page, *x)?;
    }
    Ok(())
}

/// Adds coordinates with one space between each two.
#[tactic(auto, using(crate::proofs::Growing::growing))]
pub fn add_first_coordinates(page: &mut Vec<u8>, xs: &[i64]) -> Result<(), AllocError>
    ensures ok { OnOk result (page.new.items ≡ page.old.items ++ drop 1 (coordinates_text xs.now)) }
    ensures err { OnErr result (BeginsWith page.old.items page.new.items) }
{
    if let [first, more @ ..] = xs {
        add_coordinate(page, *first)?;
        add_coordinates(page, more)?;
    }
    Ok(())
}

/// Adds the names of species, each behind a space.
#[tactic(auto, using(crate::proofs::Growing::growing))]
pub fn add_names(page: &mut Vec<u8>, all: &[Species]) -> Result<(), AllocError>
    ensures ok { OnOk result (page.new.items ≡ page.old.items ++ flat_map (λ (species : TheSpecies). codes " " ++ species.name) all.now) }
    ensures err { OnErr result (BeginsWith page.old.items page.new.items) }
{
    for species in all {
        page.extend_from_slice(b" ")?;
        page.extend_from_slice(species.name.as_bytes())?;
    }
    Ok(())
}
