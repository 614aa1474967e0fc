//! The lines that commands print. A line is added to its page whole or not at all.
ghost use Rattle.std.specs.Prelude.{◌≡◌, ◌++◌, ◌<◌, OnErr, OnOk, codes, drop, length};
ghost use Rattle.smol_meaning.specs.Lines.{count_line, header_line, mol_line, name_of, number_line, place_text};
ghost use Rattle.smol_print.specs.Page.{BeginsWith};

use crate::texts::{
    add_coordinates, add_first_coordinates, add_names, add_number, add_numbers, add_signed_numbers,
    add_time, end_line, whole_or_nothing,
};
use smol_geom::Place;
use smol_types::{Config, Mol};
use std::alloc::AllocError;

/// Adds the line of `molcountheader`.
pub fn line_of_header(config: &Config, page: &mut Vec<u8>) -> Result<(), AllocError>
    ensures ok { OnOk result (page.new.items ≡ page.old.items ++ header_line config.now) }
    ensures err { OnErr result (page.new.items ≡ page.old.items) }
{
    let length = page.len();
    let added = add_header(config, page);
    whole_or_nothing(page, length, added)
}

#[tactic(auto, unfolding(smol_meaning::specs::Lines::header_line))]
fn add_header(config: &Config, page: &mut Vec<u8>) -> Result<(), AllocError>
    ensures ok { OnOk result (page.new.items ≡ page.old.items ++ header_line config.now) }
    ensures err { OnErr result (BeginsWith page.old.items page.new.items) }
{
    page.extend_from_slice(b"time")?;
    add_names(page, config.species())?;
    end_line(page)
}

/// Adds the line of `molcount` for a time in nanos and these counts.
pub fn line_of_counts(
    _config: &Config,
    time: i64,
    counts: &[u64],
    page: &mut Vec<u8>,
) -> Result<(), AllocError>
    ensures ok { OnOk result (page.new.items ≡ page.old.items ++ count_line time counts.now) }
    ensures err { OnErr result (page.new.items ≡ page.old.items) }
{
    let length = page.len();
    let added = add_counts(time, counts, page);
    whole_or_nothing(page, length, added)
}

#[tactic(auto, unfolding(smol_meaning::specs::Lines::count_line))]
fn add_counts(time: i64, counts: &[u64], page: &mut Vec<u8>) -> Result<(), AllocError>
    ensures ok { OnOk result (page.new.items ≡ page.old.items ++ count_line time counts.now) }
    ensures err { OnErr result (BeginsWith page.old.items page.new.items) }
{
    add_time(page, time)?;
    add_numbers(page, counts)?;
    end_line(page)
}

/// Adds a line of numbers behind a time in nanos.
pub fn line_of_numbers(time: i64, values: &[i128], page: &mut Vec<u8>) -> Result<(), AllocError>
    ensures ok { OnOk result (page.new.items ≡ page.old.items ++ number_line time values.now) }
    ensures err { OnErr result (page.new.items ≡ page.old.items) }
{
    let length = page.len();
    let added = add_values(time, values, page);
    whole_or_nothing(page, length, added)
}

#[tactic(auto, unfolding(smol_meaning::specs::Lines::number_line))]
fn add_values(time: i64, values: &[i128], page: &mut Vec<u8>) -> Result<(), AllocError>
    ensures ok { OnOk result (page.new.items ≡ page.old.items ++ number_line time values.now) }
    ensures err { OnErr result (BeginsWith page.old.items page.new.items) }
{
    add_time(page, time)?;
    add_signed_numbers(page, values)?;
    end_line(page)
}

/// Adds the line of `listmols` for a molecule.
pub fn line_of_mol(config: &Config, m: &Mol, page: &mut Vec<u8>) -> Result<(), AllocError>
    requires { m.now.species < length config.now.species }
    ensures ok { OnOk result (page.new.items ≡ page.old.items ++ mol_line config.now m.now) }
    ensures err { OnErr result (page.new.items ≡ page.old.items) }
{
    let length = page.len();
    let added = add_mol(config, m, page);
    whole_or_nothing(page, length, added)
}

#[tactic(auto, using(crate::proofs::Growing::growing), unfolding(smol_meaning::specs::Lines::mol_line))]
fn add_mol(config: &Config, m: &Mol, page: &mut Vec<u8>) -> Result<(), AllocError>
    requires { m.now.species < length config.now.species }
    ensures ok { OnOk result (page.new.items ≡ page.old.items ++ mol_line config.now m.now) }
    ensures err { OnErr result (BeginsWith page.old.items page.new.items) }
{
    add_name(config, m.species, page)?;
    add_place(config, &m.place, page)?;
    add_number(page, m.serial)?;
    end_line(page)
}

// Adds the name of a species, whose molecules are in solution.
#[tactic(auto, using(crate::proofs::Growing::growing))]
fn add_name(config: &Config, species: u16, page: &mut Vec<u8>) -> Result<(), AllocError>
    requires { species < length config.now.species }
    ensures ok { OnOk result (page.new.items ≡ page.old.items ++ (name_of config.now species ++ codes "(solution)")) }
    ensures err { OnErr result (BeginsWith page.old.items page.new.items) }
{
    page.extend_from_slice(config.species()[species as usize].name.as_bytes())?;
    page.extend_from_slice(b"(solution)")
}

// Adds the coordinates of a place on the axes in use, each behind a space.
fn add_place(config: &Config, p: &Place, page: &mut Vec<u8>) -> Result<(), AllocError>
    ensures ok { OnOk result (page.new.items ≡ page.old.items ++ place_text config.now p.now) }
    ensures err { OnErr result (BeginsWith page.old.items page.new.items) }
{
    add_coordinates(page, &p.0[..config.dims() as usize])
}

/// Adds the coordinates of a place on the axes in use, with one space between each two.
pub fn line_of_place(config: &Config, p: &Place, page: &mut Vec<u8>) -> Result<(), AllocError>
    ensures ok { OnOk result (page.new.items ≡ page.old.items ++ drop 1 (place_text config.now p.now)) }
    ensures err { OnErr result (page.new.items ≡ page.old.items) }
{
    let length = page.len();
    let added = add_first_coordinates(page, &p.0[..config.dims() as usize]);
    whole_or_nothing(page, length, added)
}
