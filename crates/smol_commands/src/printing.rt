//! What commands print. Each puts one piece on the page of an outlet.
ghost use Rattle.std.specs.Prelude.{◌≡◌, ◌≤◌, ◌<◌, ◌++◌, ◌^◌, [], ◌∷◌, All, OnOk, filter, flat_map, length};
ghost use Rattle.smol_types.specs.Steps.{last_step};
ghost use Rattle.smol_types.specs.declared.state.Mol.{Mol as TheMol};
ghost use Rattle.smol_meaning.specs.Commands.{is_meant};
ghost use Rattle.smol_meaning.specs.Inside.{is_inside};
ghost use Rattle.smol_meaning.specs.Sighted.{IsPlaceWithin};
ghost use Rattle.smol_meaning.specs.Lines.{count_line, counts_from, header_line, mol_line, place_text, positions_line};
ghost use Rattle.smol_meaning.specs.Timing.{time_of};
ghost use Rattle.smol_commands.specs.Performs.{Adds};

use crate::counting::{counts_inside, counts_of};
use crate::meant::is_meant;
use crate::timing::time_of;
use smol_geom::Place;
use smol_print::{
    Pages, add_time, end_line, line_of_counts, line_of_header, line_of_mol, line_of_place,
};
use smol_types::{Config, Mol};
use std::alloc::{AllocError, Global};

/// Prints the header of counts.
pub fn print_header(config: &Config, outlet: u32, out: &mut Pages) -> Result<(), AllocError>
    requires { outlet < length out.old }
    ensures { OnOk result (Adds ((outlet, header_line config.now) ∷ []) out.old out.new) }
{
    line_of_header(config, out.page_mut(outlet))
}

/// Prints the time and the count of each species.
pub fn print_counts(
    alloc: Global,
    config: &Config,
    step: u32,
    mols: &[Mol],
    outlet: u32,
    out: &mut Pages,
) -> Result<(), AllocError>
    requires outlet { outlet < length out.old }
    requires step { step ≤ last_step config.now.start config.now.stop config.now.step }
    requires species { All (λ (mol : TheMol). mol.species < length config.now.species) mols.now }
    ensures { OnOk result (Adds
        ((outlet, count_line (time_of config.now step) (counts_from mols.now 0 config.now.species)) ∷ []) out.old out.new) }
{
    let counts = counts_of(alloc, config.species(), mols)?;
    let time = time_of(config, step);
    print_line(config, time, &counts, outlet, out)
}

/// Prints the time and the count of each species inside a compartment.
pub fn print_counts_inside(
    alloc: Global,
    config: &Config,
    compartment: u16,
    step: u32,
    mols: &[Mol],
    outlet: u32,
    out: &mut Pages,
) -> Result<(), AllocError>
    requires outlet { outlet < length out.old }
    requires compartment { compartment < length config.now.compartments }
    requires step { step ≤ last_step config.now.start config.now.stop config.now.step }
    requires species { All (λ (mol : TheMol). mol.species < length config.now.species) mols.now }
    requires places { All (λ (mol : TheMol). IsPlaceWithin (2 ^ 57) mol.place) mols.now }
    ensures { OnOk result (Adds
        ((
          outlet,
          count_line (time_of config.now step)
              (counts_from (filter (λ (mol : TheMol). is_inside config.now compartment mol.place) mols.now) 0 config.now.species),
        ) ∷ [])
        out.old out.new) }
{
    let counts = counts_inside(alloc, config, compartment, mols)?;
    let time = time_of(config, step);
    print_line(config, time, &counts, outlet, out)
}

/// Prints the line of a time and counts.
pub fn print_line(
    config: &Config,
    time: i64,
    counts: &[u64],
    outlet: u32,
    out: &mut Pages,
) -> Result<(), AllocError>
    requires { outlet < length out.old }
    ensures { OnOk result (Adds ((outlet, count_line time counts.now) ∷ []) out.old out.new) }
{
    line_of_counts(config, time, counts, out.page_mut(outlet))
}

/// Prints the species, the place and the serial of each molecule.
pub fn print_list(
    config: &Config,
    mols: &[Mol],
    outlet: u32,
    out: &mut Pages,
) -> Result<(), AllocError>
    requires outlet { outlet < length out.old }
    requires species { All (λ (mol : TheMol). mol.species < length config.now.species) mols.now }
    ensures { OnOk result (Adds ((outlet, flat_map (mol_line config.now) mols.now) ∷ []) out.old out.new) }
{
    add_mols(config, mols, out.page_mut(outlet))
}

// Adds the lines of molecules to a page.
fn add_mols(config: &Config, mols: &[Mol], page: &mut Vec<u8>) -> Result<(), AllocError>
    requires { All (λ (mol : TheMol). mol.species < length config.now.species) mols.now }
    ensures { OnOk result (page.new.items ≡ page.old.items ++ flat_map (mol_line config.now) mols.now) }
{
    for mol in mols {
        line_of_mol(config, mol, page)?;
    }
    Ok(())
}

/// Prints the time and the coordinates of the molecules meant.
pub fn print_positions(
    config: &Config,
    step: u32,
    mols: &[Mol],
    who: &[u16],
    outlet: u32,
    out: &mut Pages,
) -> Result<(), AllocError>
    requires outlet { outlet < length out.old }
    requires axes { 0 < config.now.dims }
    requires step { step ≤ last_step config.now.start config.now.stop config.now.step }
    ensures { OnOk result (Adds
        ((outlet, positions_line config.now (time_of config.now step) (filter (is_meant who.now) mols.now)) ∷ [])
        out.old out.new) }
{
    add_positions(
        config,
        time_of(config, step),
        mols,
        who,
        out.page_mut(outlet),
    )
}

#[tactic(auto, unfolding(smol_meaning::specs::Lines::positions_line))]
fn add_positions(
    config: &Config,
    time: i64,
    mols: &[Mol],
    who: &[u16],
    page: &mut Vec<u8>,
) -> Result<(), AllocError>
    requires { 0 < config.now.dims }
    ensures { OnOk result (page.new.items ≡ page.old.items ++ positions_line config.now time (filter (is_meant who.now) mols.now)) }
{
    add_time(page, time)?;
    add_places(config, mols, who, page)?;
    end_line(page)
}

// Adds the coordinates of a place, each behind a space.
fn add_place(config: &Config, place: Place, page: &mut Vec<u8>) -> Result<(), AllocError>
    requires { 0 < config.now.dims }
    ensures { OnOk result (page.new.items ≡ page.old.items ++ place_text config.now place) }
{
    page.push(b' ')?;
    line_of_place(config, &place, page)
}

// Adds the coordinates of the molecules meant.
fn add_places(
    config: &Config,
    mols: &[Mol],
    who: &[u16],
    page: &mut Vec<u8>,
) -> Result<(), AllocError>
    requires { 0 < config.now.dims }
    ensures { OnOk result (page.new.items ≡ page.old.items
        ++ flat_map (λ (mol : TheMol). place_text config.now mol.place) (filter (is_meant who.now) mols.now)) }
{
    for mol in mols {
        if is_meant(who, mol) {
            add_place(config, mol.place, page)?;
        }
    }
    Ok(())
}

/// Prints a text.
pub fn print_text(text: &[u8], outlet: u32, out: &mut Pages) -> Result<(), AllocError>
    requires { outlet < length out.old }
    ensures { OnOk result (Adds ((outlet, text.now) ∷ []) out.old out.new) }
{
    out.page_mut(outlet).extend_from_slice(text)
}
