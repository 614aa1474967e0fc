//! Lines of numbers over the molecules of a state. Each is put on the page of an outlet.
ghost use Rattle.std.specs.Prelude.{◌≡◌, ◌*◌, ◌^◌, ◌≤◌, ◌<◌, ◌<ℤ◌, [], ◌∷◌, All, IfOk, OnOk, length, unsigned_abs};
ghost use Rattle.smol_geom.specs.Axes.{IsWithin};
ghost use Rattle.smol_types.specs.Limits.{farthest_micros};
ghost use Rattle.smol_types.specs.Commands.{AreBins, IsRange};
ghost use Rattle.smol_types.specs.Steps.{last_step};
ghost use Rattle.smol_types.specs.declared.state.Mol.{Mol as TheMol};
ghost use Rattle.smol_stats.specs.Bins.{bins_of};
ghost use Rattle.smol_stats.specs.Radial.{radial_of};
ghost use Rattle.smol_meaning.specs.Lines.{count_line, number_line};
ghost use Rattle.smol_meaning.specs.Statistics.{marks_of, mean_of, mean_square_of, moments_of};
ghost use Rattle.smol_meaning.specs.Timing.{time_of};
ghost use Rattle.smol_commands.specs.Performs.{Adds};

use crate::meant::is_among;
use crate::printing::print_line;
use crate::timing::time_of;
use smol_print::{Pages, line_of_numbers};
use smol_stats::{bins, count_of, moments_of, radial, spread};
use smol_types::{Config, Mol};
use std::alloc::{AllocError, Global};

// For each species, whether it is one of these.
fn marks_of(alloc: Global, config: &Config, who: &[u16]) -> Result<Vec<bool>, AllocError>
    ensures value { IfOk result (λ marks. marks.items ≡ marks_of (length config.now.species) who.now) }
    ensures count { IfOk result (λ marks. length marks.items ≡ length config.now.species) }
{
    let count = config.species().len();
    let mut marks = Vec::with_capacity(alloc, count)?;
    for number in 0..count {
        marks.push(is_among(who, number as u16))?;
    }
    Ok(marks)
}

// Prints the line of a time and numbers.
fn print_numbers(time: i64, values: &[i128], outlet: u32, out: &mut Pages) -> Result<(), AllocError>
    requires { outlet < length out.old }
    ensures { OnOk result (Adds ((outlet, number_line time values.now) ∷ []) out.old out.new) }
{
    line_of_numbers(time, values, out.page_mut(outlet))
}

/// The species that count, an axis, a range on it in ticks, and in how many equal parts it is cut.
#[derive(Clone, Copy)]
pub struct Space<'a> {
    pub who: &'a [u16],
    pub axis: u8,
    pub low: i64,
    pub high: i64,
    pub bins: u32,
}

/// Prints the time and how many of the molecules meant are in each part of a range.
pub fn print_space(
    alloc: Global,
    config: &Config,
    step: u32,
    mols: &[Mol],
    space: &Space,
    outlet: u32,
    out: &mut Pages,
) -> Result<(), AllocError>
    requires outlet { outlet < length out.old }
    requires step { step ≤ last_step config.now.start config.now.stop config.now.step }
    requires few { length mols.now ≤ 1000000 }
    requires species { All (λ (mol : TheMol). mol.species < length config.now.species) mols.now }
    requires axis { space.now.axis < 3 }
    requires range { IsRange space.now.low space.now.high }
    requires bins { AreBins space.now.bins }
    ensures { OnOk result (Adds
        ((
          outlet,
          count_line (time_of config.now step)
              (bins_of (marks_of (length config.now.species) space.now.who.now) space.now.axis space.now.low space.now.high space.now.bins mols.now),
        ) ∷ [])
        out.old out.new) }
{
    let counts = counts_in(alloc, config, mols, space)?;
    let time = time_of(config, step);
    print_line(config, time, &counts, outlet, out)
}

// How many of the molecules meant are in each part of a range.
fn counts_in(
    alloc: Global,
    config: &Config,
    mols: &[Mol],
    space: &Space,
) -> Result<Vec<u64>, AllocError>
    requires few { length mols.now ≤ 1000000 }
    requires species { All (λ (mol : TheMol). mol.species < length config.now.species) mols.now }
    requires axis { space.now.axis < 3 }
    requires range { IsRange space.now.low space.now.high }
    requires bins { AreBins space.now.bins }
    ensures { IfOk result (λ counts. counts.items
        ≡ bins_of (marks_of (length config.now.species) space.now.who.now) space.now.axis space.now.low space.now.high space.now.bins mols.now) }
{
    let marks = marks_of(alloc, config, space.who)?;
    let axis = usize::from(space.axis);
    bins(alloc, mols, &marks, axis, space.low, space.high, space.bins)
}

/// Prints the time, how many of the molecules meant there are, and the sums of their coordinates and of the squares of these.
pub fn print_moments(
    alloc: Global,
    config: &Config,
    step: u32,
    mols: &[Mol],
    who: &[u16],
    outlet: u32,
    out: &mut Pages,
) -> Result<(), AllocError>
    requires outlet { outlet < length out.old }
    requires step { step ≤ last_step config.now.start config.now.stop config.now.step }
    requires few { length mols.now ≤ 1000000 }
    requires dims { config.now.dims ≤ 3 }
    requires species { All (λ (mol : TheMol). mol.species < length config.now.species) mols.now }
    requires places { All (λ (mol : TheMol). IsWithin (2 ^ 58) mol.place.0) mols.now }
    ensures { OnOk result (Adds
        ((
          outlet,
          number_line (time_of config.now step) (moments_of config.now.dims (marks_of (length config.now.species) who.now) mols.now),
        ) ∷ [])
        out.old out.new) }
{
    let values = moments_meant(alloc, config, mols, who)?;
    let time = time_of(config, step);
    print_numbers(time, &values, outlet, out)
}

// The number of the molecules meant, and the sums on each of the axes in use.
fn moments_meant(
    alloc: Global,
    config: &Config,
    mols: &[Mol],
    who: &[u16],
) -> Result<Vec<i128>, AllocError>
    requires few { length mols.now ≤ 1000000 }
    requires dims { config.now.dims ≤ 3 }
    requires species { All (λ (mol : TheMol). mol.species < length config.now.species) mols.now }
    requires places { All (λ (mol : TheMol). IsWithin (2 ^ 58) mol.place.0) mols.now }
    ensures { IfOk result (λ values. values.items ≡ moments_of config.now.dims (marks_of (length config.now.species) who.now) mols.now) }
{
    let marks = marks_of(alloc, config, who)?;
    moment_values(alloc, usize::from(config.dims()), mols, &marks)
}

// The same of the species that count.
fn moment_values(
    alloc: Global,
    dims: usize,
    mols: &[Mol],
    who: &[bool],
) -> Result<Vec<i128>, AllocError>
    requires dims { dims ≤ 3 }
    requires species { All (λ (mol : TheMol). mol.species < length who.now) mols.now }
    requires few { length mols.now ≤ 1000000 }
    requires places { All (λ (mol : TheMol). IsWithin (2 ^ 58) mol.place.0) mols.now }
    ensures { IfOk result (λ values. values.items ≡ moments_of dims who.now mols.now) }
{
    let found = moments_of(mols, who);
    let squares = [
        found.square[0] as i128,
        found.square[1] as i128,
        found.square[2] as i128,
    ];
    let mut values = Vec::with_capacity(alloc, 1 + 2 * dims)?;
    values.push(i128::from(found.count))?;
    values.extend_from_slice(&found.sum[..dims])?;
    values.extend_from_slice(&squares[..dims])?;
    Ok(values)
}

/// Prints the time, how many of the molecules meant there are, and the mean square of how far they are from a place in micros.
pub fn print_mean_square(
    alloc: Global,
    config: &Config,
    step: u32,
    mols: &[Mol],
    who: &[u16],
    at: &[i64; 3],
    outlet: u32,
    out: &mut Pages,
) -> Result<(), AllocError>
    requires outlet { outlet < length out.old }
    requires step { step ≤ last_step config.now.start config.now.stop config.now.step }
    requires few { length mols.now ≤ 1000000 }
    requires some { 0 < config.now.dims }
    requires dims { config.now.dims ≤ 3 }
    requires species { All (λ (mol : TheMol). mol.species < length config.now.species) mols.now }
    requires places { All (λ (mol : TheMol). IsWithin (2 ^ 58) mol.place.0) mols.now }
    requires at { IsWithin farthest_micros at.now }
    ensures { OnOk result (Adds
        ((
          outlet,
          number_line (time_of config.now step) (mean_square_of config.now.dims (marks_of (length config.now.species) who.now) at.now mols.now),
        ) ∷ [])
        out.old out.new) }
{
    let values = mean_square_meant(alloc, config, mols, who, at)?;
    let time = time_of(config, step);
    print_numbers(time, &values, outlet, out)
}

// The number of the molecules meant, and their mean square distance.
fn mean_square_meant(
    alloc: Global,
    config: &Config,
    mols: &[Mol],
    who: &[u16],
    at: &[i64; 3],
) -> Result<[i128; 2], AllocError>
    requires few { length mols.now ≤ 1000000 }
    requires some { 0 < config.now.dims }
    requires dims { config.now.dims ≤ 3 }
    requires species { All (λ (mol : TheMol). mol.species < length config.now.species) mols.now }
    requires places { All (λ (mol : TheMol). IsWithin (2 ^ 58) mol.place.0) mols.now }
    requires at { IsWithin farthest_micros at.now }
    ensures { IfOk result (λ values. values ≡ mean_square_of config.now.dims (marks_of (length config.now.species) who.now) at.now mols.now) }
{
    let marks = marks_of(alloc, config, who)?;
    let values = mean_square_values(usize::from(config.dims()), mols, &marks, at);
    Ok(values)
}

// The same of the species that count.
fn mean_square_values(dims: usize, mols: &[Mol], who: &[bool], at: &[i64; 3]) -> [i128; 2]
    requires some { 0 < dims }
    requires dims { dims ≤ 3 }
    requires species { All (λ (mol : TheMol). mol.species < length who.now) mols.now }
    requires few { length mols.now ≤ 1000000 }
    requires places { All (λ (mol : TheMol). IsWithin (2 ^ 58) mol.place.0) mols.now }
    requires at { IsWithin farthest_micros at.now }
    ensures { result ≡ mean_square_of dims who.now at.now mols.now }
{
    let count = count_of(mols, who);
    let sum = spread(mols, who, dims, at);
    [i128::from(count), mean_of(count, sum) as i128]
}

// The mean of so many numbers of this sum, rounded downwards.
fn mean_of(count: u64, sum: u128) -> u128
    ensures value { result ≡ mean_of count sum }
    ensures small { result ≤ sum }
{
    if count == 0 {
        0
    } else {
        sum / u128::from(count)
    }
}

/// The two species of pairs, a radius in micros, and how many shells of one thickness there are within it.
#[derive(Clone, Copy)]
pub struct Around {
    pub first: u16,
    pub second: u16,
    pub radius: u64,
    pub shells: u32,
}

/// Prints the time and how many pairs are in each shell.
pub fn print_radial(
    alloc: Global,
    config: &Config,
    step: u32,
    mols: &[Mol],
    around: &Around,
    outlet: u32,
    out: &mut Pages,
) -> Result<(), AllocError>
    requires outlet { outlet < length out.old }
    requires step { step ≤ last_step config.now.start config.now.stop config.now.step }
    requires few { length mols.now ≤ 1000000 }
    requires places { All (λ (mol : TheMol). IsWithin (2 ^ 57) mol.place.0) mols.now }
    requires positive { 0 < around.now.radius }
    requires short { around.now.radius ≤ 10 ^ 9 }
    requires shells { AreBins around.now.shells }
    ensures { OnOk result (Adds
        ((
          outlet,
          count_line (time_of config.now step)
              (radial_of around.now.first around.now.second (2 * around.now.radius) around.now.shells mols.now),
        ) ∷ [])
        out.old out.new) }
{
    let counts = radial(
        alloc,
        mols,
        around.first,
        around.second,
        around.radius,
        around.shells,
    )?;
    let time = time_of(config, step);
    print_line(config, time, &counts, outlet, out)
}
