//! How far the molecules of each species reach, looked up.
ghost use Rattle.std.specs.Prelude.{◌≡◌, IfOk};
ghost use Rattle.smol_types.specs.Sound.{IsSound};
ghost use Rattle.smol_pairs.specs.Reach.{reaches_of};

use crate::reach::{longer, reach_of};
use smol_types::Config;
use std::alloc::{AllocError, Global};
use std::marker::Model;

/// How far the molecules of each species reach, looked up by species. Made once for a run. Contracts see it as the
/// configuration's draft.
#[derive(Drop)]
pub struct Reaches<'a> {
    config: &'a Config,
    // How far each species reaches, by its number.
    by_species: Vec<Option<u64>>,
}

impl<'a> Model for Reaches<'a> {
    ghost use Rattle.std.specs.Prelude.{◌≡◌};
    ghost use Rattle.smol_types.specs.declared.draft.Draft.{Draft};
    ghost use Rattle.smol_types.specs.Sound.{IsSound};
    ghost use Rattle.smol_pairs.specs.Reach.{reaches_of};

    ghost Value = { Draft };

    ghost view = { λ reaches. reaches.config.now };

    ghost invariant = { λ reaches. IsSound reaches.config.now × (reaches.by_species.items ≡ reaches_of reaches.config.now) };
}

impl<'a> Reaches<'a> {
    ghost use Rattle.std.specs.Prelude.{◌≡◌, ◌<◌, IfOk, length};
    ghost use Rattle.smol_types.specs.Sound.{IsSound};
    ghost use Rattle.smol_pairs.specs.Reach.{longest_of, reach_of, reaches_of};

    /// How far the species of a configuration reach.
    pub fn of(alloc: Global, config: &'a Config) -> Result<Reaches<'a>, AllocError>
        ensures of { IfOk result (λ reaches. reaches ≡ config.now) }
        ensures sound { IsSound config.now }
    {
        let by_species = table_of(alloc, config)?;
        Ok(Reaches { config, by_species })
    }

    /// How far a molecule of this species reaches on an axis, in ticks: the longest radius of its reactions. Without one it
    /// meets nobody.
    pub fn reach(&self, species: u16) -> Option<u64>
        requires { species < length self.now.species }
        ensures { result ≡ reach_of species self.now.reactions }
    {
        self.by_species[species as usize]
    }

    /// The longest reach of any species. Without one nobody meets anybody.
    pub fn longest(&self) -> Option<u64>
        ensures value { result ≡ longest_of (reaches_of self.now) }
        ensures sound { IsSound self.now }
    {
        let mut longest = None;
        for reach in &self.by_species {
            longest = longer(longest, *reach);
        }
        longest
    }
}

// How far each species of a configuration reaches, by its number.
fn table_of(alloc: Global, config: &Config) -> Result<Vec<Option<u64>>, AllocError>
    ensures table { IfOk result (λ table. table.items ≡ reaches_of config.now) }
    ensures sound { IsSound config.now }
{
    (0..config.species().len())
        .map(|species| reach_of(config, species as u16))
        .collect(alloc)
}
