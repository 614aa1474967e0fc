ghost use Rattle.std.specs.Prelude.{◌≡◌, IfOk};
ghost use Rattle.smol_types.specs.Sound.{IsSound};
ghost use Rattle.smol_births.specs.Chances.{chances_of};

use crate::draws::{chance_of, reaction_drawn};
use smol_types::Config;
use std::alloc::{AllocError, Global};
use std::marker::Model;

/// Which reactions molecules make alone, ready to be asked for: made once for a run. Contracts see it as the configuration's draft.
#[derive(Drop)]
pub struct Alone<'a> {
    config: &'a Config,
    // How many of the random words make a molecule of each species react alone.
    chances: Vec<u64>,
}

impl<'a> Model for Alone<'a> {
    ghost use Rattle.std.specs.Prelude.{◌≡◌};
    ghost use Rattle.smol_types.specs.declared.draft.Draft.{Draft};
    ghost use Rattle.smol_types.specs.Sound.{IsSound};
    ghost use Rattle.smol_births.specs.Chances.{chances_of};

    ghost Value = { Draft };

    ghost view = { λ alone. alone.config.now };

    ghost invariant = { λ alone. IsSound alone.config.now × (alone.chances.items ≡ chances_of alone.config.now) };
}

impl<'a> Alone<'a> {
    ghost use Rattle.std.specs.Prelude.{◌≡◌, ◌<◌, ℕ, IfOk, None, false, length, nat_lt};
    ghost use Rattle.smol_meaning.specs.Events.{reaction_drawn};
    ghost use Rattle.smol_births.specs.Chances.{chance_of};

    /// Which reactions the molecules of a configuration make alone.
    pub fn of(alloc: Global, config: &'a Config) -> Result<Alone<'a>, AllocError>
        ensures { IfOk result (λ alone. alone ≡ config.now) }
    {
        let chances = chances_of(alloc, config)?;
        Ok(Alone { config, chances })
    }

    /// Whether some word makes a molecule of the species react alone. Where none does, none need be drawn for it.
    pub fn may_react(&self, species: u16) -> bool
        requires { species < length self.now.species }
        ensures value { result ≡ nat_lt 0 (chance_of self.now.reactions species) }
        ensures never { result ≡ false → (word : ℕ) → reaction_drawn species 0 0 self.now.reactions word ≡ None }
    {
        self.chance(species) > 0
    }

    /// The reaction that a molecule of the species makes alone by this word, if it makes one.
    pub fn reaction(&self, species: u16, word: u32) -> Option<u16>
        requires { species < length self.now.species }
        ensures { result ≡ reaction_drawn species 0 0 self.now.reactions word }
    {
        if u64::from(word) >= self.chance(species) {
            return None;
        }
        reaction_drawn(species, self.config.reactions(), word)
    }

    // How many of the random words make a molecule of the species react alone.
    fn chance(&self, species: u16) -> u64
        requires { species < length self.now.species }
        ensures { result ≡ chance_of self.now.reactions species }
    {
        self.chances[species as usize]
    }
}

// How many of the random words make a molecule of each species react alone.
fn chances_of(alloc: Global, config: &Config) -> Result<Vec<u64>, AllocError>
    ensures chances { IfOk result (λ chances. chances.items ≡ chances_of config.now) }
    ensures sound { IsSound config.now }
{
    let reactions = config.reactions();
    let mut chances = Vec::new(alloc);
    for species in 0..config.species().len() {
        chances.push(chance_of(species as u16, reactions))?;
    }
    Ok(chances)
}
