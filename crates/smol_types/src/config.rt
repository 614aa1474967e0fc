ghost use Rattle.std.specs.Prelude.{◌≡◌};
ghost use Rattle.smol_types.specs.Sound.{IsSound};

use crate::{Command, Compartment, Draft, Name, Panel, Placing, Reaction, Species, Surface, Wall};
use std::marker::Model;

/// What an accepted configuration says. Contracts see it as its draft, which is sound.
#[derive(Debug, Drop)]
pub struct Config {
    draft: Draft,
}

impl Model for Config {
    ghost use Rattle.smol_types.specs.declared.draft.Draft.{Draft};
    ghost use Rattle.smol_types.specs.Sound.{IsSound};

    ghost Value = { Draft };

    ghost view = { λ config. config.draft };

    ghost invariant = { λ config. IsSound config.draft };
}

impl Config {
    /// The configuration of a draft. Takes no memory.
    pub fn of(draft: Draft) -> Config
        requires { IsSound draft }
        ensures { result ≡ draft }
    {
        Config { draft }
    }

    /// The number of axes in use.
    pub fn dims(&self) -> u8
        ensures value { result ≡ self.now.dims }
        ensures sound { IsSound self.now }
    {
        self.draft.dims
    }

    /// The species in order.
    pub fn species(&self) -> &[Species]
        ensures value { result.now ≡ self.now.species }
        ensures sound { IsSound self.now }
    {
        self.draft.species.as_slice()
    }

    /// The walls in the order x low, x high, y low, y high, z low, z high, for the axes in use.
    pub fn walls(&self) -> &[Wall]
        ensures value { result.now ≡ self.now.walls }
        ensures sound { IsSound self.now }
    {
        self.draft.walls.as_slice()
    }

    /// The surfaces in order.
    pub fn surfaces(&self) -> &[Surface]
        ensures value { result.now ≡ self.now.surfaces }
        ensures sound { IsSound self.now }
    {
        self.draft.surfaces.as_slice()
    }

    /// The panels of all surfaces in order.
    pub fn panels(&self) -> &[Panel]
        ensures value { result.now ≡ self.now.panels }
        ensures sound { IsSound self.now }
    {
        self.draft.panels.as_slice()
    }

    /// The compartments in order.
    pub fn compartments(&self) -> &[Compartment]
        ensures value { result.now ≡ self.now.compartments }
        ensures sound { IsSound self.now }
    {
        self.draft.compartments.as_slice()
    }

    /// The reactions in order.
    pub fn reactions(&self) -> &[Reaction]
        ensures value { result.now ≡ self.now.reactions }
        ensures sound { IsSound self.now }
    {
        self.draft.reactions.as_slice()
    }

    /// The molecules to be placed, in order.
    pub fn placings(&self) -> &[Placing]
        ensures value { result.now ≡ self.now.placings }
        ensures sound { IsSound self.now }
    {
        self.draft.placings.as_slice()
    }

    /// The commands in order.
    pub fn commands(&self) -> &[Command]
        ensures value { result.now ≡ self.now.commands }
        ensures sound { IsSound self.now }
    {
        self.draft.commands.as_slice()
    }

    /// The names of the files that are written, in order. The first is outlet 2.
    pub fn outputs(&self) -> &[Name]
        ensures value { result.now ≡ self.now.outputs }
        ensures sound { IsSound self.now }
    {
        self.draft.outputs.as_slice()
    }

    /// The time of the opening state, in nanos.
    pub fn start(&self) -> i64
        ensures value { result ≡ self.now.start }
        ensures sound { IsSound self.now }
    {
        self.draft.start
    }

    /// The time at which the run stops, in nanos.
    pub fn stop(&self) -> i64
        ensures value { result ≡ self.now.stop }
        ensures sound { IsSound self.now }
    {
        self.draft.stop
    }

    /// The time of a step, in nanos.
    pub fn step(&self) -> i64
        ensures value { result ≡ self.now.step }
        ensures sound { IsSound self.now }
    {
        self.draft.step
    }

    /// How many molecules there may be.
    pub fn max_mol(&self) -> u32
        ensures value { result ≡ self.now.max_mol }
        ensures sound { IsSound self.now }
    {
        self.draft.max_mol
    }

    /// The seed that the configuration gives, if it gives one.
    pub fn seed(&self) -> Option<u64>
        ensures value { result ≡ self.now.seed }
        ensures sound { IsSound self.now }
    {
        self.draft.seed
    }

    /// Whether pairs of molecules react by their distances before their serials: the nearest first. Takes no memory.
    pub fn nearest(&self) -> bool
        ensures value { result ≡ self.now.nearest }
        ensures sound { IsSound self.now }
    {
        self.draft.nearest
    }
}
