//! What each step of a run looks up.
ghost use Rattle.std.specs.Prelude.{◌≡◌, IfOk};
ghost use Rattle.smol_types.specs.Sound.{IsSound};

use smol_births::Alone;
use smol_pairs::Reaches;
use smol_travel::Panels;
use smol_types::Config;
use std::alloc::{AllocError, Global};
use std::marker::Model;

/// A configuration with what each step of a run looks up: its panels and walls, and tables by species. Made once for a run.
/// Contracts see it as the configuration's draft.
#[derive(Drop)]
pub struct Setup<'a> {
    config: &'a Config,
    panels: &'a Panels<'a>,
    reaches: Reaches<'a>,
    alone: Alone<'a>,
}

impl<'a> Model for Setup<'a> {
    ghost use Rattle.std.specs.Prelude.{◌≡◌};
    ghost use Rattle.smol_types.specs.declared.draft.Draft.{Draft};
    ghost use Rattle.smol_types.specs.Sound.{IsSound};

    ghost Value = { Draft };

    ghost view = { λ setup. setup.config.now };

    ghost invariant = { λ setup. IsSound setup.config.now × (setup.panels.now ≡ setup.config.now)
        × (setup.reaches ≡ setup.config.now) × (setup.alone ≡ setup.config.now) };
}

impl<'a> Setup<'a> {
    ghost use Rattle.std.specs.Prelude.{◌≡◌, IfOk};
    ghost use Rattle.smol_types.specs.Sound.{IsSound};

    /// A configuration with its panels, and the tables that are made of it.
    pub fn of(
        alloc: Global,
        config: &'a Config,
        panels: &'a Panels<'a>,
    ) -> Result<Setup<'a>, AllocError>
        requires panels { panels.now ≡ config.now }
        ensures of { IfOk result (λ setup. setup ≡ config.now) }
        ensures sound { IsSound config.now }
    {
        let reaches = Reaches::of(alloc, config)?;
        let alone = Alone::of(alloc, config)?;
        Ok(Setup {
            config,
            panels,
            reaches,
            alone,
        })
    }

    /// The configuration that it is of.
    pub fn config(&self) -> &Config
        ensures value { result.now ≡ self.now }
        ensures sound { IsSound self.now }
    {
        self.config
    }

    // Its panels and walls.
    pub(crate) fn panels(&self) -> &Panels
        ensures { result.now ≡ self.now }
    {
        self.panels
    }

    // How far its species reach.
    pub(crate) fn reaches(&self) -> &Reaches
        ensures { result.now ≡ self.now }
    {
        &self.reaches
    }

    // Which reactions its molecules make alone.
    pub(crate) fn alone(&self) -> &Alone
        ensures { result.now ≡ self.now }
    {
        &self.alone
    }
}
