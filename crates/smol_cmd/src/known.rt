//! What the lines before a line give that a command may name.
ghost use Rattle.std.specs.Prelude.{◌≡◌};
ghost use Rattle.smol_cmd.specs.Known.{known};

use smol_line::{Axes, NameSet};
use std::marker::Model;

/// The axes with their walls, and the names of species, compartments and output files, each in order.
#[derive(Drop)]
pub struct Known<'a> {
    axes: &'a Axes,
    species: &'a NameSet,
    compartments: &'a NameSet,
    outputs: &'a NameSet,
}

impl<'a> Model for Known<'a> {
    ghost use Rattle.smol_cmd.specs.Known.{Known as TheKnown, known};

    ghost Value = { TheKnown };

    ghost view = { λ its. known its.axes.now its.species.now its.compartments.now its.outputs.now };
}

impl<'a> Known<'a> {
    /// These axes and names.
    pub fn new(
        axes: &'a Axes,
        species: &'a NameSet,
        compartments: &'a NameSet,
        outputs: &'a NameSet,
    ) -> Known<'a>
        ensures { result ≡ known axes.now species.now compartments.now outputs.now }
    {
        Known {
            axes,
            species,
            compartments,
            outputs,
        }
    }

    /// The axes with their walls.
    pub fn axes(&self) -> &'a Axes
        ensures { result.now ≡ self.now.axes }
    {
        self.axes
    }

    /// The names of the species.
    pub fn species(&self) -> &'a NameSet
        ensures { result.now ≡ self.now.species }
    {
        self.species
    }

    /// The names of the compartments.
    pub fn compartments(&self) -> &'a NameSet
        ensures { result.now ≡ self.now.compartments }
    {
        self.compartments
    }

    /// The names of the output files.
    pub fn outputs(&self) -> &'a NameSet
        ensures { result.now ≡ self.now.outputs }
    {
        self.outputs
    }
}
