use crate::{Command, Compartment, Items, Name, Panel, Placing, Reaction, Species, Surface, Wall};

/// What a configuration says, a field for each quantity.
#[derive(Debug, Drop)]
pub struct Draft {
    /// The number of axes in use.
    pub dims: u8,
    /// The species in the order of their names' lines.
    pub species: Items<Species>,
    /// The walls in the order x low, x high, y low, y high, z low, z high, for the axes in use.
    pub walls: Items<Wall>,
    /// The surfaces, in order.
    pub surfaces: Items<Surface>,
    /// The panels of all surfaces, in order.
    pub panels: Items<Panel>,
    /// The compartments, in order.
    pub compartments: Items<Compartment>,
    /// The reactions, in order.
    pub reactions: Items<Reaction>,
    /// The molecules to be placed, in order.
    pub placings: Items<Placing>,
    /// The commands, in order.
    pub commands: Items<Command>,
    /// The names of the files that are written, in order. The first is outlet 2.
    pub outputs: Items<Name>,
    /// The time of the opening state, in nanos.
    pub start: i64,
    /// The time at which the run stops, in nanos.
    pub stop: i64,
    /// The time of a step, in nanos.
    pub step: i64,
    /// How many molecules there may be.
    pub max_mol: u32,
    /// The seed of the drawn words, where the configuration gives one.
    pub seed: Option<u64>,
    /// Whether pairs of molecules react by their distances before their serials.
    pub nearest: bool,
}
