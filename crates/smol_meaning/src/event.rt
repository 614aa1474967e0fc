use smol_geom::{Place, Step3};

/// A reaction that takes place.
#[derive(Clone, Copy, Debug, PartialEq, Eq)]
pub struct Fired {
    /// The number of the reaction.
    pub reaction: u16,
    /// Where its products start, in ticks.
    pub start: Place,
    /// The axis along which two products are taken apart.
    pub axis: u8,
}

/// A product of a reaction, before it goes its way.
#[derive(Clone, Copy, Debug, PartialEq, Eq)]
pub struct Birth {
    pub serial: u64,
    pub species: u16,
    /// Where it starts, in ticks.
    pub start: Place,
    /// How far it goes from there, in ticks.
    pub by: Step3,
}
