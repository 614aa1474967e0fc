use crate::Name;

/// A kind of molecule.
#[derive(Debug, Drop)]
pub struct Species {
    pub name: Name,
    /// Its difstep: the root-mean-square displacement on an axis in one step, in micros.
    pub step: u32,
}
