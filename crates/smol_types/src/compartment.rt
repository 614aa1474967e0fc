use crate::Items;
use smol_geom::Place;

/// A region: the points from which a straight line to some interior-defining point meets no panel of its surfaces.
#[derive(Debug, Drop)]
pub struct Compartment {
    /// The numbers of its bounding surfaces.
    pub surfaces: Items<u16>,
    /// Its interior-defining points, in ticks. Their coordinates are odd.
    pub points: Items<Place>,
}
