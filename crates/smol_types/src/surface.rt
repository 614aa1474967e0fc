use crate::Items;
use smol_geom::Rect;

/// A face of a panel or of a wall. The front of a wall is its face turned inwards.
#[derive(Clone, Copy, Debug, PartialEq, Eq)]
pub enum Face {
    Front,
    Back,
}

/// What a face does to a molecule that arrives on it.
#[derive(Clone, Copy, Debug, PartialEq, Eq)]
pub enum Action {
    /// It reflects.
    Reflect,
    /// It absorbs.
    Absorb,
    /// It moves the molecule to another panel, or through a periodic wall to the opposite one.
    Jump,
    /// It lets the molecule through.
    Transmit,
}

/// What the faces of a surface's panels do, an entry for each species that was named before the end of its block.
/// They let any further species through.
#[derive(Debug, Drop)]
pub struct Surface {
    pub front: Items<Action>,
    pub back: Items<Action>,
    /// The species, by its number, that the front makes of a species on which it acts. Without one the species stays.
    pub front_new: Items<Option<u16>>,
    /// The same for the back.
    pub back_new: Items<Option<u16>>,
}

/// A closed rectangle across one axis.
#[derive(Clone, Copy, Debug, PartialEq, Eq)]
pub struct Panel {
    pub rect: Rect,
    /// Whether the front is the side of greater coordinates.
    pub greater: bool,
    /// The number of its surface.
    pub surface: u16,
    /// The panel, by its number over the whole file, and the face of it to which a jump from the front leads.
    pub front_to: Option<(u16, Face)>,
    /// The same for a jump from the back.
    pub back_to: Option<(u16, Face)>,
}
