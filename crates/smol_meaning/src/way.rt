use smol_geom::{Fold, Place};

/// What a panel or a wall does to a molecule that arrives on one of its faces.
#[derive(Clone, Copy, Debug, PartialEq, Eq)]
pub enum Response {
    /// It mirrors the motion across it.
    Reflect,
    /// It ends the way. This is its number.
    Absorb { number: u16 },
    /// It moves the molecule by so many ticks on each axis. From there the motion leads to greater coordinates
    /// where `up` holds, and else to lesser ones.
    Jump { by: [i64; 3], up: bool },
    /// It lets the molecule through.
    Pass,
}

/// What a face does to a molecule that arrives on it, and the species that it makes of it.
#[derive(Clone, Copy, Debug, PartialEq, Eq)]
pub struct Effect {
    pub response: Response,
    pub species: u16,
}

/// Where a way has led so far.
#[derive(Clone, Copy, Debug, PartialEq, Eq)]
pub enum Standing {
    /// On, by this fold and as a molecule of this species.
    Goes { fold: Fold, species: u16 },
    /// Onto the panel or wall of this number, which absorbs.
    Gone { number: u16 },
}

/// Where a way ends.
#[derive(Clone, Copy, Debug, PartialEq, Eq)]
pub enum Travelled {
    /// At this place, as a molecule of this species.
    At { place: Place, species: u16 },
    /// On the panel or wall of this number, which absorbs.
    Absorbed(u16),
}
