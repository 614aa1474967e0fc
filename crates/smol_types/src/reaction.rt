use crate::{Items, Name};
use smol_geom::Step3;
use smol_num::{Micro, Threshold};

/// A molecule that a reaction makes.
#[derive(Clone, Copy, Debug, PartialEq, Eq)]
pub struct Product {
    pub species: u16,
    /// How far from the start of the products it goes, in ticks.
    pub offset: Step3,
}

/// How the products of a reaction are placed.
#[derive(Clone, Copy, Debug, PartialEq, Eq)]
pub enum Placement {
    /// Each at its offset.
    Offsets,
    /// Two products this many micros apart along a drawn axis.
    Unbind(i64),
}

/// A reaction of one molecule or of two.
#[derive(Debug, Drop)]
pub struct Reaction {
    pub name: Name,
    /// The number of its reactants, 1 or 2.
    pub order: u8,
    /// The numbers of the reactants' species.
    pub reactants: Items<u16>,
    pub products: Items<Product>,
    /// How far apart two reactants may be. Without it a reaction of two never takes place.
    pub radius: Option<Micro>,
    /// Which random words are a yes.
    pub threshold: Threshold,
    /// The rate that gives a reaction of one its threshold, in billionths per unit of time. Without it a probability does.
    pub rate: Option<u64>,
    pub placement: Placement,
}
