use smol_types::{Items, Name};

/// A reaction as its own line gives it.
#[derive(Debug, Drop)]
pub struct Scheme {
    pub name: Name,
    /// The numbers of the reactants' species.
    pub reactants: Items<u16>,
    /// The numbers of the products' species.
    pub products: Items<u16>,
    /// The rate, in billionths per unit of time, if the line gives one.
    pub rate: Option<u64>,
}
