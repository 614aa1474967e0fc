use smol_types::{Compartment, Items, Name, Panel, Surface};

/// What the block of a surface gives.
#[derive(Debug, Drop)]
pub struct SurfaceDraft {
    pub name: Name,
    pub surface: Surface,
    /// Its panels in order, each with the number of the surface. Jumps lead to panels by their numbers over the whole file.
    pub panels: Items<Panel>,
}

/// What the block of a compartment gives.
#[derive(Debug, Drop)]
pub struct CompartmentDraft {
    pub name: Name,
    pub compartment: Compartment,
}
