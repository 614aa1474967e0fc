use crate::surface_statement::SurfaceStatement;

/// A statement that opens a block, stands in one or closes it.
#[derive(Clone, Copy, Debug, PartialEq, Eq)]
pub enum BlockStatement {
    StartSurface,
    InSurface(SurfaceStatement),
    EndSurface,
    StartCompartment,
    Surface,
    Point,
    EndCompartment,
}
