/// A statement of a surface's block.
#[derive(Clone, Copy, Debug, PartialEq, Eq)]
pub enum SurfaceStatement {
    Action,
    Panel,
    Jump,
}
