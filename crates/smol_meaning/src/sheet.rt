use smol_geom::Rect;

/// Where a panel or a wall is, in ticks.
#[derive(Clone, Copy, Debug, PartialEq, Eq)]
pub enum Sheet {
    /// A panel is a closed rectangle across an axis.
    Rectangle { rect: Rect },
    /// A wall is a whole plane across an axis: it has no edges.
    Plane { axis: u8, plane: i64 },
}
