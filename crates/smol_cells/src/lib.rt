//! Virtual boxes over places and rectangles: which of them are in which boxes, and which are near a cuboid.
#![tactic(auto)]

mod bounds;
mod boxes;
mod cells;
mod entries;
mod grid;
mod law;
mod make;
mod near;
mod order;
mod touching;

pub use boxes::Boxes;
pub use cells::Cells;
pub use grid::Grid;
pub use law::{
    cells_in_order_are_of_places, near_ones_share_numbers, numbers_rise, reach_is_between,
    what_meets_is_near,
};
pub use near::Near;
pub use order::{BoxOrder, in_box_order};
pub use touching::Touching;

#[cfg(test)]
mod tests;
