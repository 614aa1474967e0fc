//! Places, rectangles, moments and folds in ticks, compared exactly by whole numbers.
#![tactic(auto)]

mod cuboid;
mod fold;
mod law;
mod line;
mod moment;
mod part;
mod place;
mod rect;

pub use cuboid::Cuboid;
pub use fold::{Fold, holds_at};
pub use law::moments_are_all;
pub use line::meets;
pub use moment::{Moment, moment_before};
pub use place::{Place, Step3, dist2};
pub use rect::Rect;

#[cfg(test)]
mod tests;
