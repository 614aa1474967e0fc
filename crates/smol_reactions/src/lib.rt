//! The statements on reactions: what a line means, and what the lines together say.
#![tactic(auto)]

mod arrangement;
mod binding_radius;
mod law;
mod product_placement;
mod rates;
mod reaction;
mod reaction_probability;
mod reactions;
mod scheme;
#[cfg(test)]
mod tests;

pub use law::{lines_keep_reactions_sound, probabilities_share_the_words, rates_share_the_words};
pub use product_placement::{PlacementKind, ProductPlacement};
pub use rates::are_enough;
pub use reactions::Reactions;
pub use scheme::Scheme;
