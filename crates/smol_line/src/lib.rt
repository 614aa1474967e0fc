//! What a reader needs of a line: its words, and what a word means as a number, a name, a species, an axis, a length, a coordinate or a probability.
#![tactic(auto)]

mod axes;
mod axis;
mod checks;
mod coordinate;
mod length;
mod name_set;
mod names;
mod numbers;
mod probability;
mod refusal;
mod species_word;
mod words;

pub use axes::{Axes, Bounds, is_walled, needs_dim, needs_walls};
pub use axis::axis_in;
pub use checks::{once, unless, word_count};
pub use coordinate::{coordinate_in, ticks_within};
pub use length::micros_in;
pub use name_set::NameSet;
pub use names::{name_in, new_name_in};
pub use numbers::{count_in, decimal_in, unsigned_in};
pub use probability::{chance_in, threshold_of};
pub use refusal::Refusal;
pub use species_word::{Chosen, chosen_in, number_in, species_word_in};
pub use words::{spells, word_at};
