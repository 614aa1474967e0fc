//! Reads a configuration: a text becomes what it says, or its first fault.
#![tactic(auto)]

mod boundaries;
mod compartment_mol;
mod dim;
mod law;
mod max_mol;
mod mol;
mod motion;
mod pair_order;
mod random_seed;
mod reader;
mod species;
mod species_table;
mod tables;
#[cfg(test)]
mod tests;
mod times;
mod whole;

pub use law::{accepted_texts_are_sound, rates_never_exceed_1};
pub use reader::read_config;
