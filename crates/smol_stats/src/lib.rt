//! Sums over molecules: how many are where, how far they are from a place, and how far from one another.
#![tactic(auto)]

mod around;
mod binning;
mod counts;
mod shells;
mod summing;
#[cfg(test)]
mod tests;

pub use around::radial;
pub use binning::bins;
pub use summing::{Moments, count_of, moments_of, spread};
