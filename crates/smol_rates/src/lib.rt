//! How likely first-order reactions of given rates are in a step, as shares of the random words.
#![tactic(auto)]

mod law;
mod series;
mod shares;
#[cfg(test)]
mod tests;
mod threshold;

pub use law::shares_add_up;
pub use shares::share;
pub use threshold::threshold_of;
