//! The plan of the pairs of one step, and the machine by which workers decide them.
//!
//! Pairs of molecules that may react stand in a list, and serial matching lets a pair fire where no earlier pair
//! took one of its molecules. The machine lets several workers decide the pairs in whatever order its events come,
//! and each pair is still decided as serial matching decides it.
#![tactic(auto)]

mod decision;
mod entries;
mod event;
mod law;
mod machine;
mod matching;
mod pair;
mod pair_state;
mod plan;
#[cfg(test)]
mod tests;

pub use decision::Decision;
pub use event::Event;
pub use law::{each_order_ends, each_order_follows_serial, each_order_is_short};
pub use machine::Core;
pub use matching::greedy;
pub use pair::{Pair, Side};
pub use plan::Plan;
