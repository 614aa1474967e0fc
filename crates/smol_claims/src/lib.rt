//! Workers decide the pairs of a plan in threads of their own, without a lock, and each pair is decided as serial
//! matching decides it.
//!
//! What is taken, told and decided stands in words that change in single atomic steps. Between any two steps the
//! words, and what each worker knows, spell a good state of the machine of `smol_plan`.
#![tactic(auto)]

mod claims;
mod close;
mod code;
mod fresh;
mod law;
mod matching;
mod open;
mod plays;
mod rule;
mod settle;
mod steps;
mod terms;
#[cfg(test)]
mod tests;
mod view;
mod work;
mod worker;

pub use claims::Claims;
pub use law::each_step_is_an_event;
pub use matching::match_pairs;
pub use rule::Claiming;
pub use terms::Terms;
pub use view::{Link, Look, View};
pub use worker::Worker;
