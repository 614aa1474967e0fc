//! Random words by seed, stream and place, and the displacements that are drawn with them.
#![tactic(auto)]

mod chance;
mod displacement;
mod streams;

pub use chance::Drawn;
pub use displacement::scale;
pub use streams::Streams;

#[cfg(test)]
mod tests;
