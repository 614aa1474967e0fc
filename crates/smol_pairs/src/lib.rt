//! Which pairs of molecules may react in a step.
#![tactic(auto)]

mod encounter;
mod finding;
mod grid;
mod keys;
mod listing;
mod looking;
mod meeting;
mod near;
mod pairing;
mod parts;
mod ranked;
mod reach;
mod reaches;
mod rows;
mod search;
mod seeker;

pub use encounter::Encounter;
pub use finding::encounters;
pub use pairing::{candidates, pairs_of};
pub use reaches::Reaches;
