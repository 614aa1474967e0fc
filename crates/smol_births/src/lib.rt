//! Which molecules react alone, and what reactions make.
#![tactic(auto)]

mod alone;
mod birth;
mod draws;
mod fired;

pub use alone::Alone;
pub use birth::births;
pub use draws::first_order;
pub use fired::{fired_of_one, fired_of_two};
pub use smol_meaning::{Birth, Fired};
