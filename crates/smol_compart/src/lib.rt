//! Which places are inside a compartment, and where molecules are placed before a run.
#![tactic(auto)]

mod compartment;
mod draw;
mod opening;
mod place_fault;

pub use compartment::inside;
pub use opening::place_all;
pub use place_fault::PlaceFault;
