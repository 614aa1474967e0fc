//! One step of a run.
#![tactic(auto)]

mod advancing;
mod alone;
mod arrival;
mod motion;
mod newborn;
mod parts;
mod reacting;
mod removal;
mod setup;
mod step_fault;
mod together;
mod turn;

pub use advancing::{advance, advance_with};
pub use setup::Setup;
pub use smol_travel::Panels;
pub use step_fault::StepFault;
