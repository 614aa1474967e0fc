//! The run of a configuration, written to outlets, or made for its end alone.
#![tactic(auto)]

mod commands;
mod course;
mod ending;
mod faults;
mod held;
mod readers;
mod run;
mod run_fault;
mod simulation;
mod stepping;
mod writing;

pub use ending::end_of_run;
pub use run_fault::RunFault;
pub use simulation::simulate;
