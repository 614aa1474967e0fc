//! What commands do to a state and to the pages, and when they are due.
#![tactic(auto)]

mod acting;
mod command_fault;
mod counting;
mod flow;
mod hits;
mod meant;
mod moves;
mod printing;
mod statistics;
mod timing;

pub use acting::perform;
pub use command_fault::CommandFault;
pub use counting::counts_of;
pub use flow::Flow;
pub use timing::due;
