//! The edge of the program: where bytes come from, where they go, and where a worker may be held.
#![tactic(auto)]

#[cfg(test)]
mod adapter_tests;
mod answers;
mod calls;
mod failed;
#[cfg(test)]
mod fake;
mod faults;
mod file_source;
mod gate;
mod meet;
mod mem_file;
mod mem_files;
mod mem_outlets;
mod mem_source;
mod memory;
mod names;
mod outlets;
mod put;
mod real_outlets;
mod source;
mod take;
mod take_fault;
#[cfg(test)]
mod tests;

pub use failed::Failed;
pub use file_source::FileSource;
pub use gate::{Gate, Open};
pub use meet::Meet;
pub use mem_outlets::MemOutlets;
pub use mem_source::MemSource;
pub use outlets::Outlets;
pub use put::put_all;
pub use real_outlets::RealOutlets;
pub use source::Source;
pub use take::take_all;
pub use take_fault::TakeFault;
