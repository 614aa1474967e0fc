//! One configuration run with many seeds: the runs, shared out among threads, and the table of what became of them.
#![tactic(auto)]

mod lines;
mod one_run;
mod outcome;
mod runs;
#[cfg(test)]
mod tests;

pub use lines::table;
pub use one_run::OneRun;
pub use outcome::{Counts, Outcome};
pub use runs::sweep;
