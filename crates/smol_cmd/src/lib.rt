//! Reads the words of a `cmd` line and of an `output_files` line.
#![tactic(auto)]

mod act;
mod cmd;
mod condition;
mod echo;
mod known;
mod law;
mod outlet;
mod output_files;
mod places;
mod probability;
mod statistics;
#[cfg(test)]
mod tests;
mod times;
mod timing;
mod verb;
mod who;

pub use cmd::read_cmd;
pub use law::{commands_are_sound, commands_stay_sound, output_files_are_few};
pub use output_files::read_output_files;
