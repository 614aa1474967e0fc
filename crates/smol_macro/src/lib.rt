//! A file's expanded text: what the reader of configurations is given in place of the file.
#![tactic(auto)]

mod conditions;
mod definitions;
mod expand_fault;
mod expansion;
mod file;
mod files;
mod law;
mod lines;
mod output;
mod replace;
#[cfg(test)]
mod tests;
mod walk;
mod words;

pub use expand_fault::{ExpandFault, MacroKind};
pub use expansion::expand;
pub use law::{expanded_texts_are_short, plain_files_say_the_same};
