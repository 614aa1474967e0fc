//! The whole program but for its real outside: from the words of the command line to the bytes on the outlets.
#![tactic(auto)]

#[cfg(test)]
mod caller;
mod ended;
mod ensemble;
mod error_lines;
mod given;
mod law;
mod loss;
mod make;
#[cfg(test)]
mod meeting;
mod outputs;
mod program;
mod refusal;
mod run;
mod single;
mod status;
mod stop;
#[cfg(test)]
mod tests;
mod words;

pub use law::{made_texts_are_accepted, plain_files_mean_the_same};
pub use make::make_config;
pub use program::run_program;
pub use status::Status;
pub use words::{Job, WordFault, read_words};
