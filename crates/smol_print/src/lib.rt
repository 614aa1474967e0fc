//! What commands print: the lines, and the pages on which they stand until they are written.
#![tactic(auto)]

mod lines;
mod pages;
mod texts;

pub use lines::{line_of_counts, line_of_header, line_of_mol, line_of_numbers, line_of_place};
pub use pages::Pages;
pub use texts::{add_number, add_numbers, add_time, end_line};
