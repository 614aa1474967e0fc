//! Numbers as they are written and as they are counted: decimals, counts, millionths and billionths.
#![tactic(auto)]

mod decimal;
mod digits;
mod grammar;
mod num_fault;
mod parts;
mod print;
mod quantities;
mod root;
mod scale;

pub use decimal::read_decimal;
pub use digits::read_digits;
pub use grammar::numerals_are_read;
pub use num_fault::NumFault;
pub use print::{write_micro, write_nano};
pub use quantities::{Micro, Threshold, Ticks};
pub use root::isqrt;
