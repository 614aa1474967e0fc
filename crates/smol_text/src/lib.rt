//! A text as the lines that make statements, and each such line as words.
#![tactic(auto)]

mod line;
mod line_state;
mod split;
mod stated_line;
mod text;
mod text_fault;

pub use line::{Line, Span, Words};
pub use line_state::LineState;
pub use split::{
    are_allowed, before_comment, first_line, first_separator, first_word_byte, first_word_of,
    split_lines,
};
pub use stated_line::StatedLine;
pub use text::Text;
pub use text_fault::TextFault;
