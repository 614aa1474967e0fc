//! Panels and walls as one kind: where they stand and what their faces do.
#![tactic(auto)]

mod boxes;
mod effect;
mod hidden;
mod panels;
mod sheet;

pub use panels::Panels;
pub use sheet::{Stand, across, line_meets};
