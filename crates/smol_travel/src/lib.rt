//! Where molecules go: from one panel or wall that they meet to the next.
#![tactic(auto)]

mod coordinates;
mod decision;
mod folding;
mod leg;
mod meeting;
mod walk;

pub use smol_meaning::Travelled;
pub use smol_sheets::Panels;
pub use walk::travel;
