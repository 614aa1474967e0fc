//! Reads the blocks of a configuration: the lines of surfaces and of compartments.
#![tactic(auto)]

mod action;
mod action_table;
mod block_name;
mod block_statement;
mod blocks;
mod close_surface;
mod compartment;
mod compartment_block;
mod drafts;
mod faces;
mod jump;
mod law;
mod names;
mod panel;
mod panel_name;
mod panel_table;
mod statement;
mod surface_block;
mod surface_statement;
mod surface_table;
#[cfg(test)]
mod tests;
mod told;

pub use action::Acting;
pub use action_table::ActionTable;
pub use block_statement::BlockStatement;
pub use blocks::Blocks;
pub use compartment_block::{read_compartment, read_compartment_block};
pub use drafts::{CompartmentDraft, SurfaceDraft};
pub use faces::Faces;
pub use jump::Leading;
pub use law::{lines_keep_blocks_sound, lines_keep_compartments, named_blocks_are_closed};
pub use names::Names;
pub use panel::Facing;
pub use panel_table::PanelTable;
pub use statement::Statement;
pub use surface_block::{read_surface, read_surface_block};
pub use surface_statement::SurfaceStatement;
pub use surface_table::SurfaceTable;
pub use told::told_at;
