//! What a configuration says, the state of a run, and the faults of a configuration.
#![tactic(auto)]

mod action_at;
mod change_at;
mod command;
mod compartment;
mod config;
mod draft;
mod fault;
mod items;
mod name;
mod placing;
mod reaction;
mod species;
mod state;
mod steps;
mod surface;
mod wall;

pub use command::{Act, Command, Phase, Test, When};
pub use compartment::Compartment;
pub use config::Config;
pub use draft::Draft;
pub use fault::{ConfigFault, Kind, Need};
pub use items::Items;
pub use name::Name;
pub use placing::{Given, Placing};
pub use reaction::{Placement, Product, Reaction};
pub use species::Species;
pub use state::{Mol, State};
pub use steps::last_step;
pub use surface::{Action, Face, Panel, Surface};
pub use wall::{Letter, Wall};
