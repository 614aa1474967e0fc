//! What a run of a configuration means: its definitions, which the crates that run it cite, and laws about them.
#![tactic(auto)]

mod due;
mod event;
mod law;
mod sheet;
mod sight;
mod way;
mod who;

pub use due::{a_time_is_due_at_its_first_step, times_are_due_at_their_first_steps};
pub use event::{Birth, Fired};
pub use law::{
    each_state_fits, no_way_crosses, no_way_of_a_run_crosses, ways_are_confined, ways_end_near,
    ways_of_a_run_are_confined,
};
pub use sheet::Sheet;
pub use sight::{a_line_meets_a_panel, a_line_meets_a_wall, meets_panel, meets_wall};
pub use way::{Effect, Response, Standing, Travelled};
pub use who::{a_molecule_makes_the_reaction_that_it_draws, candidates_are_those_that_may_meet};
