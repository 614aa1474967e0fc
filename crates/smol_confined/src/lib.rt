//! Laws of closed reflecting boxes: what is inside one stays inside, whatever the configuration and the seed.
#![tactic(auto)]

mod built;
mod law;

pub use built::{
    faces_that_reflect_make_a_box, six_panels_within_periodic_walls_make_a_box,
    walls_that_reflect_make_a_box,
};
pub use law::{
    a_run_keeps_inside, a_step_keeps_all_inside, a_step_keeps_inside, events_of_a_run_stay_inside,
    motion_stays_inside, pairs_are_on_one_side, products_of_one_stay_inside,
};
