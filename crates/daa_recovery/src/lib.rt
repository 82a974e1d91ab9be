//! Recovery: if every candidate of a kind loses well clear, how soon one of them is clear again.
//! Nothing here takes memory.
#![tactic(auto)]

mod laws;
mod needs;
mod order;
mod outlook;
mod recovery;
mod rest;
mod side;
mod walk;

pub use laws::{
    has_one_recovery, has_one_recovery_on_each_side, recovering_lasts,
    the_cylinder_is_what_is_near, the_recovery_of_a_kind_is_that_of_a_side,
    without_nearest_the_least_value_is_named,
};
pub use outlook::{candidate_going_to, horizon_of};
pub use recovery::{Recovery, least, least_on};
pub use side::lead_to;
