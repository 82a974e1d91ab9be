//! Flights: the ownship's legs on the way to what a candidate asks for, second by second or in runs
//! of one velocity, and how an aircraft sees them. A flight is flown in one-second legs, each
//! straight at one velocity.
#![tactic(auto)]

mod branch;
mod divisor;
mod encounter;
mod flight;
mod joint;
mod laws;
mod motion;
mod own_leg;
mod traffic;
mod trunk;
mod turn;

pub use branch::{Branch, branch_from, branch_of};
pub use divisor::Divisor;
pub use encounter::{relative, relative_from, relative_run, relative_run_from};
pub use flight::{Flight, present_leg};
pub use joint::end_of;
pub use laws::{
    flights_begin_as_now, legs_join, legs_move_by_the_rates, new_reports_stand, turns_arrive,
    worked_examples,
};
pub use own_leg::{OwnLeg, OwnRun};
pub use traffic::traffic_now;
pub use trunk::Trunk;
