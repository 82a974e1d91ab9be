//! Decides whether a candidate's flight violates a volume around an aircraft between two of its
//! seconds, or may in truth, where what is reported may err by stated bounds. Nothing here takes
//! memory.
#![tactic(auto)]

mod errors;
mod laws;
mod leg;
mod now;
mod straight;
mod walk;

pub use errors::{are_exact, errors_on};
pub use laws::{
    constant_errors_are_within, exact_reports_are_taken_as_the_truth, flights_are_decidable,
    no_true_violation_is_missed, no_true_violation_of_a_leg_is_missed, what_may_not_meet_is_clear,
    wider_bounds_meet_no_less, worked_examples,
};
pub use leg::violates_on;
pub use now::violates_now;
pub use straight::meets_on_run;
pub use walk::meets_between;

#[cfg(test)]
mod tests;
