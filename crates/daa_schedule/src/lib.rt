//! The schedule of a pool of workers as a machine of single steps, with no thread and no atomic:
//! which worker has which units, and what has been answered. Every list of steps keeps each unit
//! exactly once.
#![tactic(auto)]

mod answers;
mod apply;
mod core_state;
mod laws;
mod memory;
mod refusals;
mod step;

pub use answers::Answers;
pub use core_state::Core;
pub use laws::{
    a_run_to_the_end_answers_all, accepted_steps_are_few, each_accepted_step_lowers_what_is_left,
    every_run_is_whole, the_opening_has_three_left_for_each_unit,
    what_is_left_of_five_units_for_two_workers,
};
pub use memory::NoMemory;
pub use step::{Step, StepFault};
