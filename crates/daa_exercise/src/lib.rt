//! An exercise: moments that a random generator draws, what the engine answers of them counted, and
//! the summary written.
#![tactic(auto)]

mod beside;
mod clerk;
mod counting;
mod draws;
mod exercising;
mod laws;
mod sequence;
mod summary;
mod tally;

pub use exercising::exercise;
pub use laws::{
    counts_add_up, drawn_moments_are_in_range, drawn_moments_are_taken,
    every_exercise_has_one_summary, worked_examples,
};

#[cfg(test)]
mod tests;
