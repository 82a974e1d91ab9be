//! The velocity of an aircraft from its heading and ground speed, by a table of sines: whole
//! numbers only, each axis cut toward zero.
#![tactic(auto)]

mod heading;

pub use heading::{sines_are_near_circle, unit, velocity, velocity_from_unit};

#[cfg(test)]
mod tests;
