//! The times of a straight leg at which the vertical part of the well-clear volume holds: one
//! interval with exact ends.
#![tactic(auto)]

mod band;
mod windows;

pub use windows::window;

#[cfg(test)]
mod tests;
