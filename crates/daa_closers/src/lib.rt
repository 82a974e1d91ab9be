//! Which aircraft of a moment a flight meets, and the level that it shows: of any track, speed and
//! altitude, not only of the values that a configuration lists. Nothing here takes memory.
#![tactic(auto)]

mod meeting;
mod places;
mod shown;

pub use places::closers;
pub use shown::shown_level;
