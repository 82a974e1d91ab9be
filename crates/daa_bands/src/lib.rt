//! The levels of all candidates of a moment, and the bands that they form. A [`Board`] keeps a mask
//! of levels for each candidate; [`runs`] returns the stretches of a kind's values that show the
//! same level. Nothing here takes memory.
#![tactic(auto)]

mod band;
mod board;
mod kind_bands;
mod laws;
mod walk;

pub use band::Band;
pub use board::{BOARD_MASKS, Board};
pub use kind_bands::runs;
pub use laws::{board_shows_what_is_covered, has_one_list_of_bands, worked_examples};
pub use walk::Runs;
