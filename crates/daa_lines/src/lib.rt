//! Cuts a stream of bytes into lines, in whatever pieces it comes.
//! The lines do not depend on how the bytes were cut into pieces.
#![tactic(auto)]

mod laws;
mod lines;

pub use laws::{lines_only_grow, pieces_do_not_matter, stretches_are_the_bytes, worked_examples};
pub use lines::{InputLine, Lines, Stage};
