//! The answer on the two sides of each kind: the nearest open candidate, by [`nearest`]. A
//! candidate is open if it meets no aircraft at the corrective level or above. Nothing here takes
//! memory.
#![tactic(auto)]

mod laws;
mod open;
mod resolution;
mod side;

pub use laws::{board_answers_for_what_is_covered, has_one_answer, worked_examples};
pub use resolution::nearest;
pub use side::{Side, is_on_side, present};
