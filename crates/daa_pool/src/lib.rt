//! A pool of workers that share the units of one list of answers. The ranges of units are in the
//! words of one table; its owner claims from a range and the others steal from it, in
//! single atomic steps. No worker waits.
#![tactic(auto)]

mod claim;
mod crew;
mod gather;
mod open;
mod pool;
mod rule;
mod seat;
mod steps;
mod view;
mod work;

pub use crew::answer_all;
pub use daa_schedule::NoMemory;
pub use pool::Pool;
pub use seat::{Piece, Seat, unit};
pub use view::{Look, Part, View};

#[cfg(test)]
mod tests;
