//! Reads in pieces for a taker: reading and taking take turns, or a second thread reads ahead.
#![tactic(auto)]

mod ended;
pub mod examples;
mod next;
mod piece;
mod reader;
mod reading;
mod ring;
mod rounds;
mod taker;
mod taking;
mod threads;
mod turns;

pub use ended::Ended;
pub use next::{Next, read_next};
pub use taker::{Calls, Taker};
pub use threads::ahead;
pub use turns::{BUFFER, in_turn};
