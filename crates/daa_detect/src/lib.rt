//! Whether and when a straight leg violates a well-clear volume, decided exactly over every
//! fraction of it: no time between two instants is passed over, no square root is taken and no
//! irrational time computed.
#![tactic(auto)]

mod detection;
mod far;
mod horizontal;
mod motion;
mod products;
mod tau;

pub use detection::{hits, is_hit};
