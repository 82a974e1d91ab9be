//! The scan: which levels each candidate meets each aircraft at, which aircraft are near enough to
//! be met at all, and how the answers are divided into units of work. Nothing here takes memory.
#![tactic(auto)]

mod encounter;
mod laws;
mod marking;
mod needs;
mod nesting;
mod reach;
mod refusal;
mod scene;
mod sharing;
mod table;
mod trail;
mod trunks;

pub use laws::worked_examples;
pub use needs::{Needs, fill_flights};
pub use scene::Scene;
