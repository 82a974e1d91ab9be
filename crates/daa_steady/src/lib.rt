//! What stays from one moment to the next, for a display: levels of alerts, and the side of an
//! answer. What is kept stands in plain structs of the caller's, with the layout of C.
#![tactic(auto)]

mod alerts;
mod codes;
mod sides;

pub use alerts::{DaaSteady, DaaSteadyRule, steady};
pub use sides::{DaaSide, steady_side};
