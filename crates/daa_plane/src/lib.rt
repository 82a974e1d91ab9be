//! Places on the globe and velocities over ground, in the plane round the ownship that the engine
//! takes: whole numbers only, on the ellipsoid WGS 84.
#![tactic(auto)]

mod calls;
mod courses;
mod gaps;
mod place;
mod rounding;
mod sight;
mod sines;
mod ways;

pub use calls::{plane, plane_own};
pub use courses::{Course, course_of};
pub use place::{Place, PlaneFault};
pub use sight::{Seen, seen_from};

#[cfg(test)]
mod tests;
