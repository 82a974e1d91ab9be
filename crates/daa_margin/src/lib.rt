//! The well-clear volume where errors have bounds: whether what is reported of a straight leg
//! leaves room for a violation in truth.
#![tactic(auto)]

/// How far what is reported of a relative leg may be from the truth: a bound on each error at the
/// leg's beginning. The errors of place and height grow each second by those of the velocities.
#[derive(Clone, Copy, Debug, PartialEq, Eq)]
pub struct ErrorBounds {
    /// The distance over ground between true and reported place, in 1/36000 nautical mile, at most
    /// 8000000.
    pub place: u32,
    /// The same of the velocity over ground, in 0.1 knot, at most 30000.
    pub speed: u32,
    /// The error of the height, in 1/60 foot, at most 6000000.
    pub height: u32,
    /// The error of the vertical speed, in feet per minute, at most 20000.
    pub climb: u32,
}

mod examples;
mod heights;
mod laws;
mod meeting;
mod moment;
mod near;
mod root;
mod soon;
mod violation;
mod windows;

pub use examples::worked_examples;
pub use laws::{
    a_leg_is_its_seconds, may_violate_grows_with_the_bounds, may_violate_grows_with_the_volume,
    may_violate_is_decidable, may_violate_sometime_is_decidable, no_true_violation_is_missed,
};
pub use meeting::is_met;
pub use violation::may_violate;
pub use windows::window;

#[cfg(test)]
mod tests;
