//! The well-clear volume at one time of a straight leg, by one of four times to a conflict,
//! decided exactly in whole numbers.
#![tactic(auto)]

/// Which time to a horizontal conflict a volume looks at, where the distance falls. With the same
/// thresholds the volume of each lies within that of the next.
#[derive(Clone, Copy, Debug, PartialEq, Eq)]
pub enum Model {
    /// Tau: the square of the distance over the distance times its rate of decrease.
    Tau,
    /// The time to the closest approach.
    Tcpa,
    /// Modified tau: the square of the distance less that of `dthr`, over the distance times its
    /// rate of decrease.
    Taumod,
    /// The time to the entry point: until the distance is `dthr`.
    Tep,
}

/// The thresholds of a well-clear volume, as in the models `WCV_TAU`, `WCV_TCPA`, `WCV_TAUMOD` and
/// `WCV_TEP` of Munoz and others, A Family of Well-Clear Boundary Models.
#[derive(Clone, Copy, Debug, PartialEq, Eq)]
pub struct Volume {
    /// The horizontal distance in 1/36000 nautical mile, at most 360000.
    pub dthr: u32,
    /// The vertical distance in 1/60 foot, at most 600000.
    pub zthr: u32,
    /// The horizontal time in seconds, at most 120.
    pub tthr: u32,
    /// The time to co-altitude in seconds, at most 120.
    pub tcoa: u32,
    /// Which time `tthr` bounds.
    pub model: Model,
}

mod examples;
mod horizontal;
mod place;
mod threshold;
mod vertical;
mod violation;

pub use examples::worked_examples;
pub use violation::{models_are_nested, violates};

#[cfg(test)]
mod tests;
