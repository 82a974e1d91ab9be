//! What is told of an aircraft, and why it is not taken.

use thiserror::Error;

/// An aircraft on the globe: latitude north and longitude east in ten-millionths of a degree (at
/// most 80 degrees and 180 degrees in size), its velocity over ground east and north in tenths of a
/// knot (at most 1000 knots on each axis; of an ownship in all).
#[repr(C)]
#[derive(Clone, Copy)]
pub struct Place {
    pub lat: i32,
    pub lon: i32,
    pub vx: i32,
    pub vy: i32,
}

/// Why an aircraft has no place in the plane.
#[derive(Clone, Copy, Debug, PartialEq, Eq, Error)]
pub enum PlaneFault {
    /// A number of the ownship is out of its range, or its ground speed is above 1000 knots.
    #[error("a number of the ownship is out of its range, or its ground speed above 1000 knots")]
    Own,
    /// A number of the aircraft is out of its range, or its speed on an axis of the plane is.
    #[error("a number of the aircraft is out of its range, or its speed on an axis of the plane")]
    Traffic,
    /// The aircraft is more than 100 nautical miles away.
    #[error("the aircraft is more than 100 nautical miles away")]
    Far,
}
