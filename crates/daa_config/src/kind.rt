//! The four kinds of candidate.

/// What a candidate changes: the track in degrees, the ground speed in 0.1 kt, the vertical speed
/// in ft/min, or the altitude in ft.
#[derive(Clone, Copy, Debug, PartialEq, Eq)]
pub enum Kind {
    Track,
    GroundSpeed,
    VerticalSpeed,
    Altitude,
}
