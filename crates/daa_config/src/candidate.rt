//! What an ownship may try, and the answers to it.

/// A flight that is tried: the present one, or one that goes to a track (degrees, 0 to 359), a
/// ground speed (0.1 kt, 0 to 10000), a vertical speed (ft/min, -10000 to 10000) or an altitude
/// (ft, -2000 to 60000).
#[derive(Clone, Copy, Debug, PartialEq, Eq)]
pub enum Candidate {
    Hold,
    Track(i32),
    GroundSpeed(i32),
    VerticalSpeed(i32),
    Altitude(i32),
}

/// The answer on one side of a kind: keep the present flight, go to this value, or no value is
/// open.
#[derive(Clone, Copy, Debug, PartialEq, Eq)]
pub enum Resolution {
    Keep,
    To(i32),
    Nothing,
}
