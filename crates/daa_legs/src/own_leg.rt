//! Stretches of the ownship's flight at one velocity.

use daa_fixed::Solid;

/// One second of the ownship: its place at the beginning, in 1/36000 nautical mile and 1/60 foot,
/// and its velocity in those units per second. In range the place is below 20000000 and the
/// velocity below 20000 in size on each axis.
#[derive(Clone, Copy, Debug, PartialEq, Eq)]
pub struct OwnLeg {
    pub place: Solid,
    pub velocity: Solid,
}

/// So many seconds of the ownship at one velocity, from its place at their beginning, the first in
/// range as an `OwnLeg`. A flight has 180 seconds.
#[derive(Clone, Copy, Debug, PartialEq, Eq)]
pub struct OwnRun {
    pub place: Solid,
    pub velocity: Solid,
    pub secs: u32,
}
