//! A stretch of values that share their level.

/// A stretch of a kind's rising values, from one up to another, that all show the same level. The
/// values are in the unit of the kind: degrees, 0.1 kt, ft/min or ft. The level is 0 if no
/// aircraft is met at any level.
#[derive(Clone, Copy, Debug, PartialEq, Eq)]
pub struct Band {
    pub from: i32,
    pub upto: i32,
    pub level: u8,
}
