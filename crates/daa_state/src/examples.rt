//! State lines of an encounter, as examples of the format and for tests.

/// North at 360 knots.
pub const NORTH: &str = "own 0 0 1000 0 3600 0";

/// North at 360 knots, climbing at 3000 ft/min.
pub const CLIMBING: &str = "own 0 0 1000 0 3600 3000";

/// 0.66 miles to the right, abeam in 10 seconds; a line of format 2.
pub const ABEAM: &str = "traffic A 660 1000 1000 0 0 0 0";
