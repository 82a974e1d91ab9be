//! How much a configuration may have, and between which bounds the values of a kind are.

/// The whole numbers from `low` to `high`, both included.
#[derive(Clone, Copy, Debug)]
pub struct Bounds {
    pub low: i64,
    pub high: i64,
}

/// The most bytes that a text may have.
pub const LONGEST_TEXT: usize = 65536;

/// The most levels that a configuration may have.
pub const MOST_LEVELS: usize = 4;

/// The most candidates that a kind may have.
pub const MOST_VALUES: u64 = 512;

/// Degrees of a full turn.
pub const FULL_TURN: u64 = 360;

/// Ground speeds, in 0.1 kt.
pub const SPEEDS: Bounds = Bounds {
    low: 0,
    high: 10000,
};

/// Vertical speeds, in ft/min.
pub const CLIMBS: Bounds = Bounds {
    low: -10000,
    high: 10000,
};

/// Altitudes, in ft.
pub const HEIGHTS: Bounds = Bounds {
    low: -2000,
    high: 60000,
};
