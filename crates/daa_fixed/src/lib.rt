//! Exact whole-number geometry of the local plane: vectors, straight legs, fractions of seconds and
//! units. Nothing is rounded: products and comparisons are those of the numbers themselves.
#![tactic(auto)]

ghost use Rattle.std.specs.Prelude.{◌^◌, ◌≤ℤ◌, pos};

/// A horizontal vector: a place in 1/36000 nautical mile, or a velocity in that unit per second
/// (which is 0.1 knot).
#[derive(Clone, Copy, Debug, PartialEq, Eq)]
pub struct Flat {
    pub east: i64,
    pub north: i64,
}

/// A vector with a height. The height is in 1/60 foot, a vertical speed in that unit per second
/// (which is 1 foot per minute).
#[derive(Clone, Copy, Debug, PartialEq, Eq)]
pub struct Solid {
    pub flat: Flat,
    pub up: i64,
}

/// A straight flight of 1 to 180 seconds at one velocity, of one aircraft as seen from another. In
/// range its place is below 40000000 and its velocity below 40000 in size on each axis.
#[derive(Clone, Copy, Debug, PartialEq, Eq)]
pub struct Leg {
    pub place: Solid,
    pub velocity: Solid,
    pub secs: u32,
}

/// The time `num/den` in seconds, not negative. The denominator is at least 1 and at most 2^33, the
/// numerator at most 2^41.
#[derive(Clone, Copy, Debug)]
pub struct Point {
    pub num: i64,
    pub den: i64,
    ghost not_negative: { pos 0 ≤ℤ num },
    ghost num_bound: { num ≤ℤ pos (2 ^ 41) },
    ghost positive: { pos 1 ≤ℤ den },
    ghost den_bound: { den ≤ℤ pos (2 ^ 33) },
}

mod moves;
mod order;
mod units;
mod vectors;

pub use moves::{toward, toward_is_nearest};
pub use order::{before, earlier, later};
pub use units::{feet, mils};
pub use vectors::{cross, dot, square};

#[cfg(test)]
mod tests;
