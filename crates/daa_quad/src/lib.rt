//! Quadratics over an interval of times, exactly: the sign at a time, a time of least value, and
//! whether the value falls to zero. No root is taken.
#![tactic(auto)]

ghost use Rattle.std.specs.Prelude.{ℤ, pos, ◌^◌, ◌<◌, ◌≤ℤ◌, unsigned_abs};

/// The quadratic `a t^2 + b t + c` of a time t in seconds, with `a` not negative. In size `a` is
/// below 2^32, `b` below 2^43 and `c` below 2^52.
#[derive(Clone, Copy, Debug)]
pub struct Quad {
    pub a: i128,
    pub b: i128,
    pub c: i128,
    ghost convex: { pos 0 ≤ℤ a },
    ghost a_bound: { unsigned_abs a < 2 ^ 32 },
    ghost b_bound: { unsigned_abs b < 2 ^ 43 },
    ghost c_bound: { unsigned_abs c < 2 ^ 52 },
}

/// Whether a value is below zero, zero, or above it.
#[derive(Clone, Copy, Debug, PartialEq, Eq)]
pub enum Sign {
    Below,
    Zero,
    Above,
}

mod least;
mod signs;

pub use least::{dips, least_point};
pub use signs::sign_at;

#[cfg(test)]
mod tests;
