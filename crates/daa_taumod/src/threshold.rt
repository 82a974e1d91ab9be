//! Thresholds, times the denominator of a time.

ghost use Rattle.std.specs.Prelude.{◌≡◌, ◌≤◌, ◌*ℤ◌, pos};
ghost use Rattle.daa_fixed.specs.Flat.{square_of};

use daa_fixed::Point;

/// A threshold times the time's denominator.
pub(crate) fn scaled_threshold(threshold: u32, point: &Point) -> i128
    ensures { result ≡ pos threshold *ℤ point.now.den }
{
    threshold as i128 * point.den as i128
}

/// The square of a threshold times the time's denominator.
pub(crate) fn scaled_square(threshold: u32, point: &Point) -> i128
    requires { threshold ≤ 360000 }
    ensures { result ≡ square_of (pos threshold *ℤ point.now.den) }
{
    let size = scaled_threshold(threshold, point);
    size * size
}
