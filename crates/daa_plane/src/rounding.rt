//! Rounding to the nearest whole number, and ten-millionths.

ghost use Rattle.std.specs.Prelude.{◌≡◌, pos};
ghost use Rattle.daa_fixed.specs.Size.{IsFrom, IsWithin};
ghost use Rattle.daa_plane.specs.Rounding.{nearest, part};

/// Sines, and what a number is multiplied by, are counted in parts of it.
pub(crate) const ONE: i64 = 10_000_000;

/// The whole number nearest to a / b; of two as near, the greater one.
pub(crate) fn nearest(a: i64, b: i64) -> i64
    requires a { IsWithin 1000000000000000000 a }
    requires b { IsFrom (pos 1) (pos 1000000000000) b }
    ensures { result ≡ nearest a b }
{
    (2 * a + b).div_euclid(2 * b)
}

/// `b` ten-millionths of `a`.
pub(crate) fn part(a: i64, b: i64) -> i64
    requires a { IsWithin 1000000000 a }
    requires b { IsWithin 100000000 b }
    ensures { result ≡ part a b }
{
    nearest(a * b, ONE)
}
