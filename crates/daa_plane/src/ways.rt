//! The way from the ownship to an aircraft, by Gauss's formulas for the latitude in the middle.

ghost use Rattle.std.specs.Prelude.{◌≡◌};
ghost use Rattle.daa_fixed.specs.Size.{IsWithin};
ghost use Rattle.daa_plane.specs.Inside.Sizes.{IsGap, AreSquares, IsRatio, IsWay};
ghost use Rattle.daa_plane.specs.Ways.{half_square, squares_of, prime_vertical, meridian};
ghost use Rattle.daa_plane.specs.Ways.{stretched, way_east, way_north, convergence, way_of};

use crate::gaps::Gap;
use crate::rounding::{nearest, part};

/// Half a degree in ten-millionths of a radian.
const HALF_DEGREE: i64 = 87_266;

/// The squares of the middle latitude's sine and of half the differences of latitude and longitude
/// in radians, and the product of the first and the last.
#[derive(Clone, Copy)]
pub(crate) struct Squares {
    pub(crate) sine: i64,
    pub(crate) lat: i64,
    pub(crate) lon: i64,
    pub(crate) both: i64,
}

/// The way in 0.00001 NM as seen from the middle, and how much the meridians converge on it, in
/// ten-millionths of a degree.
#[derive(Clone, Copy)]
pub(crate) struct Way {
    pub(crate) east: i64,
    pub(crate) north: i64,
    pub(crate) turn: i64,
}

/// The square of half an angle in radians.
fn half_square(angle: i64) -> i64
    requires { IsWithin 120000000 angle }
    ensures value { result ≡ half_square angle }
    ensures size { IsWithin 110000 result }
{
    let half = part(angle, HALF_DEGREE);
    part(half, half)
}

/// The squares that the formulas have in common.
fn squares_of(gap: &Gap) -> Squares
    requires { IsGap gap.now }
    ensures value { result ≡ squares_of gap.now }
    ensures size { AreSquares result }
{
    let sine = part(gap.sine, gap.sine);
    let lon = half_square(gap.lon);
    Squares {
        sine,
        lat: half_square(gap.lat),
        lon,
        both: part(sine, lon),
    }
}

/// The length of a degree of longitude on the equator's scale, from the square of the sine.
fn prime_vertical(s: i64) -> i64
    requires { IsRatio s }
    ensures value { result ≡ prime_vertical s }
    ensures size { IsWithin 6100000 result }
{
    6_010_772 + part(20_119 + part(102, s), s)
}

/// The length of a degree of latitude, from the square of the sine.
fn meridian(s: i64) -> i64
    requires { IsRatio s }
    ensures value { result ≡ meridian s }
    ensures size { IsWithin 6100000 result }
{
    5_970_533 + part(59_951 + part(508, s), s)
}

/// A number, and parts of itself more.
fn stretched(number: i64, by: i64) -> i64
    requires number { IsWithin 125000000 number }
    requires by { IsWithin 1000000 by }
    ensures { result ≡ stretched number by }
{
    number + part(number, by)
}

/// Eastward.
fn way_east(gap: &Gap, of: &Squares) -> i64
    requires gap { IsGap gap.now }
    requires squares { AreSquares of.now }
    ensures value { result ≡ way_east gap.now of.now }
    ensures size { IsWithin 100000000 result }
{
    let straight = part(part(gap.lon, gap.cosine), prime_vertical(of.sine));
    stretched(straight, nearest(of.lat - of.both, 6))
}

/// Northward.
fn way_north(gap: &Gap, of: &Squares) -> i64
    requires gap { IsGap gap.now }
    requires squares { AreSquares of.now }
    ensures value { result ≡ way_north gap.now of.now }
    ensures size { IsWithin 100000000 result }
{
    let straight = part(gap.lat, meridian(of.sine));
    stretched(straight, nearest(0 - 2 * of.lon - of.both, 6))
}

/// How much the meridians converge.
fn convergence(gap: &Gap, of: &Squares) -> i64
    requires gap { IsGap gap.now }
    requires squares { AreSquares of.now }
    ensures value { result ≡ convergence gap.now of.now }
    ensures size { IsWithin 140000000 result }
{
    let straight = part(gap.lon, gap.sine);
    stretched(straight, nearest(3 * of.lat + 2 * (of.lon - of.both), 6))
}

/// The way to an aircraft.
pub(crate) fn way_of(gap: &Gap) -> Way
    requires { IsGap gap.now }
    ensures value { result ≡ way_of gap.now }
    ensures size { IsWay result }
{
    let squares = squares_of(gap);
    Way {
        east: way_east(gap, &squares),
        north: way_north(gap, &squares),
        turn: convergence(gap, &squares),
    }
}
