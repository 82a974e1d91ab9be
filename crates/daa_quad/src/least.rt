//! Where a quadratic is least between two times, and whether it falls to zero there.

ghost use Rattle.std.specs.Prelude.{◌≡◌, ℤ, pos, neg_ℤ, ◌^◌, ◌*ℤ◌, ◌≤ℤ◌, MatchOption};
ghost use Rattle.daa_fixed.specs.Point.{IsInOrder, IsBetween};
ghost use Rattle.daa_quad.specs.Quad.{IsLeast, IsAboveBetween, IsDip, HasVertexInRange};
ghost use Rattle.daa_quad.specs.Inside.Slope.{slope_of};

use crate::{Quad, Sign, sign_at};
use daa_fixed::Point;

/// A time from `from` to `upto` at which the value is least; if there are several, any of them. A
/// vertex `-b/2a` that lies between the two times must be a point in range; another one is never
/// made into a point. A call for other programs: `daidalus` does not make it.
pub fn least_point(q: &Quad, from: &Point, upto: &Point) -> Point
    requires in_order { IsInOrder from.now upto.now }
    requires vertex { HasVertexInRange q.now from.now upto.now }
    ensures between { IsBetween from.now upto.now result.num result.den }
    ensures least { IsLeast q.now from.now upto.now result.num result.den }
{
    if slope_at(q, from) >= 0 {
        return *from;
    }
    if slope_at(q, upto) <= 0 {
        return *upto;
    }
    vertex(q)
}

/// A time from `from` to `upto` at which the value is at most 0, and `None` exactly if it is above
/// 0 at every fraction between them. It asks what `least_point` asks. A call for other programs:
/// `daidalus` does not make it.
pub fn dips(q: &Quad, from: &Point, upto: &Point) -> Option<Point>
    requires in_order { IsInOrder from.now upto.now }
    requires vertex { HasVertexInRange q.now from.now upto.now }
    ensures { MatchOption result (IsAboveBetween q.now from.now upto.now)
        (λ p. IsDip q.now from.now upto.now p.num p.den) }
{
    let least = least_point(q, from, upto);
    match sign_at(q, &least) {
        Sign::Above => None,
        _ => Some(least),
    }
}

/// Where the quadratic is least of all.
fn vertex(q: &Quad) -> Point
    requires bends { pos 1 ≤ℤ q.now.a }
    requires not_negative { q.now.b ≤ℤ pos 0 }
    requires in_range { neg_ℤ q.now.b ≤ℤ pos (2 ^ 41) }
    ensures num { result.num ≡ neg_ℤ q.now.b }
    ensures den { result.den ≡ pos 2 *ℤ q.now.a }
{
    Point {
        num: (-q.b) as i64,
        den: (2 * q.a) as i64,
    }
}

/// The slope at `at`, times its denominator.
fn slope_at(q: &Quad, at: &Point) -> i128
    ensures { result ≡ slope_of q.now at.now.num at.now.den }
{
    2 * q.a * (at.num as i128) + q.b * (at.den as i128)
}
