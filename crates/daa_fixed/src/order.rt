//! The order of times as fractions.

ghost use Rattle.std.specs.Prelude.{◌≡◌, ◌↔◌, IsTrue};
ghost use Rattle.daa_fixed.specs.Point.{IsBefore, IsInOrder};

use crate::Point;

/// Whether `p` is strictly less than `q`, as fractions.
pub fn before(p: &Point, q: &Point) -> bool
    ensures { IsTrue result ↔ IsBefore p.now q.now }
{
    (p.num as i128) * (q.den as i128) < (q.num as i128) * (p.den as i128)
}

/// The greater of the two as fractions, and the first if they are equal. A call for other programs:
/// `daidalus` does not make it.
pub fn later(p: &Point, q: &Point) -> Point
    ensures second { IsBefore p.now q.now → result ≡ q.now }
    ensures first { IsInOrder q.now p.now → result ≡ p.now }
{
    if before(p, q) { *q } else { *p }
}

/// The lesser of the two as fractions, and the first if they are equal. A call for other programs:
/// `daidalus` does not make it.
pub fn earlier(p: &Point, q: &Point) -> Point
    ensures second { IsBefore q.now p.now → result ≡ q.now }
    ensures first { IsInOrder p.now q.now → result ≡ p.now }
{
    if before(q, p) { *q } else { *p }
}
