//! Where a leg is at a time, times the time's denominator, so that it is a whole number.

ghost use Rattle.std.specs.Prelude.{◌≡◌, ◌≤◌, ◌^◌, ◌*ℤ◌, ◌+ℤ◌, pos};
ghost use Rattle.daa_fixed.specs.Flat.{IsShort};
ghost use Rattle.daa_fixed.specs.Leg.{IsLegInRange};
ghost use Rattle.daa_fixed.specs.Size.{IsWithin};
ghost use Rattle.daa_taumod.specs.Volume.{place_at, height_at};

use daa_fixed::{Flat, Leg, Point};

/// The horizontal place at a time, times the time's denominator.
pub(crate) fn place_then(leg: &Leg, point: &Point) -> Flat
    requires { IsLegInRange leg.now }
    ensures value { result ≡ place_at leg.now point.now.num point.now.den }
    ensures short { IsShort result }
{
    Flat {
        east: scaled_position(leg.place.flat.east, leg.velocity.flat.east, point),
        north: scaled_position(leg.place.flat.north, leg.velocity.flat.north, point),
    }
}

/// The horizontal place `secs` seconds after a time, times the time's denominator.
pub(crate) fn place_later(leg: &Leg, secs: u32, point: &Point) -> Flat
    requires leg { IsLegInRange leg.now }
    requires secs { secs ≤ 120 }
    ensures value { result
        ≡ place_at leg.now (point.now.num +ℤ pos secs *ℤ point.now.den) point.now.den }
    ensures short { IsShort result }
{
    Flat {
        east: later_position(leg.place.flat.east, leg.velocity.flat.east, secs, point),
        north: later_position(leg.place.flat.north, leg.velocity.flat.north, secs, point),
    }
}

/// The height at a time, times the time's denominator.
pub(crate) fn height_then(leg: &Leg, point: &Point) -> i64
    requires { IsLegInRange leg.now }
    ensures value { result ≡ height_at leg.now point.now.num point.now.den }
    ensures size { IsWithin (2 ^ 59) result }
{
    scaled_position(leg.place.up, leg.velocity.up, point)
}

/// What begins at `begin` and moves at `speed`.
fn scaled_position(begin: i64, speed: i64, point: &Point) -> i64
    requires begin { IsWithin 40000000 begin }
    requires speed { IsWithin 40000 speed }
    ensures value { result ≡ point.now.den *ℤ begin +ℤ point.now.num *ℤ speed }
    ensures size { IsWithin (2 ^ 59) result }
{
    point.den * begin + point.num * speed
}

/// What begins at `begin` and moves at `speed`, `secs` seconds after the time.
fn later_position(begin: i64, speed: i64, secs: u32, point: &Point) -> i64
    requires begin { IsWithin 40000000 begin }
    requires speed { IsWithin 40000 speed }
    requires secs { secs ≤ 120 }
    ensures value { result ≡ point.now.den *ℤ begin
        +ℤ (point.now.num +ℤ pos secs *ℤ point.now.den) *ℤ speed }
    ensures size { IsWithin (2 ^ 59) result }
{
    point.den * begin + (point.num + secs as i64 * point.den) * speed
}
