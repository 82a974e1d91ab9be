//! An aircraft in the plane round the ownship.

ghost use Rattle.std.specs.Prelude.{◌≡◌, true, false, pos, OnOk, IfOk, Err};
ghost use Rattle.daa_fixed.specs.Size.{IsFrom, IsWithin};
ghost use Rattle.daa_plane.specs.Courses.{speed_square};
ghost use Rattle.daa_plane.specs.Gaps.{gap_of};
ghost use Rattle.daa_plane.specs.Inside.Sizes.{IsWay, IsTurn, IsSmall};
ghost use Rattle.daa_plane.specs.Sight.{turned_east, turned_north, way_angle, speed_angle};
ghost use Rattle.daa_plane.specs.Sight.{seen_along, is_within, is_on_globe, has_speed, is_place};
ghost use Rattle.daa_plane.specs.Sight.{is_own_place, is_near};
ghost use Rattle.daa_plane.specs.Sight.{is_in_sight, is_slow};
ghost use Rattle.daa_plane.specs.Sight.{IsSeen, IsFar, IsTooFast};

use crate::courses::{speed_square, track_of};
use crate::gaps::{Gap, gap_of};
use crate::place::{Place, PlaneFault};
use crate::rounding::{ONE, nearest};
use crate::sines::{cosine_of, sine_of};
use crate::ways::{Way, way_of};

/// An aircraft in the plane: how far it is east and north of the ownship in 0.001 NM, and its
/// velocity in tenths of a knot (-10000 to 10000 on each axis).
#[repr(C)]
#[derive(Clone, Copy)]
pub struct Seen {
    pub x: i32,
    pub y: i32,
    pub vx: i32,
    pub vy: i32,
}

fn is_within(most: i64, number: i64) -> bool
    requires { IsFrom (pos 0) (pos 10000000000) most }
    ensures { result ≡ is_within most number }
{
    -most <= number && number <= most
}

/// Whether latitude and longitude are in their ranges.
fn is_on_globe(place: &Place) -> bool
    ensures { result ≡ is_on_globe place.now }
{
    is_within(800_000_000, i64::from(place.lat)) && is_within(1_800_000_000, i64::from(place.lon))
}

/// Whether a velocity is in its range.
fn has_speed(place: &Place) -> bool
    ensures { result ≡ has_speed place.now }
{
    is_within(10_000, i64::from(place.vx)) && is_within(10_000, i64::from(place.vy))
}

/// Whether the numbers of an aircraft are in their ranges.
pub(crate) fn is_place(place: &Place) -> bool
    ensures { result ≡ is_place place.now }
{
    is_on_globe(place) && has_speed(place)
}

/// Whether the numbers of an ownship are in their ranges.
pub(crate) fn is_own_place(own: &Place) -> bool
    ensures { result ≡ is_own_place own.now }
{
    is_place(own) && speed_square(own) <= 100_000_000
}

/// Whether latitudes and longitudes differ little.
fn is_near(gap: &Gap) -> bool
    ensures { result ≡ is_near gap.now }
{
    is_within(20_000_000, gap.lat) && is_within(120_000_000, gap.lon)
}

/// Whether an aircraft is at most 100 NM away.
fn is_in_sight(seen: &Seen) -> bool
    requires { IsSmall seen.now }
    ensures { result ≡ is_in_sight seen.now }
{
    let (x, y) = (i64::from(seen.x), i64::from(seen.y));
    x * x + y * y <= 10_000_000_000
}

/// Whether an aircraft's speed on each axis is one that the engine takes.
fn is_slow(seen: &Seen) -> bool
    ensures { result ≡ is_slow seen.now }
{
    is_within(10_000, i64::from(seen.vx)) && is_within(10_000, i64::from(seen.vy))
}

/// East and north, turned to the left by an angle and divided.
fn turned(east: i64, north: i64, angle: i64, by: i64) -> (i64, i64)
    requires east { IsWithin 100000000 east }
    requires north { IsWithin 100000000 north }
    requires angle { IsWithin 900000000 angle }
    requires by { IsFrom (pos 1) (pos 1000000000) by }
    ensures east { result.0 ≡ turned_east east north angle by }
    ensures north { result.1 ≡ turned_north east north angle by }
{
    let (sine, cosine) = (sine_of(angle), cosine_of(angle));
    let to_east = east * cosine - north * sine;
    let to_north = east * sine + north * cosine;
    (nearest(to_east, by), nearest(to_north, by))
}

/// By how much the way is turned: half the convergence, and the plane's turn.
fn way_angle(way: &Way, turn: i64) -> i64
    requires way { IsWay way.now }
    requires turn { IsTurn turn }
    ensures value { result ≡ way_angle way.now turn }
    ensures size { IsWithin 900000000 result }
{
    nearest(way.turn, 2) + 1_000 * turn
}

/// By how much a velocity is turned: all of the convergence, and the plane's turn.
fn speed_angle(way: &Way, turn: i64) -> i64
    requires way { IsWay way.now }
    requires turn { IsTurn turn }
    ensures value { result ≡ speed_angle way.now turn }
    ensures size { IsWithin 900000000 result }
{
    way.turn + 1_000 * turn
}

/// An aircraft at the end of a way, in a plane that is turned.
fn seen_along(way: &Way, turn: i64, aircraft: &Place) -> Seen
    requires way { IsWay way.now }
    requires turn { IsTurn turn }
    requires aircraft { is_place aircraft.now ≡ true }
    ensures value { result ≡ seen_along way.now turn aircraft.now }
    ensures size { IsSmall result }
{
    let place = turned(way.east, way.north, way_angle(way, turn), 100 * ONE);
    let (vx, vy) = (aircraft.vx, aircraft.vy);
    let speed = turned(i64::from(vx), i64::from(vy), speed_angle(way, turn), ONE);
    Seen {
        x: place.0 as i32,
        y: place.1 as i32,
        vx: speed.0 as i32,
        vy: speed.1 as i32,
    }
}

/// An aircraft in the plane round an ownship, which is at 0 0. Its way and its velocity are turned
/// so that the ownship's track is a whole degree, the velocity also by the convergence of the two
/// meridians. Refused where a number is out of its range, or the aircraft more than 100 NM away.
pub fn seen_from(own: &Place, aircraft: &Place) -> Result<Seen, PlaneFault>
    ensures seen { IfOk result (IsSeen own.now aircraft.now) }
    ensures in_sight { IfOk result (λ seen. is_in_sight seen ≡ true) }
    ensures slow { IfOk result (λ seen. is_slow seen ≡ true) }
    ensures own { result ≡ Err PlaneFault.Own → is_own_place own.now ≡ false }
    ensures traffic { result ≡ Err PlaneFault.Traffic → IsTooFast own.now aircraft.now }
    ensures far { result ≡ Err PlaneFault.Far → IsFar own.now aircraft.now }
{
    if !is_own_place(own) {
        return Err(PlaneFault::Own);
    }
    if !is_place(aircraft) {
        return Err(PlaneFault::Traffic);
    }
    let gap = gap_of(own, aircraft);
    if !is_near(&gap) {
        return Err(PlaneFault::Far);
    }
    let (_, turn) = track_of(own);
    let seen = seen_along(&way_of(&gap), turn, aircraft);
    if !is_in_sight(&seen) {
        return Err(PlaneFault::Far);
    }
    if !is_slow(&seen) {
        return Err(PlaneFault::Traffic);
    }
    Ok(seen)
}
