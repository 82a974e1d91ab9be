//! The ownship's track and ground speed, and by how much the plane is turned so that the track is a
//! whole degree.

ghost use Rattle.std.specs.Prelude.{◌≡◌, true, false, pos, OnOk, IfOk, IfErr};
ghost use Rattle.daa_fixed.specs.Size.{IsFrom, IsWithin};
ghost use Rattle.daa_plane.specs.Courses.{along, across, is_along, turn_from};
ghost use Rattle.daa_plane.specs.Courses.{speed_square, IsTrack, IsNearestRoot, IsCourse};
ghost use Rattle.daa_plane.specs.Inside.Sizes.{IsDirection, IsTurn};
ghost use Rattle.daa_plane.specs.Sight.{is_place, is_own_place};

use crate::place::{Place, PlaneFault};
use crate::rounding::nearest;
use crate::sight::is_own_place;
use crate::sines::{Direction, direction_of};

/// The ownship in the plane: its track in degrees clockwise from the plane's north (0 to 359), its
/// ground speed in tenths of a knot (0 to 10000), and the turn: by how many 0.0001 degrees the
/// plane's north is turned to the right of true north.
#[repr(C)]
#[derive(Clone, Copy)]
pub struct Course {
    pub trk: i32,
    pub gs: i32,
    pub turn: i32,
}

/// The part of a velocity along a direction.
fn along(own: &Place, direction: &Direction) -> i64
    requires own { is_place own.now ≡ true }
    requires direction { IsDirection direction.now }
    ensures value { result ≡ along own.now direction.now }
    ensures size { IsWithin 200000000000 result }
{
    i64::from(own.vx) * direction.east + i64::from(own.vy) * direction.north
}

/// The part of a velocity to the right of a direction.
fn across(own: &Place, direction: &Direction) -> i64
    requires own { is_place own.now ≡ true }
    requires direction { IsDirection direction.now }
    ensures value { result ≡ across own.now direction.now }
    ensures size { IsWithin 200000000000 result }
{
    i64::from(own.vx) * direction.north - i64::from(own.vy) * direction.east
}

/// Whether the velocity is along a direction, but for half a degree.
fn is_along(own: &Place, direction: &Direction) -> bool
    requires own { is_place own.now ≡ true }
    requires direction { IsDirection direction.now }
    ensures { result ≡ is_along own.now direction.now }
{
    let along = along(own, direction);
    0 < along && 114 * across(own, direction).abs() <= along
}

/// By how much the velocity is turned to the right of a direction along which it is.
fn turn_from(own: &Place, direction: &Direction) -> i64
    requires own { is_place own.now ≡ true }
    requires direction { IsDirection direction.now }
    requires is_along { is_along own.now direction.now ≡ true }
    ensures value { result ≡ turn_from own.now direction.now }
    ensures turn { IsTurn result }
{
    nearest(572_958 * across(own, direction), along(own, direction))
}

/// The ownship's track, and the plane's turn.
pub(crate) fn track_of(own: &Place) -> (i64, i64)
    requires { is_place own.now ≡ true }
    ensures track { IsTrack own.now result.0 result.1 }
    ensures range { IsFrom (pos 0) (pos 359) result.0 }
    ensures turn { IsTurn result.1 }
{
    for degree in 0..360_u32 {
        let direction = direction_of(i64::from(degree));
        if is_along(own, &direction) {
            return (i64::from(degree), turn_from(own, &direction));
        }
    }
    (0, 0)
}

/// The ownship's ground speed.
fn speed_of(own: &Place) -> i64
    requires { is_own_place own.now ≡ true }
    ensures value { IsNearestRoot (speed_square own.now) result }
    ensures range { IsFrom (pos 0) (pos 10000) result }
{
    ((4 * speed_square(own)).isqrt() + 1) / 2
}

/// The square of a ground speed.
pub(crate) fn speed_square(own: &Place) -> i64
    requires { is_place own.now ≡ true }
    ensures value { result ≡ speed_square own.now }
    ensures range { IsFrom (pos 0) (pos 200000000) result }
{
    let (vx, vy) = (i64::from(own.vx), i64::from(own.vy));
    vx * vx + vy * vy
}

/// The track and the ground speed of an ownship, and by how much the plane round it is turned.
/// Refused where a number is out of its range.
pub fn course_of(own: &Place) -> Result<Course, PlaneFault>
    ensures course { IfOk result (IsCourse own.now) }
    ensures taken { OnOk result (is_own_place own.now ≡ true) }
    ensures refused { IfErr result
        (λ fault. (fault ≡ PlaneFault.Own) × (is_own_place own.now ≡ false)) }
{
    if !is_own_place(own) {
        return Err(PlaneFault::Own);
    }
    let (track, turn) = track_of(own);
    Ok(Course {
        trk: track as i32,
        gs: speed_of(own) as i32,
        turn: turn as i32,
    })
}
