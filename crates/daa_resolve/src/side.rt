//! The two sides of a present value, and how far a value is on a side.

ghost use Rattle.std.specs.Prelude.{◌≡◌, ◌↔◌, IsTrue, pos};
ghost use Rattle.std.specs.Int.{int_rem_euclid};
ghost use Rattle.daa_config.specs.Limits.{full_turn};
ghost use Rattle.daa_config.specs.declared.kind.Kind.TheVariants.{Track, GroundSpeed};
ghost use Rattle.daa_resolve.specs.Side.{present_of, way_of, distance_of, IsOnSide};

use daa_config::Kind;
use daa_state::Own;

/// Degrees of a full turn.
const FULL_TURN: i64 = 360;

/// Lower is left on track and down on the other kinds, Upper is right and up.
#[derive(Clone, Copy, Debug, PartialEq, Eq)]
pub enum Side {
    Lower,
    Upper,
}

/// The ownship's present value of a kind: its track in degrees, ground speed in tenths of a knot,
/// vertical speed in feet per minute or altitude in feet.
pub fn present(own: &Own, kind: Kind) -> i32
    ensures { result ≡ present_of kind own.now }
{
    match kind {
        Kind::Track => own.trk,
        Kind::GroundSpeed => own.gs,
        Kind::VerticalSpeed => own.vs,
        Kind::Altitude => own.alt,
    }
}

/// How far it is from the present value to a value, going up or down: below 0 the other way.
fn way(side: Side, now: &i32, value: &i32) -> i64
    ensures { result ≡ way_of side now.now value.now }
{
    match side {
        Side::Upper => *value as i64 - *now as i64,
        Side::Lower => *now as i64 - *value as i64,
    }
}

/// A number of degrees, which may be below 0, as an angle of turning from 0 to 359.
fn angle(degrees: &i64) -> i64
    ensures { result ≡ int_rem_euclid degrees.now (pos full_turn) }
{
    (*degrees).rem_euclid(FULL_TURN)
}

/// How far a value is from the present one on a side.
pub(crate) fn distance(kind: Kind, side: Side, now: &i32, value: &i32) -> i64
    ensures { result ≡ distance_of kind side now.now value.now }
{
    let way = way(side, now, value);
    match kind {
        Kind::Track => angle(&way),
        Kind::GroundSpeed => way,
        Kind::VerticalSpeed => way,
        Kind::Altitude => way,
    }
}

/// Whether a track is on a side of the present one, by the angle of turning to that side.
fn is_turn(side: Side, now: &i32, value: &i32) -> bool
    ensures { IsTrue result ↔ IsOnSide Track side now.now value.now }
{
    let angle = distance(Kind::Track, side, now, value);
    match side {
        Side::Upper => angle >= 1 && angle <= 180,
        Side::Lower => angle >= 0 && angle <= 179,
    }
}

/// Whether a value is on a side of the present one, on the other kinds.
fn is_beyond(side: Side, now: &i32, value: &i32) -> bool
    ensures { IsTrue result ↔ IsOnSide GroundSpeed side now.now value.now }
{
    match side {
        Side::Upper => *value > *now,
        Side::Lower => *value <= *now,
    }
}

/// Whether a value is on a side of the present one, both in the kind's unit. A track is on the
/// right if it is 1 to 180 degrees to the right, and on the left if it is 0 to 179 degrees to the
/// left; on the other kinds a value is up if it is greater, and else down.
pub fn is_on_side(kind: Kind, side: Side, now: &i32, value: &i32) -> bool
    ensures { IsTrue result ↔ IsOnSide kind side now.now value.now }
{
    match kind {
        Kind::Track => is_turn(side, now, value),
        Kind::GroundSpeed => is_beyond(side, now, value),
        Kind::VerticalSpeed => is_beyond(side, now, value),
        Kind::Altitude => is_beyond(side, now, value),
    }
}
