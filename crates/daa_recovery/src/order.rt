//! Which of the values that recover at the same time is named.

ghost use Rattle.std.specs.Prelude.{◌≡◌, ◌^◌, ◌+ℤ◌, ◌-ℤ◌, pos, if◌then◌else◌};
ghost use Rattle.std.specs.Int.{int_rem_euclid};
ghost use Rattle.daa_config.specs.Limits.{full_turn};
ghost use Rattle.daa_fixed.specs.Size.{IsWithin};
ghost use Rattle.daa_recovery.specs.Order.{way_of, place_of_way};

use daa_config::Kind;

/// Degrees of a full turn.
const FULL_TURN: i64 = 360;

/// By how many degrees a track is on from the present one, and 179 more.
fn shifted(now: &i32, value: &i32) -> i64
    ensures { result ≡ value.now -ℤ now.now +ℤ pos 179 }
{
    *value as i64 - *now as i64 + 179
}

/// The turn of some degrees less 179, from 179 to the left up to 180 to the right.
fn turn(degrees: &i64) -> i64
    ensures value { result ≡ int_rem_euclid degrees.now (pos full_turn) -ℤ pos 179 }
    ensures size { IsWithin (2 ^ 34) result }
{
    (*degrees).rem_euclid(FULL_TURN) - 179
}

/// The way from the present value to another.
fn way(kind: Kind, now: &i32, value: &i32) -> i64
    ensures value { result ≡ way_of kind now.now value.now }
    ensures size { IsWithin (2 ^ 34) result }
{
    let difference = *value as i64 - *now as i64;
    match kind {
        Kind::Track => turn(&shifted(now, value)),
        Kind::GroundSpeed => difference,
        Kind::VerticalSpeed => difference,
        Kind::Altitude => difference,
    }
}

/// The place of a way among all: the shorter one comes first, and of two equally long ones that to
/// the right or up.
fn place_in_order(way: &i64) -> i64
    requires { IsWithin (2 ^ 34) way.now }
    ensures { result ≡ place_of_way way.now }
{
    if *way >= 0 { 2 * *way } else { 1 - 2 * *way }
}

/// The place of a value among all: the nearest to the present value comes first if `nearest` is
/// asked for, else the least.
pub(crate) fn place(nearest: bool, kind: Kind, now: &i32, value: &i32) -> i64
    ensures { result ≡ (if nearest then place_of_way (way_of kind now.now value.now)
        else value.now) }
{
    if nearest {
        place_in_order(&way(kind, now, value))
    } else {
        *value as i64
    }
}
