//! The horizontal part of the volume at one time of a leg, from the numbers of its motion.

ghost use Rattle.std.specs.Prelude.{◌≡◌, ◌↔◌, ◌≤◌, ◌*ℤ◌, ◌≤ℤ◌, neg_ℤ, pos, IsTrue, MatchOption};
ghost use Rattle.daa_fixed.specs.Flat.{dot_of, square_of};
ghost use Rattle.daa_fixed.specs.Leg.{IsLegInRange};
ghost use Rattle.daa_taumod.specs.Volume.{IsVolumeInRange, IsNear, ViolatesHorizontally};
ghost use Rattle.daa_vwindow.specs.Window.{HasSmallNumbers};
ghost use Rattle.daa_detect.specs.Inside.Motion.{IsMotion, IsAhead, IsTauWithin};
ghost use Rattle.daa_detect.specs.Inside.Motion.{IsModifiedTauWithin, IsNearLater};
ghost use Rattle.daa_detect.specs.Inside.Motion.{IsEntryWithin, rate_of, later_rate_of};

use crate::motion::Motion;
use crate::products::miss;
use daa_fixed::{Leg, Point};
use daa_taumod::{Model, Volume};

/// How fast the distance grows at that time, times the distance and the time's denominator: below 0
/// where it falls.
pub(crate) fn rate_at(motion: &Motion, point: &Point) -> i64
    requires { HasSmallNumbers point.now }
    ensures { result ≡ rate_of motion.now point.now.num point.now.den }
{
    point.den * motion.rate + point.num * motion.speed_squared
}

/// Whether the horizontal part of the volume holds at that time of a leg whose line comes within
/// `dthr`: two products of 128 bits at most, and four by tau.
pub(crate) fn holds_at(leg: &Leg, volume: &Volume, motion: &Motion, point: &Point) -> bool
    requires leg { IsLegInRange leg.now }
    requires volume { IsVolumeInRange volume.now }
    requires motion { IsMotion leg.now volume.now motion.now }
    requires passes { pos 0 ≤ℤ motion.now.margin }
    requires small { HasSmallNumbers point.now }
    ensures { IsTrue result ↔ ViolatesHorizontally leg.now volume.now point.now.num point.now.den }
{
    if rate_at(motion, point) >= 0 {
        return is_near(leg, volume, motion, point);
    }
    match volume.model {
        Model::Tau => {
            is_tau_within(leg, motion, point, volume.tthr) || is_near(leg, volume, motion, point)
        }
        Model::Tcpa => {
            is_closest_within(motion, point, volume.tthr) || is_near(leg, volume, motion, point)
        }
        Model::Taumod => is_modified_tau_within(motion, point, volume.tthr),
        Model::Tep => is_entry_within(motion, point, volume.tthr),
    }
}

/// An end of the vertical window, if the horizontal part of the volume holds then.
pub(crate) fn end_if_held(leg: &Leg, volume: &Volume, motion: &Motion, end: &Point) -> Option<Point>
    requires leg { IsLegInRange leg.now }
    requires volume { IsVolumeInRange volume.now }
    requires motion { IsMotion leg.now volume.now motion.now }
    requires passes { pos 0 ≤ℤ motion.now.margin }
    requires small { HasSmallNumbers end.now }
    ensures { MatchOption result
        (¬ ViolatesHorizontally leg.now volume.now end.now.num end.now.den)
        (λ p. (p ≡ end.now) × ViolatesHorizontally leg.now volume.now end.now.num end.now.den) }
{
    let held = holds_at(leg, volume, motion, end);
    if held { Some(*end) } else { None }
}

/// Whether the distance is at most `dthr`.
fn is_near(leg: &Leg, volume: &Volume, motion: &Motion, point: &Point) -> bool
    requires leg { IsLegInRange leg.now }
    requires volume { IsVolumeInRange volume.now }
    requires motion { IsMotion leg.now volume.now motion.now }
    requires small { HasSmallNumbers point.now }
    ensures { IsTrue result ↔ IsNear leg.now volume.now point.now.num point.now.den }
{
    if motion.speed_squared == 0 {
        begins_near(leg, volume)
    } else {
        is_modified_tau_within(motion, point, 0)
    }
}

/// Whether the distance is at most `dthr` at the leg's beginning.
fn begins_near(leg: &Leg, volume: &Volume) -> bool
    requires leg { IsLegInRange leg.now }
    requires volume { IsVolumeInRange volume.now }
    ensures { IsTrue result
        ↔ (dot_of leg.now.place.flat leg.now.place.flat ≤ℤ square_of (pos volume.now.dthr)) }
{
    let s = &leg.place.flat;
    let dthr = volume.dthr as i64;
    s.east * s.east + s.north * s.north <= dthr * dthr
}

/// The rate at a time, multiplied by the rate `secs` seconds later.
fn rate_product(motion: &Motion, point: &Point, secs: u32) -> i128
    requires small { HasSmallNumbers point.now }
    requires secs { secs ≤ 120 }
    ensures { result ≡ rate_of motion.now point.now.num point.now.den
        *ℤ later_rate_of motion.now secs point.now.num point.now.den }
{
    let rate = rate_at(motion, point);
    let later = rate + rate_gain(motion, point, secs);
    rate as i128 * later as i128
}

/// Whether `s.s + secs (s.v)` is at most `dthr^2` at a time, where the speed is not 0. At 0 seconds
/// this says that the distance is at most `dthr`; where the distance falls, it says that modified
/// tau is at most `secs`. Multiplied by `v.v` it says that the product of the rates at the time and
/// `secs` seconds later is at most the margin.
fn is_modified_tau_within(motion: &Motion, point: &Point, secs: u32) -> bool
    requires small { HasSmallNumbers point.now }
    requires secs { secs ≤ 120 }
    ensures { IsTrue result ↔ IsModifiedTauWithin motion.now secs point.now.num point.now.den }
{
    rate_product(motion, point, secs) <= (point.den * point.den) as i128 * motion.margin
}

/// Whether `s.s + secs (s.v)` is at most 0 at a time, where the speed is not 0. Where the distance
/// falls, this says that tau is at most `secs`. Multiplied by `v.v` it says that the product of the
/// two rates is at most the square of the miss, taken below 0.
fn is_tau_within(leg: &Leg, motion: &Motion, point: &Point, secs: u32) -> bool
    requires leg { IsLegInRange leg.now }
    requires small { HasSmallNumbers point.now }
    requires secs { secs ≤ 120 }
    ensures { IsTrue result ↔ IsTauWithin leg.now motion.now secs point.now.num point.now.den }
{
    let miss = (point.den * miss(leg)) as i128;
    rate_product(motion, point, secs) <= -(miss * miss)
}

/// Whether, `secs` seconds later, the distance falls no more or is at most `dthr`, for what moves
/// on a line that comes within `dthr`: where the distance falls, the entry point is at most `secs`
/// seconds off.
fn is_entry_within(motion: &Motion, point: &Point, secs: u32) -> bool
    requires small { HasSmallNumbers point.now }
    requires secs { secs ≤ 120 }
    ensures { IsTrue result ↔ IsEntryWithin motion.now secs point.now.num point.now.den }
{
    falls_no_more(motion, point, secs) || is_near_later(motion, point, secs)
}

/// Whether the distance does not fall `secs` seconds later.
fn falls_no_more(motion: &Motion, point: &Point, secs: u32) -> bool
    requires small { HasSmallNumbers point.now }
    requires secs { secs ≤ 120 }
    ensures { IsTrue result
        ↔ (pos 0 ≤ℤ later_rate_of motion.now secs point.now.num point.now.den) }
{
    later_rate_at(motion, point, secs) >= 0
}

/// Whether the distance is at most `dthr` `secs` seconds later.
fn is_near_later(motion: &Motion, point: &Point, secs: u32) -> bool
    requires small { HasSmallNumbers point.now }
    requires secs { secs ≤ 120 }
    ensures { IsTrue result ↔ IsNearLater motion.now secs point.now.num point.now.den }
{
    let later = later_rate_at(motion, point, secs);
    later as i128 * later as i128 <= (point.den * point.den) as i128 * motion.margin
}

/// The rate `secs` seconds after a time, times the time's denominator.
fn later_rate_at(motion: &Motion, point: &Point, secs: u32) -> i64
    requires small { HasSmallNumbers point.now }
    requires secs { secs ≤ 120 }
    ensures { result ≡ later_rate_of motion.now secs point.now.num point.now.den }
{
    rate_at(motion, point) + rate_gain(motion, point, secs)
}

/// Whether the closest approach is at most `secs` seconds off, if the distance falls.
fn is_closest_within(motion: &Motion, point: &Point, secs: u32) -> bool
    requires small { HasSmallNumbers point.now }
    requires secs { secs ≤ 120 }
    ensures { IsTrue result
        ↔ (neg_ℤ (rate_of motion.now point.now.num point.now.den) ≤ℤ
        (pos secs *ℤ point.now.den *ℤ motion.now.speed_squared)) }
{
    -rate_at(motion, point) <= rate_gain(motion, point, secs)
}

/// What the rate gains in `secs` seconds, times the time's denominator: `secs (v.v)`.
pub(crate) fn rate_gain(motion: &Motion, point: &Point, secs: u32) -> i64
    requires small { HasSmallNumbers point.now }
    requires secs { secs ≤ 120 }
    ensures { result ≡ pos secs *ℤ point.now.den *ℤ motion.now.speed_squared }
{
    secs as i64 * point.den * motion.speed_squared
}

/// The time of the closest approach, `-(s.v)/(v.v)`.
pub(crate) fn closest_approach(motion: &Motion) -> Point
    requires { IsAhead motion.now }
    ensures num { result.num ≡ neg_ℤ motion.now.rate }
    ensures den { result.den ≡ motion.now.speed_squared }
{
    Point {
        num: -motion.rate,
        den: motion.speed_squared,
    }
}
