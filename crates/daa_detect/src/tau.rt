//! The decision by tau. The violating times need not be one interval: the times within `dthr` lie
//! round the closest approach, and the times with `s.s + tthr (s.v) <= 0` round a middle that is
//! `tthr / 2` before it. So two times of the vertical window decide, the one nearest to the closest
//! approach and the one nearest to the middle.

ghost use Rattle.std.specs.Prelude.{◌≡◌, ◌↔◌, ◌≤◌, ◌+ℤ◌, ◌*ℤ◌, ◌≤ℤ◌, ℤ};
ghost use Rattle.std.specs.Prelude.{neg_ℤ, pos, IsTrue, MatchOption};
ghost use Rattle.daa_fixed.specs.Leg.{IsLegInRange};
ghost use Rattle.daa_fixed.specs.Point.{IsBetween};
ghost use Rattle.daa_fixed.specs.Time.{HoldsNever};
ghost use Rattle.daa_taumod.specs.declared.Model.{Model};
ghost use Rattle.daa_taumod.specs.Volume.{IsSoon, IsVolumeInRange, Violates};
ghost use Rattle.daa_taumod.specs.Volume.{ViolatesHorizontally, ViolatesVertically};
ghost use Rattle.daa_vwindow.specs.Window.{IsWindow, HasSmallNumbers};
ghost use Rattle.daa_detect.specs.Hit.{IsHit};
ghost use Rattle.daa_detect.specs.Inside.Motion.{IsMotion, IsTauWithinInMiddle};
ghost use Rattle.daa_detect.specs.Inside.Motion.{IsMiddleAhead, rate_of, middle_rate_of};

use crate::horizontal::{end_if_held, holds_at, rate_at, rate_gain};
use crate::motion::Motion;
use crate::products::miss;
use daa_fixed::{Leg, Point};
use daa_taumod::Volume;

/// Answers as `hits` does, by tau and without the box test, where the distance still falls at the
/// last time of the vertical window: this is the time nearest to the closest approach. It is a call
/// of its own, so that the other models' tests stay short.
#[inline(never)]
pub(crate) fn tau_hit(
    leg: &Leg,
    volume: &Volume,
    motion: &Motion,
    first: &Point,
    last: &Point,
) -> Option<Point>
    requires leg { IsLegInRange leg.now }
    requires volume { IsVolumeInRange volume.now }
    requires tau { volume.now.model ≡ Model.Tau }
    requires motion { IsMotion leg.now volume.now motion.now }
    requires passes { pos 0 ≤ℤ motion.now.margin }
    requires window { IsWindow leg.now.secs (ViolatesVertically leg.now volume.now)
        first.now last.now }
    requires first { HasSmallNumbers first.now }
    requires last { HasSmallNumbers last.now }
    requires falls { rate_of motion.now last.now.num last.now.den ≤ℤ pos 0 }
    ensures { MatchOption result
        (HoldsNever leg.now.secs (Violates leg.now volume.now))
        (λ p. IsHit leg.now volume.now p.num p.den) }
{
    if holds_at(leg, volume, motion, last) {
        return Some(*last);
    }
    middle_hit(leg, volume, motion, first, last)
}

/// The time of the vertical window that is nearest to the middle, if tau is at most `tthr` then or
/// the distance at most `dthr`; else tau is more at each time of the window.
fn middle_hit(
    leg: &Leg,
    volume: &Volume,
    motion: &Motion,
    first: &Point,
    last: &Point,
) -> Option<Point>
    requires leg { IsLegInRange leg.now }
    requires volume { IsVolumeInRange volume.now }
    requires tau { volume.now.model ≡ Model.Tau }
    requires motion { IsMotion leg.now volume.now motion.now }
    requires passes { pos 0 ≤ℤ motion.now.margin }
    requires window { IsWindow leg.now.secs (ViolatesVertically leg.now volume.now)
        first.now last.now }
    requires first { HasSmallNumbers first.now }
    requires last { HasSmallNumbers last.now }
    requires clear { ¬ ViolatesHorizontally leg.now volume.now last.now.num last.now.den }
    ensures { MatchOption result
        ((n d : ℤ) → IsBetween first.now last.now n d → ¬ IsSoon Model.Tau leg.now volume.now n d)
        (λ p. IsHit leg.now volume.now p.num p.den) }
{
    if middle_rate_at(motion, first, volume.tthr) >= 0 {
        return end_if_held(leg, volume, motion, first);
    }
    if middle_rate_at(motion, last, volume.tthr) <= 0 {
        return None;
    }
    let held = is_tau_within_in_middle(leg, motion, volume.tthr);
    if held {
        Some(middle(motion, volume.tthr))
    } else {
        None
    }
}

/// Twice the rate `secs / 2` seconds after a time, times the time's denominator: below 0 before the
/// middle.
fn middle_rate_at(motion: &Motion, point: &Point, secs: u32) -> i64
    requires small { HasSmallNumbers point.now }
    requires secs { secs ≤ 120 }
    ensures { result ≡ middle_rate_of motion.now secs point.now.num point.now.den }
{
    2 * rate_at(motion, point) + rate_gain(motion, point, secs)
}

/// Whether `s.s + secs (s.v)` is at most 0 in the middle: the line comes within half of the way of
/// `secs` seconds.
fn is_tau_within_in_middle(leg: &Leg, motion: &Motion, secs: u32) -> bool
    requires leg { IsLegInRange leg.now }
    requires secs { secs ≤ 120 }
    ensures { IsTrue result ↔ IsTauWithinInMiddle leg.now motion.now secs }
{
    let miss = (2 * miss(leg)) as i128;
    let way = (secs as i64 * motion.speed_squared) as i128;
    miss * miss <= way * way
}

/// The middle of the times at which `s.s + secs (s.v)` is at most 0: `secs / 2` seconds before the
/// closest approach.
fn middle(motion: &Motion, secs: u32) -> Point
    requires ahead { IsMiddleAhead motion.now secs }
    requires secs { secs ≤ 120 }
    ensures num { result.num
        ≡ neg_ℤ (pos 2 *ℤ motion.now.rate +ℤ pos secs *ℤ motion.now.speed_squared) }
    ensures den { result.den ≡ pos 2 *ℤ motion.now.speed_squared }
{
    Point {
        num: -(2 * motion.rate + secs as i64 * motion.speed_squared),
        den: 2 * motion.speed_squared,
    }
}
