//! The times of a leg at which the vertical part of the volume may hold: one interval with exact
//! ends. What begins below is treated as its mirror image, which begins above.

ghost use Rattle.std.specs.Prelude.{◌≡◌, ◌≤◌, ◌≤ℤ◌, pos, MatchOption};
ghost use Rattle.daa_fixed.specs.Leg.{IsLegInRange};
ghost use Rattle.daa_fixed.specs.Size.{IsWithin};
ghost use Rattle.daa_fixed.specs.Time.{HoldsNever};
ghost use Rattle.daa_taumod.specs.Volume.{IsVolumeInRange};
ghost use Rattle.daa_vwindow.specs.Window.{IsWindow};
ghost use Rattle.daa_margin.specs.ErrorBounds.{AreErrorBoundsInRange};
ghost use Rattle.daa_margin.specs.MayViolate.{MayViolateVertically};
ghost use Rattle.daa_margin.specs.Inside.Heights.{IsReached, IsLastKept, IsInReach, gap_of};

use crate::ErrorBounds;
use daa_fixed::{Leg, Point, before, earlier};
use daa_taumod::Volume;

/// The first and the last time of the leg at which the vertical part of the volume may hold: it may
/// hold at a fraction of the leg exactly if that is not before the first and not after the last.
/// `None` exactly if it may hold at no fraction.
pub fn window(leg: &Leg, volume: &Volume, bounds: &ErrorBounds) -> Option<(Point, Point)>
    requires leg { IsLegInRange leg.now }
    requires volume { IsVolumeInRange volume.now }
    requires bounds { AreErrorBoundsInRange bounds.now }
    ensures { MatchOption result
        (HoldsNever leg.now.secs (MayViolateVertically leg.now volume.now bounds.now))
        (λ (p, q). IsWindow leg.now.secs (MayViolateVertically leg.now volume.now bounds.now)
        p q) }
{
    let height = leg.place.up;
    let speed = leg.velocity.up;
    if height >= 0 {
        from_above(height, speed, volume, bounds, leg.secs)
    } else {
        from_above(-height, -speed, volume, bounds, leg.secs)
    }
}

/// The window of what begins at `height`, not below, and rises at `speed`.
fn from_above(
    height: i64,
    speed: i64,
    volume: &Volume,
    bounds: &ErrorBounds,
    secs: u32,
) -> Option<(Point, Point)>
    requires volume { IsVolumeInRange volume.now }
    requires bounds { AreErrorBoundsInRange bounds.now }
    requires secs { secs ≤ 180 }
    requires above { pos 0 ≤ℤ height }
    requires height { IsWithin 40000000 height }
    requires speed { IsWithin 40000 speed }
    ensures { MatchOption result
        (HoldsNever secs (IsInReach height speed volume.now bounds.now))
        (λ (p, q). IsWindow secs (IsInReach height speed volume.now bounds.now) p q) }
{
    let error = bounds.height as i64;
    let climb = bounds.climb as i64;
    let nearing = climb - speed;
    let (first, last) = reached(gap(height - error, nearing, volume), nearing, secs)?;
    let end = last_kept(height + error + volume.zthr as i64, -speed - climb, secs);
    let upto = earlier(&last, &end);
    let over = before(&upto, &first);
    if over { None } else { Some((first, upto)) }
}

/// How far too high what is `over` above may be: less `zthr`, or what it may lose in `tcoa`
/// seconds, whichever is more.
fn gap(over: i64, nearing: i64, volume: &Volume) -> i64
    requires volume { IsVolumeInRange volume.now }
    requires over { IsWithin 50000000 over }
    requires nearing { IsWithin 60000 nearing }
    ensures value { result ≡ gap_of over nearing volume.now }
    ensures size { IsWithin 60000000 result }
{
    let lost = volume.tcoa as i64 * nearing;
    over - (volume.zthr as i64).max(lost)
}

/// The times of the leg by which a way of `gap` is made good at `pace`.
fn reached(gap: i64, pace: i64, secs: u32) -> Option<(Point, Point)>
    requires secs { secs ≤ 180 }
    requires gap { IsWithin 60000000 gap }
    requires pace { IsWithin 60000 pace }
    ensures { MatchOption result
        (HoldsNever secs (IsReached gap pace))
        (λ (p, q). IsWindow secs (IsReached gap pace) p q) }
{
    if gap <= 0 {
        return Some((beginning(), last_kept(-gap, -pace, secs)));
    }
    let reach = secs as i64 * pace;
    if gap <= reach {
        Some((made_good(gap, pace), end_of_leg(secs)))
    } else {
        None
    }
}

/// The last time of the leg at which a way of `room` is not used up at `pace`.
fn last_kept(room: i64, pace: i64, secs: u32) -> Point
    requires secs { secs ≤ 180 }
    requires not_negative { pos 0 ≤ℤ room }
    requires room { IsWithin 60000000 room }
    requires pace { IsWithin 60000 pace }
    ensures { IsLastKept secs room pace result }
{
    let reach = secs as i64 * pace;
    if reach <= room {
        return end_of_leg(secs);
    }
    made_good(room, pace)
}

/// The beginning of a leg.
fn beginning() -> Point
    ensures num { result.num ≡ pos 0 }
    ensures den { result.den ≡ pos 1 }
{
    Point { num: 0, den: 1 }
}

/// The end of a leg.
fn end_of_leg(secs: u32) -> Point
    requires { secs ≤ 180 }
    ensures num { result.num ≡ pos secs }
    ensures den { result.den ≡ pos 1 }
{
    Point {
        num: secs as i64,
        den: 1,
    }
}

/// The time by which a way is made good at a pace.
fn made_good(way: i64, pace: i64) -> Point
    requires from { pos 0 ≤ℤ way }
    requires upto { way ≤ℤ pos 60000000 }
    requires moves { pos 1 ≤ℤ pace }
    requires slow { pace ≤ℤ pos 60000 }
    ensures num { result.num ≡ way }
    ensures den { result.den ≡ pace }
{
    Point {
        num: way,
        den: pace,
    }
}
