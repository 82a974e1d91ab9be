//! The decision over a whole leg. Within the vertical window one time decides, the one of least
//! distance; by tau two do.

ghost use Rattle.std.specs.Prelude.{◌↔◌, ◌≤ℤ◌, pos, IsTrue, MatchOption};
ghost use Rattle.daa_fixed.specs.Leg.{IsLegInRange};
ghost use Rattle.daa_fixed.specs.Time.{HoldsNever, HoldsSometime};
ghost use Rattle.daa_taumod.specs.Volume.{IsVolumeInRange, Violates, ViolatesVertically};
ghost use Rattle.daa_vwindow.specs.Window.{IsWindow, HasSmallNumbers};
ghost use Rattle.daa_detect.specs.Hit.{IsHit};
ghost use Rattle.daa_detect.specs.Inside.Motion.{IsMotion, rate_of};

use crate::far::is_far;
use crate::horizontal::{closest_approach, end_if_held, rate_at};
use crate::motion::Motion;
use crate::products::motion_of;
use crate::tau::tau_hit;
use daa_fixed::{Leg, Point};
use daa_taumod::{Model, Volume};
use daa_vwindow::window;

/// A time of the leg at which it violates the volume, horizontally and vertically at that one time,
/// and `None` exactly if it does so at no fraction of the leg. It need not be the first such
/// time. A leg that stays far away on some axis is refused by a few products of 64 bits. A call for
/// other programs: `daidalus` asks `is_hit` alone.
pub fn hits(leg: &Leg, volume: &Volume) -> Option<Point>
    requires leg { IsLegInRange leg.now }
    requires volume { IsVolumeInRange volume.now }
    ensures { MatchOption result
        (HoldsNever leg.now.secs (Violates leg.now volume.now))
        (λ p. IsHit leg.now volume.now p.num p.den) }
{
    if is_far(leg, volume) {
        return None;
    }
    nearest_hit(leg, volume)
}

/// Whether the leg violates the volume at some time. Most legs stay far away: the box test is made
/// where the leg is at hand, and only one that may come near is written to memory.
#[inline(always)]
pub fn is_hit(leg: &Leg, volume: &Volume) -> bool
    requires leg { IsLegInRange leg.now }
    requires volume { IsVolumeInRange volume.now }
    ensures { IsTrue result ↔ HoldsSometime leg.now.secs (Violates leg.now volume.now) }
{
    if is_far(leg, volume) {
        return false;
    }
    let near = *leg;
    has_nearest_hit(&near, volume)
}

/// Whether the leg violates the volume at some time, decided without the box test.
#[inline(never)]
fn has_nearest_hit(leg: &Leg, volume: &Volume) -> bool
    requires leg { IsLegInRange leg.now }
    requires volume { IsVolumeInRange volume.now }
    ensures { IsTrue result ↔ HoldsSometime leg.now.secs (Violates leg.now volume.now) }
{
    nearest_hit(leg, volume).is_some()
}

/// Answers as `hits` does, without the box test. Within the vertical window the nearest time
/// decides: the first if the distance grows there, the last if it still falls there (by tau with
/// one more), and else the closest approach, at which a line that comes within `dthr` is within
/// `dthr`. It takes two products of 128 bits for a line that misses or that is nearest inside the
/// window, else at most four, and by tau at most ten.
pub(crate) fn nearest_hit(leg: &Leg, volume: &Volume) -> Option<Point>
    requires leg { IsLegInRange leg.now }
    requires volume { IsVolumeInRange volume.now }
    ensures { MatchOption result
        (HoldsNever leg.now.secs (Violates leg.now volume.now))
        (λ p. IsHit leg.now volume.now p.num p.den) }
{
    let (first, last) = window(leg, volume)?;
    let motion = motion_of(leg, volume);
    if motion.margin < 0 {
        return None;
    }
    if rate_at(&motion, &first) >= 0 {
        return end_if_held(leg, volume, &motion, &first);
    }
    if rate_at(&motion, &last) <= 0 {
        return falling_hit(leg, volume, &motion, &first, &last);
    }
    Some(closest_approach(&motion))
}

/// Answers as `hits` does where the distance still falls at the last time of the vertical window.
/// This time is the nearest then, and it decides; by tau one more time does too.
fn falling_hit(
    leg: &Leg,
    volume: &Volume,
    motion: &Motion,
    first: &Point,
    last: &Point,
) -> Option<Point>
    requires leg { IsLegInRange leg.now }
    requires volume { IsVolumeInRange volume.now }
    requires motion { IsMotion leg.now volume.now motion.now }
    requires passes { pos 0 ≤ℤ motion.now.margin }
    requires window { IsWindow leg.now.secs (ViolatesVertically leg.now volume.now)
        first.now last.now }
    requires first { HasSmallNumbers first.now }
    requires last { HasSmallNumbers last.now }
    requires falls { rate_of motion.now last.now.num last.now.den ≤ℤ pos 0 }
    ensures { MatchOption result
        (HoldsNever leg.now.secs (Violates leg.now volume.now))
        (λ p. IsHit leg.now volume.now p.num p.den) }
{
    match volume.model {
        Model::Tau => tau_hit(leg, volume, motion, first, last),
        Model::Tcpa | Model::Taumod | Model::Tep => end_if_held(leg, volume, motion, last),
    }
}
