//! The decision over a whole leg.

ghost use Rattle.std.specs.Prelude.{◌↔◌, ◌⊎◌, ◌*ℤ◌, ◌+ℤ◌, IsTrue, pos};
ghost use Rattle.daa_fixed.specs.Leg.{IsLegInRange};
ghost use Rattle.daa_fixed.specs.Time.{HoldsSometime};
ghost use Rattle.daa_taumod.specs.Volume.{IsVolumeInRange};
ghost use Rattle.daa_vwindow.specs.Window.{IsWindow};
ghost use Rattle.daa_margin.specs.ErrorBounds.{AreErrorBoundsInRange};
ghost use Rattle.daa_margin.specs.MayViolate.{MayBeNear, MayBeSoonBy, MayViolate};
ghost use Rattle.daa_margin.specs.MayViolate.{MayViolateVertically};
ghost use Rattle.daa_margin.specs.Inside.Between.{HoldsBetween};

use crate::ErrorBounds;
use crate::moment::{after, at};
use crate::near::may_be_near_between;
use crate::soon::may_be_soon_by;
use crate::windows::window;
use daa_fixed::{Leg, Point};
use daa_taumod::Volume;

/// Whether the volume may be violated at some time of the leg. Within the vertical window it may be
/// where the distance may be at most `dthr`; and if that may be only later, the last time of the
/// window decides.
pub fn is_met(leg: &Leg, volume: &Volume, bounds: &ErrorBounds) -> bool
    requires leg { IsLegInRange leg.now }
    requires volume { IsVolumeInRange volume.now }
    requires bounds { AreErrorBoundsInRange bounds.now }
    ensures { IsTrue result
        ↔ HoldsSometime leg.now.secs (MayViolate leg.now volume.now bounds.now) }
{
    match window(leg, volume, bounds) {
        None => false,
        Some((first, last)) => is_met_within(leg, volume, bounds, &first, &last),
    }
}

/// The same, with the vertical window.
fn is_met_within(
    leg: &Leg,
    volume: &Volume,
    bounds: &ErrorBounds,
    first: &Point,
    last: &Point,
) -> bool
    requires leg { IsLegInRange leg.now }
    requires volume { IsVolumeInRange volume.now }
    requires bounds { AreErrorBoundsInRange bounds.now }
    requires window { IsWindow leg.now.secs
        (MayViolateVertically leg.now volume.now bounds.now) first.now last.now }
    ensures { IsTrue result
        ↔ HoldsSometime leg.now.secs (MayViolate leg.now volume.now bounds.now) }
{
    comes_soon(leg, volume, bounds, first, last)
}

/// Whether the distance may be at most `dthr` within the window or `tthr` seconds more, and soon
/// enough.
fn comes_soon(leg: &Leg, volume: &Volume, bounds: &ErrorBounds, first: &Point, last: &Point) -> bool
    requires leg { IsLegInRange leg.now }
    requires volume { IsVolumeInRange volume.now }
    requires bounds { AreErrorBoundsInRange bounds.now }
    requires window { IsWindow leg.now.secs
        (MayViolateVertically leg.now volume.now bounds.now) first.now last.now }
    ensures { let later = last.now.num +ℤ pos volume.now.tthr *ℤ last.now.den in
        IsTrue result ↔ (HoldsBetween (MayBeNear leg.now volume.now bounds.now)
        first.now.num first.now.den later last.now.den
        × (HoldsBetween (MayBeNear leg.now volume.now bounds.now)
        first.now.num first.now.den last.now.num last.now.den
        ⊎ MayBeSoonBy leg.now volume.now bounds.now volume.now.model
        last.now.num last.now.den)) }
{
    comes_near(leg, volume, bounds, first, last) && is_soon_enough(leg, volume, bounds, first, last)
}

/// Whether the distance may be at most `dthr` at some time from the first of the window to `tthr`
/// seconds after the last.
fn comes_near(leg: &Leg, volume: &Volume, bounds: &ErrorBounds, first: &Point, last: &Point) -> bool
    requires leg { IsLegInRange leg.now }
    requires volume { IsVolumeInRange volume.now }
    requires bounds { AreErrorBoundsInRange bounds.now }
    requires window { IsWindow leg.now.secs
        (MayViolateVertically leg.now volume.now bounds.now) first.now last.now }
    ensures { let later = last.now.num +ℤ pos volume.now.tthr *ℤ last.now.den in
        IsTrue result ↔ HoldsBetween (MayBeNear leg.now volume.now bounds.now)
        first.now.num first.now.den later last.now.den }
{
    may_be_near_between(leg, volume, bounds, &at(first), &after(last, volume.tthr))
}

/// Whether it may be so within the window, or counts as soon at its last time.
fn is_soon_enough(
    leg: &Leg,
    volume: &Volume,
    bounds: &ErrorBounds,
    first: &Point,
    last: &Point,
) -> bool
    requires leg { IsLegInRange leg.now }
    requires volume { IsVolumeInRange volume.now }
    requires bounds { AreErrorBoundsInRange bounds.now }
    requires window { IsWindow leg.now.secs
        (MayViolateVertically leg.now volume.now bounds.now) first.now last.now }
    ensures { IsTrue result ↔ (HoldsBetween (MayBeNear leg.now volume.now bounds.now)
        first.now.num first.now.den last.now.num last.now.den
        ⊎ MayBeSoonBy leg.now volume.now bounds.now volume.now.model last.now.num last.now.den) }
{
    is_near_within(leg, volume, bounds, first, last) || ends_soon(leg, volume, bounds, last)
}

/// Whether the distance may be at most `dthr` at some time within the window.
fn is_near_within(
    leg: &Leg,
    volume: &Volume,
    bounds: &ErrorBounds,
    first: &Point,
    last: &Point,
) -> bool
    requires leg { IsLegInRange leg.now }
    requires volume { IsVolumeInRange volume.now }
    requires bounds { AreErrorBoundsInRange bounds.now }
    requires window { IsWindow leg.now.secs
        (MayViolateVertically leg.now volume.now bounds.now) first.now last.now }
    ensures { IsTrue result ↔ HoldsBetween (MayBeNear leg.now volume.now bounds.now)
        first.now.num first.now.den last.now.num last.now.den }
{
    may_be_near_between(leg, volume, bounds, &at(first), &at(last))
}

/// Whether what comes near within `tthr` seconds counts as soon at the last time of the window.
fn ends_soon(leg: &Leg, volume: &Volume, bounds: &ErrorBounds, last: &Point) -> bool
    requires leg { IsLegInRange leg.now }
    requires volume { IsVolumeInRange volume.now }
    requires bounds { AreErrorBoundsInRange bounds.now }
    ensures { IsTrue result ↔ MayBeSoonBy leg.now volume.now bounds.now volume.now.model
        last.now.num last.now.den }
{
    may_be_soon_by(leg, volume, bounds, &at(last))
}
