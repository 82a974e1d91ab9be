//! The vertical part of the volume at one time.

ghost use Rattle.std.specs.Prelude.{◌≡◌, ◌↔◌, ◌⊎◌, ◌+ℤ◌, ◌≤ℤ◌, ◌^◌, IsTrue, pos};
ghost use Rattle.daa_fixed.specs.Leg.{IsLegInRange};
ghost use Rattle.daa_fixed.specs.Size.{IsWithin};
ghost use Rattle.daa_taumod.specs.Volume.{IsVolumeInRange, height_at};
ghost use Rattle.daa_margin.specs.ErrorBounds.{AreErrorBoundsInRange, height_error_at};
ghost use Rattle.daa_margin.specs.MayViolate.{MayBeNearInHeight, MayBeCoAltitude};
ghost use Rattle.daa_margin.specs.MayViolate.{HoldsWithinNext, MayViolateVertically};
ghost use Rattle.daa_margin.specs.Inside.Heights.{ComesDown, ComesUp};

use crate::ErrorBounds;
use crate::moment::{Moment, after, at, moved};
use daa_fixed::{Leg, Point};
use daa_taumod::Volume;

/// Whether the vertical part of the volume may hold at a time.
pub(crate) fn may_violate_vertically(
    leg: &Leg,
    volume: &Volume,
    bounds: &ErrorBounds,
    point: &Point,
) -> bool
    requires leg { IsLegInRange leg.now }
    requires volume { IsVolumeInRange volume.now }
    requires bounds { AreErrorBoundsInRange bounds.now }
    ensures { IsTrue result
        ↔ MayViolateVertically leg.now volume.now bounds.now point.now.num point.now.den }
{
    is_near_in_height(leg, volume, bounds, point) || is_co_altitude_soon(leg, volume, bounds, point)
}

/// Whether the difference in height may be at most `zthr`.
fn is_near_in_height(leg: &Leg, volume: &Volume, bounds: &ErrorBounds, point: &Point) -> bool
    requires leg { IsLegInRange leg.now }
    requires volume { IsVolumeInRange volume.now }
    requires bounds { AreErrorBoundsInRange bounds.now }
    ensures { IsTrue result
        ↔ MayBeNearInHeight leg.now volume.now bounds.now point.now.num point.now.den }
{
    may_be_near_in_height(leg, volume, bounds, &at(point))
}

/// The same at a moment.
fn may_be_near_in_height(leg: &Leg, volume: &Volume, bounds: &ErrorBounds, moment: &Moment) -> bool
    requires leg { IsLegInRange leg.now }
    requires volume { IsVolumeInRange volume.now }
    requires bounds { AreErrorBoundsInRange bounds.now }
    ensures { IsTrue result
        ↔ MayBeNearInHeight leg.now volume.now bounds.now moment.now.num moment.now.den }
{
    let height = height_then(leg, moment).abs();
    height <= volume.zthr as i64 * moment.den + height_error(bounds, moment)
}

/// Whether the difference in height may be 0 at some time of the next `tcoa` seconds.
fn is_co_altitude_soon(leg: &Leg, volume: &Volume, bounds: &ErrorBounds, point: &Point) -> bool
    requires leg { IsLegInRange leg.now }
    requires volume { IsVolumeInRange volume.now }
    requires bounds { AreErrorBoundsInRange bounds.now }
    ensures { IsTrue result ↔ HoldsWithinNext volume.now.tcoa
        (MayBeCoAltitude leg.now volume.now bounds.now) point.now.num point.now.den }
{
    comes_level(leg, volume, bounds, &at(point), &after(point, volume.tcoa))
}

/// Whether it may be 0 now, or its sign may be lost until later.
fn comes_level(
    leg: &Leg,
    volume: &Volume,
    bounds: &ErrorBounds,
    now: &Moment,
    later: &Moment,
) -> bool
    requires leg { IsLegInRange leg.now }
    requires bounds { AreErrorBoundsInRange bounds.now }
    ensures { IsTrue result
        ↔ (MayBeCoAltitude leg.now volume.now bounds.now now.now.num now.now.den
        ⊎ (ComesDown leg.now bounds.now now.now.num now.now.den later.now.num later.now.den
        ⊎ ComesUp leg.now bounds.now now.now.num now.now.den later.now.num later.now.den)) }
{
    may_be_co_altitude(leg, volume, bounds, now) || loses_its_sign(leg, bounds, now, later)
}

/// Whether the difference in height may be 0.
fn may_be_co_altitude(leg: &Leg, volume: &Volume, bounds: &ErrorBounds, moment: &Moment) -> bool
    requires leg { IsLegInRange leg.now }
    requires bounds { AreErrorBoundsInRange bounds.now }
    ensures { IsTrue result
        ↔ MayBeCoAltitude leg.now volume.now bounds.now moment.now.num moment.now.den }
{
    height_then(leg, moment).abs() <= height_error(bounds, moment)
}

/// Whether what is above now may be no more above later, or what is below no more below.
fn loses_its_sign(leg: &Leg, bounds: &ErrorBounds, now: &Moment, later: &Moment) -> bool
    requires leg { IsLegInRange leg.now }
    requires bounds { AreErrorBoundsInRange bounds.now }
    ensures { IsTrue result
        ↔ (ComesDown leg.now bounds.now now.now.num now.now.den later.now.num later.now.den
        ⊎ ComesUp leg.now bounds.now now.now.num now.now.den later.now.num later.now.den) }
{
    comes_down(leg, bounds, now, later) || comes_up(leg, bounds, now, later)
}

/// Whether what is not below now may be no more above later.
fn comes_down(leg: &Leg, bounds: &ErrorBounds, now: &Moment, later: &Moment) -> bool
    requires leg { IsLegInRange leg.now }
    requires bounds { AreErrorBoundsInRange bounds.now }
    ensures { IsTrue result
        ↔ ComesDown leg.now bounds.now now.now.num now.now.den later.now.num later.now.den }
{
    is_not_below(leg, now) && may_be_low(leg, bounds, later)
}

/// Whether what is not above now may be no more below later.
fn comes_up(leg: &Leg, bounds: &ErrorBounds, now: &Moment, later: &Moment) -> bool
    requires leg { IsLegInRange leg.now }
    requires bounds { AreErrorBoundsInRange bounds.now }
    ensures { IsTrue result
        ↔ ComesUp leg.now bounds.now now.now.num now.now.den later.now.num later.now.den }
{
    is_not_above(leg, now) && may_be_high(leg, bounds, later)
}

fn is_not_below(leg: &Leg, moment: &Moment) -> bool
    requires { IsLegInRange leg.now }
    ensures { IsTrue result ↔ (pos 0 ≤ℤ height_at leg.now moment.now.num moment.now.den) }
{
    0 <= height_then(leg, moment)
}

fn is_not_above(leg: &Leg, moment: &Moment) -> bool
    requires { IsLegInRange leg.now }
    ensures { IsTrue result ↔ (height_at leg.now moment.now.num moment.now.den ≤ℤ pos 0) }
{
    height_then(leg, moment) <= 0
}

fn may_be_low(leg: &Leg, bounds: &ErrorBounds, moment: &Moment) -> bool
    requires leg { IsLegInRange leg.now }
    requires bounds { AreErrorBoundsInRange bounds.now }
    ensures { IsTrue result ↔ (height_at leg.now moment.now.num moment.now.den
        ≤ℤ height_error_at bounds.now moment.now.num moment.now.den) }
{
    height_then(leg, moment) <= height_error(bounds, moment)
}

fn may_be_high(leg: &Leg, bounds: &ErrorBounds, moment: &Moment) -> bool
    requires leg { IsLegInRange leg.now }
    requires bounds { AreErrorBoundsInRange bounds.now }
    ensures { IsTrue result ↔ (pos 0 ≤ℤ (height_at leg.now moment.now.num moment.now.den
        +ℤ height_error_at bounds.now moment.now.num moment.now.den)) }
{
    0 <= height_then(leg, moment) + height_error(bounds, moment)
}

/// The height, times the time's denominator.
fn height_then(leg: &Leg, moment: &Moment) -> i64
    requires { IsLegInRange leg.now }
    ensures value { result ≡ height_at leg.now moment.now.num moment.now.den }
    ensures size { IsWithin (2 ^ 59) result }
{
    moved(leg.place.up, leg.velocity.up, moment)
}

/// The greatest error of the height, times the time's denominator.
fn height_error(bounds: &ErrorBounds, moment: &Moment) -> i64
    requires { AreErrorBoundsInRange bounds.now }
    ensures value { result ≡ height_error_at bounds.now moment.now.num moment.now.den }
    ensures size { IsWithin (2 ^ 59) result }
{
    moved(bounds.height as i64, bounds.climb as i64, moment)
}
