//! Whether the distance may be at most `dthr`, at one time and at some time between two.

ghost use Rattle.std.specs.Prelude.{◌≡◌, ◌↔◌, ◌⊎◌, ◌*ℤ◌, ◌≤ℤ◌, ◌<ℤ◌, ◌^◌, IsTrue, pos};
ghost use Rattle.daa_fixed.specs.Flat.{IsShort};
ghost use Rattle.daa_fixed.specs.Leg.{IsLegInRange};
ghost use Rattle.daa_fixed.specs.Size.{IsWithin};
ghost use Rattle.daa_taumod.specs.Volume.{IsVolumeInRange, place_at};
ghost use Rattle.daa_margin.specs.ErrorBounds.{AreErrorBoundsInRange};
ghost use Rattle.daa_margin.specs.MayViolate.{MayBeNear};
ghost use Rattle.daa_margin.specs.Inside.Between.{HoldsBetween};
ghost use Rattle.daa_margin.specs.Inside.Cone.{CanComeNear, DipsBetween, drift};
ghost use Rattle.daa_margin.specs.Inside.Cone.{radius_at, slope_of};

use crate::ErrorBounds;
use crate::moment::{Moment, moved};
use daa_fixed::{Flat, Leg, cross, dot, square};
use daa_taumod::Volume;

/// Whether the distance may be at most `dthr` at some time from one to the other: then or then, or
/// where it is least in between.
pub(crate) fn may_be_near_between(
    leg: &Leg,
    volume: &Volume,
    bounds: &ErrorBounds,
    from: &Moment,
    upto: &Moment,
) -> bool
    requires leg { IsLegInRange leg.now }
    requires volume { IsVolumeInRange volume.now }
    requires bounds { AreErrorBoundsInRange bounds.now }
    requires in_order { (from.now.num *ℤ upto.now.den) ≤ℤ (upto.now.num *ℤ from.now.den) }
    ensures { IsTrue result ↔ HoldsBetween (MayBeNear leg.now volume.now bounds.now)
        from.now.num from.now.den upto.now.num upto.now.den }
{
    is_near_or_dips(leg, volume, bounds, from, upto)
}

/// Whether the distance may be at most `dthr` at the first time, at the last, or where it is least
/// in between.
fn is_near_or_dips(
    leg: &Leg,
    volume: &Volume,
    bounds: &ErrorBounds,
    from: &Moment,
    upto: &Moment,
) -> bool
    requires leg { IsLegInRange leg.now }
    requires volume { IsVolumeInRange volume.now }
    requires bounds { AreErrorBoundsInRange bounds.now }
    ensures { IsTrue result ↔ (MayBeNear leg.now volume.now bounds.now from.now.num from.now.den
        ⊎ (MayBeNear leg.now volume.now bounds.now upto.now.num upto.now.den
        ⊎ DipsBetween leg.now volume.now bounds.now
        from.now.num from.now.den upto.now.num upto.now.den)) }
{
    may_be_near(leg, volume, bounds, from) || ends_near_or_dips(leg, volume, bounds, from, upto)
}

/// Whether the distance may be at most `dthr` at the last time, or where it is least in between.
fn ends_near_or_dips(
    leg: &Leg,
    volume: &Volume,
    bounds: &ErrorBounds,
    from: &Moment,
    upto: &Moment,
) -> bool
    requires leg { IsLegInRange leg.now }
    requires volume { IsVolumeInRange volume.now }
    requires bounds { AreErrorBoundsInRange bounds.now }
    ensures { IsTrue result ↔ (MayBeNear leg.now volume.now bounds.now upto.now.num upto.now.den
        ⊎ DipsBetween leg.now volume.now bounds.now
        from.now.num from.now.den upto.now.num upto.now.den) }
{
    may_be_near(leg, volume, bounds, upto) || dips_between(leg, volume, bounds, from, upto)
}

/// Whether the distance may be at most `dthr`.
pub(crate) fn may_be_near(leg: &Leg, volume: &Volume, bounds: &ErrorBounds, moment: &Moment) -> bool
    requires leg { IsLegInRange leg.now }
    requires volume { IsVolumeInRange volume.now }
    requires bounds { AreErrorBoundsInRange bounds.now }
    ensures { IsTrue result
        ↔ MayBeNear leg.now volume.now bounds.now moment.now.num moment.now.den }
{
    let radius = radius_then(volume, bounds, moment) as i128;
    square(&place_then(leg, moment)) <= radius * radius
}

/// Whether the square of the distance, less that of the radius, falls at first, rises at last, and
/// is at most 0 where it is least.
fn dips_between(
    leg: &Leg,
    volume: &Volume,
    bounds: &ErrorBounds,
    from: &Moment,
    upto: &Moment,
) -> bool
    requires leg { IsLegInRange leg.now }
    requires volume { IsVolumeInRange volume.now }
    requires bounds { AreErrorBoundsInRange bounds.now }
    ensures { IsTrue result ↔ DipsBetween leg.now volume.now bounds.now
        from.now.num from.now.den upto.now.num upto.now.den }
{
    falls_at(leg, volume, bounds, from)
        && rises_at(leg, volume, bounds, upto)
        && can_come_near(leg, volume, bounds)
}

/// Whether that difference falls.
fn falls_at(leg: &Leg, volume: &Volume, bounds: &ErrorBounds, moment: &Moment) -> bool
    requires leg { IsLegInRange leg.now }
    requires volume { IsVolumeInRange volume.now }
    requires bounds { AreErrorBoundsInRange bounds.now }
    ensures { IsTrue result
        ↔ (slope_of leg.now volume.now bounds.now moment.now.num moment.now.den <ℤ pos 0) }
{
    slope_at(leg, volume, bounds, moment) < 0
}

/// Whether that difference rises.
fn rises_at(leg: &Leg, volume: &Volume, bounds: &ErrorBounds, moment: &Moment) -> bool
    requires leg { IsLegInRange leg.now }
    requires volume { IsVolumeInRange volume.now }
    requires bounds { AreErrorBoundsInRange bounds.now }
    ensures { IsTrue result
        ↔ (pos 0 <ℤ slope_of leg.now volume.now bounds.now moment.now.num moment.now.den) }
{
    0 < slope_at(leg, volume, bounds, moment)
}

/// Half the slope of that difference, times the time's denominator.
fn slope_at(leg: &Leg, volume: &Volume, bounds: &ErrorBounds, moment: &Moment) -> i128
    requires leg { IsLegInRange leg.now }
    requires volume { IsVolumeInRange volume.now }
    requires bounds { AreErrorBoundsInRange bounds.now }
    ensures { result ≡ slope_of leg.now volume.now bounds.now moment.now.num moment.now.den }
{
    let radius = radius_then(volume, bounds, moment) as i128;
    dot(&place_then(leg, moment), &leg.velocity.flat) - bounds.speed as i128 * radius
}

/// Whether that difference is at most 0 where it is least. The answer is the same at every time.
fn can_come_near(leg: &Leg, volume: &Volume, bounds: &ErrorBounds) -> bool
    requires leg { IsLegInRange leg.now }
    requires volume { IsVolumeInRange volume.now }
    requires bounds { AreErrorBoundsInRange bounds.now }
    ensures { IsTrue result ↔ CanComeNear leg.now volume.now bounds.now }
{
    let miss = cross(&leg.place.flat, &leg.velocity.flat);
    miss * miss <= square(&drift(leg, volume, bounds))
}

/// The way of the radius in the direction of the velocity, less that of its growth in the direction
/// of the place.
fn drift(leg: &Leg, volume: &Volume, bounds: &ErrorBounds) -> Flat
    requires leg { IsLegInRange leg.now }
    requires volume { IsVolumeInRange volume.now }
    requires bounds { AreErrorBoundsInRange bounds.now }
    ensures value { result ≡ drift leg.now volume.now bounds.now }
    ensures short { IsShort result }
{
    let radius = volume.dthr as i64 + bounds.place as i64;
    let growth = bounds.speed as i64;
    let (s, v) = (&leg.place.flat, &leg.velocity.flat);
    Flat {
        east: radius * v.east - growth * s.east,
        north: radius * v.north - growth * s.north,
    }
}

/// The horizontal place, times the time's denominator.
pub(crate) fn place_then(leg: &Leg, moment: &Moment) -> Flat
    requires { IsLegInRange leg.now }
    ensures value { result ≡ place_at leg.now moment.now.num moment.now.den }
    ensures short { IsShort result }
{
    Flat {
        east: moved(leg.place.flat.east, leg.velocity.flat.east, moment),
        north: moved(leg.place.flat.north, leg.velocity.flat.north, moment),
    }
}

/// The distance that counts as near, times the time's denominator.
fn radius_then(volume: &Volume, bounds: &ErrorBounds, moment: &Moment) -> i64
    requires volume { IsVolumeInRange volume.now }
    requires bounds { AreErrorBoundsInRange bounds.now }
    ensures value { result ≡ radius_at volume.now bounds.now moment.now.num moment.now.den }
    ensures size { IsWithin (2 ^ 59) result }
{
    let begin = volume.dthr as i64 + bounds.place as i64;
    moved(begin, bounds.speed as i64, moment)
}
