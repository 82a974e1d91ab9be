//! The volume as a whole at one time.

ghost use Rattle.std.specs.Prelude.{◌↔◌, IsTrue};
ghost use Rattle.daa_fixed.specs.Leg.{IsLegInRange};
ghost use Rattle.daa_taumod.specs.Volume.{IsVolumeInRange};
ghost use Rattle.daa_margin.specs.ErrorBounds.{AreErrorBoundsInRange};
ghost use Rattle.daa_margin.specs.MayViolate.{HoldsWithinNext, MayBeNear, MayBeSoonBy};
ghost use Rattle.daa_margin.specs.MayViolate.{MayEnter};
ghost use Rattle.daa_margin.specs.MayViolate.{MayViolate, MayViolateHorizontally};

use crate::ErrorBounds;
use crate::heights::may_violate_vertically;
use crate::moment::{after, at};
use crate::near::{may_be_near, may_be_near_between};
use crate::soon::may_be_soon_by;
use daa_fixed::{Leg, Point};
use daa_taumod::Volume;

/// Whether the volume may be violated at that time: horizontally and vertically at once, each bound
/// inclusive. The time is any fraction in range; it need not be one of the leg's.
pub fn may_violate(leg: &Leg, volume: &Volume, bounds: &ErrorBounds, point: &Point) -> bool
    requires leg { IsLegInRange leg.now }
    requires volume { IsVolumeInRange volume.now }
    requires bounds { AreErrorBoundsInRange bounds.now }
    ensures { IsTrue result
        ↔ MayViolate leg.now volume.now bounds.now point.now.num point.now.den }
{
    may_violate_horizontally(leg, volume, bounds, point)
        && may_violate_vertically(leg, volume, bounds, point)
}

/// Whether the horizontal part of the volume may hold at a time.
fn may_violate_horizontally(leg: &Leg, volume: &Volume, bounds: &ErrorBounds, point: &Point) -> bool
    requires leg { IsLegInRange leg.now }
    requires volume { IsVolumeInRange volume.now }
    requires bounds { AreErrorBoundsInRange bounds.now }
    ensures { IsTrue result
        ↔ MayViolateHorizontally leg.now volume.now bounds.now point.now.num point.now.den }
{
    is_now_near(leg, volume, bounds, point) || may_enter(leg, volume, bounds, point)
}

/// Whether the distance may be at most `dthr` at a time.
fn is_now_near(leg: &Leg, volume: &Volume, bounds: &ErrorBounds, point: &Point) -> bool
    requires leg { IsLegInRange leg.now }
    requires volume { IsVolumeInRange volume.now }
    requires bounds { AreErrorBoundsInRange bounds.now }
    ensures { IsTrue result
        ↔ MayBeNear leg.now volume.now bounds.now point.now.num point.now.den }
{
    may_be_near(leg, volume, bounds, &at(point))
}

/// Whether it soon may be, by the volume's model.
fn may_enter(leg: &Leg, volume: &Volume, bounds: &ErrorBounds, point: &Point) -> bool
    requires leg { IsLegInRange leg.now }
    requires volume { IsVolumeInRange volume.now }
    requires bounds { AreErrorBoundsInRange bounds.now }
    ensures { IsTrue result
        ↔ MayEnter leg.now volume.now bounds.now point.now.num point.now.den }
{
    may_come_near(leg, volume, bounds, point) && is_soon(leg, volume, bounds, point)
}

/// Whether it may be at some time of the next `tthr` seconds.
fn may_come_near(leg: &Leg, volume: &Volume, bounds: &ErrorBounds, point: &Point) -> bool
    requires leg { IsLegInRange leg.now }
    requires volume { IsVolumeInRange volume.now }
    requires bounds { AreErrorBoundsInRange bounds.now }
    ensures { IsTrue result ↔ HoldsWithinNext volume.now.tthr
        (MayBeNear leg.now volume.now bounds.now) point.now.num point.now.den }
{
    may_be_near_between(leg, volume, bounds, &at(point), &after(point, volume.tthr))
}

/// Whether that counts as soon by the volume's model.
fn is_soon(leg: &Leg, volume: &Volume, bounds: &ErrorBounds, point: &Point) -> bool
    requires leg { IsLegInRange leg.now }
    requires volume { IsVolumeInRange volume.now }
    requires bounds { AreErrorBoundsInRange bounds.now }
    ensures { IsTrue result ↔ MayBeSoonBy leg.now volume.now bounds.now volume.now.model
        point.now.num point.now.den }
{
    may_be_soon_by(leg, volume, bounds, &at(point))
}
