//! The vertical part of the volume: one function for each clause of its definition.

ghost use Rattle.std.specs.Prelude.{◌↔◌, ◌≤ℤ◌, ◌<ℤ◌, ◌*ℤ◌, IsTrue, pos, unsigned_abs};
ghost use Rattle.daa_fixed.specs.Leg.{IsLegInRange};
ghost use Rattle.daa_taumod.specs.Volume.{IsVolumeInRange, ViolatesVertically};
ghost use Rattle.daa_taumod.specs.Volume.{IsNearInHeight, IsCoAltitudeSoon, height_at};

use crate::Volume;
use crate::place::height_then;
use crate::threshold::scaled_threshold;
use daa_fixed::{Leg, Point};

/// Whether the vertical part of the volume holds at a time.
pub(crate) fn violates_vertically(leg: &Leg, volume: &Volume, point: &Point) -> bool
    requires leg { IsLegInRange leg.now }
    requires volume { IsVolumeInRange volume.now }
    ensures { IsTrue result ↔ ViolatesVertically leg.now volume.now point.now.num point.now.den }
{
    is_near_in_height(leg, volume, point) || is_co_altitude_soon(leg, volume, point)
}

/// Whether the difference in height is at most `zthr`.
fn is_near_in_height(leg: &Leg, volume: &Volume, point: &Point) -> bool
    requires leg { IsLegInRange leg.now }
    requires volume { IsVolumeInRange volume.now }
    ensures { IsTrue result ↔ IsNearInHeight leg.now volume.now point.now.num point.now.den }
{
    height_then(leg, point).abs() as i128 <= scaled_threshold(volume.zthr, point)
}

/// Whether the difference in height falls, and the time to co-altitude is at most `tcoa`.
fn is_co_altitude_soon(leg: &Leg, volume: &Volume, point: &Point) -> bool
    requires leg { IsLegInRange leg.now }
    requires volume { IsVolumeInRange volume.now }
    ensures { IsTrue result ↔ IsCoAltitudeSoon leg.now volume.now point.now.num point.now.den }
{
    is_nearing_in_height(leg, point) && is_within_tcoa(leg, volume, point)
}

/// Whether the difference in height falls.
fn is_nearing_in_height(leg: &Leg, point: &Point) -> bool
    requires { IsLegInRange leg.now }
    ensures { IsTrue result
        ↔ ((height_at leg.now point.now.num point.now.den *ℤ leg.now.velocity.up) <ℤ pos 0) }
{
    (height_then(leg, point) as i128) * (leg.velocity.up as i128) < 0
}

/// Whether the height lost in `tcoa` seconds is at least the difference.
fn is_within_tcoa(leg: &Leg, volume: &Volume, point: &Point) -> bool
    requires leg { IsLegInRange leg.now }
    requires volume { IsVolumeInRange volume.now }
    ensures { let height = unsigned_abs (height_at leg.now point.now.num point.now.den) in
        IsTrue result ↔ (pos height ≤ℤ (pos volume.now.tcoa *ℤ point.now.den
        *ℤ pos (unsigned_abs leg.now.velocity.up))) }
{
    let speed = leg.velocity.up.abs() as i128;
    height_then(leg, point).abs() as i128 <= scaled_threshold(volume.tcoa, point) * speed
}
