//! The vertical window of a leg. An aircraft that descends toward another is treated as its mirror
//! image, one that climbs.

ghost use Rattle.std.specs.Prelude.{◌≤◌, ◌≤ℤ◌, ◌*ℤ◌, pos, IfSome, MatchOption};
ghost use Rattle.std.specs.Int.{int_max};
ghost use Rattle.daa_fixed.specs.Leg.{IsLegInRange};
ghost use Rattle.daa_fixed.specs.Size.{IsWithin};
ghost use Rattle.daa_fixed.specs.Time.{HoldsNever};
ghost use Rattle.daa_taumod.specs.Volume.{IsVolumeInRange, ViolatesVertically};
ghost use Rattle.daa_vwindow.specs.Inside.Band.{IsInBand};
ghost use Rattle.daa_vwindow.specs.Window.{HasSmallNumbers, IsWindow};

use crate::band::{level_flight, passage};
use daa_fixed::{Leg, Point};
use daa_taumod::Volume;

/// The first and the last time of the leg at which the vertical part of the volume holds: it holds
/// at a fraction of the leg exactly if that is not before the first and not after the last.
/// `None` exactly if it holds at no fraction. The numbers of both times are small: num at most
/// 7200000, den at most 40000.
pub fn window(leg: &Leg, volume: &Volume) -> Option<(Point, Point)>
    requires leg { IsLegInRange leg.now }
    requires volume { IsVolumeInRange volume.now }
    ensures times { MatchOption result
        (HoldsNever leg.now.secs (ViolatesVertically leg.now volume.now))
        (λ (p, q). IsWindow leg.now.secs (ViolatesVertically leg.now volume.now) p q) }
    ensures small { IfSome result (λ (p, q). HasSmallNumbers p × HasSmallNumbers q) }
{
    let height = leg.place.up;
    let speed = leg.velocity.up;
    if speed == 0 {
        level_flight(height, volume.zthr as i64, leg.secs)
    } else if speed > 0 {
        rise(height, speed, volume, leg.secs)
    } else {
        rise(-height, -speed, volume, leg.secs)
    }
}

/// The window of what rises from `height` at `speed`. Below, it counts from `zthr` or from the
/// height that it gains in `tcoa` seconds, whichever is more; above, up to `zthr`, since from
/// co-altitude on the difference grows.
fn rise(height: i64, speed: i64, volume: &Volume, secs: u32) -> Option<(Point, Point)>
    requires volume { IsVolumeInRange volume.now }
    requires secs { secs ≤ 180 }
    requires rises { pos 1 ≤ℤ speed }
    requires speed { speed ≤ℤ pos 40000 }
    requires height { IsWithin 40000000 height }
    ensures times { let low = int_max (pos volume.now.zthr) (pos volume.now.tcoa *ℤ speed) in
        MatchOption result
        (HoldsNever secs (IsInBand height speed low (pos volume.now.zthr)))
        (λ (p, q). IsWindow secs (IsInBand height speed low (pos volume.now.zthr)) p q) }
    ensures small { IfSome result (λ (p, q). HasSmallNumbers p × HasSmallNumbers q) }
{
    let high = volume.zthr as i64;
    let gained = volume.tcoa as i64 * speed;
    passage(height, speed, high.max(gained), high, secs)
}
