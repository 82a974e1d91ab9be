//! The horizontal part of the volume: one function for each clause of its definition.

ghost use Rattle.std.specs.Prelude.{◌≡◌, ◌↔◌, ◌+ℤ◌, ◌*ℤ◌, ◌≤ℤ◌, ◌<ℤ◌, IsTrue, ℤ, pos};
ghost use Rattle.daa_fixed.specs.Flat.{dot_of};
ghost use Rattle.daa_fixed.specs.Leg.{IsLegInRange};
ghost use Rattle.daa_taumod.specs.Volume.{IsVolumeInRange, ViolatesHorizontally, IsNear};
ghost use Rattle.daa_taumod.specs.Volume.{IsClosing, IsSoon, PassesNear, place_at};

use crate::place::{place_later, place_then};
use crate::threshold::{scaled_square, scaled_threshold};
use crate::{Model, Volume};
use daa_fixed::{Leg, Point, cross, dot, square};

/// Whether the horizontal part of the volume holds at a time.
pub(crate) fn violates_horizontally(leg: &Leg, volume: &Volume, point: &Point) -> bool
    requires leg { IsLegInRange leg.now }
    requires volume { IsVolumeInRange volume.now }
    ensures { IsTrue result ↔ ViolatesHorizontally leg.now volume.now point.now.num point.now.den }
{
    is_near(leg, volume, point) || is_closing(leg, volume, point)
}

/// Whether the distance is at most `dthr`.
fn is_near(leg: &Leg, volume: &Volume, point: &Point) -> bool
    requires leg { IsLegInRange leg.now }
    requires volume { IsVolumeInRange volume.now }
    ensures { IsTrue result ↔ IsNear leg.now volume.now point.now.num point.now.den }
{
    square(&place_then(leg, point)) <= scaled_square(volume.dthr, point)
}

/// Whether the distance falls and the aircraft comes within `dthr`, soon.
fn is_closing(leg: &Leg, volume: &Volume, point: &Point) -> bool
    requires leg { IsLegInRange leg.now }
    requires volume { IsVolumeInRange volume.now }
    ensures { IsTrue result ↔ IsClosing leg.now volume.now point.now.num point.now.den }
{
    is_nearing(leg, point) && is_soon(leg, volume, point) && passes_near(leg, volume)
}

/// Whether the distance falls.
fn is_nearing(leg: &Leg, point: &Point) -> bool
    requires { IsLegInRange leg.now }
    ensures { IsTrue result
        ↔ (dot_of (place_at leg.now point.now.num point.now.den) leg.now.velocity.flat <ℤ pos 0) }
{
    dot(&place_then(leg, point), &leg.velocity.flat) < 0
}

/// Whether the time that the model looks at is at most `tthr`.
fn is_soon(leg: &Leg, volume: &Volume, point: &Point) -> bool
    requires leg { IsLegInRange leg.now }
    requires volume { IsVolumeInRange volume.now }
    ensures { IsTrue result
        ↔ IsSoon volume.now.model leg.now volume.now point.now.num point.now.den }
{
    match volume.model {
        Model::Tau => is_tau_soon(leg, volume, point),
        Model::Tcpa => is_closest_soon(leg, volume, point),
        Model::Taumod => is_modified_tau_soon(leg, volume, point),
        Model::Tep => is_entry_soon(leg, volume, point),
    }
}

/// `s.s + tthr (s.v)` at a time, times the square of the time's denominator. Where the distance
/// falls, tau is at most `tthr` if this is at most 0, and modified tau if it is at most `dthr^2`.
fn tau_sum(leg: &Leg, volume: &Volume, point: &Point) -> i128
    requires leg { IsLegInRange leg.now }
    requires volume { IsVolumeInRange volume.now }
    ensures { let place = place_at leg.now point.now.num point.now.den in
        result ≡ dot_of place place
        +ℤ pos volume.now.tthr *ℤ point.now.den *ℤ dot_of place leg.now.velocity.flat }
{
    let place = place_then(leg, point);
    square(&place) + scaled_threshold(volume.tthr, point) * dot(&place, &leg.velocity.flat)
}

/// Whether tau is at most `tthr`.
fn is_tau_soon(leg: &Leg, volume: &Volume, point: &Point) -> bool
    requires leg { IsLegInRange leg.now }
    requires volume { IsVolumeInRange volume.now }
    ensures { IsTrue result ↔ IsSoon Model.Tau leg.now volume.now point.now.num point.now.den }
{
    tau_sum(leg, volume, point) <= 0
}

/// Whether the time to the closest approach is at most `tthr`.
fn is_closest_soon(leg: &Leg, volume: &Volume, point: &Point) -> bool
    requires leg { IsLegInRange leg.now }
    requires volume { IsVolumeInRange volume.now }
    ensures { IsTrue result ↔ IsSoon Model.Tcpa leg.now volume.now point.now.num point.now.den }
{
    let place = place_then(leg, point);
    -dot(&place, &leg.velocity.flat)
        <= scaled_threshold(volume.tthr, point) * square(&leg.velocity.flat)
}

/// Whether modified tau is at most `tthr`.
fn is_modified_tau_soon(leg: &Leg, volume: &Volume, point: &Point) -> bool
    requires leg { IsLegInRange leg.now }
    requires volume { IsVolumeInRange volume.now }
    ensures { IsTrue result ↔ IsSoon Model.Taumod leg.now volume.now point.now.num point.now.den }
{
    tau_sum(leg, volume, point) <= scaled_square(volume.dthr, point)
}

/// Whether the time until the distance is `dthr` is at most `tthr`, on a line that comes within
/// `dthr`: `tthr` seconds later the distance falls no more, or is at most `dthr`.
fn is_entry_soon(leg: &Leg, volume: &Volume, point: &Point) -> bool
    requires leg { IsLegInRange leg.now }
    requires volume { IsVolumeInRange volume.now }
    ensures { IsTrue result ↔ IsSoon Model.Tep leg.now volume.now point.now.num point.now.den }
{
    falls_no_more(leg, volume, point) || is_near_later(leg, volume, point)
}

/// Whether the distance does not fall `tthr` seconds later.
fn falls_no_more(leg: &Leg, volume: &Volume, point: &Point) -> bool
    requires leg { IsLegInRange leg.now }
    requires volume { IsVolumeInRange volume.now }
    ensures { let later = point.now.num +ℤ pos volume.now.tthr *ℤ point.now.den in
        IsTrue result ↔ (pos 0
        ≤ℤ dot_of (place_at leg.now later point.now.den) leg.now.velocity.flat) }
{
    dot(&place_later(leg, volume.tthr, point), &leg.velocity.flat) >= 0
}

/// Whether the distance is at most `dthr` `tthr` seconds later.
fn is_near_later(leg: &Leg, volume: &Volume, point: &Point) -> bool
    requires leg { IsLegInRange leg.now }
    requires volume { IsVolumeInRange volume.now }
    ensures { let later = point.now.num +ℤ pos volume.now.tthr *ℤ point.now.den in
        IsTrue result ↔ IsNear leg.now volume.now later point.now.den }
{
    square(&place_later(leg, volume.tthr, point)) <= scaled_square(volume.dthr, point)
}

/// Whether the straight line comes within `dthr` at its closest approach; of what stands still it
/// is true. The answer is the same at every time of the leg.
fn passes_near(leg: &Leg, volume: &Volume) -> bool
    requires leg { IsLegInRange leg.now }
    requires volume { IsVolumeInRange volume.now }
    ensures { (n d : ℤ) → pos 1 ≤ℤ d → IsTrue result ↔ PassesNear leg.now volume.now n d }
{
    let miss = cross(&leg.place.flat, &leg.velocity.flat);
    let dthr = volume.dthr as i128;
    miss * miss <= dthr * dthr * square(&leg.velocity.flat)
}
