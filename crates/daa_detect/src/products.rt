//! The products of a leg's place and velocity that its motion is made of.

ghost use Rattle.std.specs.Prelude.{◌≡◌, ◌≤◌, ◌^◌, ◌*ℤ◌, ◌-ℤ◌, pos};
ghost use Rattle.daa_fixed.specs.Flat.{dot_of, cross_of, square_of};
ghost use Rattle.daa_fixed.specs.Leg.{IsLegInRange};
ghost use Rattle.daa_fixed.specs.Size.{IsWithin};
ghost use Rattle.daa_taumod.specs.Volume.{IsVolumeInRange};
ghost use Rattle.daa_detect.specs.Inside.Motion.{IsMotion};

use crate::motion::Motion;
use daa_fixed::Leg;
use daa_taumod::Volume;

/// The motion of the leg: seven products of 64 bits and two of 128.
pub(crate) fn motion_of(leg: &Leg, volume: &Volume) -> Motion
    requires leg { IsLegInRange leg.now }
    requires volume { IsVolumeInRange volume.now }
    ensures { IsMotion leg.now volume.now result }
{
    let speed_squared = speed_squared(leg);
    Motion {
        speed_squared,
        rate: rate(leg),
        margin: margin(volume.dthr, speed_squared, miss(leg)),
    }
}

/// The square of the speed, `v.v`.
fn speed_squared(leg: &Leg) -> i64
    requires { IsLegInRange leg.now }
    ensures { result ≡ dot_of leg.now.velocity.flat leg.now.velocity.flat }
{
    let v = &leg.velocity.flat;
    v.east * v.east + v.north * v.north
}

/// How fast the distance grows at the leg's beginning, times the distance: `s.v`.
fn rate(leg: &Leg) -> i64
    requires { IsLegInRange leg.now }
    ensures { result ≡ dot_of leg.now.place.flat leg.now.velocity.flat }
{
    let s = &leg.place.flat;
    let v = &leg.velocity.flat;
    s.east * v.east + s.north * v.north
}

/// The distance at the closest approach of the straight line, times the speed, with a sign for the
/// side: `s x v`.
pub(crate) fn miss(leg: &Leg) -> i64
    requires { IsLegInRange leg.now }
    ensures { result ≡ cross_of leg.now.place.flat leg.now.velocity.flat }
{
    let s = &leg.place.flat;
    let v = &leg.velocity.flat;
    s.east * v.north - s.north * v.east
}

/// The square of `dthr` times the square of the speed, less the square of the miss.
fn margin(dthr: u32, speed_squared: i64, miss: i64) -> i128
    requires dthr { dthr ≤ 360000 }
    requires speed { IsWithin 3200000000 speed_squared }
    requires miss { IsWithin 3200000000000 miss }
    ensures value { result ≡ square_of (pos dthr) *ℤ speed_squared -ℤ square_of miss }
    ensures size { IsWithin (2 ^ 84) result }
{
    let dthr = dthr as i64;
    (dthr * dthr) as i128 * speed_squared as i128 - miss as i128 * miss as i128
}
