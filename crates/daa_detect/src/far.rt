//! The box test: it finds legs too far away to need an exact test. What violates horizontally
//! comes within `dthr` in at most `tthr` seconds, so a leg that stays beyond `dthr` on one axis
//! until then violates at no time.

ghost use Rattle.std.specs.Prelude.{◌↔◌, ◌≤◌, ◌<ℤ◌, IsTrue};
ghost use Rattle.daa_fixed.specs.Leg.{IsLegInRange};
ghost use Rattle.daa_fixed.specs.Size.{IsWithin};
ghost use Rattle.daa_taumod.specs.Volume.{IsVolumeInRange};
ghost use Rattle.daa_detect.specs.Inside.Far.{IsBeyond, StaysBeyond, IsFar};

use daa_fixed::Leg;
use daa_taumod::Volume;

/// Whether the leg, flown on for `tthr` seconds, stays more than `dthr` off on one side. It takes
/// two products of 64 bits.
#[inline(always)]
pub(crate) fn is_far(leg: &Leg, volume: &Volume) -> bool
    requires leg { IsLegInRange leg.now }
    requires volume { IsVolumeInRange volume.now }
    ensures { IsTrue result ↔ IsFar leg.now volume.now }
{
    let secs = leg.secs + volume.tthr;
    stays_beyond(
        leg.place.flat.east,
        leg.velocity.flat.east,
        secs,
        volume.dthr,
    ) || stays_beyond(
        leg.place.flat.north,
        leg.velocity.flat.north,
        secs,
        volume.dthr,
    )
}

/// Whether what begins at `begin` and moves at `speed` stays more than `radius` off on one side for
/// `secs` seconds.
#[inline(always)]
fn stays_beyond(begin: i64, speed: i64, secs: u32, radius: u32) -> bool
    requires begin { IsWithin 40000000 begin }
    requires speed { IsWithin 40000 speed }
    requires secs { secs ≤ 300 }
    ensures { IsTrue result ↔ StaysBeyond begin speed secs radius }
{
    is_beyond(begin, begin + secs as i64 * speed, radius)
}

/// Whether both are more than `radius`, or both less than `-radius`.
#[inline(always)]
fn is_beyond(begin: i64, end: i64, radius: u32) -> bool
    ensures { IsTrue result ↔ IsBeyond begin end radius }
{
    let radius = radius as i64;
    are_above(begin, end, radius) || are_below(begin, end, -radius)
}

/// Whether both are more than `bound`: one comparison where two would be two branches.
#[inline(always)]
fn are_above(begin: i64, end: i64, bound: i64) -> bool
    ensures { IsTrue result ↔ ((bound <ℤ begin) × (bound <ℤ end)) }
{
    begin.min(end) > bound
}

/// Whether both are less than `bound`.
#[inline(always)]
fn are_below(begin: i64, end: i64, bound: i64) -> bool
    ensures { IsTrue result ↔ ((begin <ℤ bound) × (end <ℤ bound)) }
{
    begin.max(end) < bound
}
