//! Whether modified tau may be at most `tthr`.

ghost use Rattle.std.specs.Prelude.{◌≡◌, ◌↔◌, ◌≤ℤ◌, ◌*ℤ◌, ◌+ℤ◌, ◌^◌, ◌≤◌, ◌<◌};
ghost use Rattle.std.specs.Prelude.{IsTrue, pos, unsigned_abs};
ghost use Rattle.daa_fixed.specs.Flat.{IsShort, dot_of, square_of};
ghost use Rattle.daa_fixed.specs.Leg.{IsLegInRange};
ghost use Rattle.daa_fixed.specs.declared.Leg.{Leg};
ghost use Rattle.daa_fixed.specs.Size.{IsWithin};
ghost use Rattle.daa_taumod.specs.Volume.{IsVolumeInRange};
ghost use Rattle.daa_margin.specs.ErrorBounds.{AreErrorBoundsInRange};
ghost use Rattle.daa_margin.specs.declared.ErrorBounds.{ErrorBounds};
ghost use Rattle.daa_margin.specs.MayViolate.{IsRootAbove, MayBeSoon, MayBeSoonBy};
ghost use Rattle.daa_margin.specs.MayViolate.{square_within};
ghost use Rattle.daa_margin.specs.MayViolate.{twice_middle_at, twice_middle_error_at};

use crate::ErrorBounds;
use crate::moment::{Moment, moved};
use crate::near::place_then;
use crate::root::root_above;
use daa_fixed::{Flat, Leg, square};
use daa_taumod::{Model, Volume};

/// Whether what comes near within `tthr` seconds counts as soon by the volume's model.
pub(crate) fn may_be_soon_by(
    leg: &Leg,
    volume: &Volume,
    bounds: &ErrorBounds,
    moment: &Moment,
) -> bool
    requires leg { IsLegInRange leg.now }
    requires volume { IsVolumeInRange volume.now }
    requires bounds { AreErrorBoundsInRange bounds.now }
    ensures { IsTrue result ↔ MayBeSoonBy leg.now volume.now bounds.now volume.now.model
        moment.now.num moment.now.den }
{
    match volume.model {
        Model::Tau | Model::Tcpa | Model::Taumod => may_be_soon(leg, volume, bounds, moment),
        Model::Tep => true,
    }
}

/// Whether modified tau may be at most `tthr`.
fn may_be_soon(leg: &Leg, volume: &Volume, bounds: &ErrorBounds, moment: &Moment) -> bool
    requires leg { IsLegInRange leg.now }
    requires volume { IsVolumeInRange volume.now }
    requires bounds { AreErrorBoundsInRange bounds.now }
    ensures { IsTrue result
        ↔ MayBeSoon leg.now volume.now bounds.now moment.now.num moment.now.den }
{
    let within = square_within(leg, volume, bounds, speed_above(leg));
    let reach = root_above(within);
    let error = twice_middle_error(volume, bounds, moment);
    square(&twice_middle(leg, volume, moment)) <= room(moment.den, within, reach, error)
}

/// The square of the reach at a time, and the error's share, times the square of the denominator.
fn room(den: i64, within: i64, reach: i64, error: i64) -> i128
    requires den { IsWithin (2 ^ 33) den }
    requires within { IsWithin (2 ^ 48) within }
    requires reach { IsWithin (2 ^ 25) reach }
    requires error { IsWithin (2 ^ 60) error }
    ensures { result ≡ square_of den *ℤ within +ℤ pos 2 *ℤ (den *ℤ reach) *ℤ error
        +ℤ square_of error }
{
    let (d, e) = (den as i128, error as i128);
    d * d * within as i128 + 2 * (d * reach as i128) * e + e * e
}

/// The reported speed, rounded up.
fn speed_above(leg: &Leg) -> i64
    requires { IsLegInRange leg.now }
    ensures root { IsRootAbove (dot_of leg.now.velocity.flat leg.now.velocity.flat) result }
    ensures size { IsWithin 60000 result }
{
    root_above(speed_squared(leg))
}

/// The square of the reported speed.
fn speed_squared(leg: &Leg) -> i64
    requires { IsLegInRange leg.now }
    ensures { result ≡ dot_of leg.now.velocity.flat leg.now.velocity.flat }
{
    let v = &leg.velocity.flat;
    v.east * v.east + v.north * v.north
}

/// The square within which twice the place in the middle of the next `tthr` seconds is in truth,
/// where modified tau is at most `tthr`.
fn square_within(leg: &Leg, volume: &Volume, bounds: &ErrorBounds, speed: i64) -> i64
    requires leg { IsLegInRange leg.now }
    requires volume { IsVolumeInRange volume.now }
    requires bounds { AreErrorBoundsInRange bounds.now }
    requires not_negative { pos 0 ≤ℤ speed }
    requires speed { IsWithin 60000 speed }
    ensures value { result ≡ square_within leg.now volume.now bounds.now speed }
    ensures not_negative { pos 0 ≤ℤ result }
    ensures size { IsWithin (2 ^ 48) result }
{
    let near = volume.dthr as i64;
    let secs = volume.tthr as i64;
    4 * (near * near) + secs * secs * true_square(leg, bounds, speed)
}

/// The most that the square of the true speed can be.
fn true_square(leg: &Leg, bounds: &ErrorBounds, speed: i64) -> i64
    requires leg { IsLegInRange leg.now }
    requires bounds { AreErrorBoundsInRange bounds.now }
    requires speed { IsWithin 60000 speed }
    ensures value { result ≡ dot_of leg.now.velocity.flat leg.now.velocity.flat
        +ℤ pos 2 *ℤ speed *ℤ pos bounds.now.speed +ℤ square_of (pos bounds.now.speed) }
    ensures size { IsWithin 8000000000 result }
{
    let error = bounds.speed as i64;
    speed_squared(leg) + 2 * speed * error + error * error
}

/// Twice the place in the middle of the next `tthr` seconds, times the time's denominator.
fn twice_middle(leg: &Leg, volume: &Volume, moment: &Moment) -> Flat
    requires leg { IsLegInRange leg.now }
    requires volume { IsVolumeInRange volume.now }
    ensures value { (bounds : ErrorBounds) →
        result ≡ twice_middle_at leg.now volume.now bounds moment.now.num moment.now.den }
    ensures short { IsShort result }
{
    Flat {
        east: middle_moved(
            leg.place.flat.east,
            leg.velocity.flat.east,
            volume.tthr,
            moment,
        ),
        north: middle_moved(
            leg.place.flat.north,
            leg.velocity.flat.north,
            volume.tthr,
            moment,
        ),
    }
}

/// Twice the greatest error of that place, times the time's denominator.
fn twice_middle_error(volume: &Volume, bounds: &ErrorBounds, moment: &Moment) -> i64
    requires volume { IsVolumeInRange volume.now }
    requires bounds { AreErrorBoundsInRange bounds.now }
    ensures value { (leg : Leg) → result
        ≡ twice_middle_error_at leg volume.now bounds.now moment.now.num moment.now.den }
    ensures size { IsWithin (2 ^ 60) result }
{
    middle_moved(
        bounds.place as i64,
        bounds.speed as i64,
        volume.tthr,
        moment,
    )
}

/// Twice what begins at `begin` and moves at `speed`, `secs / 2` seconds after the time, times the
/// time's denominator.
fn middle_moved(begin: i64, speed: i64, secs: u32, moment: &Moment) -> i64
    requires begin { IsWithin 40000000 begin }
    requires speed { IsWithin 40000 speed }
    requires secs { secs ≤ 120 }
    ensures value { result ≡ pos 2 *ℤ (moment.now.den *ℤ begin +ℤ moment.now.num *ℤ speed)
        +ℤ pos secs *ℤ moment.now.den *ℤ speed }
    ensures size { unsigned_abs result < 2 ^ 60 }
{
    2 * moved(begin, speed, moment) + secs as i64 * moment.den * speed
}
