//! Which aircraft are near enough to be met at all, by their places now and the greatest speeds at
//! which they can near. An aircraft whose report may err, or the ownship's beside it, is taken to
//! be.

ghost use Rattle.std.specs.Prelude.{◌≡◌, ◌↔◌, ◌≤◌, ◌^◌, IsTrue, pos, ◌+ℤ◌, ◌*ℤ◌, ◌≤ℤ◌};
ghost use Rattle.daa_fixed.specs.Leg.{IsSolidBelow};
ghost use Rattle.daa_fixed.specs.Size.{IsWithin};
ghost use Rattle.daa_config.specs.Settings.{IsLevelInRange};
ghost use Rattle.daa_scan.specs.Reach.{size_of, place_now, horizontal_speed, vertical_speed, CanEnter, IsInReach};

use crate::encounter::Encounter;
use daa_config::{Kind, Level};
use daa_fixed::Solid;
use daa_legs::relative_from;
use daa_meet::are_exact;

/// Whether some level's volume can be entered within its lookahead, or what is reported may err.
pub(crate) fn is_in_reach(encounter: &Encounter) -> bool
    ensures { IsTrue result ↔ IsInReach encounter.now.config.now encounter.now.own.now
        encounter.now.aircraft.now }
{
    if !are_exact(&encounter.aircraft.bounds) {
        return true;
    }
    let place = place_at_present(encounter);
    let horizontal = greatest_horizontal_speed(encounter);
    let vertical = greatest_vertical_speed(encounter);
    for done in 0..encounter.config.levels() {
        if can_enter(
            encounter.config.level(done + 1),
            &place,
            horizontal,
            vertical,
        ) {
            return true;
        }
    }
    false
}

/// The ownship minus the aircraft now.
fn place_at_present(encounter: &Encounter) -> Solid
    ensures value { result ≡ place_now encounter.now.own.now encounter.now.aircraft.now }
    ensures size { IsSolidBelow 40000000 result }
{
    relative_from(encounter.hold, encounter.aircraft, &encounter.place, 0).place
}

/// A speed that no relative speed east or north exceeds.
fn greatest_horizontal_speed(encounter: &Encounter) -> i64
    ensures value { result ≡ horizontal_speed encounter.now.config.now encounter.now.own.now
        encounter.now.aircraft.now }
    ensures size { IsWithin (2 ^ 40) result }
{
    let aircraft = encounter.aircraft;
    let greatest = encounter
        .own
        .gs
        .max(encounter.config.greatest(Kind::GroundSpeed));
    i64::from(greatest) + 1 + size(aircraft.vx) + size(aircraft.vy)
}

/// A speed that no relative vertical speed exceeds.
fn greatest_vertical_speed(encounter: &Encounter) -> i64
    ensures value { result ≡ vertical_speed encounter.now.config.now encounter.now.own.now
        encounter.now.aircraft.now }
    ensures size { IsWithin (2 ^ 40) result }
{
    let config = encounter.config;
    let first = size(encounter.own.vs).max(size(config.least(Kind::VerticalSpeed)));
    let second = size(config.greatest(Kind::VerticalSpeed)).max(i64::from(config.alt_rate()));
    first.max(second) + size(encounter.aircraft.vs)
}

/// The number without its sign.
fn size(x: i32) -> i64
    ensures { result ≡ size_of x }
{
    i64::from(x).abs()
}

/// Whether what is at this place, and nears at no more than these speeds, can enter the level's
/// volume within its lookahead.
fn can_enter(level: &Level, place: &Solid, horizontal: i64, vertical: i64) -> bool
    requires level { IsLevelInRange level.now }
    requires place { IsSolidBelow 40000000 place.now }
    requires horizontal { IsWithin (2 ^ 40) horizontal }
    requires vertical { IsWithin (2 ^ 40) vertical }
    ensures { IsTrue result ↔ CanEnter level.now place.now horizontal vertical }
{
    let volume = &level.volume;
    let soon = volume.tthr + level.lookahead;
    let level_soon = volume.tcoa + level.lookahead;
    if !is_at_most(place.flat.east, volume.dthr, soon, horizontal) {
        return false;
    }
    if !is_at_most(place.flat.north, volume.dthr, soon, horizontal) {
        return false;
    }
    is_at_most(place.up, volume.zthr, level_soon, vertical)
}

/// Whether a coordinate is no farther off than `near` and the way of `secs` seconds at `speed`.
fn is_at_most(coordinate: i64, near: u32, secs: u32, speed: i64) -> bool
    requires coordinate { IsWithin (2 ^ 40) coordinate }
    requires secs { secs ≤ 300 }
    requires speed { IsWithin (2 ^ 40) speed }
    ensures { IsTrue result ↔ (size_of coordinate ≤ℤ (pos near +ℤ pos secs *ℤ speed)) }
{
    coordinate.abs() <= i64::from(near) + i64::from(secs) * speed
}
