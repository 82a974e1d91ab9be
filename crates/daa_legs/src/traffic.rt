//! Where an aircraft is, second by second: it flies straight on from its report.

ghost use Rattle.std.specs.Prelude.{◌≡◌, ◌<◌, pos, negsuc, ◌*ℤ◌, ◌+ℤ◌};
ghost use Rattle.daa_fixed.specs.Size.{IsFrom, IsWithin};
ghost use Rattle.daa_fixed.specs.Leg.{IsSolidBelow};
ghost use Rattle.daa_state.specs.InRange.{IsTrafficInRange};
ghost use Rattle.daa_legs.specs.Relative.{traffic_place, traffic_velocity};

use daa_fixed::{Flat, Solid, feet, mils};
use daa_state::Traffic;

/// The aircraft's velocity, in units per second.
pub(crate) fn velocity_of(aircraft: &Traffic) -> Solid
    requires { IsTrafficInRange aircraft.now }
    ensures value { result ≡ traffic_velocity aircraft.now }
    ensures size { IsSolidBelow 20000 result }
{
    Solid {
        flat: Flat {
            east: i64::from(aircraft.vx),
            north: i64::from(aircraft.vy),
        },
        up: i64::from(aircraft.vs),
    }
}

/// Where the aircraft is now: 36 units are a thousandth of a nautical mile, 60 are a foot.
pub fn traffic_now(aircraft: &Traffic) -> Solid
    requires { IsTrafficInRange aircraft.now }
    ensures { result ≡ traffic_place aircraft.now 0 }
{
    Solid {
        flat: Flat {
            east: coordinate_after(mils(aircraft.x), aircraft.vx, aircraft.age),
            north: coordinate_after(mils(aircraft.y), aircraft.vy, aircraft.age),
        },
        up: coordinate_after(feet(aircraft.alt), aircraft.vs, aircraft.age),
    }
}

/// The aircraft's place at second `k`, in units, from its place now.
pub(crate) fn place_from(aircraft: &Traffic, now: &Solid, k: u32) -> Solid
    requires aircraft { IsTrafficInRange aircraft.now }
    requires now { now.now ≡ traffic_place aircraft.now 0 }
    requires k { k < 180 }
    ensures value { result ≡ traffic_place aircraft.now k }
    ensures size { IsSolidBelow 20000000 result }
{
    Solid {
        flat: Flat {
            east: coordinate_after(now.flat.east, aircraft.vx, k),
            north: coordinate_after(now.flat.north, aircraft.vy, k),
        },
        up: coordinate_after(now.up, aircraft.vs, k),
    }
}

/// A coordinate after `secs` seconds.
fn coordinate_after(begin: i64, speed: i32, secs: u32) -> i64
    requires begin { IsWithin 7800000 begin }
    requires speed { IsWithin 10000 speed }
    requires secs { secs < 400 }
    ensures value { result ≡ begin +ℤ pos secs *ℤ speed }
    ensures size { IsWithin 11790000 result }
{
    begin + i64::from(secs) * i64::from(speed)
}
