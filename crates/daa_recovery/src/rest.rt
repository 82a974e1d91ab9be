//! The straight rest of a candidate's flight.

ghost use Rattle.std.specs.Prelude.{◌≡◌, ◌≤◌, ◌-◌, pos, ◌+ℤ◌, ◌*ℤ◌};
ghost use Rattle.daa_fixed.specs.Leg.{IsSolidBelow, plus, times};
ghost use Rattle.daa_fixed.specs.Size.{IsWithin};

use daa_fixed::{Flat, Solid};

/// A flight from leg `from` on: there it is at this place, and it keeps this velocity.
#[derive(Clone, Copy)]
pub(crate) struct Rest {
    pub(crate) from: u32,
    pub(crate) place: Solid,
    pub(crate) velocity: Solid,
}

/// Where the rest is at the beginning of a leg.
pub(crate) fn place_at(rest: &Rest, k: u32) -> Solid
    requires place { IsSolidBelow 20000000 rest.now.place }
    requires velocity { IsSolidBelow 20000 rest.now.velocity }
    requires k { (rest.now.from ≤ k) × (k ≤ 180) }
    ensures { result ≡ plus rest.now.place (times (pos (k - rest.now.from)) rest.now.velocity) }
{
    let secs = k - rest.from;
    Solid {
        flat: Flat {
            east: coordinate_after(&rest.place.flat.east, &rest.velocity.flat.east, secs),
            north: coordinate_after(&rest.place.flat.north, &rest.velocity.flat.north, secs),
        },
        up: coordinate_after(&rest.place.up, &rest.velocity.up, secs),
    }
}

/// A coordinate after so many seconds.
fn coordinate_after(begin: &i64, speed: &i64, secs: u32) -> i64
    requires begin { IsWithin 20000000 begin.now }
    requires speed { IsWithin 20000 speed.now }
    requires secs { secs ≤ 400 }
    ensures { result ≡ begin.now +ℤ pos secs *ℤ speed.now }
{
    *begin + i64::from(secs) * *speed
}
