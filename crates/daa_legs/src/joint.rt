//! Where single legs join.

ghost use Rattle.std.specs.Prelude.{◌≡◌};
ghost use Rattle.daa_fixed.specs.Leg.{plus};
ghost use Rattle.daa_legs.specs.OwnLeg.{IsOwnLegInRange};

use crate::flight::sum;
use crate::own_leg::OwnLeg;
use daa_fixed::Solid;

/// Where a leg ends.
pub fn end_of(leg: &OwnLeg) -> Solid
    requires { IsOwnLegInRange leg.now }
    ensures { result ≡ plus leg.now.place leg.now.velocity }
{
    sum(&leg.place, &leg.velocity)
}
