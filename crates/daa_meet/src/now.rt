//! The beginning of the present flight, which is the moment itself.

ghost use Rattle.std.specs.Prelude.{◌↔◌, IsTrue, pos};
ghost use Rattle.daa_fixed.specs.Leg.{IsLegInRange};
ghost use Rattle.daa_taumod.specs.Volume.{IsVolumeInRange};
ghost use Rattle.daa_state.specs.InRange.{IsTrafficInRange};
ghost use Rattle.daa_legs.specs.Violating.{ViolatesBy};

use crate::errors::{are_exact, errors_on};
use daa_fixed::{Leg, Point};
use daa_margin::may_violate;
use daa_state::Traffic;
use daa_taumod::{Volume, violates};

/// Whether the volume may be violated at the beginning of a leg that begins at the moment, as the
/// aircraft sees it.
pub fn violates_now(leg: &Leg, volume: &Volume, aircraft: &Traffic) -> bool
    requires leg { IsLegInRange leg.now }
    requires volume { IsVolumeInRange volume.now }
    requires aircraft { IsTrafficInRange aircraft.now }
    ensures { IsTrue result ↔ ViolatesBy aircraft.now 0 leg.now volume.now (pos 0) (pos 1) }
{
    let begin = Point { num: 0, den: 1 };
    if are_exact(&aircraft.bounds) {
        violates(leg, volume, &begin)
    } else {
        may_violate(
            leg,
            volume,
            &errors_on(&aircraft.bounds, aircraft.age, 0),
            &begin,
        )
    }
}
