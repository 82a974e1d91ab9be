//! One straight leg, by cases: exact reports by the detector, all others by what they may err by.

ghost use Rattle.std.specs.Prelude.{◌↔◌, ◌≤◌, ◌<◌, IsTrue};
ghost use Rattle.daa_fixed.specs.Leg.{IsLegInRange};
ghost use Rattle.daa_fixed.specs.Time.{HoldsSometime};
ghost use Rattle.daa_taumod.specs.Volume.{IsVolumeInRange};
ghost use Rattle.daa_state.specs.InRange.{IsTrafficInRange};
ghost use Rattle.daa_legs.specs.Violating.{ViolatesBy};

use crate::errors::{are_exact, errors_on};
use daa_detect::is_hit;
use daa_fixed::Leg;
use daa_margin::is_met;
use daa_state::Traffic;
use daa_taumod::Volume;

/// Whether the volume may be violated at some time of a leg that begins at second `k`, counted from
/// the moment, as the aircraft sees it.
pub fn violates_on(leg: &Leg, volume: &Volume, aircraft: &Traffic, k: u32) -> bool
    requires leg { IsLegInRange leg.now }
    requires volume { IsVolumeInRange volume.now }
    requires aircraft { IsTrafficInRange aircraft.now }
    requires k { k < 180 }
    ensures { IsTrue result ↔ HoldsSometime leg.now.secs
        (ViolatesBy aircraft.now k leg.now volume.now) }
{
    if are_exact(&aircraft.bounds) {
        is_hit(leg, volume)
    } else {
        is_met(leg, volume, &errors_on(&aircraft.bounds, aircraft.age, k))
    }
}
