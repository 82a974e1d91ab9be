//! The volume as a whole.

ghost use Rattle.std.specs.Prelude.{◌↔◌, ◌≤◌, ◌≤ℤ◌, IsTrue, ℤ, pos};
ghost use Rattle.daa_fixed.specs.declared.Leg.{Leg};
ghost use Rattle.daa_fixed.specs.Leg.{IsLegInRange};
ghost use Rattle.daa_taumod.specs.declared.Model.{Model};
ghost use Rattle.daa_taumod.specs.declared.Volume.{Volume};
ghost use Rattle.daa_taumod.specs.Volume.{IsVolumeInRange, Violates, place_of, with_model};

use crate::Volume;
use crate::horizontal::violates_horizontally;
use crate::vertical::violates_vertically;
use daa_fixed::{Leg, Point};

/// Whether the leg violates the volume at that time: horizontally and vertically at once, each
/// bound inclusive. The time is any fraction in range; it need not be one of the leg's.
pub fn violates(leg: &Leg, volume: &Volume, point: &Point) -> bool
    requires leg { IsLegInRange leg.now }
    requires volume { IsVolumeInRange volume.now }
    ensures { IsTrue result ↔ Violates leg.now volume.now point.now.num point.now.den }
{
    violates_horizontally(leg, volume, point) && violates_vertically(leg, volume, point)
}

/// A law of the models: a violation by one of them is a violation by each later one, with equal
/// thresholds, in the order tau, time to the closest approach, modified tau, time to the entry
/// point. It is the theorem of inclusion of Munoz and others, A Family of Well-Clear Boundary
/// Models.
pub fn models_are_nested()
    ensures { (inner outer : Model) (leg : Leg) (volume : Volume) (n d : ℤ) →
        place_of inner ≤ place_of outer → pos 1 ≤ℤ d →
        Violates leg (with_model inner volume) n d
        → Violates leg (with_model outer volume) n d }
{}
