//! Worked times of the volume.

ghost use Rattle.std.specs.Prelude.{pos};
ghost use Rattle.daa_taumod.specs.Examples.{volume_of, touching, ahead, inside, below};
ghost use Rattle.daa_taumod.specs.Volume.{Violates, ViolatesHorizontally, ViolatesVertically};

use crate::Model;

/// Times whose violations were worked out by hand: a touch at exactly `dthr`, half a second off and
/// with a unit less; each model ten seconds ahead, where tau is 11.1 seconds, the closest approach
/// 10 seconds off, modified tau 6.7, and the entry point 4.3; co-altitude in exactly `tcoa` and a
/// second later.
pub fn worked_examples()
    ensures touch { Violates touching (volume_of 23760 27000 0 0 Model.Taumod) (pos 1) (pos 2) }
    ensures a_unit_less { ¬ ViolatesHorizontally touching (volume_of 23759 27000 0 0 Model.Taumod)
        (pos 1) (pos 2) }
    ensures before_the_touch { ¬ ViolatesHorizontally touching
        (volume_of 23760 27000 0 0 Model.Taumod) (pos 0) (pos 1) }
    ensures after_the_touch { ¬ ViolatesHorizontally touching
        (volume_of 23760 27000 35 0 Model.Taumod) (pos 1) (pos 1) }
    ensures touch_ahead { Violates ahead (volume_of 23760 27000 35 0 Model.Taumod) (pos 0) (pos 1) }
    ensures a_unit_less_ahead { ¬ ViolatesHorizontally ahead
        (volume_of 23759 27000 120 0 Model.Tcpa) (pos 0) (pos 1) }
    ensures soon_by_tau { ViolatesHorizontally inside (volume_of 23760 27000 12 0 Model.Tau)
        (pos 0) (pos 1) }
    ensures not_soon_by_tau { ¬ ViolatesHorizontally inside (volume_of 23760 27000 11 0 Model.Tau)
        (pos 0) (pos 1) }
    ensures soon_by_modified_tau { ViolatesHorizontally inside
        (volume_of 23760 27000 8 0 Model.Taumod) (pos 0) (pos 1) }
    ensures not_soon_by_modified_tau { ¬ ViolatesHorizontally inside
        (volume_of 23760 27000 6 0 Model.Taumod) (pos 0) (pos 1) }
    ensures not_soon_by_closest { ¬ ViolatesHorizontally inside
        (volume_of 23760 27000 8 0 Model.Tcpa) (pos 0) (pos 1) }
    ensures soon_by_closest { ViolatesHorizontally inside (volume_of 23760 27000 8 0 Model.Tcpa)
        (pos 2) (pos 1) }
    ensures soon_by_entry { ViolatesHorizontally inside (volume_of 23760 27000 5 0 Model.Tep)
        (pos 0) (pos 1) }
    ensures not_soon_by_entry { ¬ ViolatesHorizontally inside
        (volume_of 23760 27000 4 0 Model.Tep) (pos 0) (pos 1) }
    ensures co_altitude_in_thirty { ViolatesVertically below
        (volume_of 23760 27000 0 30 Model.Taumod) (pos 0) (pos 1) }
    ensures co_altitude_too_late { ¬ ViolatesVertically below
        (volume_of 23760 29999 0 29 Model.Taumod) (pos 0) (pos 1) }
{}
