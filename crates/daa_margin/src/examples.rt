//! Worked times of the volume where errors have bounds.

ghost use Rattle.std.specs.Prelude.{pos};
ghost use Rattle.daa_taumod.specs.Examples.{volume_of, below};
ghost use Rattle.daa_margin.specs.Examples.{bounds_of, beside, standing, ahead_by};
ghost use Rattle.daa_margin.specs.MayViolate.{MayBeNear, MayBeNearInHeight, MayBeSoon};
ghost use Rattle.daa_margin.specs.MayViolate.{MayViolate, MayViolateHorizontally};
ghost use Rattle.daa_margin.specs.MayViolate.{MayViolateVertically};

use daa_taumod::Model;

/// Times that were worked out by hand: a closest approach 1000 units beyond `dthr`, with an error
/// of the place of 1000 and of 999; the same distance without motion, where an error of 500 a
/// second in the velocity has grown to it after two seconds, so that a second before the entry
/// point may be a second off, but modified tau not; an aircraft straight ahead, where modified
/// tau is exactly `tthr` at 64800 units, and so with an error of 1000 at 65800, and with one of
/// 100 a second at 66243; a height of 30000, where `zthr` lacks 3000; and co-altitude in 30
/// seconds, which with an error of 1000, or of 200 a second, may be 29 or 25 seconds off.
pub fn worked_examples()
    ensures place { MayViolate beside (volume_of 23760 27000 0 0 Model.Taumod)
        (bounds_of 1000 0 0 0) (pos 1) (pos 2) }
    ensures place_a_unit_less { ¬ MayBeNear beside (volume_of 23760 27000 0 0 Model.Taumod)
        (bounds_of 999 0 0 0) (pos 1) (pos 2) }
    ensures grown { MayBeNear standing (volume_of 23760 27000 1 0 Model.Tep)
        (bounds_of 0 500 0 0) (pos 2) (pos 1) }
    ensures not_grown_yet { ¬ MayBeNear standing (volume_of 23760 27000 1 0 Model.Tep)
        (bounds_of 0 500 0 0) (pos 1) (pos 1) }
    ensures soon_by_entry { MayViolateHorizontally standing (volume_of 23760 27000 1 0 Model.Tep)
        (bounds_of 0 500 0 0) (pos 1) (pos 1) }
    ensures not_soon_by_modified_tau { ¬ MayBeSoon standing
        (volume_of 23760 27000 1 0 Model.Taumod) (bounds_of 0 500 0 0) (pos 1) (pos 1) }
    ensures ahead { MayViolate (ahead_by 65800) (volume_of 21600 27000 16 0 Model.Taumod)
        (bounds_of 1000 0 0 0) (pos 0) (pos 1) }
    ensures ahead_a_unit_less { ¬ MayBeSoon (ahead_by 65800)
        (volume_of 21600 27000 16 0 Model.Taumod) (bounds_of 999 0 0 0) (pos 0) (pos 1) }
    ensures ahead_by_speed { MayViolate (ahead_by 66243)
        (volume_of 21600 27000 16 0 Model.Taumod) (bounds_of 0 100 0 0) (pos 0) (pos 1) }
    ensures ahead_by_speed_a_unit_more { ¬ MayBeSoon (ahead_by 66244)
        (volume_of 21600 27000 16 0 Model.Taumod) (bounds_of 0 100 0 0) (pos 0) (pos 1) }
    ensures height { MayViolateVertically below (volume_of 23760 27000 0 0 Model.Taumod)
        (bounds_of 0 0 3000 0) (pos 0) (pos 1) }
    ensures height_a_unit_less { ¬ MayBeNearInHeight below
        (volume_of 23760 27000 0 0 Model.Taumod) (bounds_of 0 0 2999 0) (pos 0) (pos 1) }
    ensures co_altitude_by_height { MayViolateVertically below
        (volume_of 23760 0 0 29 Model.Taumod) (bounds_of 0 0 1000 0) (pos 0) (pos 1) }
    ensures co_altitude_by_climb { MayViolateVertically below
        (volume_of 23760 0 0 25 Model.Taumod) (bounds_of 0 0 0 200) (pos 0) (pos 1) }
{}
