//! The level that is violated now.

ghost use Rattle.std.specs.Prelude.{◌≡◌};
ghost use Rattle.daa_fixed.specs.Leg.{IsLegInRange};
ghost use Rattle.daa_state.specs.InRange.{IsOwnInRange, IsTrafficInRange};
ghost use Rattle.daa_legs.specs.Alerts.{IsNowLevel};
ghost use Rattle.daa_legs.specs.Meeting.{relative_leg};

use daa_config::{Candidate, Config};
use daa_fixed::Leg;
use daa_legs::{present_leg, relative};
use daa_meet::violates_now;
use daa_state::{Own, Traffic};

/// The greatest level whose volume is violated now, at the beginning of the present flight, or 0
/// where none is. Levels need not nest: a lower one may be clear.
pub fn now_level(config: &Config, own: &Own, aircraft: &Traffic) -> u8
    requires own { IsOwnInRange own.now }
    requires aircraft { IsTrafficInRange aircraft.now }
    ensures { IsNowLevel config.now own.now aircraft.now result }
{
    let leg = first_second(config, own, aircraft);
    let mut l = config.levels();
    while l > 0 {
        if violates_now(&leg, &config.level(l).volume, aircraft) {
            return l as u8;
        }
        l -= 1;
    }
    0
}

/// The first second of the present flight, as the aircraft sees it.
fn first_second(config: &Config, own: &Own, aircraft: &Traffic) -> Leg
    requires own { IsOwnInRange own.now }
    requires aircraft { IsTrafficInRange aircraft.now }
    ensures value { result ≡ relative_leg config.now own.now Candidate.Hold aircraft.now 0 }
    ensures in_range { IsLegInRange result }
{
    relative(&present_leg(own, config), aircraft, 0)
}
