//! The alert of an aircraft.

ghost use Rattle.std.specs.Prelude.{◌≡◌, MatchOption};
ghost use Rattle.daa_state.specs.InRange.{IsOwnInRange, IsTrafficInRange};
ghost use Rattle.daa_legs.specs.Alerts.{IsAlertLevel, IsFirstLeg};
ghost use Rattle.daa_alert.specs.Alert.{IsAlertOf};

use crate::aircraft_alert::Alert;
use crate::halving::{alerts_at, first_leg};
use daa_config::Config;
use daa_legs::present_leg;
use daa_state::{Own, Traffic};

/// The greatest level whose volume the present flight violates within that level's alert time, with
/// its first leg; level 0 and no leg where it violates none. Levels need not nest: a lower one may
/// be clear.
pub fn alert(config: &Config, own: &Own, aircraft: &Traffic) -> Alert
    requires own { IsOwnInRange own.now }
    requires aircraft { IsTrafficInRange aircraft.now }
    ensures { IsAlertOf config.now own.now aircraft.now result }
{
    let level = alert_level(config, own, aircraft);
    Alert {
        level,
        first: leg_of(config, own, aircraft, level),
    }
}

/// The level of an aircraft's alert, without its first leg, which takes longer to find: the
/// greatest level whose volume the present flight violates within that level's alert time, or 0.
pub fn alert_level(config: &Config, own: &Own, aircraft: &Traffic) -> u8
    requires own { IsOwnInRange own.now }
    requires aircraft { IsTrafficInRange aircraft.now }
    ensures { IsAlertLevel config.now own.now aircraft.now result }
{
    let hold = present_leg(own, config);
    let mut l = config.levels();
    while l > 0 {
        if alerts_at(config, own, &hold, aircraft, l) {
            return l as u8;
        }
        l -= 1;
    }
    0
}

/// The first leg of an alert of this level, if it is not level 0.
fn leg_of(config: &Config, own: &Own, aircraft: &Traffic, level: u8) -> Option<u32>
    requires own { IsOwnInRange own.now }
    requires aircraft { IsTrafficInRange aircraft.now }
    requires level { IsAlertLevel config.now own.now aircraft.now level }
    ensures { MatchOption result (level ≡ 0)
        (IsFirstLeg config.now own.now aircraft.now level) }
{
    if level == 0 {
        return None;
    }
    first_leg(config, own, aircraft, u32::from(level))
}
