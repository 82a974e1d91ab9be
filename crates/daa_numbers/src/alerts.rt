//! The alert of an aircraft.

ghost use Rattle.std.specs.Prelude.{◌≡◌, ◌≢◌, pos};
ghost use Rattle.daa_state.specs.InRange.{IsOwnInRange, IsTrafficInRange};
ghost use Rattle.daa_numbers.specs.Asked.{IsAlertUnder};
ghost use Rattle.daa_numbers.specs.Refusal.{refusal_of_two, IsCodeOf};
ghost use Rattle.daa_numbers.specs.Filled.{leg_by, IsFilledAlert};
ghost use Rattle.daa_numbers.specs.States.{traffic_of};

use crate::asking::config_for;
use crate::refusal::code;
use crate::setting::DaaConfig;
use crate::states::{DaaTraffic, checked_traffic};
use daa_alert::now_level;
use daa_config::Config;
use daa_state::{Own, Traffic};

/// The level of an aircraft now, its alert level, and the first second that alerts, or -1.
#[repr(C)]
#[derive(Clone, Copy)]
pub struct DaaAlert {
    pub now: u32,
    pub level: u32,
    pub first: i64,
}

/// A number of a leg, or -1 for none.
fn leg(first: Option<u32>) -> i64
    ensures { result ≡ leg_by first }
{
    match first {
        Some(k) => i64::from(k),
        None => -1,
    }
}

/// The alert of an aircraft.
fn alert_numbers(config: &Config, own: &Own, aircraft: &Traffic) -> DaaAlert
    requires own { IsOwnInRange own.now }
    requires aircraft { IsTrafficInRange aircraft.now }
    ensures { IsFilledAlert config.now own.now aircraft.now result }
{
    let alert = daa_alert::alert(config, own, aircraft);
    DaaAlert {
        now: u32::from(now_level(config, own, aircraft)),
        level: u32::from(alert.level),
        first: leg(alert.first),
    }
}

/// Fills in the level of an aircraft now, its alert level and the first second that alerts. Returns
/// 0, or the code of why nothing was filled in.
pub fn alert(config: &DaaConfig, own: &Own, traffic: &DaaTraffic, out: &mut DaaAlert) -> i32
    ensures filled { result ≡ pos 0
        → IsAlertUnder config.now own.now (traffic_of traffic.now) out.new }
    ensures kept { result ≢ pos 0 → out.new ≡ out.old }
    ensures refused { result ≢ pos 0
        → IsCodeOf (refusal_of_two config.now own.now traffic.now) result }
{
    let config = match config_for(config, own) {
        Ok(config) => config,
        Err(code) => return code,
    };
    let traffic = match checked_traffic(traffic) {
        Ok(traffic) => traffic,
        Err(refusal) => return code(refusal),
    };
    *out = alert_numbers(&config, own, &traffic);
    0
}
