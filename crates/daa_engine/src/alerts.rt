//! What is found of the aircraft of a moment before it is written.

ghost use Rattle.std.specs.Prelude.{◌≡◌, length};
ghost use Rattle.daa_state.specs.InRange.{IsOwnInRange, IsPictureInRange, IsTrafficInRange};
ghost use Rattle.daa_state.specs.Picture.{aircraft_of};
ghost use Rattle.daa_engine.specs.Inside.Findings.{IsAircraftAlert, AreAircraftAlerts};

use arrayvec::ArrayVec;
use daa_alert::{Alert, alert, now_level};
use daa_config::Config;
use daa_state::{MOST_AIRCRAFT, Own, Picture, Traffic};

/// The level of an aircraft now, and its alert.
#[derive(Clone, Copy, Debug, Default)]
pub(crate) struct AircraftAlert {
    pub(crate) level_now: u8,
    pub(crate) alert: Alert,
}

/// What is found of each aircraft, in the order of the input.
pub(crate) fn find_alerts(
    config: &Config,
    picture: &Picture,
) -> ArrayVec<AircraftAlert, MOST_AIRCRAFT>
    requires { IsPictureInRange picture.now }
    ensures { AreAircraftAlerts config.now picture.now.own (aircraft_of picture.now)
        (length (aircraft_of picture.now)) result.items }
{
    let mut all = ArrayVec::new();
    for aircraft in picture.traffic.as_slice() {
        all.push(find_alert(config, &picture.own, aircraft));
    }
    all
}

/// What is found of an aircraft.
fn find_alert(config: &Config, own: &Own, aircraft: &Traffic) -> AircraftAlert
    requires own { IsOwnInRange own.now }
    requires aircraft { IsTrafficInRange aircraft.now }
    ensures { IsAircraftAlert config.now own.now aircraft.now result }
{
    AircraftAlert {
        level_now: now_level(config, own, aircraft),
        alert: alert(config, own, aircraft),
    }
}
