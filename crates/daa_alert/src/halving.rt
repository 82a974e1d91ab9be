//! The first leg of the present flight that violates a level's volume. That flight is straight, so
//! that any number of its seconds is one leg, and the number of seconds within which it violates
//! the volume is found by halving.

ghost use Rattle.std.specs.Prelude.{◌≡◌, ◌↔◌, ◌<◌, ◌≤◌, IsTrue, MatchOption, length};
ghost use Rattle.daa_taumod.specs.Volume.{IsVolumeInRange};
ghost use Rattle.daa_state.specs.InRange.{IsOwnInRange, IsTrafficInRange};
ghost use Rattle.daa_legs.specs.Meeting.{MeetsWithin};
ghost use Rattle.daa_legs.specs.Alerts.{Alerts, IsFirstLeg};
ghost use Rattle.daa_legs.specs.OwnLeg.{own_leg, IsOwnLegInRange};
ghost use Rattle.daa_config.specs.Settings.{rates_of};
ghost use Rattle.daa_alert.specs.Inside.Halving.{IsLeastLeg};

use daa_config::{Candidate, Config};
use daa_legs::{OwnLeg, OwnRun, present_leg};
use daa_meet::meets_on_run;
use daa_state::{Own, Traffic};
use daa_taumod::Volume;

/// Whether the present flight, which has this first leg, violates a level's volume within the
/// level's alert time. Levels are numbered from 1.
pub(crate) fn alerts_at(
    config: &Config,
    own: &Own,
    hold: &OwnLeg,
    aircraft: &Traffic,
    level: u32,
) -> bool
    requires aircraft { IsTrafficInRange aircraft.now }
    requires hold { hold.now ≡ own_leg own.now (rates_of config.now) Candidate.Hold 0 }
    requires in_range { IsOwnLegInRange hold.now }
    requires numbered { 1 ≤ level }
    requires there { level ≤ length config.now.levels }
    ensures { IsTrue result ↔ Alerts config.now own.now aircraft.now level }
{
    let level = config.level(level);
    meets_within(config, own, hold, aircraft, &level.volume, level.alert)
}

/// The least leg of the present flight, below level `level`'s alert time, on which the level's
/// volume is violated at some time; `None` exactly where there is none. Levels are numbered from 1.
pub fn first_leg(config: &Config, own: &Own, aircraft: &Traffic, level: u32) -> Option<u32>
    requires own { IsOwnInRange own.now }
    requires aircraft { IsTrafficInRange aircraft.now }
    requires numbered { 1 ≤ level }
    requires there { level ≤ length config.now.levels }
    ensures { MatchOption result
        (¬ Alerts config.now own.now aircraft.now level)
        (IsFirstLeg config.now own.now aircraft.now level) }
{
    let hold = present_leg(own, config);
    let level = config.level(level);
    if !meets_within(config, own, &hold, aircraft, &level.volume, level.alert) {
        return None;
    }
    Some(least_leg(config, own, &hold, aircraft, &level.volume, level.alert))
}

/// Whether the present flight, which has this first leg, violates the volume within `m` seconds, as
/// one leg.
fn meets_within(
    config: &Config,
    own: &Own,
    hold: &OwnLeg,
    aircraft: &Traffic,
    volume: &Volume,
    m: u32,
) -> bool
    requires aircraft { IsTrafficInRange aircraft.now }
    requires hold { hold.now ≡ own_leg own.now (rates_of config.now) Candidate.Hold 0 }
    requires in_range { IsOwnLegInRange hold.now }
    requires volume { IsVolumeInRange volume.now }
    requires some { 1 ≤ m }
    requires short { m ≤ 180 }
    ensures { IsTrue result
        ↔ MeetsWithin config.now own.now Candidate.Hold aircraft.now volume.now m }
{
    let run = OwnRun {
        place: hold.place,
        velocity: hold.velocity,
        secs: m,
    };
    meets_on_run(&run, aircraft, volume, 0)
}

/// The least leg of the present flight that violates the volume, where some leg below `m` does.
fn least_leg(
    config: &Config,
    own: &Own,
    hold: &OwnLeg,
    aircraft: &Traffic,
    volume: &Volume,
    m: u32,
) -> u32
    requires aircraft { IsTrafficInRange aircraft.now }
    requires hold { hold.now ≡ own_leg own.now (rates_of config.now) Candidate.Hold 0 }
    requires in_range { IsOwnLegInRange hold.now }
    requires volume { IsVolumeInRange volume.now }
    requires short { m ≤ 180 }
    requires there { MeetsWithin config.now own.now Candidate.Hold aircraft.now volume.now m }
    ensures below { result < m }
    ensures least { IsLeastLeg config.now own.now aircraft.now volume.now result }
{
    let mut low = 0;
    let mut high = m;
    while high - low > 1 {
        let middle = low + (high - low) / 2;
        if meets_within(config, own, hold, aircraft, volume, middle) {
            high = middle;
        } else {
            low = middle;
        }
    }
    low
}
