//! The ownship and one aircraft of a moment, and both at one level.

ghost use Rattle.std.specs.Prelude.{◌≡◌};
ghost use Rattle.daa_legs.specs.Relative.{traffic_place};
ghost use Rattle.daa_scan.specs.Inside.Encounter.{IsEncounter, IsRound};

use crate::refusal::Windows;
use crate::trunks::Trunks;
use daa_config::{Config, Level};
use daa_fixed::Solid;
use daa_legs::OwnLeg;
use daa_state::{Own, Traffic};

/// The ownship and an aircraft under a configuration. `hold` is the first leg of the present
/// flight: every other one has the same velocity, so that it is found once for all aircraft and
/// levels. `place` is where the aircraft is now, found once for all candidates.
#[derive(Clone, Copy)]
pub(crate) struct Encounter<'a> {
    pub(crate) config: &'a Config,
    pub(crate) own: &'a Own,
    pub(crate) aircraft: &'a Traffic,
    pub(crate) hold: &'a OwnLeg,
    pub(crate) place: Solid,
    ghost there: { place ≡ traffic_place aircraft.now 0 },
    ghost known: { IsEncounter config.now own.now aircraft.now hold.now },
}

/// An encounter at a level, which is level `l`, from 1 on.
#[derive(Clone, Copy)]
pub(crate) struct Round<'a> {
    pub(crate) encounter: Encounter<'a>,
    pub(crate) trunks: &'a Trunks<'a>,
    pub(crate) l: u32,
    pub(crate) level: Level,
    pub(crate) windows: Windows,
    /// Whether the level lies within the one before it.
    pub(crate) nested: bool,
    ghost known: { IsRound encounter.config.now encounter.own.now encounter.aircraft.now
        trunks.now l level windows nested },
}
