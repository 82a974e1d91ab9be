//! The kinds of which some candidate may meet an aircraft in reach: the flights of the others are
//! not needed.

ghost use Rattle.std.specs.Prelude.{◌≡◌, ◌≤◌, ℕ, IsTrue, Some, false, length, slice_get};
ghost use Rattle.daa_config.specs.Candidates.{candidates_of};
ghost use Rattle.daa_config.specs.Settings.{IsLevelInRange};
ghost use Rattle.daa_config.specs.declared.kind.Kind.{Kind};
ghost use Rattle.daa_state.specs.InRange.{IsPictureInRange};
ghost use Rattle.daa_state.specs.Picture.{aircraft_of};
ghost use Rattle.daa_state.specs.declared.word.Traffic.{Traffic};
ghost use Rattle.daa_scan.specs.Reach.{IsInReach};
ghost use Rattle.daa_scan.specs.Trunks.{is_needed, AreIdle, AreFlightsOf};
ghost use Rattle.daa_scan.specs.Inside.Needs.{NeedsMore, IsIdleAt};
ghost use Rattle.daa_scan.specs.Inside.Encounter.{IsEncounter};

use crate::encounter::Encounter;
use crate::reach::is_in_reach;
use crate::refusal::{Seconds, present_run, windows_at};
use crate::table::fill_branches;
use crate::trunks::fill_trunks;
use daa_config::{Config, Kind, Level};
use daa_legs::{Branch, OwnLeg, Trunk, present_leg, traffic_now};
use daa_state::{Own, Picture, Traffic};

/// Whether the flights of those kinds are needed that keep the present heights, and of those that
/// keep the present way over ground.
#[derive(Clone, Copy, Debug)]
pub struct Needs {
    /// Of tracks and ground speeds.
    pub(crate) turns: bool,
    /// Of vertical speeds and altitudes.
    pub(crate) climbs: bool,
}

impl Needs {
    /// Whether the flights of a kind are needed.
    pub(crate) fn has(&self, kind: Kind) -> bool
        ensures { result ≡ is_needed self.now kind }
    {
        match kind {
            Kind::Track => self.turns,
            Kind::GroundSpeed => self.turns,
            Kind::VerticalSpeed => self.climbs,
            Kind::Altitude => self.climbs,
        }
    }

    /// Whether the flights of every kind are needed.
    fn has_all(&self) -> bool
        ensures { IsTrue result → (kind : Kind) → IsTrue (is_needed self.now kind) }
    {
        self.turns && self.climbs
    }
}

/// Keeps the flights that lead on the sides of each kind and the candidates' branches, where some
/// aircraft in reach may be met. There is room for them.
pub fn fill_flights(
    trunks: &mut [Trunk],
    branches: &mut [Branch],
    config: &Config,
    picture: &Picture,
) -> Needs
    requires picture { IsPictureInRange picture.now }
    requires trunks { length trunks.old ≡ 8 }
    requires branches { length (candidates_of config.now) ≤ length branches.old }
    ensures flights { AreFlightsOf config.now picture.now result trunks.new branches.new }
    ensures trunks { length trunks.new ≡ 8 }
    ensures branches { length branches.new ≡ length branches.old }
{
    let needs = needs_of(config, picture);
    fill_trunks(trunks, &picture.own, config, &needs);
    fill_branches(branches, &picture.own, config, &needs);
    needs
}

/// The kinds of which some candidate may meet an aircraft in reach.
fn needs_of(config: &Config, picture: &Picture) -> Needs
    requires picture { IsPictureInRange picture.now }
    ensures { (at : ℕ) (aircraft : Traffic) → slice_get (aircraft_of picture.now) at ≡ Some aircraft
        → IsInReach config.now picture.now.own aircraft
        → AreIdle config.now picture.now.own aircraft result }
{
    let hold = present_leg(&picture.own, config);
    let mut needs = Needs {
        turns: false,
        climbs: false,
    };
    for place in 0..picture.traffic.len() as u32 {
        needs = with_aircraft(
            needs,
            config,
            &picture.own,
            &hold,
            &picture.traffic[place as usize],
        );
    }
    needs
}

/// With those of which some candidate may meet the aircraft, if it is in reach.
fn with_aircraft(
    needs: Needs,
    config: &Config,
    own: &Own,
    hold: &OwnLeg,
    aircraft: &Traffic,
) -> Needs
    requires { IsEncounter config.now own.now aircraft.now hold.now }
    ensures more { NeedsMore needs result }
    ensures idle { IsInReach config.now own.now aircraft.now
        → AreIdle config.now own.now aircraft.now result }
{
    if needs.has_all() {
        return needs;
    }
    let encounter = Encounter {
        config,
        own,
        aircraft,
        hold,
        place: traffic_now(aircraft),
    };
    if !is_in_reach(&encounter) {
        return needs;
    }
    with_levels(needs, &encounter)
}

/// With those of which some candidate may meet the aircraft at some level.
fn with_levels(needs: Needs, encounter: &Encounter) -> Needs
    ensures more { NeedsMore needs result }
    ensures idle { AreIdle encounter.now.config.now encounter.now.own.now
        encounter.now.aircraft.now result }
{
    let mut all = needs;
    for done in 0..encounter.config.levels() {
        all = needed_at(all, encounter, encounter.config.level(done + 1));
    }
    all
}

/// With those of which some candidate may meet the aircraft at the level.
fn needed_at(needs: Needs, encounter: &Encounter, level: &Level) -> Needs
    requires level { IsLevelInRange level.now }
    ensures more { NeedsMore needs result }
    ensures idle { IsIdleAt encounter.now.config.now encounter.now.own.now
        encounter.now.aircraft.now level.now result }
{
    let present = present_run(encounter, level.lookahead);
    let windows = windows_at(encounter, level, &present);
    Needs {
        turns: stays_needed(needs.turns, &windows.turns, level.lookahead),
        climbs: stays_needed(needs.climbs, &windows.climbs, level.lookahead),
    }
}

/// Whether a kind is needed that was or that has seconds within the lookahead.
fn stays_needed(before: bool, seconds: &Seconds, lookahead: u32) -> bool
    ensures more { result ≡ false → before ≡ false }
    ensures none { result ≡ false → lookahead ≤ seconds.now.begin }
{
    before || seconds.begin < lookahead
}
