//! Counts the levels of one moment after another.

ghost use Rattle.std.specs.Prelude.{◌≡◌, ◌<◌, ℕ, length, slice_index_or};
ghost use Rattle.daa_legs.specs.Alerts.{IsAlertLevel};
ghost use Rattle.daa_state.specs.Picture.{aircraft_of};
ghost use Rattle.daa_state.specs.declared.word.Traffic.{Traffic};
ghost use Rattle.daa_bands.specs.Board.{HasLevelOn, IsBoardOf, mask_levels};
ghost use Rattle.daa_bands.specs.KindBands.{AreShown};
ghost use Rattle.daa_engine.specs.Covered.{CoveredAt};
ghost use Rattle.daa_state.specs.InRange.{IsPictureInRange};
ghost use Rattle.daa_exercise.specs.Inside.Counting.{Adds, AddsUp, AreCounted, CountsPicture};
ghost use Rattle.daa_exercise.specs.Inside.Counting.{HasAlerts, HasRoomFor, HaveAllRoom, IsRoomy};
ghost use Rattle.daa_exercise.specs.Inside.Drawing.{Outputs};
ghost use Rattle.daa_config.specs.Settings.{IsAccepted, Settings};

use crate::tally::Tally;
use daa_alert::alert_level;
use daa_bands::Board;
use daa_config::{Config, Kind};
use daa_state::Picture;

/// What is counted of some moments: the aircraft, how often each level was an aircraft's
/// alert level, and how often it was the shown level of a candidate of each kind.
#[derive(Drop)]
pub(crate) struct Counts {
    pub(crate) aircraft: u32,
    pub(crate) alerts: Tally,
    pub(crate) track: Tally,
    pub(crate) speed: Tally,
    pub(crate) climb: Tally,
    pub(crate) height: Tally,
}

impl Counts {
    /// No moment is counted.
    #[tactic(auto, unfolding(crate::specs::Inside::Counting::aircraft_from))]
    pub(crate) fn new() -> Counts
        ensures { (settings : Settings) (output : Outputs) (time : ℕ)
            → AreCounted settings output time 0 result }
    {
        Counts {
            aircraft: 0,
            alerts: Tally::new(),
            track: Tally::new(),
            speed: Tally::new(),
            climb: Tally::new(),
            height: Tally::new(),
        }
    }

    /// Counts a moment whose board is decided.
    pub(crate) fn add(&mut self, config: &Config, picture: &Picture, board: &Board)
        requires accepted { IsAccepted config.now }
        requires picture { IsPictureInRange picture.now }
        requires board { IsBoardOf (CoveredAt config.now picture.now) config.now board.now }
        requires room { IsRoomy self.old }
        ensures { CountsPicture config.now picture.now self.old self.new }
    {
        self.aircraft += picture.traffic.len() as u32;
        count_alerts(&mut self.alerts, config, picture);
        count_shown(&mut self.track, config, board, Kind::Track);
        count_shown(&mut self.speed, config, board, Kind::GroundSpeed);
        count_shown(&mut self.climb, config, board, Kind::VerticalSpeed);
        count_shown(&mut self.height, config, board, Kind::Altitude);
    }

    /// Counts what others counted besides.
    pub(crate) fn add_all(&mut self, others: &Counts)
        requires { HaveAllRoom self.old others.now }
        ensures { AddsUp self.old others.now self.new }
    {
        self.aircraft += others.aircraft;
        self.alerts.add_all(&others.alerts);
        self.track.add_all(&others.track);
        self.speed.add_all(&others.speed);
        self.climb.add_all(&others.climb);
        self.height.add_all(&others.height);
    }
}

/// The alert level of the aircraft at a place of a picture's list.
fn level_of(config: &Config, picture: &Picture, aircraft: usize) -> u8
    requires picture { IsPictureInRange picture.now }
    requires aircraft { aircraft < length (aircraft_of picture.now) }
    ensures { (t : Traffic)
        → IsAlertLevel config.now picture.now.own
        (slice_index_or (aircraft_of picture.now) aircraft t) result }
{
    alert_level(config, &picture.own, &picture.traffic[aircraft])
}

/// Counts the alert levels of a picture's aircraft.
fn count_alerts(tally: &mut Tally, config: &Config, picture: &Picture)
    requires accepted { IsAccepted config.now }
    requires picture { IsPictureInRange picture.now }
    requires room { HasRoomFor 64 tally.old }
    ensures { Adds (HasAlerts config.now picture.now) tally.old tally.new }
{
    for place in 0..picture.traffic.len() {
        tally.add(level_of(config, picture, place));
    }
}

/// Counts the levels that the board shows of a kind's candidates. The two halves are counted side
/// by side, each in a tally of its own: a count that rises twice in a row waits for itself.
fn count_shown(tally: &mut Tally, config: &Config, board: &Board, kind: Kind)
    requires { HasRoomFor 512 tally.old }
    ensures { Adds (AreShown
        (HasLevelOn board.now) mask_levels config.now kind) tally.old tally.new }
{
    let start = config.start(kind);
    let count = config.count(kind);
    let half = count / 2;
    let middle = start + half;
    let mut other = Tally::new();
    for place in 0..half {
        tally.add(board.shown(start + place));
        other.add(board.shown(middle + place));
    }
    if half + half < count {
        other.add(board.shown(middle + half));
    }
    tally.add_all(&other);
}
