//! A moment decided in the caller's own thread, and what is asked after it. Nothing here starts a
//! thread or takes memory.

ghost use Rattle.std.specs.Prelude.{◌≡◌, ◌≢◌, ◌<◌, ◌≤◌, None, length, min, slice_index_or};
ghost use Rattle.daa_bands.specs.Board.{HasLevelOn, IsBoardOf, mask_levels};
ghost use Rattle.daa_bands.specs.KindBands.{AreKindBands};
ghost use Rattle.daa_config.specs.Candidates.{candidates_of};
ghost use Rattle.daa_fixed.specs.Mask.{IsGreatestLevel};
ghost use Rattle.daa_legs.specs.Alerts.{IsNowLevel};
ghost use Rattle.daa_last.specs.Last.{IsLastTime};
ghost use Rattle.daa_recovery.specs.Recovery.{IsRecovery};
ghost use Rattle.daa_report.specs.Lines.{Text};
ghost use Rattle.daa_report.specs.Says.{SaysSome};
ghost use Rattle.daa_resolve.specs.Resolution.{IsResolution};
ghost use Rattle.daa_state.specs.InRange.{IsPictureInRange};
ghost use Rattle.daa_state.specs.Picture.{aircraft_of};
ghost use Rattle.daa_state.specs.declared.word.Traffic.{Traffic};
ghost use Rattle.daa_engine.specs.Covered.{CoveredAt};
ghost use Rattle.daa_engine.specs.Longest.{longest_moment};
ghost use Rattle.daa_engine.specs.MomentText.{IsMomentText};

use crate::alerts::find_alerts;
use crate::engine::{Engine, time_of};
use crate::filling::fill;
use crate::findings::find;
use crate::say::say;
use daa_alert::now_level;
use daa_bands::{Board, Runs, runs};
use daa_config::{Config, Kind, Resolution};
use daa_io::Sink;
use daa_last::last_of;
use daa_legs::{Branch, Trunk};
use daa_recovery::{Recovery, least};
use daa_report::SinkFault;
use daa_resolve::{Side, nearest};
use daa_scan::fill_flights;
use daa_state::{Own, Picture};

/// Decides a moment on room that the caller hands in: bit l - 1 at a candidate's index of the board
/// is then set exactly where some aircraft of the picture meets the candidate within the lookahead
/// of level l, and no other bit is. The room is eight trunks, and a branch for each candidate of
/// the configuration, at most 1897; what is in it before does not matter.
pub fn decide_in(
    config: &Config,
    picture: &Picture,
    trunks: &mut [Trunk],
    branches: &mut [Branch],
    board: &mut Board,
)
    requires picture { IsPictureInRange picture.now }
    requires trunks { length trunks.old ≡ 8 }
    requires branches { min (length (candidates_of config.now)) 1897 ≤ length branches.old }
    ensures board { IsBoardOf (CoveredAt config.now picture.now) config.now board.new }
    ensures trunks { length trunks.new ≡ 8 }
    ensures branches { length branches.new ≡ length branches.old }
{
    // ensures that there are at most 1897 candidates
    let _total = config.total();
    let needs = fill_flights(trunks, branches, config, picture);
    fill(board, trunks, branches, needs, config, picture);
}

/// Writes the lines of a moment to the sink as `report` does, from a board on which the moment was
/// decided before. `SinkFault` comes only where the sink failed; then a beginning of the lines is
/// written. The lines have at most 130176 bytes together.
pub fn say_moment<K: Sink>(
    config: &Config,
    picture: &Picture,
    board: &Board,
    sink: &mut K,
) -> Result<(), SinkFault>
    requires picture { IsPictureInRange picture.now }
    requires board { IsBoardOf (CoveredAt config.now picture.now) config.now board.now }
    ensures short { (text : Text) → IsMomentText config.now picture.now text
        → length text ≤ longest_moment }
    ensures says { SaysSome (IsMomentText config.now picture.now) (K.taken sink.old)
        (K.taken sink.new) (K.faults sink.old) (K.faults sink.new) result }
{
    // ensures that its numbers are in range
    let _levels = config.levels();
    // ensures that it is a `u32`
    let _time = time_of(picture);
    let alerts = find_alerts(config, picture);
    let findings = find(config, picture, board);
    say(sink, config, picture, board, &alerts, &findings)
}

/// Decides a moment as [`decide_in`] does, in room that the caller hands in as there, and writes
/// the moment's lines to the sink. No engine is needed. `SinkFault` is returned only if the sink
/// failed; then a beginning of the lines is written. The lines have at most 130176 bytes together.
pub fn report_in<K: Sink>(
    config: &Config,
    picture: &Picture,
    trunks: &mut [Trunk],
    branches: &mut [Branch],
    board: &mut Board,
    sink: &mut K,
) -> Result<(), SinkFault>
    requires picture { IsPictureInRange picture.now }
    requires trunks { length trunks.old ≡ 8 }
    requires branches { min (length (candidates_of config.now)) 1897 ≤ length branches.old }
    ensures board { IsBoardOf (CoveredAt config.now picture.now) config.now board.new }
    ensures trunks { length trunks.new ≡ 8 }
    ensures branches { length branches.new ≡ length branches.old }
    ensures short { (text : Text) → IsMomentText config.now picture.now text
        → length text ≤ longest_moment }
    ensures says { SaysSome (IsMomentText config.now picture.now) (K.taken sink.old)
        (K.taken sink.new) (K.faults sink.old) (K.faults sink.new) result }
{
    decide_in(config, picture, trunks, branches, board);
    say_moment(config, picture, board, sink)
}

impl Engine {
    /// Decides a moment as `decide` does, in the caller's thread alone and without memory, whatever
    /// the number of workers.
    pub fn decide_alone(&mut self, picture: &Picture)
        requires { IsPictureInRange picture.now }
        ensures kept { self.new ≡ record self.old { board = self.new.board } }
        ensures board { IsBoardOf
            (CoveredAt self.old.settings picture.now) self.old.settings self.new.board }
    {
        self.room.decide(&self.config, picture, &mut self.board);
    }

    /// Decides a moment and writes its lines as `report` does, in the caller's thread alone and
    /// without memory.
    pub fn report_alone<K: Sink>(
        &mut self,
        picture: &Picture,
        sink: &mut K,
    ) -> Result<(), SinkFault>
        requires { IsPictureInRange picture.now }
        ensures kept { self.new ≡ record self.old { board = self.new.board } }
        ensures board { IsBoardOf
            (CoveredAt self.old.settings picture.now) self.old.settings self.new.board }
        ensures short { (text : Text) → IsMomentText self.old.settings picture.now text
            → length text ≤ longest_moment }
        ensures says { SaysSome (IsMomentText self.old.settings picture.now) (K.taken sink.old)
            (K.taken sink.new) (K.faults sink.old) (K.faults sink.new) result }
    {
        self.room
            .report(&self.config, picture, &mut self.board, sink)
    }

    /// The level of an aircraft of a picture now, by its place in the picture's list: the greatest
    /// level whose volume is violated at the beginning of the present flight, or 0.
    pub fn now_of(&self, picture: &Picture, aircraft: usize) -> u8
        requires picture { IsPictureInRange picture.now }
        requires aircraft { aircraft < length (aircraft_of picture.now) }
        ensures { (t : Traffic)
            → IsNowLevel self.now.settings picture.now.own
            (slice_index_or (aircraft_of picture.now) aircraft t) result }
    {
        now_level(&self.config, &picture.own, &picture.traffic[aircraft])
    }

    /// The level of the candidate at an index of the configuration's whole list: the greatest that
    /// the board of the latest moment has for it, or 0.
    pub fn level_of(&self, index: u32) -> u8
        requires { index < length (candidates_of self.now.settings) }
        ensures { IsGreatestLevel (HasLevelOn self.now.board index) mask_levels result }
    {
        // ensures that it is one of the board
        let _total = self.config.total();
        self.board.shown(index)
    }

    /// The bands of a kind in the latest moment, in the rising order of the values, also the bands
    /// of level 0.
    pub fn bands(&self, kind: Kind) -> Runs<'_>
        ensures { AreKindBands
            (HasLevelOn self.now.board) mask_levels self.now.settings kind result }
    {
        runs(&self.board, &self.config, kind)
    }

    /// The answer in the latest moment on a side of a kind: the nearest open candidate, that
    /// there is none, or that the present flight may be kept. The ownship is that moment's.
    pub fn resolution(&self, own: &Own, kind: Kind, side: Side) -> Resolution
        ensures { IsResolution
            (HasLevelOn self.now.board) self.now.settings own.now kind side result }
    {
        nearest(&self.board, &self.config, own, kind, side)
    }

    /// The last time of a kind in a moment: the greatest number of seconds, at most 179 and below
    /// the greatest lookahead of the levels from `resolve` up, for which the present flight may be
    /// kept such that some candidate of the kind that begins then is open; or `None` where there is
    /// none. It is answered whether or not the configuration asks for its line, or the present
    /// flight is open.
    pub fn last_time(&self, picture: &Picture, kind: Kind) -> Option<u32>
        requires { IsPictureInRange picture.now }
        ensures { IsLastTime self.now.settings picture.now kind result }
    {
        last_of(&self.config, picture, kind)
    }

    /// The recovery of a kind in a moment: the least second, from 1 to 179, from which on some
    /// candidate of the kind violates no level from `resolve` up, while it stays out of the
    /// cylinder from now on, and the value, in the kind's unit, that `least` of daa_recovery names
    /// then; or `None` where there is none. The configuration asks for recoveries.
    pub fn recovery(&self, picture: &Picture, kind: Kind) -> Option<Recovery>
        requires asked { self.now.settings.recovery ≢ None }
        requires picture { IsPictureInRange picture.now }
        ensures { IsRecovery self.now.settings picture.now kind result }
    {
        least(&self.config, picture, kind)
    }
}
