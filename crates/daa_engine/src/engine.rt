//! The engine: a configuration, a number of workers, and the board of the latest moment.

ghost use Rattle.std.specs.Prelude.{◌≡◌, ◌<◌, ◌≤◌, ◌^◌, IfOk, length, replicate, slice_index_or};
ghost use Rattle.daa_bands.specs.Board.{IsBoardOf, board_size};
ghost use Rattle.daa_config.specs.Settings.{IsAccepted};
ghost use Rattle.daa_state.specs.InRange.{IsPictureInRange};
ghost use Rattle.daa_state.specs.Picture.{aircraft_of};
ghost use Rattle.daa_state.specs.declared.word.Traffic.{Traffic};
ghost use Rattle.daa_alert.specs.Alert.{IsAlertOf};
ghost use Rattle.daa_engine.specs.Covered.{CoveredAt};
ghost use Rattle.daa_engine.specs.EngineState.{IsWorkerCount};
ghost use Rattle.daa_engine.specs.Longest.{longest_moment};
ghost use Rattle.daa_engine.specs.MomentText.{IsMomentText};
ghost use Rattle.daa_report.specs.Lines.{Text};
ghost use Rattle.daa_report.specs.Says.{SaysSome};

use crate::alone::say_moment;
use crate::room::Room;
use crate::together::Crew;
use daa_alert::{Alert, alert};
use daa_bands::Board;
use daa_config::Config;
use daa_io::{Gate, Sink};
use daa_report::SinkFault;
use daa_schedule::NoMemory;
use daa_state::Picture;
use std::alloc::Global;
use std::marker::Model;
use std::thread::Threads;

/// How many units of work a moment has at most: 64 aircraft and 159 groups of candidates.
const MOST_UNITS: usize = 10176;

/// A configuration, 1 to 16 workers, and the board of the latest moment.
#[derive(Drop)]
pub struct Engine {
    pub(crate) config: Config,
    workers: u32,
    pub(crate) board: Board,
    // what the workers answer
    words: Vec<u64>,
    pub(crate) room: Room,
}

impl Model for Engine {
    ghost use Rattle.std.specs.Prelude.{◌≡◌, length};
    ghost use Rattle.daa_engine.specs.EngineState.{EngineState};
    ghost use Rattle.daa_engine.specs.Inside.EngineState.{IsEngine, HasWords};

    ghost Value = { EngineState };

    ghost view = { λ e. record { settings = e.config; workers = e.workers; board = e.board } };

    ghost invariant = { λ e. IsEngine (record {
      settings = e.config;
      workers = e.workers;
      board = e.board;
    }) × HasWords e.words.items };
}

/// The time of a picture, in seconds.
pub(crate) fn time_of(picture: &Picture) -> u32
    ensures value { result ≡ picture.now.time }
    ensures fits { picture.now.time < 2 ^ 32 }
{
    picture.time
}

impl Engine {
    /// An engine with this configuration and number of workers, 1 to 16, before its first moment.
    /// `NoMemory` says that there was no memory for it.
    pub fn new(alloc: Global, config: Config, workers: u32) -> Result<Engine, NoMemory>
        requires { IsWorkerCount workers }
        ensures { IfOk result
            (λ engine. engine ≡ record {
              settings = config;
              workers = workers;
              board = replicate board_size 0;
            }) }
    {
        // ensures that its numbers are in range
        let _levels = config.levels();
        let words = vec![in alloc; 0u64; MOST_UNITS]?;
        Ok(Engine {
            config,
            workers,
            board: Board::new(),
            words,
            room: Room::new(alloc)?,
        })
    }

    /// The configuration that the engine decides under.
    pub fn config(&self) -> &Config
        ensures value { result.now ≡ self.now.settings }
        ensures accepted { IsAccepted self.now.settings }
        ensures workers { IsWorkerCount self.now.workers }
    {
        &self.config
    }

    /// The number of workers.
    pub fn workers(&self) -> u32
        ensures value { result ≡ self.now.workers }
        ensures count { IsWorkerCount self.now.workers }
    {
        self.workers
    }

    /// The board of the latest moment that was decided; no level is on it before the first.
    pub fn board(&self) -> &Board
        ensures { result.now ≡ self.now.board }
    {
        &self.board
    }

    /// The alert of an aircraft of a picture, by its place in the picture's list: the greatest
    /// level whose volume the present flight violates round it within the level's alert time, or 0,
    /// and the first leg that does.
    pub fn alert_of(&self, picture: &Picture, aircraft: usize) -> Alert
        requires picture { IsPictureInRange picture.now }
        requires aircraft { aircraft < length (aircraft_of picture.now) }
        ensures { (t : Traffic)
            → IsAlertOf self.now.settings picture.now.own
            (slice_index_or (aircraft_of picture.now) aircraft t) result }
    {
        alert(&self.config, &picture.own, &picture.traffic[aircraft])
    }

    /// Decides a moment: bit l - 1 at a candidate's index is then set exactly where some aircraft
    /// of the picture meets the candidate within the lookahead of level l, and no other bit is.
    /// Aircraft that no candidate can reach are skipped. With more than one worker and some
    /// aircraft in reach each worker runs on a thread of its own; the gate is then passed before
    /// each unit of work. Memory is asked for the workers alone; where there is none, one thread
    /// finds the same board.
    pub fn decide<R: Threads + Sync, G: Gate>(
        &mut self,
        rt: &R,
        alloc: Global,
        picture: &Picture,
        gate: &G,
    )
        requires { IsPictureInRange picture.now }
        ensures kept { self.new ≡ record self.old { board = self.new.board } }
        ensures board { IsBoardOf
            (CoveredAt self.old.settings picture.now) self.old.settings self.new.board }
    {
        if self.workers > 1 {
            let crew = Crew {
                rt,
                alloc,
                workers: self.workers,
                gate,
            };
            let filled = self.room.decide_together(
                &crew,
                &mut self.words,
                &self.config,
                picture,
                &mut self.board,
            );
            if filled.is_ok() {
                return;
            }
        }
        self.decide_alone(picture);
    }

    /// Decides a moment and writes its lines to the sink: its first line, the lines of the
    /// aircraft, of the bands of each kind, of the answers, of the last times and of the
    /// recoveries, and its last line. All levels and answers are found before the first byte is
    /// written, and nothing is held back when the call returns. `SinkFault` is returned only if the
    /// sink failed; then a beginning of the lines is written. The lines have at most 130176 bytes
    /// together.
    pub fn report<R: Threads + Sync, K: Sink, G: Gate>(
        &mut self,
        rt: &R,
        alloc: Global,
        picture: &Picture,
        sink: &mut K,
        gate: &G,
    ) -> Result<(), SinkFault>
        requires { IsPictureInRange picture.now }
        ensures kept { self.new ≡ record self.old { board = self.new.board } }
        ensures board { IsBoardOf
            (CoveredAt self.old.settings picture.now) self.old.settings self.new.board }
        ensures short { (text : Text) → IsMomentText self.old.settings picture.now text
            → length text ≤ longest_moment }
        ensures says { SaysSome (IsMomentText self.old.settings picture.now) (K.taken sink.old)
            (K.taken sink.new) (K.faults sink.old) (K.faults sink.new) result }
    {
        self.decide(rt, alloc, picture, gate);
        say_moment(&self.config, picture, &self.board, sink)
    }
}
