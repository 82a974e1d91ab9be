//! Room of its own for a thread that decides moments.

ghost use Rattle.std.specs.Prelude.{◌≡◌, ◌≤◌, IfOk, OnErr, OnOk, length};
ghost use Rattle.daa_bands.specs.Board.{IsBoardOf};
ghost use Rattle.daa_state.specs.InRange.{IsPictureInRange};
ghost use Rattle.daa_engine.specs.Covered.{CoveredAt};
ghost use Rattle.daa_engine.specs.Inside.EngineState.{HasWords};
ghost use Rattle.daa_engine.specs.Longest.{longest_moment};
ghost use Rattle.daa_engine.specs.MomentText.{IsMomentText};
ghost use Rattle.daa_report.specs.Lines.{Text};
ghost use Rattle.daa_report.specs.Says.{SaysSome};

use crate::alone::{decide_in, report_in};
use crate::together::{Crew, fill_together};
use daa_bands::Board;
use daa_config::Config;
use daa_io::{Gate, Sink};
use daa_legs::{Branch, Trunk};
use daa_report::SinkFault;
use daa_schedule::NoMemory;
use daa_state::Picture;
use std::alloc::Global;
use std::marker::Model;
use std::thread::Threads;

/// How many candidates a configuration has at most.
pub const MOST_CANDIDATES: usize = 1897;

/// How many flights lead: on two sides of four kinds.
const LEADS: usize = 8;

/// Room for the eight flights that lead, as [`decide_in`] takes it. It is not on the heap.
pub fn leading_flights() -> [Trunk; 8]
    ensures { length result ≡ 8 }
{
    [
        Trunk::new(),
        Trunk::new(),
        Trunk::new(),
        Trunk::new(),
        Trunk::new(),
        Trunk::new(),
        Trunk::new(),
        Trunk::new(),
    ]
}

/// Room on the heap for the flights that lead on the sides of each kind.
fn trunks_in(alloc: Global) -> Result<Vec<Trunk>, NoMemory>
    ensures { IfOk result (λ trunks. length trunks.items ≡ 8) }
{
    let mut trunks = Vec::new(alloc);
    for _place in 0..LEADS {
        if trunks.push(Trunk::new()).is_err() {
            return Err(NoMemory);
        }
    }
    Ok(trunks)
}

/// Room on the heap for the flights that lead and for a branch of each candidate of any
/// configuration. A thread that owns a room decides moments beside other threads, and asks for no
/// further memory.
#[derive(Drop)]
pub struct Room {
    trunks: Vec<Trunk>,
    branches: Vec<Branch>,
}

impl Model for Room {
    ghost use Rattle.daa_engine.specs.Inside.EngineState.{HasFlights};

    ghost Value = { Unit {0} };

    ghost view = { λ r. tt };

    ghost invariant = { λ r. HasFlights r.trunks.items r.branches.items };
}

impl Room {
    /// Room for deciding moments under any configuration. `NoMemory` says that there was no memory
    /// for the room.
    pub fn new(alloc: Global) -> Result<Room, NoMemory> {
        let branches = vec![in alloc; Branch::new(); MOST_CANDIDATES]?;
        Ok(Room {
            trunks: trunks_in(alloc)?,
            branches,
        })
    }

    /// Fills the board of a moment as [`decide_in`] does.
    pub fn decide(&mut self, config: &Config, picture: &Picture, board: &mut Board)
        requires { IsPictureInRange picture.now }
        ensures { IsBoardOf (CoveredAt config.now picture.now) config.now board.new }
    {
        decide_in(
            config,
            picture,
            self.trunks.as_mut_slice(),
            self.branches.as_mut_slice(),
            board,
        );
    }

    /// Decides a moment by the workers of a crew: fills the board as [`decide_in`] does. The words
    /// are room for what the workers answer. `NoMemory` says that there was no memory for the
    /// workers; then the board is unchanged.
    pub(crate) fn decide_together<R: Threads + Sync, G: Gate>(
        &mut self,
        crew: &Crew<'_, R, G>,
        words: &mut Vec<u64>,
        config: &Config,
        picture: &Picture,
        board: &mut Board,
    ) -> Result<(), NoMemory>
        requires picture { IsPictureInRange picture.now }
        requires words { HasWords words.old.items }
        ensures words { HasWords words.new.items }
        ensures board { OnOk result
            (IsBoardOf (CoveredAt config.now picture.now) config.now board.new) }
        ensures kept { OnErr result (board.new ≡ board.old) }
    {
        let trunks = self.trunks.as_mut_slice();
        let branches = self.branches.as_mut_slice();
        fill_together(crew, words, trunks, branches, config, picture, board)
    }

    /// Fills the board of a moment and writes the moment's lines as [`report_in`] does.
    pub fn report<K: Sink>(
        &mut self,
        config: &Config,
        picture: &Picture,
        board: &mut Board,
        sink: &mut K,
    ) -> Result<(), SinkFault>
        requires { IsPictureInRange picture.now }
        ensures board { IsBoardOf (CoveredAt config.now picture.now) config.now board.new }
        ensures short { (text : Text) → IsMomentText config.now picture.now text
            → length text ≤ longest_moment }
        ensures says { SaysSome (IsMomentText config.now picture.now) (K.taken sink.old)
            (K.taken sink.new) (K.faults sink.old) (K.faults sink.new) result }
    {
        report_in(
            config,
            picture,
            self.trunks.as_mut_slice(),
            self.branches.as_mut_slice(),
            board,
            sink,
        )
    }
}
