//! A worker's clerk, and what it counts.

ghost use Rattle.std.specs.Prelude.{◌≡◌, ◌≤◌, ◌<◌, ◌+◌, ℕ, All, IfSome};
ghost use Rattle.daa_config.specs.Settings.{Settings};
ghost use Rattle.daa_exercise.specs.Inside.Counting.{CountsPicture, IsRoomy};
ghost use Rattle.daa_exercise.specs.Inside.Stints.{IsStint};
ghost use Rattle.daa_exercise.specs.Moments.{moment_of};
ghost use Rattle.daa_exercise.specs.Outputs.{outputs_of};

use crate::counting::Counts;
use crate::sequence::{Sequence, empty_picture};
use daa_bands::Board;
use daa_config::Config;
use daa_engine::{Room, Tickets};
use daa_io::Gate;
use daa_state::Picture;
use std::alloc::Global;

/// How many moments a clerk counts for one ticket.
pub(crate) const FOR_ONE_TICKET: u32 = 8;

/// What is counted of the moments from one time up to another.
#[derive(Drop)]
pub(crate) struct Stint {
    pub(crate) from: u32,
    pub(crate) upto: u32,
    pub(crate) counts: Counts,
}

/// What a worker of this number decides moments on: the picture of one moment, room, and a board.
#[derive(Drop)]
pub(crate) struct Workspace {
    number: u32,
    picture: Picture,
    room: Room,
    board: Board,
}

/// A worker's workspace, and the parts that it has counted.
#[derive(Drop)]
pub(crate) struct Clerk {
    pub(crate) workspace: Workspace,
    pub(crate) parts: Vec<Stint>,
}

/// The time of the first moment of the next ticket, if it is among so many.
fn next_time(tickets: &Tickets, moments: u32) -> Option<u32>
    ensures { IfSome result (λ time. time < moments) }
{
    let time = tickets.draw().saturating_mul(FOR_ONE_TICKET as usize);
    if time < moments as usize {
        return Some(time as u32);
    }
    None
}

impl Workspace {
    /// Draws the next moment, decides it and counts it.
    fn count_next(&mut self, config: &Config, sequence: &mut Sequence, counts: &mut Counts)
        requires few { sequence.old.time < 10000 }
        requires room { IsRoomy counts.old }
        ensures counted { CountsPicture config.now
            (moment_of (outputs_of sequence.old.seed) sequence.old.time) counts.old counts.new }
        ensures time { sequence.new.time ≡ sequence.old.time + 1 }
        ensures seed { sequence.new.seed ≡ sequence.old.seed }
    {
        // its clause says that the configuration is accepted
        let _levels = config.levels();
        sequence.draw(&mut self.picture);
        self.room.decide(config, &self.picture, &mut self.board);
        counts.add(config, &self.picture, &self.board);
    }

    /// Counts the moments from one time up to another. It passes the gate before each, whose unit
    /// is its time.
    pub(crate) fn count<G: Gate>(
        &mut self,
        config: &Config,
        sequence: &mut Sequence,
        from: u32,
        upto: u32,
        gate: &G,
    ) -> Stint
        requires some { from < upto }
        requires few { upto ≤ 10000 }
        ensures part { IsStint config.now sequence.old.seed result }
        ensures from { result.from ≡ from }
        ensures upto { result.upto ≡ upto }
        ensures seed { sequence.new.seed ≡ sequence.old.seed }
    {
        // its clause says that the configuration is accepted
        let _levels = config.levels();
        sequence.go_to(from);
        let mut counts = Counts::new();
        for time in from..upto {
            gate.pass(self.number, time);
            self.count_next(config, sequence, &mut counts);
        }
        Stint { from, upto, counts }
    }
}

impl Clerk {
    /// The clerk of a worker, with room for so many parts, if there is memory for it.
    pub(crate) fn new(alloc: Global, number: u32, parts: usize) -> Option<Clerk> {
        let room = Room::new(alloc).ok()?;
        let parts = Vec::with_capacity(alloc, parts).ok()?;
        let workspace = Workspace {
            number,
            picture: empty_picture(),
            room,
            board: Board::new(),
        };
        Some(Clerk { workspace, parts })
    }

    /// Draws tickets, and counts a part of so many moments of a seed for each, while there are
    /// moments.
    pub(crate) fn work<G: Gate>(
        &mut self,
        config: &Config,
        seed: u32,
        moments: u32,
        tickets: &Tickets,
        gate: &G,
    )
        requires { moments ≤ 10000 }
        ensures { All (IsStint config.now seed) self.new.parts.items }
    {
        let mut sequence = Sequence::of(seed);
        self.parts.clear();
        while self.parts.len() < self.parts.capacity() {
            let Some(from) = next_time(tickets, moments) else {
                return;
            };
            let upto = from.saturating_add(FOR_ONE_TICKET).min(moments);
            let part = self
                .workspace
                .count(config, &mut sequence, from, upto, gate);
            self.parts.push_reserved(part);
        }
    }

    /// Gives its last part away, if it ends at a time.
    pub(crate) fn part_upto(&mut self, time: u32) -> Option<Stint>
        ensures part { (settings : Settings) (seed : ℕ)
            → All (IsStint settings seed) self.old.parts.items
            → IfSome result (IsStint settings seed) }
        ensures kept { (settings : Settings) (seed : ℕ)
            → All (IsStint settings seed) self.old.parts.items
            → All (IsStint settings seed) self.new.parts.items }
        ensures upto { IfSome result (λ part. part.upto ≡ time) }
    {
        if self.parts.last()?.upto == time {
            return self.parts.pop();
        }
        None
    }
}
