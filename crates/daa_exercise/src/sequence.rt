//! The moments of a seed, in the order of their times.

ghost use Rattle.std.specs.Prelude.{◌≡◌, ◌≤◌, ◌+◌};
ghost use Rattle.daa_state.specs.InRange.{IsPictureInRange};
ghost use Rattle.daa_exercise.specs.Inside.Drawing.{IsDrawnTo};
ghost use Rattle.daa_exercise.specs.Moments.{moment_of};
ghost use Rattle.daa_exercise.specs.Outputs.{outputs_of};

use crate::draws::Draws;
use arrayvec::ArrayVec;
use daa_state::{Own, Picture};

/// The moments of a seed from a time on. Those before it are drawn or left out.
#[derive(Drop)]
pub(crate) struct Sequence {
    pub(crate) seed: u32,
    pub(crate) time: u32,
    draws: Draws,
    ghost drawn: { IsDrawnTo seed time draws },
}

/// A picture into which a moment is drawn.
pub(crate) fn empty_picture() -> Picture {
    Picture {
        time: 0,
        own: Own {
            x: 0,
            y: 0,
            alt: 0,
            trk: 0,
            gs: 0,
            vs: 0,
        },
        traffic: ArrayVec::new(),
    }
}

impl Sequence {
    /// All moments of a seed.
    pub(crate) fn of(seed: u32) -> Sequence
        ensures seed { result.seed ≡ seed }
        ensures time { result.time ≡ 0 }
    {
        Sequence {
            seed,
            time: 0,
            draws: Draws::of(seed),
        }
    }

    /// Draws the next moment into a picture.
    pub(crate) fn draw(&mut self, picture: &mut Picture)
        requires { self.old.time + 1 ≤ 4294967295 }
        ensures moment { picture.new ≡ moment_of (outputs_of self.old.seed) self.old.time }
        ensures in_range { IsPictureInRange picture.new }
        ensures time { self.new.time ≡ self.old.time + 1 }
        ensures seed { self.new.seed ≡ self.old.seed }
    {
        self.draws.draw_moment(self.time, picture);
        self.time += 1;
    }

    /// Leaves out the next moment.
    fn skip(&mut self)
        requires { self.old.time + 1 ≤ 4294967295 }
        ensures time { self.new.time ≡ self.old.time + 1 }
        ensures seed { self.new.seed ≡ self.old.seed }
    {
        self.draws.skip_moment();
        self.time += 1;
    }

    /// Begins anew, if the moment of a time is left behind.
    fn rewind(&mut self, time: u32)
        ensures time { self.new.time ≤ time }
        ensures seed { self.new.seed ≡ self.old.seed }
    {
        if time < self.time {
            *self = Sequence::of(self.seed);
        }
    }

    /// Makes the moment of a time the next one.
    pub(crate) fn go_to(&mut self, time: u32)
        ensures time { self.new.time ≡ time }
        ensures seed { self.new.seed ≡ self.old.seed }
    {
        self.rewind(time);
        while self.time < time {
            self.skip();
        }
    }
}
