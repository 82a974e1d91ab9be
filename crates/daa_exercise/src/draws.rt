//! What is drawn: the outputs of a generator, the numbers that they pick, and the moments of these
//! numbers.

ghost use Rattle.std.specs.Prelude.{◌≡◌, ◌≤◌, ◌+◌, ◌*◌, ◌≤ℤ◌, nat_abs, pos};
ghost use Rattle.daa_state.specs.InRange.{IsPictureInRange};
ghost use Rattle.daa_exercise.specs.Inside.Drawing.{after, generator_of, outputs_from, AreBounds};
ghost use Rattle.daa_exercise.specs.Inside.Drawing.{name_of, traffic_at, moment_at, draws_at};
ghost use Rattle.daa_exercise.specs.Moments.{own_at, aircraft_at};
ghost use Rattle.daa_exercise.specs.Outputs.{picked};

use arrayvec::ArrayVec;
use daa_state::{Id, MOST_AIRCRAFT, Own, PairBounds, Picture, Traffic};
use rand_core::SeedableRng;
use rand_core::utils::NextWord;
use rand_pcg::Lcg64Xsh32;
use std::marker::Model;

/// The numbers from one up to another, both ends counted.
pub(crate) struct Bounds {
    low: i32,
    high: i32,
}

// Feet, degrees, tenths of a knot, feet per minute.
const OWN_ALTITUDES: Bounds = Bounds {
    low: 0,
    high: 20000,
};

const OWN_TRACKS: Bounds = Bounds { low: 0, high: 359 };

const OWN_GROUND_SPEEDS: Bounds = Bounds {
    low: 500,
    high: 5000,
};

const VERTICAL_SPEEDS: Bounds = Bounds {
    low: -2000,
    high: 2000,
};

const AIRCRAFT_COUNTS: Bounds = Bounds { low: 0, high: 8 };

// Thousandths of a nautical mile, feet above the ownship, tenths of a knot.
const POSITIONS: Bounds = Bounds {
    low: -8000,
    high: 8000,
};

const HEIGHTS_ABOVE: Bounds = Bounds {
    low: -2000,
    high: 2000,
};

const SPEEDS: Bounds = Bounds {
    low: -5000,
    high: 5000,
};

/// The outputs that are still to be drawn. Contracts see the generator that gives them.
#[derive(Drop)]
pub(crate) struct Draws {
    generator: Lcg64Xsh32,
}

impl Model for Draws {
    ghost use Rattle.rand_pcg.specs.Lcg.{Lcg};

    ghost Value = { Lcg };

    ghost view = { λ d. d.generator };
}

impl Draws {
    /// The outputs of a seed.
    #[tactic(auto, unfolding(crate::specs::Inside::Drawing::generator_of))]
    pub(crate) fn of(seed: u32) -> Draws
        ensures { result ≡ generator_of seed }
    {
        Draws {
            generator: Lcg64Xsh32::seed_from_u64(u64::from(seed)),
        }
    }

    /// The number that the next output picks.
    fn pick(&mut self, bounds: &Bounds) -> i32
        requires { AreBounds bounds.now }
        ensures value { result ≡ picked bounds.now.low bounds.now.high (outputs_from self.old 0) }
        ensures least { bounds.now.low ≤ℤ result }
        ensures most { result ≤ℤ bounds.now.high }
        ensures rest { self.new ≡ after 1 self.old }
    {
        let output = self.generator.next_word();
        let size = (bounds.high - bounds.low) as u32 + 1;
        bounds.low + (output % size) as i32
    }

    /// The ownship of the next four outputs.
    fn next_own(&mut self) -> Own
        ensures value { result ≡ own_at (outputs_from self.old) 0 }
        ensures low { pos 0 ≤ℤ result.alt }
        ensures high { result.alt ≤ℤ pos 20000 }
        ensures rest { self.new ≡ after 4 self.old }
    {
        let alt = self.pick(&OWN_ALTITUDES);
        let trk = self.pick(&OWN_TRACKS);
        let gs = self.pick(&OWN_GROUND_SPEEDS);
        let vs = self.pick(&VERTICAL_SPEEDS);
        Own {
            x: 0,
            y: 0,
            alt,
            trk,
            gs,
            vs,
        }
    }

    /// How many aircraft the next output gives a moment: 0 to 8.
    fn next_count(&mut self) -> u32
        ensures value { result ≡ nat_abs (picked (pos 0) (pos 8) (outputs_from self.old 0)) }
        ensures few { result ≤ 8 }
        ensures rest { self.new ≡ after 1 self.old }
    {
        self.pick(&AIRCRAFT_COUNTS) as u32
    }

    /// The aircraft of this number, of the next six outputs.
    fn next_aircraft(&mut self, own: &Own, number: u32) -> Traffic
        requires low { pos 0 ≤ℤ own.now.alt }
        requires high { own.now.alt ≤ℤ pos 20000 }
        requires some { 1 ≤ number }
        requires few { number ≤ 8 }
        ensures value { result ≡ aircraft_at (outputs_from self.old) own.now.alt number 0 }
        ensures rest { self.new ≡ after 6 self.old }
    {
        let x = self.pick(&POSITIONS);
        let y = self.pick(&POSITIONS);
        let alt = own.alt + self.pick(&HEIGHTS_ABOVE);
        let vx = self.pick(&SPEEDS);
        let vy = self.pick(&SPEEDS);
        let vs = self.pick(&VERTICAL_SPEEDS);
        Traffic {
            id: name(number),
            x,
            y,
            alt,
            vx,
            vy,
            vs,
            age: 0,
            bounds: PairBounds::EXACT,
        }
    }

    /// Draws so many aircraft, numbered from 1, in place of those of a list.
    fn draw_traffic(
        &mut self,
        own: &Own,
        count: u32,
        traffic: &mut ArrayVec<Traffic, MOST_AIRCRAFT>,
    )
        requires low { pos 0 ≤ℤ own.now.alt }
        requires high { own.now.alt ≤ℤ pos 20000 }
        requires few { count ≤ 8 }
        ensures value { traffic.new.items ≡ traffic_at (outputs_from self.old) own.now.alt count 0 }
        ensures rest { self.new ≡ after (6 * count) self.old }
    {
        traffic.clear();
        for i in 0..count {
            traffic.push(self.next_aircraft(own, i + 1));
        }
    }

    /// Draws the moment of a time, of the next outputs, into a picture.
    pub(crate) fn draw_moment(&mut self, time: u32, picture: &mut Picture)
        ensures value { picture.new ≡ moment_at (outputs_from self.old) time 0 }
        ensures rest { self.new ≡ after (draws_at (outputs_from self.old) 0) self.old }
        ensures in_range { IsPictureInRange picture.new }
    {
        let own = self.next_own();
        let count = self.next_count();
        self.draw_traffic(&own, count, &mut picture.traffic);
        picture.own = own;
        picture.time = time;
    }

    /// Leaves out so many outputs.
    fn skip(&mut self, count: u32)
        ensures { self.new ≡ after count self.old }
    {
        self.generator.advance(u64::from(count));
    }

    /// Leaves out the outputs of the next moment.
    pub(crate) fn skip_moment(&mut self)
        ensures { self.new ≡ after (draws_at (outputs_from self.old) 0) self.old }
    {
        self.skip(4);
        let count = self.next_count();
        self.skip(6 * count);
    }
}

/// The name of an aircraft by its number, 1 to 8: `A` and the digit.
fn name(number: u32) -> Id
    requires some { 1 ≤ number }
    requires few { number ≤ 8 }
    ensures { result ≡ name_of number }
{
    Id::of(&[b'A', b'0' + number as u8]).unwrap()
}
