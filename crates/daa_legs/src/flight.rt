//! A candidate's flight: leg after leg, or run after run of legs with one velocity.

ghost use Rattle.std.specs.Prelude.{IsTrue, ◌↔◌, ◌≡◌, ◌<◌, ◌≤◌, ◌+◌};
ghost use Rattle.daa_fixed.specs.Leg.{plus, IsSolidBelow};
ghost use Rattle.daa_config.specs.Settings.{IsCandidateInRange, rates_of};
ghost use Rattle.daa_state.specs.InRange.{IsOwnInRange};
ghost use Rattle.daa_legs.specs.Motion.{velocity_on};
ghost use Rattle.daa_legs.specs.OwnLeg.{own_place, own_leg, IsOwnLegInRange};
ghost use Rattle.daa_legs.specs.Runs.{IsRunOf, IsLongest, IsOwnRunInRange};

use crate::motion::velocity_from;
use crate::own_leg::{OwnLeg, OwnRun};
use daa_config::{Candidate, Config, Rates};
use daa_fixed::{Flat, Solid, feet, mils};
use daa_heading::velocity;
use daa_state::Own;
use std::marker::Model;

/// A candidate's flight from the present moment on, at most 180 seconds of it.
#[derive(Drop)]
pub struct Flight {
    own: Own,
    rates: Rates,
    candidate: Candidate,
    taken: u32,
    place: Solid,
    // the present way over ground of a second
    present: Flat,
}

impl Model for Flight {
    ghost use Rattle.daa_legs.specs.FlightState.{FlightState};
    ghost use Rattle.daa_legs.specs.Inside.FlightState.{IsFlown};

    ghost Value = { FlightState };

    ghost view = { λ f. record {
      own = f.own;
      rates = f.rates;
      candidate = f.candidate;
      taken = f.taken;
    } };

    ghost invariant = { λ f. IsFlown (record {
      own = f.own;
      rates = f.rates;
      candidate = f.candidate;
      taken = f.taken;
    }) f.place f.present };
}

impl Flight {
    /// The flight to what the candidate asks for, at the configuration's rates, before its first
    /// leg.
    #[inline(always)]
    pub fn begin(own: &Own, config: &Config, candidate: Candidate) -> Flight
        requires own { IsOwnInRange own.now }
        requires candidate { IsCandidateInRange candidate }
        ensures { result ≡ record {
          own = own.now;
          rates = rates_of config.now;
          candidate = candidate;
          taken = 0;
        } }
    {
        Flight {
            own: *own,
            rates: config.rates(),
            candidate,
            taken: 0,
            place: place_now(own),
            present: velocity(own.gs, own.trk),
        }
    }

    /// The next second: leg `k` after `k` legs were taken. A flight has 180 of them.
    #[inline(always)]
    pub fn next_leg(&mut self) -> OwnLeg
        requires { self.old.taken < 180 }
        ensures leg { result ≡ own_leg self.old.own self.old.rates
            self.old.candidate self.old.taken }
        ensures in_range { IsOwnLegInRange result }
        ensures taken { self.new ≡ record self.old { taken = self.old.taken + 1 } }
    {
        let leg = OwnLeg {
            place: self.place,
            velocity: self.velocity_ahead(),
        };
        self.advance(&leg.velocity);
        leg
    }

    /// The next seconds that all have the first one's velocity: as many as there are, up to `most`.
    /// The legs of a run count as taken.
    pub fn next_run(&mut self, most: u32) -> OwnRun
        requires some { 1 ≤ most }
        requires left { self.old.taken + most ≤ 180 }
        ensures run { IsRunOf self.old.own self.old.rates self.old.candidate self.old.taken result }
        ensures longest { IsLongest self.old.own self.old.rates self.old.candidate
            self.old.taken most result }
        ensures in_range { IsOwnRunInRange result }
        ensures taken { self.new ≡ record self.old { taken = self.old.taken + result.secs } }
    {
        let first = self.next_leg();
        for secs in 1..most {
            if !are_same(&self.velocity_ahead(), &first.velocity) {
                return run_of(&first, secs);
            }
            self.advance(&first.velocity);
        }
        run_of(&first, most)
    }

    /// The velocity of the next second.
    #[inline(always)]
    fn velocity_ahead(&self) -> Solid
        requires { self.now.taken < 180 }
        ensures value { result ≡ velocity_on self.now.own self.now.rates
            self.now.candidate self.now.taken }
        ensures size { IsSolidBelow 20000 result }
    {
        velocity_from(
            &self.own,
            &self.rates,
            self.candidate,
            self.taken,
            &self.present,
        )
    }

    /// Takes the next second, which has this velocity.
    #[inline(always)]
    fn advance(&mut self, velocity: &Solid)
        requires left { self.old.taken < 180 }
        requires velocity { velocity.now ≡ velocity_on self.old.own self.old.rates
            self.old.candidate self.old.taken }
        ensures { self.new ≡ record self.old { taken = self.old.taken + 1 } }
    {
        self.place = sum(&self.place, velocity);
        self.taken += 1;
    }
}

/// Where the ownship is now.
pub(crate) fn place_now(own: &Own) -> Solid
    requires { IsOwnInRange own.now }
    ensures { result ≡ own_place own.now }
{
    Solid {
        flat: Flat {
            east: mils(own.x),
            north: mils(own.y),
        },
        up: feet(own.alt),
    }
}

/// Whether two vectors are equal on each axis.
fn are_same(x: &Solid, y: &Solid) -> bool
    ensures { IsTrue result ↔ (x.now ≡ y.now) }
{
    x == y
}

/// So many seconds that begin as a leg does.
fn run_of(first: &OwnLeg, secs: u32) -> OwnRun
    ensures { result ≡ record {
      place = first.now.place;
      velocity = first.now.velocity;
      secs = secs;
    } }
{
    OwnRun {
        place: first.place,
        velocity: first.velocity,
        secs,
    }
}

/// The sum of two vectors, each axis by itself.
pub(crate) fn sum(x: &Solid, y: &Solid) -> Solid
    requires x { IsSolidBelow 20000000 x.now }
    requires y { IsSolidBelow 20000 y.now }
    ensures { result ≡ plus x.now y.now }
{
    Solid {
        flat: Flat {
            east: x.flat.east + y.flat.east,
            north: x.flat.north + y.flat.north,
        },
        up: x.up + y.up,
    }
}

/// The first leg of the present flight, which keeps track, ground speed and vertical speed. Each
/// other leg of it has the same velocity.
pub fn present_leg(own: &Own, config: &Config) -> OwnLeg
    requires { IsOwnInRange own.now }
    ensures value { result ≡ own_leg own.now (rates_of config.now) Candidate.Hold 0 }
    ensures in_range { IsOwnLegInRange result }
{
    Flight::begin(own, config, Candidate::Hold).next_leg()
}
