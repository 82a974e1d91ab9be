//! The legs of a flight, kept.

ghost use Rattle.std.specs.Prelude.{◌≡◌, ◌≤◌, ◌<◌, ◌+◌, ℕ, length, slice_index_or};
ghost use Rattle.daa_config.specs.Settings.{IsCandidateInRange, AreRatesInRange, rates_of};
ghost use Rattle.daa_state.specs.InRange.{IsOwnInRange};
ghost use Rattle.daa_heading.specs.Heading.{velocity_of};
ghost use Rattle.daa_legs.specs.Trunk.{AreLegsOf};
ghost use Rattle.daa_legs.specs.Motion.{velocity_on};
ghost use Rattle.daa_legs.specs.OwnLeg.{place_on};
ghost use Rattle.daa_legs.specs.Inside.OnWay.{IsOnWay};
ghost use Rattle.daa_legs.specs.declared.own_leg.OwnLeg.{OwnLeg};

use crate::branch::{divisor_for, parting_of};
use crate::flight::{place_now, sum};
use crate::motion::{velocity_at_end, velocity_on_way};
use crate::own_leg::OwnLeg;
use daa_config::{Candidate, Config, Rates};
use daa_fixed::{Flat, Solid};
use daa_heading::{unit, velocity};
use daa_state::Own;
use std::marker::Model;

/// How many legs a flight has.
const LEGS: usize = 180;

const NOWHERE: Solid = Solid {
    flat: Flat { east: 0, north: 0 },
    up: 0,
};

const AT_REST: OwnLeg = OwnLeg {
    place: NOWHERE,
    velocity: NOWHERE,
};

/// The first legs of a flight. Contracts see them as a list of 180.
#[derive(Drop)]
pub struct Trunk {
    legs: [OwnLeg; LEGS],
}

impl Model for Trunk {
    ghost use Rattle.std.specs.Prelude.{◌≡◌, List, length};
    ghost use Rattle.daa_legs.specs.declared.own_leg.OwnLeg.{OwnLeg};

    ghost Value = { List OwnLeg };

    ghost view = { λ t. t.legs };

    ghost invariant = { λ t. length t.legs ≡ 180 };
}

impl Trunk {
    /// Room for a flight's legs.
    pub fn new() -> Trunk
        ensures { length result ≡ 180 }
    {
        Trunk {
            legs: [AT_REST; LEGS],
        }
    }

    /// Keeps the first `most` legs of a candidate's flight.
    pub fn fill(&mut self, own: &Own, config: &Config, candidate: Candidate, most: u32)
        requires own { IsOwnInRange own.now }
        requires candidate { IsCandidateInRange candidate }
        requires most { most ≤ 180 }
        ensures { AreLegsOf own.now (rates_of config.now) candidate most self.new }
    {
        let rates = config.rates();
        // a copy of the loops for each kind of candidate, so that no leg asks which it is
        match candidate {
            Candidate::Hold => keep_legs(&mut self.legs, own, &rates, Candidate::Hold, most),
            Candidate::Track(c) => keep_legs(
                &mut self.legs,
                own,
                &rates,
                Candidate::Track(c),
                most,
            ),
            Candidate::GroundSpeed(g) => keep_legs(
                &mut self.legs,
                own,
                &rates,
                Candidate::GroundSpeed(g),
                most,
            ),
            Candidate::VerticalSpeed(w) => keep_legs(
                &mut self.legs,
                own,
                &rates,
                Candidate::VerticalSpeed(w),
                most,
            ),
            Candidate::Altitude(a) => keep_legs(
                &mut self.legs,
                own,
                &rates,
                Candidate::Altitude(a),
                most,
            ),
        }
    }

    /// A leg that is kept.
    pub fn leg(&self, k: u32) -> &OwnLeg
        requires room { length self.now ≡ 180 }
        requires k { k < 180 }
        ensures { (d : OwnLeg) → slice_index_or self.now k d ≡ result.now }
    {
        &self.legs[k as usize]
    }
}

/// Keeps the first legs of the flight of one kind of candidate: those on which its value changes by
/// its rate, its own leg to an altitude, and the straight rest.
#[inline(always)]
fn keep_legs(legs: &mut [OwnLeg], own: &Own, rates: &Rates, candidate: Candidate, most: u32)
    requires own { IsOwnInRange own.now }
    requires rates { AreRatesInRange rates.now }
    requires candidate { IsCandidateInRange candidate }
    requires most { most ≤ 180 }
    requires room { length legs.old ≡ 180 }
    ensures { AreLegsOf own.now rates.now candidate most legs.new }
{
    // a copy, which no write of a leg can change, so that what is found of it alone is found once
    let own = *own;
    let present = velocity(own.gs, own.trk);
    let divisor = divisor_for(rates, candidate);
    let parting = parting_of(&own, rates, candidate, &divisor);
    let rest = velocity_at_end(&own, candidate, &present);
    let last = own_velocity(&rest, parting.rise);
    let leaves = parting.leaves.min(most);
    let settles = parting.settles.min(most);
    let place = keep_way(
        legs,
        &own,
        rates,
        candidate,
        parting.upper,
        leaves,
        &present,
    );
    let place = keep_straight(legs, &own, rates, candidate, leaves, settles, &place, &last);
    keep_straight(legs, &own, rates, candidate, settles, most, &place, &rest);
}

/// The velocity on the candidate's own leg.
#[inline(always)]
fn own_velocity(rest: &Solid, rise: i64) -> Solid
    ensures { result ≡ record { flat = rest.now.flat; up = rise } }
{
    Solid {
        flat: rest.flat,
        up: rise,
    }
}

/// Keeps the legs before leg `upto`, on which the candidate's value changes by its rate each
/// second, and gives the place of leg `upto`.
#[inline(always)]
fn keep_way(
    legs: &mut [OwnLeg],
    own: &Own,
    rates: &Rates,
    candidate: Candidate,
    upper: bool,
    upto: u32,
    present: &Flat,
) -> Solid
    requires own { IsOwnInRange own.now }
    requires rates { AreRatesInRange rates.now }
    requires candidate { IsCandidateInRange candidate }
    requires upto { upto ≤ 180 }
    requires present { present.now ≡ velocity_of own.now.gs own.now.trk }
    requires way { (k : ℕ) → k < upto → IsOnWay own.now rates.now candidate upper k }
    requires room { length legs.old ≡ 180 }
    ensures kept { AreLegsOf own.now rates.now candidate upto legs.new }
    ensures place { result ≡ place_on own.now rates.now candidate upto }
{
    let track = unit(own.trk);
    // the place is a local, since a read of what was just written in halves is slow
    let mut place = place_now(own);
    for k in 0..upto {
        let velocity = velocity_on_way(own, rates, candidate, upper, k, present, track);
        place = keep(legs, own, rates, candidate, k, &place, &velocity);
    }
    place
}

/// Keeps the legs from leg `from` on and before leg `upto`, which all have one velocity and begin
/// at this place, and gives the place of leg `upto`.
#[inline(always)]
fn keep_straight(
    legs: &mut [OwnLeg],
    own: &Own,
    rates: &Rates,
    candidate: Candidate,
    from: u32,
    upto: u32,
    place: &Solid,
    velocity: &Solid,
) -> Solid
    requires own { IsOwnInRange own.now }
    requires rates { AreRatesInRange rates.now }
    requires candidate { IsCandidateInRange candidate }
    requires order { from ≤ upto }
    requires upto { upto ≤ 180 }
    requires kept { AreLegsOf own.now rates.now candidate from legs.old }
    requires place { place.now ≡ place_on own.now rates.now candidate from }
    requires velocity { (k : ℕ) → from ≤ k → k < upto
        → velocity.now ≡ velocity_on own.now rates.now candidate k }
    ensures kept { AreLegsOf own.now rates.now candidate upto legs.new }
    ensures place { result ≡ place_on own.now rates.now candidate upto }
{
    let mut place = *place;
    for k in from..upto {
        place = keep(legs, own, rates, candidate, k, &place, velocity);
    }
    place
}

/// Keeps leg `k`, which begins at this place, and gives the place where it ends.
#[inline(always)]
fn keep(
    legs: &mut [OwnLeg],
    own: &Own,
    rates: &Rates,
    candidate: Candidate,
    k: u32,
    place: &Solid,
    velocity: &Solid,
) -> Solid
    requires own { IsOwnInRange own.now }
    requires rates { AreRatesInRange rates.now }
    requires candidate { IsCandidateInRange candidate }
    requires k { k < 180 }
    requires kept { AreLegsOf own.now rates.now candidate k legs.old }
    requires place { place.now ≡ place_on own.now rates.now candidate k }
    requires velocity { velocity.now ≡ velocity_on own.now rates.now candidate k }
    ensures kept { AreLegsOf own.now rates.now candidate (k + 1) legs.new }
    ensures place { result ≡ place_on own.now rates.now candidate (k + 1) }
{
    legs[k as usize] = OwnLeg {
        place: *place,
        velocity: *velocity,
    };
    sum(place, velocity)
}
