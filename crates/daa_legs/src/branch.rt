//! How a candidate's flight leaves the one that leads on its side.

ghost use Rattle.std.specs.Prelude.{◌≡◌, ◌≤◌, ◌<◌, ◌+◌, ◌*◌, ◌^◌, ℕ, ℤ, ◌≤ℤ◌, ◌+ℤ◌, ◌-ℤ◌, ◌*ℤ◌, pos, negsuc, true, false, IsTrue};
ghost use Rattle.daa_fixed.specs.Size.{IsFrom, IsWithin};
ghost use Rattle.daa_config.specs.Settings.{IsCandidateInRange, AreRatesInRange};
ghost use Rattle.daa_config.specs.declared.candidate.Candidate.{Candidate};
ghost use Rattle.daa_state.specs.InRange.{IsOwnInRange};
ghost use Rattle.daa_heading.specs.Heading.{velocity_of};
ghost use Rattle.daa_legs.specs.Branch.{rate_for, lead_of, FliesAs, FliesOn};
ghost use Rattle.daa_legs.specs.Inside.Branch.{IsWholeLegs};
ghost use Rattle.daa_legs.specs.Inside.OnWay.{IsOnWay};
ghost use Rattle.daa_legs.specs.Table.{IsBranchOf};
ghost use Rattle.daa_legs.specs.Motion.{vertical_speed_on};
ghost use Rattle.daa_legs.specs.Turn.{right_angle};

use crate::divisor::Divisor;
use crate::motion::velocity_at_end;
use crate::turn::round;
use daa_config::{Candidate, Rates};
use daa_fixed::{Flat, Solid, feet};
use daa_heading::velocity;
use daa_state::Own;

/// A candidate flies before leg `leaves` as the flight does that leads on its side. From leg
/// `settles` on, which is leg `leaves` or the one after it, it flies straight on at one velocity.
/// Where it is the one after, leg `leaves` is the candidate's own: it goes over ground at the same
/// velocity, and rises by `rise`.
#[derive(Clone, Copy, Debug, PartialEq, Eq)]
pub struct Branch {
    /// At which it flies straight on: 1/36000 NM and 1/60 foot a second.
    pub velocity: Solid,
    /// Of its own leg, in 1/60 foot. Defined if it has one: `settles` is above `leaves`, which is
    /// below 180.
    pub rise: i64,
    /// From 180 on it leaves after the last leg that is flown.
    pub leaves: u32,
    /// `leaves`, or one more.
    pub settles: u32,
    /// To the right or up, else to the left or down; where it leaves no leading flight, either.
    pub upper: bool,
}

impl Branch {
    /// Room for a branch in a table.
    pub fn new() -> Branch {
        Branch {
            velocity: Solid {
                flat: Flat { east: 0, north: 0 },
                up: 0,
            },
            rise: 0,
            leaves: 0,
            settles: 0,
            upper: true,
        }
    }
}

/// A way to a value: to the right or up or the other way, and how many whole seconds at the rate
/// fit into it.
#[derive(Clone, Copy)]
pub(crate) struct Way {
    pub(crate) upper: bool,
    pub(crate) legs: u32,
}

/// On which side a candidate's flight leaves the leading one, before which leg, from which leg on
/// it flies straight on, and what a leg of its own rises.
#[derive(Clone, Copy)]
pub(crate) struct Parting {
    pub(crate) upper: bool,
    pub(crate) leaves: u32,
    pub(crate) settles: u32,
    pub(crate) rise: i64,
}

/// Where the candidate's flight leaves the leading one, and how it flies on.
pub fn branch_of(own: &Own, rates: &Rates, candidate: Candidate) -> Branch
    requires own { IsOwnInRange own.now }
    requires rates { AreRatesInRange rates.now }
    requires candidate { IsCandidateInRange candidate }
    ensures { IsBranchOf own.now rates.now candidate result }
{
    let divisor = divisor_for(rates, candidate);
    branch_from(own, rates, candidate, &velocity(own.gs, own.trk), &divisor)
}

/// The branch of a candidate, for a caller that knows the present way over ground of a second, and
/// made the rate ready at which the candidate's value changes.
#[inline(always)]
pub fn branch_from(
    own: &Own,
    rates: &Rates,
    candidate: Candidate,
    present: &Flat,
    divisor: &Divisor,
) -> Branch
    requires own { IsOwnInRange own.now }
    requires rates { AreRatesInRange rates.now }
    requires candidate { IsCandidateInRange candidate }
    requires divisor { pos divisor.now.rate ≡ rate_for rates.now candidate }
    requires present { present.now ≡ velocity_of own.now.gs own.now.trk }
    ensures { IsBranchOf own.now rates.now candidate result }
{
    let parting = parting_of(own, rates, candidate, divisor);
    Branch {
        velocity: velocity_at_end(own, candidate, present),
        rise: parting.rise,
        leaves: parting.leaves,
        settles: parting.settles,
        upper: parting.upper,
    }
}

/// Where the candidate's flight leaves the leading one. Before that its value changes by its rate
/// each second.
#[inline(always)]
pub(crate) fn parting_of(
    own: &Own,
    rates: &Rates,
    candidate: Candidate,
    divisor: &Divisor,
) -> Parting
    requires own { IsOwnInRange own.now }
    requires rates { AreRatesInRange rates.now }
    requires candidate { IsCandidateInRange candidate }
    requires divisor { pos divisor.now.rate ≡ rate_for rates.now candidate }
    ensures before { FliesAs own.now rates.now candidate
        (lead_of own.now candidate result.upper) result.leaves }
    ensures after { FliesOn own.now rates.now candidate result.settles }
    ensures near { (result.leaves ≤ result.settles) × (result.settles ≤ result.leaves + 1) }
    ensures level { result.leaves < result.settles
        → (a : ℤ) × (candidate ≡ Candidate.Altitude a) }
    ensures rise { result.leaves < result.settles
        → result.rise ≡ vertical_speed_on own.now rates.now candidate result.leaves }
    ensures way { (k : ℕ) → k < result.leaves
        → IsOnWay own.now rates.now candidate result.upper k }
{
    match candidate {
        Candidate::Hold => Parting {
            upper: true,
            leaves: 0,
            settles: 0,
            rise: 0,
        },
        Candidate::Track(c) => parting_after(turn_away(own.trk, c, rates.turn, divisor)),
        Candidate::GroundSpeed(g) => {
            parting_after(way_to(i64::from(own.gs), i64::from(g), rates.gs, divisor))
        }
        Candidate::VerticalSpeed(w) => {
            parting_after(way_to(i64::from(own.vs), i64::from(w), rates.vs, divisor))
        }
        Candidate::Altitude(a) => {
            let now = feet(own.alt);
            let target = feet(a);
            let way = way_to(now, target, rates.alt, divisor);
            let rise = rest_of(now, target, rates.alt, way);
            if rise == 0 {
                parting_at(way)
            } else {
                parting_short_of(way, rise)
            }
        }
    }
}

/// A track or a speed is that of the leading flight also on the leg after the whole seconds, and
/// then the candidate's.
fn parting_after(way: Way) -> Parting
    requires { way.legs ≤ 7200000 }
    ensures { result ≡ record {
      upper = way.upper;
      leaves = way.legs + 1;
      settles = way.legs + 1;
      rise = pos 0;
    } }
{
    Parting {
        upper: way.upper,
        leaves: way.legs + 1,
        settles: way.legs + 1,
        rise: 0,
    }
}

/// An altitude that is reached after whole seconds needs no leg of the candidate's own.
fn parting_at(way: Way) -> Parting
    ensures { result ≡ record {
      upper = way.upper;
      leaves = way.legs;
      settles = way.legs;
      rise = pos 0;
    } }
{
    Parting {
        upper: way.upper,
        leaves: way.legs,
        settles: way.legs,
        rise: 0,
    }
}

/// Any other is reached on the leg after the whole seconds, by a rise of its own.
fn parting_short_of(way: Way, rise: i64) -> Parting
    requires { way.legs ≤ 7200000 }
    ensures { result ≡ record {
      upper = way.upper;
      leaves = way.legs;
      settles = way.legs + 1;
      rise = rise;
    } }
{
    Parting {
        upper: way.upper,
        leaves: way.legs,
        settles: way.legs + 1,
        rise,
    }
}

/// The turn from a track to another.
#[inline(always)]
fn turn_away(track: i32, c: i32, rate: i32, divisor: &Divisor) -> Way
    requires track { IsFrom (pos 0) (pos 359) track }
    requires c { IsFrom (pos 0) (pos 359) c }
    requires rate { IsFrom (pos 1) (pos 10000) rate }
    requires divisor { pos divisor.now.rate ≡ rate }
    ensures right { IsTrue result.upper → right_angle track c ≤ℤ pos 180 }
    ensures left { result.upper ≡ false → pos 181 ≤ℤ right_angle track c }
    ensures right_legs { IsTrue result.upper → IsWholeLegs (right_angle track c) rate result.legs }
    ensures few { result.legs ≤ 7200000 }
    ensures left_legs { result.upper ≡ false
        → IsWholeLegs (pos 360 -ℤ right_angle track c) rate result.legs }
{
    let right = round(c - track);
    if right <= 180 {
        Way {
            upper: true,
            legs: whole_legs(i64::from(right), rate, divisor),
        }
    } else {
        Way {
            upper: false,
            legs: whole_legs(i64::from(360 - right), rate, divisor),
        }
    }
}

/// The way from a value to another.
#[inline(always)]
fn way_to(now: i64, target: i64, rate: i32, divisor: &Divisor) -> Way
    requires now { IsWithin 3600000 now }
    requires target { IsWithin 3600000 target }
    requires rate { IsFrom (pos 1) (pos 10000) rate }
    requires divisor { pos divisor.now.rate ≡ rate }
    ensures up { IsTrue result.upper → now ≤ℤ target }
    ensures down { result.upper ≡ false → target ≤ℤ now }
    ensures up_legs { IsTrue result.upper → IsWholeLegs (target -ℤ now) rate result.legs }
    ensures few { result.legs ≤ 7200000 }
    ensures down_legs { result.upper ≡ false → IsWholeLegs (now -ℤ target) rate result.legs }
{
    if now <= target {
        Way {
            upper: true,
            legs: whole_legs(target - now, rate, divisor),
        }
    } else {
        Way {
            upper: false,
            legs: whole_legs(now - target, rate, divisor),
        }
    }
}

/// What is left of the way from a value to another after its whole seconds.
fn rest_of(now: i64, target: i64, rate: i32, way: Way) -> i64
    requires now { IsWithin 3600000 now }
    requires target { IsWithin 3600000 target }
    requires rate { IsFrom (pos 1) (pos 10000) rate }
    requires few { way.legs ≤ 7200000 }
    ensures up { IsTrue way.upper → result ≡ (target -ℤ now) -ℤ pos way.legs *ℤ rate }
    ensures down { way.upper ≡ false → result ≡ (target -ℤ now) +ℤ pos way.legs *ℤ rate }
{
    let flown = i64::from(way.legs) * i64::from(rate);
    if way.upper {
        target - now - flown
    } else {
        target - now + flown
    }
}

/// How many whole seconds at a rate fit into a way.
#[inline(always)]
fn whole_legs(way: i64, rate: i32, divisor: &Divisor) -> u32
    requires way { IsFrom (pos 0) (pos 7200000) way }
    requires rate { IsFrom (pos 1) (pos 10000) rate }
    requires divisor { pos divisor.now.rate ≡ rate }
    ensures legs { IsWholeLegs way rate result }
    ensures few { result ≤ 7200000 }
{
    divisor.times_in(way as u32)
}

/// The rate at which the candidate's value changes, made ready.
pub(crate) fn divisor_for(rates: &Rates, candidate: Candidate) -> Divisor
    requires { AreRatesInRange rates.now }
    ensures { pos result.rate ≡ rate_for rates.now candidate }
{
    match candidate {
        Candidate::Hold => Divisor::of(rates.turn),
        Candidate::Track(_) => Divisor::of(rates.turn),
        Candidate::GroundSpeed(_) => Divisor::of(rates.gs),
        Candidate::VerticalSpeed(_) => Divisor::of(rates.vs),
        Candidate::Altitude(_) => Divisor::of(rates.alt),
    }
}
