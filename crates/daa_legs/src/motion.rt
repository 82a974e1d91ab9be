//! Track, speeds and velocity on leg `k` of a candidate's flight, each from the present one.

ghost use Rattle.std.specs.Prelude.{◌≡◌, ◌<◌, ◌≤◌, ◌+◌, pos, ◌*ℤ◌, ◌-ℤ◌, negsuc};
ghost use Rattle.daa_fixed.specs.Toward.{toward_of};
ghost use Rattle.daa_fixed.specs.Size.{IsFrom, IsWithin};
ghost use Rattle.daa_config.specs.Settings.{IsCandidateInRange, AreRatesInRange};
ghost use Rattle.daa_state.specs.InRange.{IsOwnInRange};
ghost use Rattle.daa_heading.specs.Heading.{sine_of, cosine_of, velocity_of};
ghost use Rattle.daa_legs.specs.Branch.{velocity_there};
ghost use Rattle.daa_legs.specs.Inside.OnWay.{IsOnWay, step_of};
ghost use Rattle.daa_legs.specs.Motion.{track_on, ground_speed_on, vertical_speed_on, velocity_on};

use crate::turn::{round, turn};
use daa_config::{Candidate, Rates};
use daa_fixed::{Flat, Solid, feet, toward};
use daa_heading::{velocity, velocity_from_unit};
use daa_state::Own;

/// The velocity on leg `k`.
#[inline(always)]
pub(crate) fn velocity_at(own: &Own, rates: &Rates, candidate: Candidate, k: u32) -> Solid
    requires own { IsOwnInRange own.now }
    requires rates { AreRatesInRange rates.now }
    requires candidate { IsCandidateInRange candidate }
    requires k { k < 180 }
    ensures { result ≡ velocity_on own.now rates.now candidate k }
{
    Solid {
        flat: velocity(
            ground_speed_at(own, rates, candidate, k),
            track_at(own, rates, candidate, k),
        ),
        up: vertical_speed_at(own, rates, candidate, k),
    }
}

/// The velocity on leg `k` while the candidate's value changes by its rate each second, where the
/// present way over ground of a second is known, and the sine and cosine of the present track.
#[inline(always)]
pub(crate) fn velocity_on_way(
    own: &Own,
    rates: &Rates,
    candidate: Candidate,
    upper: bool,
    k: u32,
    present: &Flat,
    track: (i32, i32),
) -> Solid
    requires own { IsOwnInRange own.now }
    requires rates { AreRatesInRange rates.now }
    requires candidate { IsCandidateInRange candidate }
    requires k { k < 180 }
    requires present { present.now ≡ velocity_of own.now.gs own.now.trk }
    requires sine { track.0 ≡ sine_of own.now.trk }
    requires cosine { track.1 ≡ cosine_of own.now.trk }
    requires way { IsOnWay own.now rates.now candidate upper k }
    ensures { result ≡ velocity_on own.now rates.now candidate k }
{
    match candidate {
        Candidate::Hold => solid_velocity(present, own.vs),
        Candidate::Track(_) => {
            let track = round(own.trk + steps(k, rates.turn, upper));
            velocity_along(own.gs, track, own.vs)
        }
        Candidate::GroundSpeed(_) => {
            let gs = own.gs + steps(k, rates.gs, upper);
            velocity_at_speed(own, gs, track)
        }
        Candidate::VerticalSpeed(_) => solid_velocity(present, own.vs + steps(k, rates.vs, upper)),
        Candidate::Altitude(_) => solid_velocity(present, steps(1, rates.alt, upper)),
    }
}

/// What so many seconds change at a rate, to the right or up, or else to the left or down.
#[inline(always)]
fn steps(secs: u32, rate: i32, upper: bool) -> i32
    requires secs { secs ≤ 180 }
    requires rate { IsFrom (pos 1) (pos 10000) rate }
    ensures value { result ≡ pos secs *ℤ step_of upper rate }
    ensures size { IsWithin 1800000 result }
{
    secs as i32 * step(rate, upper)
}

/// What a second changes at a rate.
#[inline(always)]
fn step(rate: i32, upper: bool) -> i32
    requires { IsFrom (pos 1) (pos 10000) rate }
    ensures value { result ≡ step_of upper rate }
    ensures size { IsWithin 10000 result }
{
    if upper { rate } else { -rate }
}

/// The velocity at a ground speed along the present track, whose sine and cosine are known.
#[inline(always)]
fn velocity_at_speed(own: &Own, gs: i32, track: (i32, i32)) -> Solid
    requires own { IsOwnInRange own.now }
    requires gs { IsFrom (pos 0) (pos 10000) gs }
    requires sine { track.0 ≡ sine_of own.now.trk }
    requires cosine { track.1 ≡ cosine_of own.now.trk }
    ensures { result ≡ record { flat = velocity_of gs own.now.trk; up = own.now.vs } }
{
    solid_velocity(&velocity_from_unit(gs, track.0, track.1), own.vs)
}

/// The velocity on leg `k`, where the present way over ground of a second is known.
#[inline(always)]
pub(crate) fn velocity_from(
    own: &Own,
    rates: &Rates,
    candidate: Candidate,
    k: u32,
    present: &Flat,
) -> Solid
    requires own { IsOwnInRange own.now }
    requires rates { AreRatesInRange rates.now }
    requires candidate { IsCandidateInRange candidate }
    requires k { k < 180 }
    requires present { present.now ≡ velocity_of own.now.gs own.now.trk }
    ensures { result ≡ velocity_on own.now rates.now candidate k }
{
    match candidate {
        Candidate::Track(_) => velocity_at(own, rates, candidate, k),
        Candidate::GroundSpeed(_) => velocity_at(own, rates, candidate, k),
        _ => Solid {
            flat: *present,
            up: vertical_speed_at(own, rates, candidate, k),
        },
    }
}

/// The velocity once the candidate's value is reached, where the present way over ground of a
/// second is known.
#[inline(always)]
pub(crate) fn velocity_at_end(own: &Own, candidate: Candidate, present: &Flat) -> Solid
    requires own { IsOwnInRange own.now }
    requires candidate { IsCandidateInRange candidate }
    requires present { present.now ≡ velocity_of own.now.gs own.now.trk }
    ensures { result ≡ velocity_there own.now candidate }
{
    match candidate {
        Candidate::Hold => solid_velocity(present, own.vs),
        Candidate::Track(c) => velocity_along(own.gs, c, own.vs),
        Candidate::GroundSpeed(g) => velocity_along(g, own.trk, own.vs),
        Candidate::VerticalSpeed(w) => solid_velocity(present, w),
        Candidate::Altitude(_) => solid_velocity(present, 0),
    }
}

/// The velocity of a way over ground of a second and a vertical speed.
#[inline(always)]
fn solid_velocity(way: &Flat, up: i32) -> Solid
    ensures { result ≡ record { flat = way.now; up = up } }
{
    Solid {
        flat: *way,
        up: i64::from(up),
    }
}

/// The velocity of a ground speed, a track and a vertical speed.
#[inline(always)]
fn velocity_along(gs: i32, track: i32, up: i32) -> Solid
    requires gs { IsFrom (pos 0) (pos 10000) gs }
    requires track { IsFrom (pos 0) (pos 359) track }
    ensures { result ≡ record { flat = velocity_of gs track; up = up } }
{
    solid_velocity(&velocity(gs, track), up)
}

/// The track in degrees on leg `k`.
fn track_at(own: &Own, rates: &Rates, candidate: Candidate, k: u32) -> i32
    requires own { IsOwnInRange own.now }
    requires rates { AreRatesInRange rates.now }
    requires candidate { IsCandidateInRange candidate }
    requires k { k < 180 }
    ensures value { result ≡ track_on own.now rates.now candidate k }
    ensures in_range { IsFrom (pos 0) (pos 359) result }
{
    match candidate {
        Candidate::Track(c) => turn(own.trk, c, k as i32 * rates.turn),
        _ => own.trk,
    }
}

/// The ground speed in 0.1 kt on leg `k`.
fn ground_speed_at(own: &Own, rates: &Rates, candidate: Candidate, k: u32) -> i32
    requires own { IsOwnInRange own.now }
    requires rates { AreRatesInRange rates.now }
    requires candidate { IsCandidateInRange candidate }
    requires k { k < 180 }
    ensures value { result ≡ ground_speed_on own.now rates.now candidate k }
    ensures in_range { IsFrom (pos 0) (pos 10000) result }
{
    match candidate {
        Candidate::GroundSpeed(g) => speed_after(own.gs, g, rates.gs, k) as i32,
        _ => own.gs,
    }
}

/// The vertical speed in ft/min on leg `k`.
fn vertical_speed_at(own: &Own, rates: &Rates, candidate: Candidate, k: u32) -> i64
    requires own { IsOwnInRange own.now }
    requires rates { AreRatesInRange rates.now }
    requires candidate { IsCandidateInRange candidate }
    requires k { k < 180 }
    ensures value { result ≡ vertical_speed_on own.now rates.now candidate k }
    ensures size { IsWithin 10000 result }
{
    match candidate {
        Candidate::VerticalSpeed(w) => speed_after(own.vs, w, rates.vs, k),
        Candidate::Altitude(a) => rise(own.alt, a, rates.alt, k),
        _ => i64::from(own.vs),
    }
}

/// A speed moved toward another at a rate per second, for `k` seconds.
fn speed_after(now: i32, target: i32, rate: i32, k: u32) -> i64
    requires now { IsFrom (negsuc 9999) (pos 10000) now }
    requires target { IsFrom (negsuc 9999) (pos 10000) target }
    requires rate { IsFrom (pos 1) (pos 10000) rate }
    requires k { k < 180 }
    ensures { result ≡ toward_of now target (pos k *ℤ rate) }
{
    toward_after(i64::from(now), i64::from(target), rate, k)
}

/// What second `k` rises, in units, on the way from one altitude to another.
fn rise(alt: i32, a: i32, rate: i32, k: u32) -> i64
    requires alt { IsFrom (negsuc 1999) (pos 60000) alt }
    requires a { IsFrom (negsuc 1999) (pos 60000) a }
    requires rate { IsFrom (pos 1) (pos 10000) rate }
    requires k { k < 180 }
    ensures value { result ≡ toward_of (pos 60 *ℤ alt) (pos 60 *ℤ a)
        (pos (k + 1) *ℤ rate) -ℤ toward_of (pos 60 *ℤ alt) (pos 60 *ℤ a) (pos k *ℤ rate) }
    ensures size { IsWithin 10000 result }
{
    toward_after(feet(alt), feet(a), rate, k + 1) - toward_after(feet(alt), feet(a), rate, k)
}

/// A value moved toward another at a rate per second, for `k` seconds.
fn toward_after(now: i64, target: i64, rate: i32, k: u32) -> i64
    requires now { IsWithin 3600000 now }
    requires target { IsWithin 3600000 target }
    requires rate { IsFrom (pos 1) (pos 10000) rate }
    requires k { k ≤ 180 }
    ensures { result ≡ toward_of now target (pos k *ℤ rate) }
{
    toward(now, target, i64::from(k) * i64::from(rate))
}
