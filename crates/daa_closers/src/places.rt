//! The aircraft that a flight meets.

ghost use Rattle.std.specs.Prelude.{◌≡◌, ◌↔◌, ◌<◌, ◌≤◌, ◌^◌, IsTrue, bit_or, length};
ghost use Rattle.daa_config.specs.Settings.{IsCandidateInRange};
ghost use Rattle.daa_state.specs.InRange.{IsOwnInRange, IsPictureInRange, IsTrafficInRange};
ghost use Rattle.daa_state.specs.Picture.{aircraft_of};
ghost use Rattle.daa_closers.specs.Closers.{MeetsWithinLevels, ArePlacesOf};

use crate::meeting::{aircraft_at, meets};
use daa_config::{Candidate, Config};
use daa_state::{Own, Picture, Traffic};

/// Whether the flight meets the aircraft at some level from `least` up to `greatest`.
fn meets_some(
    config: &Config,
    own: &Own,
    candidate: Candidate,
    aircraft: &Traffic,
    least: u32,
    greatest: u32,
) -> bool
    requires own { IsOwnInRange own.now }
    requires candidate { IsCandidateInRange candidate }
    requires aircraft { IsTrafficInRange aircraft.now }
    requires numbered { 1 ≤ least }
    requires there { greatest ≤ length config.now.levels }
    ensures { IsTrue result
        ↔ MeetsWithinLevels config.now own.now candidate least greatest aircraft.now }
{
    let _levels = config.levels();
    for l in least..greatest + 1 {
        if meets(config, own, candidate, aircraft, l) {
            return true;
        }
    }
    false
}

/// A set of places with one more.
fn with_place(places: u64, place: u32) -> u64
    requires { place < 64 }
    ensures { result ≡ bit_or places (2 ^ place) }
{
    places | 1 << place
}

/// The aircraft that the candidate's flight meets at some level from `least` up to `greatest`: bit
/// p stands for the one at place p. The candidate's value may be any that its kind can have.
pub fn closers(
    config: &Config,
    picture: &Picture,
    candidate: Candidate,
    least: u32,
    greatest: u32,
) -> u64
    requires picture { IsPictureInRange picture.now }
    requires candidate { IsCandidateInRange candidate }
    requires numbered { 1 ≤ least }
    requires there { greatest ≤ length config.now.levels }
    ensures { ArePlacesOf
        (MeetsWithinLevels config.now picture.now.own candidate least greatest)
        (aircraft_of picture.now) result }
{
    let mut places = 0;
    for place in 0..picture.traffic.len() as u32 {
        let aircraft = aircraft_at(picture, place);
        if meets_some(config, &picture.own, candidate, aircraft, least, greatest) {
            places = with_place(places, place);
        }
    }
    places
}
