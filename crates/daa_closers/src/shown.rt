//! The level that a flight shows.

ghost use Rattle.std.specs.Prelude.{◌≡◌, ◌↔◌, ◌≤◌, IsTrue, length};
ghost use Rattle.daa_fixed.specs.Mask.{IsGreatestLevel};
ghost use Rattle.daa_config.specs.Settings.{IsCandidateInRange};
ghost use Rattle.daa_state.specs.InRange.{IsPictureInRange};
ghost use Rattle.daa_closers.specs.Closers.{MeetsSome};

use crate::meeting::{aircraft_at, meets};
use daa_config::{Candidate, Config};
use daa_state::Picture;

/// Whether the flight meets some aircraft of the moment at a level.
fn meets_some_aircraft(config: &Config, picture: &Picture, candidate: Candidate, l: u32) -> bool
    requires picture { IsPictureInRange picture.now }
    requires candidate { IsCandidateInRange candidate }
    requires numbered { 1 ≤ l }
    requires there { l ≤ length config.now.levels }
    ensures { IsTrue result ↔ MeetsSome config.now picture.now candidate l }
{
    for place in 0..picture.traffic.len() as u32 {
        if meets(
            config,
            &picture.own,
            candidate,
            aircraft_at(picture, place),
            l,
        ) {
            return true;
        }
    }
    false
}

/// The greatest level at which the candidate's flight meets some aircraft of the moment, or 0. The
/// candidate's value may be any that its kind can have.
pub fn shown_level(config: &Config, picture: &Picture, candidate: Candidate) -> u32
    requires picture { IsPictureInRange picture.now }
    requires candidate { IsCandidateInRange candidate }
    ensures { IsGreatestLevel
        (MeetsSome config.now picture.now candidate) (length config.now.levels) result }
{
    let mut shown = 0;
    for l in 1..config.levels() + 1 {
        if meets_some_aircraft(config, picture, candidate, l) {
            shown = l;
        }
    }
    shown
}
