//! Which aircraft a flight meets, and the level that it shows.

ghost use Rattle.std.specs.Prelude.{◌≡◌, ◌≢◌, pos, IfSome, IfNone, IfOk, IfErr, Some};
ghost use Rattle.daa_closers.specs.Closers.{ArePlacesOf, MeetsWithinLevels};
ghost use Rattle.daa_config.specs.Settings.{IsCandidateInRange};
ghost use Rattle.daa_state.specs.InRange.{IsPictureInRange};
ghost use Rattle.daa_state.specs.Picture.{aircraft_of};
ghost use Rattle.daa_numbers.specs.Closing.{has_value, flight_to, flight_by, AreLevels};
ghost use Rattle.daa_numbers.specs.Closing.{AreClosersUnder, IsValueLevelUnder};
ghost use Rattle.daa_numbers.specs.Closing.{AreNoLevels, HasNoFlight, HasNoLevels};
ghost use Rattle.daa_numbers.specs.Inside.Asked.{IsAsked};
ghost use Rattle.daa_numbers.specs.Inside.Closing.{IsRefusedOfFlight};
ghost use Rattle.daa_numbers.specs.Refusal.{refusal_of, IsCodeOf};
ghost use Rattle.daa_numbers.specs.States.{picture_of};

use crate::asking::config_and_picture;
use crate::codes::{BAD_LEVEL, BAD_VALUE};
use crate::setting::DaaConfig;
use crate::states::DaaTraffic;
use daa_closers::shown_level;
use daa_config::{Candidate, Config, Kind};
use daa_recovery::candidate_going_to;
use daa_state::{Own, Picture};

/// Whether a kind can have a value.
fn has_value(kind: Kind, value: &i32) -> bool
    ensures { result ≡ has_value kind value.now }
{
    match kind {
        Kind::Track => 0 <= *value && *value <= 359,
        Kind::GroundSpeed => 0 <= *value && *value <= 10_000,
        Kind::VerticalSpeed => -10_000 <= *value && *value <= 10_000,
        Kind::Altitude => -2_000 <= *value && *value <= 60_000,
    }
}

/// The flight of a kind to a value, if the kind can have it.
fn flight_to(kind: Kind, value: &i32) -> Option<Candidate>
    ensures value { result ≡ flight_to kind value.now }
    ensures in_range { IfSome result IsCandidateInRange }
{
    if has_value(kind, value) {
        Some(candidate_going_to(kind, value))
    } else {
        None
    }
}

/// The flight of a kind's number and a value.
#[tactic(auto, unfolding(crate::specs::Closing::flight_by))]
fn flight_in(kind: &i32, value: &i32) -> Option<Candidate>
    ensures value { result ≡ flight_by kind.now value.now }
    ensures in_range { IfSome result IsCandidateInRange }
{
    match *kind {
        0 if *value == 0 => Some(Candidate::Hold),
        1 => flight_to(Kind::Track, value),
        2 => flight_to(Kind::GroundSpeed, value),
        3 => flight_to(Kind::VerticalSpeed, value),
        4 => flight_to(Kind::Altitude, value),
        _ => None,
    }
}

/// The configuration, the picture and the flight of these numbers, or the code of what is wrong
/// with them.
fn config_picture_and_flight(
    config: &DaaConfig,
    own: &Own,
    traffic: &[DaaTraffic],
    kind: &i32,
    value: &i32,
) -> Result<(Config, Picture, Candidate), i32>
    ensures asked { IfOk result
        (λ found. IsAsked config.now 0 own.now traffic.now found.0 found.1) }
    ensures flight { IfOk result (λ found. flight_by kind.now value.now ≡ Some found.2) }
    ensures in_range { IfOk result (λ found. IsCandidateInRange found.2) }
    ensures refused { IfErr result
        (IsRefusedOfFlight (refusal_of config.now own.now traffic.now) kind.now value.now) }
{
    let (config, picture) = match config_and_picture(config, 0, own, traffic) {
        Ok(found) => found,
        Err(code) => return Err(code),
    };
    match flight_in(kind, value) {
        Some(candidate) => Ok((config, picture, candidate)),
        None => Err(BAD_VALUE),
    }
}

/// The set of the aircraft that a flight meets at some level from `least` up to `greatest`, if
/// these are levels.
fn closers_of(
    config: &Config,
    picture: &Picture,
    candidate: Candidate,
    least: u32,
    greatest: u32,
) -> Option<u64>
    requires picture { IsPictureInRange picture.now }
    requires candidate { IsCandidateInRange candidate }
    ensures levels { IfSome result (λ places. AreLevels config.now least greatest) }
    ensures places { IfSome result (ArePlacesOf
        (MeetsWithinLevels config.now picture.now.own candidate least greatest)
        (aircraft_of picture.now)) }
    ensures none { IfNone result (AreNoLevels config.now least greatest) }
{
    if least == 0 || greatest < least || config.levels() < greatest {
        return None;
    }
    Some(daa_closers::closers(config, picture, candidate, least, greatest))
}

/// Fills in the set of the aircraft, bit p for the one at place p, that the flight to a value of a
/// kind meets at some level from `least` up to `greatest`. The value may be any that the kind can
/// have; kind and value are 0 for the present flight. Returns 0, or the code of why nothing was
/// filled in.
pub fn closers(
    config: &DaaConfig,
    own: &Own,
    traffic: &[DaaTraffic],
    kind: i32,
    value: i32,
    least: u32,
    greatest: u32,
    places: &mut u64,
) -> i32
    ensures filled { result ≡ pos 0 → AreClosersUnder
        config.now (picture_of 0 own.now traffic.now) kind value least greatest places.new }
    ensures kept { result ≢ pos 0 → places.new ≡ places.old }
    ensures no_flight { result ≡ pos 36
        → HasNoFlight (refusal_of config.now own.now traffic.now) kind value }
    ensures no_levels { result ≡ pos 34 → HasNoLevels
        config.now (refusal_of config.now own.now traffic.now) kind value least greatest }
    ensures refused { result ≢ pos 0 → result ≢ pos 34 → result ≢ pos 36
        → IsCodeOf (refusal_of config.now own.now traffic.now) result }
{
    let (config, picture, candidate) = match config_picture_and_flight(
        config, own, traffic, &kind, &value,
    ) {
        Ok(found) => found,
        Err(code) => return code,
    };
    match closers_of(&config, &picture, candidate, least, greatest) {
        Some(found) => {
            *places = found;
            0
        }
        None => BAD_LEVEL,
    }
}

/// Fills in the level of the flight to a value of a kind, as `levels` fills in that of a candidate:
/// the greatest at which it meets some aircraft, or 0. The value may be any that the kind can have;
/// kind and value are 0 for the present flight. Returns 0, or the code of why nothing was filled
/// in.
pub fn value_level(
    config: &DaaConfig,
    own: &Own,
    traffic: &[DaaTraffic],
    kind: i32,
    value: i32,
    level: &mut u32,
) -> i32
    ensures filled { result ≡ pos 0 → IsValueLevelUnder
        config.now (picture_of 0 own.now traffic.now) kind value level.new }
    ensures kept { result ≢ pos 0 → level.new ≡ level.old }
    ensures no_flight { result ≡ pos 36
        → HasNoFlight (refusal_of config.now own.now traffic.now) kind value }
    ensures refused { result ≢ pos 0 → result ≢ pos 36
        → IsCodeOf (refusal_of config.now own.now traffic.now) result }
{
    let (config, picture, candidate) = match config_picture_and_flight(
        config, own, traffic, &kind, &value,
    ) {
        Ok(found) => found,
        Err(code) => return code,
    };
    *level = shown_level(&config, &picture, candidate);
    0
}
