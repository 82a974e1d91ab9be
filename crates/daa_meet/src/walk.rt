//! A walk along a candidate's flight in runs of seconds with one velocity. Each run, cut at the
//! last second that is asked for, is tested as one leg.

ghost use Rattle.std.specs.Prelude.{◌≡◌, ◌≤◌, ◌↔◌, IsTrue};
ghost use Rattle.daa_taumod.specs.Volume.{IsVolumeInRange};
ghost use Rattle.daa_config.specs.Settings.{IsCandidateInRange, rates_of};
ghost use Rattle.daa_state.specs.InRange.{IsOwnInRange, IsTrafficInRange};
ghost use Rattle.daa_legs.specs.Runs.{MeetsBetween};

use crate::leg::violates_on;
use daa_config::{Candidate, Config};
use daa_legs::{Flight, relative_run};
use daa_state::{Own, Traffic};
use daa_taumod::Volume;

/// Whether the candidate's flight violates the volume round the aircraft at some time of a leg from
/// `first` on, before `upto`, which is at most 180. Leg k is the second from k to k + 1, both ends
/// included; if `upto` is not above `first` there is none.
pub fn meets_between(
    config: &Config,
    own: &Own,
    candidate: Candidate,
    aircraft: &Traffic,
    volume: &Volume,
    first: u32,
    upto: u32,
) -> bool
    requires own { IsOwnInRange own.now }
    requires candidate { IsCandidateInRange candidate }
    requires aircraft { IsTrafficInRange aircraft.now }
    requires volume { IsVolumeInRange volume.now }
    requires upto { upto ≤ 180 }
    ensures { IsTrue result
        ↔ MeetsBetween config.now own.now candidate aircraft.now volume.now first upto }
{
    if upto <= first {
        return false;
    }
    let mut flight = flown_to(config, own, candidate, first);
    let mut k = first;
    while k < upto {
        let run = flight.next_run(upto - k);
        if violates_on(&relative_run(&run, aircraft, k), volume, aircraft, k) {
            return true;
        }
        k += run.secs;
    }
    false
}

/// The candidate's flight after its first legs were taken.
fn flown_to(config: &Config, own: &Own, candidate: Candidate, legs: u32) -> Flight
    requires own { IsOwnInRange own.now }
    requires candidate { IsCandidateInRange candidate }
    requires legs { legs ≤ 180 }
    ensures { result ≡ record {
      own = own.now;
      rates = rates_of config.now;
      candidate = candidate;
      taken = legs;
    } }
{
    let mut flight = Flight::begin(own, config, candidate);
    for _ in 0..legs {
        flight.next_leg();
    }
    flight
}
