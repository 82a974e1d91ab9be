//! Whether a flight meets one aircraft.

ghost use Rattle.std.specs.Prelude.{◌≡◌, ◌↔◌, ◌<◌, ◌≤◌, IsTrue, Some, length, slice_get};
ghost use Rattle.daa_config.specs.Settings.{IsCandidateInRange};
ghost use Rattle.daa_state.specs.InRange.{IsOwnInRange, IsPictureInRange, IsTrafficInRange};
ghost use Rattle.daa_state.specs.Picture.{aircraft_of};
ghost use Rattle.daa_legs.specs.Meeting.{Meets};

use daa_config::{Candidate, Config};
use daa_meet::meets_between;
use daa_state::{Own, Picture, Traffic};

/// Whether the flight meets the aircraft at a level.
pub(crate) fn meets(
    config: &Config,
    own: &Own,
    candidate: Candidate,
    aircraft: &Traffic,
    l: u32,
) -> bool
    requires own { IsOwnInRange own.now }
    requires candidate { IsCandidateInRange candidate }
    requires aircraft { IsTrafficInRange aircraft.now }
    requires numbered { 1 ≤ l }
    requires there { l ≤ length config.now.levels }
    ensures { IsTrue result ↔ Meets config.now own.now candidate aircraft.now l }
{
    let level = config.level(l);
    meets_between(
        config,
        own,
        candidate,
        aircraft,
        &level.volume,
        0,
        level.lookahead,
    )
}

/// The aircraft at a place of the moment's list.
pub(crate) fn aircraft_at(picture: &Picture, place: u32) -> &Traffic
    requires picture { IsPictureInRange picture.now }
    requires place { place < length (aircraft_of picture.now) }
    ensures listed { slice_get (aircraft_of picture.now) place ≡ Some result.now }
    ensures in_range { IsTrafficInRange result.now }
{
    &picture.traffic[place as usize]
}
