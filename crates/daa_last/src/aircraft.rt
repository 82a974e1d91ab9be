//! The aircraft of a moment.

ghost use Rattle.std.specs.Prelude.{◌≡◌, ◌<◌, Some, length, slice_get};
ghost use Rattle.daa_state.specs.InRange.{IsPictureInRange, IsTrafficInRange};
ghost use Rattle.daa_state.specs.Picture.{aircraft_of};

use daa_state::{Picture, Traffic};

/// The aircraft at a place of the moment's list.
pub(crate) fn aircraft_at(picture: &Picture, place: u32) -> &Traffic
    requires picture { IsPictureInRange picture.now }
    requires place { place < length (aircraft_of picture.now) }
    ensures listed { slice_get (aircraft_of picture.now) place ≡ Some result.now }
    ensures in_range { IsTrafficInRange result.now }
{
    &picture.traffic[place as usize]
}
