//! Calls on places on the globe.

ghost use Rattle.std.specs.Prelude.{◌≡◌, ◌≢◌, pos, true, false};
ghost use Rattle.daa_plane.specs.Courses.{IsCourse};
ghost use Rattle.daa_plane.specs.Sight.{is_own_place, is_in_sight, is_slow};
ghost use Rattle.daa_plane.specs.Sight.{IsSeen, IsFar, IsTooFast};

use daa_plane::{Course, Place, Seen};

/// Fills in the track and the ground speed of an ownship in the plane round it, and by how much
/// that plane is turned. Returns 0, or the code of why nothing was filled in.
#[unsafe(no_mangle)]
pub extern "C" fn daa_plane_own(own: &Place, out: &mut Course) -> i32
    ensures filled { result ≡ pos 0 → IsCourse own.now out.new }
    ensures kept { result ≢ pos 0 → out.new ≡ out.old }
    ensures refused { result ≢ pos 0 → (result ≡ pos 16) × (is_own_place own.now ≡ false) }
{
    daa_plane::plane_own(own, out)
}

/// Fills in an aircraft in the plane round an ownship, which is at 0 0, turned so that the
/// ownship's track is a whole degree. Returns 0, or the code of why nothing was filled in.
#[unsafe(no_mangle)]
pub extern "C" fn daa_plane(own: &Place, aircraft: &Place, out: &mut Seen) -> i32
    ensures filled { result ≡ pos 0 → IsSeen own.now aircraft.now out.new }
    ensures in_sight { result ≡ pos 0 → is_in_sight out.new ≡ true }
    ensures slow { result ≡ pos 0 → is_slow out.new ≡ true }
    ensures kept { result ≢ pos 0 → out.new ≡ out.old }
    ensures own { result ≡ pos 16 → is_own_place own.now ≡ false }
    ensures traffic { result ≡ pos 17 → IsTooFast own.now aircraft.now }
    ensures far { result ≡ pos 37 → IsFar own.now aircraft.now }
    ensures codes { result ≢ pos 0 → result ≢ pos 16 → result ≢ pos 17 → result ≡ pos 37 }
{
    daa_plane::plane(own, aircraft, out)
}
