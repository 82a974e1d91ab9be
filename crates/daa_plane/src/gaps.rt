//! How an aircraft's latitude and longitude differ from the ownship's.

ghost use Rattle.std.specs.Prelude.{◌≡◌, true};
ghost use Rattle.daa_fixed.specs.Size.{IsWithin};
ghost use Rattle.daa_plane.specs.Inside.Sizes.{IsWide};
ghost use Rattle.daa_plane.specs.Gaps.{short_way, middle_of, gap_of};
ghost use Rattle.daa_plane.specs.Sight.{is_place};

use crate::place::Place;
use crate::sines::{cosine_of, sine_of};

/// Half a turn, in ten-millionths of a degree.
const HALF_TURN: i64 = 1_800_000_000;

/// The differences of latitude and longitude, and sine and cosine of the latitude in the middle.
#[derive(Clone, Copy)]
pub(crate) struct Gap {
    pub(crate) lat: i64,
    pub(crate) lon: i64,
    pub(crate) sine: i64,
    pub(crate) cosine: i64,
}

/// A difference of longitudes the short way round the globe.
fn short_way(lon: i64) -> i64
    requires { IsWithin 3600000000 lon }
    ensures value { result ≡ short_way lon }
    ensures size { IsWithin 1800000000 result }
{
    (lon + HALF_TURN).rem_euclid(2 * HALF_TURN) - HALF_TURN
}

/// The latitude in the middle between two.
fn middle_of(lat: i64, other: i64) -> i64
    requires lat { IsWithin 800000000 lat }
    requires other { IsWithin 800000000 other }
    ensures value { result ≡ middle_of lat other }
    ensures size { IsWithin 800000000 result }
{
    (lat + other).div_euclid(2)
}

/// How an aircraft's place differs from the ownship's.
pub(crate) fn gap_of(own: &Place, aircraft: &Place) -> Gap
    requires own { is_place own.now ≡ true }
    requires aircraft { is_place aircraft.now ≡ true }
    ensures value { result ≡ gap_of own.now aircraft.now }
    ensures size { IsWide result }
{
    let middle = middle_of(i64::from(own.lat), i64::from(aircraft.lat));
    Gap {
        lat: i64::from(aircraft.lat) - i64::from(own.lat),
        lon: short_way(i64::from(aircraft.lon) - i64::from(own.lon)),
        sine: sine_of(middle),
        cosine: cosine_of(middle),
    }
}
