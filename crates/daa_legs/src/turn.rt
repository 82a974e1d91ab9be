//! Turns between tracks, in degrees clockwise from north.

ghost use Rattle.std.specs.Prelude.{◌≡◌, pos, negsuc};
ghost use Rattle.std.specs.Int.{int_rem_euclid};
ghost use Rattle.daa_fixed.specs.Size.{IsFrom};
ghost use Rattle.daa_legs.specs.Turn.{turned};

/// The track turned toward `c` by at most `most` degrees, to the right where `c` is at most 180
/// degrees to the right.
pub(crate) fn turn(track: i32, c: i32, most: i32) -> i32
    requires track { IsFrom (pos 0) (pos 359) track }
    requires c { IsFrom (pos 0) (pos 359) c }
    requires most { IsFrom (pos 0) (pos 5400) most }
    ensures value { result ≡ turned track c most }
    ensures in_range { IsFrom (pos 0) (pos 359) result }
{
    let right = (c - track).rem_euclid(360);
    if right <= 180 {
        (track + most.min(right)).rem_euclid(360)
    } else {
        (track - most.min(360 - right)).rem_euclid(360)
    }
}

/// An angle less than a full turn below 0 or past 359, taken round the circle, without a division.
#[inline(always)]
pub(crate) fn round(angle: i32) -> i32
    requires { IsFrom (negsuc 359) (pos 719) angle }
    ensures value { result ≡ int_rem_euclid angle (pos 360) }
    ensures in_range { IsFrom (pos 0) (pos 359) result }
{
    if angle < 0 {
        angle + 360
    } else if angle < 360 {
        angle
    } else {
        angle - 360
    }
}
