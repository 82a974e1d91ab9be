//! Sine and cosine of whole degrees, and the velocity along a heading.

ghost use Rattle.std.specs.Prelude.{◌≡◌, ℤ, pos, ◌-ℤ◌, ◌*ℤ◌, int_div};
ghost use Rattle.daa_fixed.specs.Size.{IsFrom, IsWithin};
ghost use Rattle.daa_heading.specs.Heading.{sine_at, sine_of};
ghost use Rattle.daa_heading.specs.Heading.{cosine_of, velocity_of, IsNearCircle};

use daa_fixed::Flat;

/// Sines of 0 to 90 degrees, times 10000.
const SINES: [u16; 91] = [
    0, 175, 349, 523, 698, 872, 1045, 1219, 1392, 1564, 1736, 1908, 2079, 2250, 2419, 2588, 2756,
    2924, 3090, 3256, 3420, 3584, 3746, 3907, 4067, 4226, 4384, 4540, 4695, 4848, 5000, 5150, 5299,
    5446, 5592, 5736, 5878, 6018, 6157, 6293, 6428, 6561, 6691, 6820, 6947, 7071, 7193, 7314, 7431,
    7547, 7660, 7771, 7880, 7986, 8090, 8192, 8290, 8387, 8480, 8572, 8660, 8746, 8829, 8910, 8988,
    9063, 9135, 9205, 9272, 9336, 9397, 9455, 9511, 9563, 9613, 9659, 9703, 9744, 9781, 9816, 9848,
    9877, 9903, 9925, 9945, 9962, 9976, 9986, 9994, 9998, 10000,
];

/// The velocity at a ground speed of 0 to 10000 (in 0.1 knot) and a track of 0 to 359 degrees,
/// clockwise from north. Each axis is the ground speed's share along it, cut toward zero.
#[inline(always)]
pub fn velocity(gs: i32, deg: i32) -> Flat
    requires gs { IsFrom (pos 0) (pos 10000) gs }
    requires deg { IsFrom (pos 0) (pos 359) deg }
    ensures { result ≡ velocity_of gs deg }
{
    let (sine, cosine) = unit(deg);
    velocity_from_unit(gs, sine, cosine)
}

/// The velocity at a ground speed along the track of this sine and cosine, which are times 10000,
/// as `unit` has them.
#[inline(always)]
pub fn velocity_from_unit(gs: i32, sine: i32, cosine: i32) -> Flat
    requires gs { IsFrom (pos 0) (pos 10000) gs }
    requires sine { IsWithin 10000 sine }
    requires cosine { IsWithin 10000 cosine }
    ensures { result ≡ record {
      east = int_div (gs *ℤ sine) (pos 10000);
      north = int_div (gs *ℤ cosine) (pos 10000);
    } }
{
    Flat {
        east: share(gs, sine),
        north: share(gs, cosine),
    }
}

/// Sine and cosine of 0 to 359 degrees, times 10000, as the table has them.
#[inline(always)]
pub fn unit(deg: i32) -> (i32, i32)
    requires { IsFrom (pos 0) (pos 359) deg }
    ensures sine { result.0 ≡ sine_of deg }
    ensures cosine { result.1 ≡ cosine_of deg }
{
    // quarter by quarter: one choice for both
    if deg <= 90 {
        (table_sine(deg), table_sine(90 - deg))
    } else if deg <= 180 {
        (table_sine(180 - deg), lower_sine(deg - 90))
    } else if deg <= 270 {
        (lower_sine(deg - 180), lower_sine(270 - deg))
    } else {
        (lower_sine(360 - deg), table_sine(deg - 270))
    }
}

/// A law of the table: at each of the 360 degrees the squares of sine and cosine add up to
/// 100000000, but for 15000 at most.
pub fn sines_are_near_circle()
    ensures { (deg : ℤ) → IsFrom (pos 0) (pos 359) deg
        → IsNearCircle (sine_of deg) (cosine_of deg) }
{}

/// The part of a speed along an axis, cut toward zero.
fn share(gs: i32, part: i32) -> i64
    requires gs { IsFrom (pos 0) (pos 10000) gs }
    requires part { IsWithin 10000 part }
    ensures { result ≡ int_div (gs *ℤ part) (pos 10000) }
{
    i64::from(gs * part / 10000)
}

/// The sine of 0 to 90 degrees.
fn table_sine(deg: i32) -> i32
    requires { IsFrom (pos 0) (pos 90) deg }
    ensures { result ≡ sine_at deg }
{
    i32::from(SINES[deg as usize])
}

/// The sine of 0 to 90 degrees, with the other sign.
fn lower_sine(deg: i32) -> i32
    requires { IsFrom (pos 0) (pos 90) deg }
    ensures { result ≡ pos 0 -ℤ sine_at deg }
{
    -table_sine(deg)
}
