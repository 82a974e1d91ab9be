//! Sines and cosines, times ten million, of angles in ten-millionths of a degree.

ghost use Rattle.std.specs.Prelude.{◌≡◌, pos};
ghost use Rattle.daa_fixed.specs.Size.{IsFrom, IsWithin};
ghost use Rattle.daa_plane.specs.Inside.Sizes.{IsDirection};
ghost use Rattle.daa_plane.specs.Sines.{sine_at, direction_of, degree_of, arc_of};
ghost use Rattle.daa_plane.specs.Sines.{sine_past, upper_sine, sine_of, cosine_of};

use crate::rounding::{ONE, nearest, part};

/// A right angle, in ten-millionths of a degree.
const RIGHT_ANGLE: i64 = 900_000_000;

/// A ten-millionth of a degree is so many ten-millionths of a ten-millionth of a radian.
const RADIANS: i64 = 174_533;

/// Sines of 0 to 90 degrees.
const SINES: [u32; 91] = [
    0, 174_524, 348_995, 523_360, 697_565, 871_557, 1_045_285, 1_218_693, 1_391_731, 1_564_345,
    1_736_482, 1_908_090, 2_079_117, 2_249_511, 2_419_219, 2_588_190, 2_756_374, 2_923_717,
    3_090_170, 3_255_682, 3_420_201, 3_583_679, 3_746_066, 3_907_311, 4_067_366, 4_226_183,
    4_383_711, 4_539_905, 4_694_716, 4_848_096, 5_000_000, 5_150_381, 5_299_193, 5_446_390,
    5_591_929, 5_735_764, 5_877_853, 6_018_150, 6_156_615, 6_293_204, 6_427_876, 6_560_590,
    6_691_306, 6_819_984, 6_946_584, 7_071_068, 7_193_398, 7_313_537, 7_431_448, 7_547_096,
    7_660_444, 7_771_460, 7_880_108, 7_986_355, 8_090_170, 8_191_520, 8_290_376, 8_386_706,
    8_480_481, 8_571_673, 8_660_254, 8_746_197, 8_829_476, 8_910_065, 8_987_940, 9_063_078,
    9_135_455, 9_205_049, 9_271_839, 9_335_804, 9_396_926, 9_455_186, 9_510_565, 9_563_048,
    9_612_617, 9_659_258, 9_702_957, 9_743_701, 9_781_476, 9_816_272, 9_848_078, 9_876_883,
    9_902_681, 9_925_462, 9_945_219, 9_961_947, 9_975_641, 9_986_295, 9_993_908, 9_998_477,
    10_000_000,
];

/// A direction: its eastward and northward parts.
#[derive(Clone, Copy)]
pub(crate) struct Direction {
    pub(crate) east: i64,
    pub(crate) north: i64,
}

/// The sine of a whole degree from 0 to 90.
fn sine_at(degree: i64) -> i64
    requires { IsFrom (pos 0) (pos 90) degree }
    ensures value { result ≡ sine_at degree }
    ensures size { IsFrom (pos 0) (pos 10000000) result }
{
    i64::from(SINES[degree as usize])
}

/// The direction of a whole degree from 0 to 359, clockwise from north.
pub(crate) fn direction_of(degree: i64) -> Direction
    requires { IsFrom (pos 0) (pos 359) degree }
    ensures value { result ≡ direction_of degree }
    ensures size { IsDirection result }
{
    if degree <= 90 {
        Direction {
            east: sine_at(degree),
            north: sine_at(90 - degree),
        }
    } else if degree <= 180 {
        Direction {
            east: sine_at(180 - degree),
            north: -sine_at(degree - 90),
        }
    } else if degree <= 270 {
        Direction {
            east: -sine_at(degree - 180),
            north: -sine_at(270 - degree),
        }
    } else {
        Direction {
            east: -sine_at(360 - degree),
            north: sine_at(degree - 270),
        }
    }
}

/// The whole degree nearest to an angle.
fn degree_of(angle: i64) -> i64
    requires { IsFrom (pos 0) (pos 900000000) angle }
    ensures value { result ≡ degree_of angle }
    ensures size { IsFrom (pos 0) (pos 90) result }
{
    nearest(angle, ONE)
}

/// The arc from that degree on to the angle, in ten-millionths of a radian.
fn arc_of(angle: i64) -> i64
    requires { IsFrom (pos 0) (pos 900000000) angle }
    ensures value { result ≡ arc_of angle }
    ensures size { IsWithin 100000 result }
{
    part(angle - ONE * degree_of(angle), RADIANS)
}

/// The sine of an angle of a whole degree and an arc.
fn sine_past(degree: i64, arc: i64) -> i64
    requires degree { IsFrom (pos 0) (pos 90) degree }
    requires arc { IsWithin 100000 arc }
    ensures value { result ≡ sine_past degree arc }
    ensures size { IsWithin 10200000 result }
{
    let bent = nearest(part(arc, arc), 2);
    sine_at(degree) + part(sine_at(90 - degree), arc) - part(sine_at(degree), bent)
}

/// The sine of an angle from 0 to 90 degrees.
fn upper_sine(angle: i64) -> i64
    requires { IsFrom (pos 0) (pos 900000000) angle }
    ensures value { result ≡ upper_sine angle }
    ensures size { IsWithin 10200000 result }
{
    sine_past(degree_of(angle), arc_of(angle))
}

/// The sine of an angle from -90 to 90 degrees.
pub(crate) fn sine_of(angle: i64) -> i64
    requires { IsWithin 900000000 angle }
    ensures value { result ≡ sine_of angle }
    ensures size { IsWithin 10200000 result }
{
    if angle < 0 {
        -upper_sine(-angle)
    } else {
        upper_sine(angle)
    }
}

/// The cosine of an angle from -90 to 90 degrees.
pub(crate) fn cosine_of(angle: i64) -> i64
    requires { IsWithin 900000000 angle }
    ensures value { result ≡ cosine_of angle }
    ensures size { IsWithin 10200000 result }
{
    if angle < 0 {
        upper_sine(RIGHT_ANGLE + angle)
    } else {
        upper_sine(RIGHT_ANGLE - angle)
    }
}
