//! Worked vertical windows. The unit of heights is 1/60 foot, and that of vertical speeds a foot a
//! minute.

ghost use Rattle.std.specs.Prelude.{◌<◌, ◌≤◌, unsigned_abs};
ghost use Rattle.daa_fixed.specs.Leg.{IsLegInRange};

use super::*;
use daa_fixed::{Flat, Leg, Point, Solid};
use daa_taumod::{Model, Volume};
use std::test::Fail;

const ORIGIN: Flat = Flat { east: 0, north: 0 };

const FOOT: Volume = Volume {
    dthr: 0,
    zthr: 60,
    tthr: 0,
    tcoa: 0,
    model: Model::Taumod,
};

fn leg(up: i64, speed: i64, secs: u32) -> Leg
    requires up { unsigned_abs up < 40000000 }
    requires speed { unsigned_abs speed < 40000 }
    requires some { 1 ≤ secs }
    requires short { secs ≤ 180 }
    ensures { IsLegInRange result }
{
    Leg {
        place: Solid { flat: ORIGIN, up },
        velocity: Solid {
            flat: ORIGIN,
            up: speed,
        },
        secs,
    }
}

fn is_at(point: &Point, (num, den): (i64, i64)) -> bool {
    point.num as i128 * den as i128 == num as i128 * point.den as i128
}

fn is_from(found: Option<(Point, Point)>, begin: (i64, i64), end: (i64, i64)) -> bool {
    match found {
        Some((p, q)) => is_at(&p, begin) && is_at(&q, end),
        None => false,
    }
}

// 25 feet below at 3000 feet a minute: within a foot from 0.48 to 0.52 seconds, whichever of the
// two climbs.
#[test]
fn passes_within_a_foot(rt: HostRuntime) -> Result<(), Fail> {
    assert!(rt; is_from(window(&leg(-1500, 3000, 1), &FOOT), (12, 25), (13, 25)));
    assert!(rt; is_from(window(&leg(1500, -3000, 1), &FOOT), (12, 25), (13, 25)));
    assert!(rt; window(&leg(-1500, 0, 1), &FOOT).is_none());
    assert!(rt; window(&leg(-1500, -3000, 180), &FOOT).is_none());
    Ok(())
}

#[test]
fn level_flight_counts_all_along_or_never(rt: HostRuntime) -> Result<(), Fail> {
    assert!(rt; is_from(window(&leg(60, 0, 180), &FOOT), (0, 1), (180, 1)));
    assert!(rt; is_from(window(&leg(-60, 0, 1), &FOOT), (0, 1), (1, 1)));
    assert!(rt; window(&leg(61, 0, 180), &FOOT).is_none());
    Ok(())
}

// 440 feet below at 3000 feet a minute, with 100 feet: from 6.8 to 10.8 seconds. The seventh second
// alone, from 140 feet below on, counts from its 0.8 on.
#[test]
fn ends_within_the_leg_or_with_it(rt: HostRuntime) -> Result<(), Fail> {
    let hundred_feet = Volume { zthr: 6000, ..FOOT };
    assert!(rt;
        is_from(
            window(&leg(-26400, 3000, 15), &hundred_feet),
            (34, 5),
            (54, 5)
        )
    );
    assert!(rt; is_from(window(&leg(-8400, 3000, 1), &hundred_feet), (4, 5), (1, 1)));
    assert!(rt; window(&leg(-8400, 2399, 1), &hundred_feet).is_none());
    assert!(rt; is_from(window(&leg(-8400, 2400, 1), &hundred_feet), (1, 1), (1, 1)));
    Ok(())
}

// 500 feet below at 1000 feet a minute, co-altitude is 30 seconds off. With 20 seconds and no
// height it counts from 10 seconds until then; with a foot, a foot above still counts, and a climb
// away from there does not.
#[test]
fn time_to_co_altitude(rt: HostRuntime) -> Result<(), Fail> {
    let same_height = Volume {
        zthr: 0,
        tcoa: 20,
        ..FOOT
    };
    let within_a_foot = Volume { tcoa: 20, ..FOOT };
    assert!(rt;
        is_from(
            window(&leg(-30000, 1000, 180), &same_height),
            (10, 1),
            (30, 1)
        )
    );
    assert!(rt;
        is_from(
            window(&leg(-30000, 1000, 180), &within_a_foot),
            (10, 1),
            (1503, 50)
        )
    );
    assert!(rt; window(&leg(61, 1000, 180), &within_a_foot).is_none());
    assert!(rt; window(&leg(-30000, 1000, 9), &same_height).is_none());
    Ok(())
}

// 39999 a second is 4799880 in 120 seconds; 600000 below are reached after the leg.
#[test]
fn largest_numbers(rt: HostRuntime) -> Result<(), Fail> {
    let largest = Volume {
        zthr: 600000,
        tcoa: 120,
        ..FOOT
    };
    assert!(rt;
        is_from(
            window(&leg(7000000, -39999, 180), &largest),
            (2200120, 39999),
            (180, 1)
        )
    );
    assert!(rt; window(&leg(39999999, -39999, 180), &largest).is_none());
    assert!(rt; window(&leg(-39999999, -39999, 180), &largest).is_none());
    Ok(())
}
