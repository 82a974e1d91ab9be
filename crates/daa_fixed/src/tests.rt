//! Worked values of the public calls.

use super::*;
use std::test::Fail;

const NORTH: Flat = Flat {
    east: 0,
    north: 3600,
};

fn is_point(p: &Point, num: i64, den: i64) -> bool {
    p.num == num && p.den == den
}

#[test]
fn products_of_vectors(rt: HostRuntime) -> Result<(), Fail> {
    let place = Flat { east: -3, north: 4 };
    assert_eq!(rt; dot(&place, &NORTH), 14400);
    assert_eq!(rt; cross(&place, &NORTH), -10800);
    assert_eq!(rt; cross(&NORTH, &place), 10800);
    assert_eq!(rt; square(&place), 25);
    Ok(())
}

// One nautical mile is 36000 units and a thousand feet are 60000.
#[test]
fn units_of_the_plane(rt: HostRuntime) -> Result<(), Fail> {
    assert_eq!(rt; mils(1000), 36000);
    assert_eq!(rt; mils(-200000), -7200000);
    assert_eq!(rt; feet(1000), 60000);
    assert_eq!(rt; feet(-2000), -120000);
    Ok(())
}

// An altitude of 1000 ft that goes to 1040 ft by at most 1000 units each second.
#[test]
fn toward_arrives_and_stays(rt: HostRuntime) -> Result<(), Fail> {
    for (rate, want) in [
        (0, 60000),
        (1000, 61000),
        (2000, 62000),
        (3000, 62400),
        (4000, 62400),
    ] {
        assert_eq!(rt; toward(60000, 62400, rate), want, "at {rate}");
    }
    assert_eq!(rt; toward(62400, 60000, 1000), 61400);
    toward_is_nearest();
    Ok(())
}

#[test]
fn fractions_by_order(rt: HostRuntime) -> Result<(), Fail> {
    let third = Point { num: 1, den: 3 };
    let half = Point { num: 1, den: 2 };
    let two_fourths = Point { num: 2, den: 4 };
    assert!(rt; before(&third, &half));
    assert!(rt; !before(&half, &third));
    assert!(rt; !before(&half, &two_fourths));
    assert!(rt; is_point(&later(&third, &half), 1, 2));
    assert!(rt; is_point(&later(&half, &third), 1, 2));
    assert!(rt; is_point(&earlier(&third, &half), 1, 3));
    assert!(rt; is_point(&earlier(&half, &third), 1, 3));
    Ok(())
}

// Of two equal fractions both answer the first.
#[test]
fn equal_fractions_give_the_first(rt: HostRuntime) -> Result<(), Fail> {
    let half = Point { num: 1, den: 2 };
    let two_fourths = Point { num: 2, den: 4 };
    assert!(rt; is_point(&later(&half, &two_fourths), 1, 2));
    assert!(rt; is_point(&later(&two_fourths, &half), 2, 4));
    assert!(rt; is_point(&earlier(&half, &two_fourths), 1, 2));
    assert!(rt; is_point(&earlier(&two_fourths, &half), 2, 4));
    Ok(())
}

fn may_be_sent<T: Send>() {}

// The check refuses a type that may not be sent between threads.
#[test]
fn values_may_be_sent() {
    may_be_sent::<Flat>();
    may_be_sent::<Solid>();
    may_be_sent::<Leg>();
    may_be_sent::<Point>();
}
