//! Worked legs. The horizontal unit is 1/36000 nautical mile: 23760 units are 0.66 miles, and 3600
//! a second are 360 knots. The vertical unit is 1/60 foot, and one a second is a foot a minute.

ghost use Rattle.std.specs.Prelude.{◌≡◌, ◌<◌, ◌≤◌, unsigned_abs};
ghost use Rattle.daa_fixed.specs.Leg.{IsLegInRange, IsSolidBelow};
ghost use Rattle.daa_taumod.specs.Volume.{IsVolumeInRange};

use daa_detect::{hits, is_hit};
use daa_fixed::{Flat, Leg, Point, Solid, before, dot, square};
use daa_taumod::{Model, Volume, violates};
use daa_vwindow::window;
use std::test::Fail;

const CYLINDER: Volume = Volume {
    dthr: 23760,
    zthr: 27000,
    tthr: 0,
    tcoa: 0,
    model: Model::Taumod,
};

const NORTHWARD: Solid = Solid {
    flat: Flat {
        east: 0,
        north: 3600,
    },
    up: 0,
};

const STILL: Solid = Solid {
    flat: Flat { east: 0, north: 0 },
    up: 0,
};

fn solid(east: i64, north: i64, up: i64) -> Solid
    ensures east { result.flat.east ≡ east }
    ensures north { result.flat.north ≡ north }
    ensures up { result.up ≡ up }
{
    Solid {
        flat: Flat { east, north },
        up,
    }
}

fn leg(place: &Solid, velocity: &Solid, secs: u32) -> Leg
    requires place { IsSolidBelow 40000000 place.now }
    requires velocity { IsSolidBelow 40000 velocity.now }
    requires some { 1 ≤ secs }
    requires short { secs ≤ 180 }
    ensures { IsLegInRange result }
{
    Leg {
        place: *place,
        velocity: *velocity,
        secs,
    }
}

fn is_at(found: Option<Point>, num: i64, den: i64) -> bool {
    match found {
        Some(p) => p.num as i128 * den as i128 == num as i128 * p.den as i128,
        None => false,
    }
}

fn is_between(found: Option<Point>, from: &Point, upto: &Point) -> bool {
    match found {
        Some(p) => !before(&p, from) && !before(upto, &p),
        None => false,
    }
}

// 0.66 miles to the west, half a second before the closest approach, and a second earlier.
#[test]
fn touches_between_two_seconds(rt: HostRuntime) -> Result<(), Fail> {
    let begin = solid(-23760, -1800, 0);
    let earlier = solid(-23760, -5400, 0);
    let long_before = solid(-23760, -37800, 0);
    assert!(rt; is_at(hits(&leg(&begin, &NORTHWARD, 1), &CYLINDER), 1, 2));
    assert!(rt; hits(&leg(&earlier, &NORTHWARD, 1), &CYLINDER).is_none());
    assert!(rt; is_at(hits(&leg(&earlier, &NORTHWARD, 2), &CYLINDER), 3, 2));
    assert!(rt; is_at(hits(&leg(&long_before, &NORTHWARD, 180), &CYLINDER), 21, 2));
    let less = Volume {
        dthr: 23759,
        ..CYLINDER
    };
    assert!(rt; hits(&leg(&begin, &NORTHWARD, 1), &less).is_none());
    assert!(rt; is_hit(&leg(&begin, &NORTHWARD, 1), &CYLINDER));
    assert!(rt; !is_hit(&leg(&begin, &NORTHWARD, 1), &less));
    Ok(())
}

// 25 feet below at 3000 feet a minute, at one place: within a foot for four hundredths of a second.
#[test]
fn violates_for_a_fraction_of_a_second(rt: HostRuntime) -> Result<(), Fail> {
    let foot = Volume {
        zthr: 60,
        tthr: 35,
        ..CYLINDER
    };
    let climbing = leg(&solid(0, 0, -1500), &solid(0, 0, 3000), 1);
    assert!(rt;
        is_between(
            hits(&climbing, &foot),
            &Point { num: 12, den: 25 },
            &Point { num: 13, den: 25 }
        )
    );
    assert!(rt; !violates(&climbing, &foot, &Point { num: 0, den: 1 }));
    assert!(rt; !violates(&climbing, &foot, &Point { num: 1, den: 1 }));
    Ok(())
}

// Near until 6.6 seconds, and within 100 feet from 6.8 seconds on, both on the seventh second;
// within 120 feet from 6.4 on.
#[test]
fn both_parts_at_one_time(rt: HostRuntime) -> Result<(), Fail> {
    let hundred_feet = Volume {
        zthr: 6000,
        ..CYLINDER
    };
    let more_feet = Volume {
        zthr: 7200,
        ..CYLINDER
    };
    let leaving = solid(0, 3600, 3000);
    let seventh = leg(&solid(0, 21600, -8400), &leaving, 1);
    let whole = leg(&solid(0, 0, -26400), &leaving, 15);
    assert!(rt; hits(&seventh, &hundred_feet).is_none());
    assert!(rt; hits(&whole, &hundred_feet).is_none());
    assert!(rt; is_hit(&seventh, &more_feet));
    assert!(rt; is_hit(&whole, &more_feet));
    Ok(())
}

#[test]
fn no_speed_on_any_axis(rt: HostRuntime) -> Result<(), Fail> {
    assert!(rt; is_hit(&leg(&solid(0, -23760, 27000), &STILL, 1), &CYLINDER));
    assert!(rt; !is_hit(&leg(&solid(0, -23760, 27001), &STILL, 180), &CYLINDER));
    assert!(rt; !is_hit(&leg(&solid(16801, 16801, 0), &STILL, 180), &CYLINDER));
    Ok(())
}

// Ten seconds before a closest approach of 0.33 miles, with 8 seconds: modified tau counts at once,
// the time to the closest approach from second 2 on. A line that misses 0.66 miles by a unit never
// counts.
#[test]
fn times_ahead_by_model(rt: HostRuntime) -> Result<(), Fail> {
    let tau = Volume {
        tthr: 8,
        ..CYLINDER
    };
    let closest = Volume {
        model: Model::Tcpa,
        ..tau
    };
    let begin = solid(-11880, -36000, 0);
    assert!(rt; is_hit(&leg(&begin, &NORTHWARD, 1), &tau));
    assert!(rt; !is_hit(&leg(&begin, &NORTHWARD, 1), &closest));
    assert!(rt; is_at(hits(&leg(&begin, &NORTHWARD, 2), &closest), 2, 1));
    let missing = leg(&solid(-23761, -36000, 0), &NORTHWARD, 180);
    assert!(rt;
        !is_hit(
            &missing,
            &Volume {
                tthr: 120,
                ..CYLINDER
            }
        )
    );
    Ok(())
}

/// The cylinder with seconds to look ahead, by a model.
fn ahead(tthr: u32, model: Model) -> Volume
    requires { tthr ≤ 120 }
    ensures { IsVolumeInRange result }
{
    Volume {
        tthr,
        model,
        ..CYLINDER
    }
}

// Second by second, with a `tthr` of 8 seconds: modified tau and the entry point count on second 0,
// the closest approach on second 1, and tau on second 3, from 3.74 on.
#[test]
fn first_seconds_by_model(rt: HostRuntime) -> Result<(), Fail> {
    let at_0 = leg(&solid(-11880, -36000, 0), &NORTHWARD, 1);
    let at_1 = leg(&solid(-11880, -32400, 0), &NORTHWARD, 1);
    let at_2 = leg(&solid(-11880, -28800, 0), &NORTHWARD, 1);
    let at_3 = leg(&solid(-11880, -25200, 0), &NORTHWARD, 1);
    assert!(rt; agree(&at_0, &ahead(8, Model::Taumod)) == Some(true));
    assert!(rt; agree(&at_0, &ahead(8, Model::Tep)) == Some(true));
    assert!(rt; agree(&at_0, &ahead(8, Model::Tcpa)) == Some(false));
    assert!(rt; agree(&at_1, &ahead(8, Model::Tcpa)) == Some(true));
    assert!(rt; agree(&at_2, &ahead(8, Model::Tau)) == Some(false));
    assert!(rt; agree(&at_3, &ahead(8, Model::Tau)) == Some(true));
    Ok(())
}

// Head-on it is 23760 units away after exactly 10 seconds, or a hundredth of a second later.
#[test]
fn entry_after_exactly_tthr(rt: HostRuntime) -> Result<(), Fail> {
    let ten = leg(&solid(0, -59760, 0), &NORTHWARD, 1);
    let later = leg(&solid(0, -59796, 0), &NORTHWARD, 1);
    assert!(rt; is_at(hits(&ten, &ahead(9, Model::Tep)), 1, 1));
    assert!(rt; agree(&ten, &ahead(10, Model::Tep)) == Some(true));
    assert!(rt; agree(&later, &ahead(9, Model::Tep)) == Some(false));
    assert!(rt; agree(&later, &ahead(10, Model::Tep)) == Some(true));
    assert!(rt; violates(&ten, &ahead(10, Model::Tep), &Point { num: 0, den: 1 }));
    assert!(rt; !violates(&later, &ahead(10, Model::Tep), &Point { num: 0, den: 1 }));
    Ok(())
}

// Head-on tau is the distance over the speed: 9 seconds at the end of the second, or exactly 8.
#[test]
fn tau_of_exactly_tthr(rt: HostRuntime) -> Result<(), Fail> {
    let tenth = Volume {
        dthr: 3600,
        tthr: 8,
        model: Model::Tau,
        ..CYLINDER
    };
    assert!(rt; agree(&leg(&solid(0, -36000, 0), &NORTHWARD, 1), &tenth) == Some(false));
    assert!(rt;
        is_at(
            hits(&leg(&solid(0, -32400, 0), &NORTHWARD, 1), &tenth),
            1,
            1
        )
    );
    assert!(rt; agree(&leg(&solid(0, -32401, 0), &NORTHWARD, 1), &tenth) == Some(false));
    Ok(())
}

// At 180 seconds it is 120.0075 seconds before a head-on meeting, 199820 units below co-altitude.
#[test]
fn largest_numbers(rt: HostRuntime) -> Result<(), Fail> {
    let tau = Volume {
        dthr: 360000,
        zthr: 600000,
        tthr: 120,
        tcoa: 120,
        model: Model::Taumod,
    };
    let closest = Volume {
        model: Model::Tcpa,
        ..tau
    };
    let entry = Volume {
        model: Model::Tep,
        ..tau
    };
    let plain_tau = Volume {
        model: Model::Tau,
        ..tau
    };
    let fastest = solid(-39999, -39999, -39999);
    let meeting = leg(&solid(12000000, 12000000, 7000000), &fastest, 180);
    let farthest = leg(&solid(39999999, 39999999, 39999999), &fastest, 180);
    assert!(rt; is_at(hits(&meeting, &tau), 180, 1));
    assert!(rt; hits(&meeting, &closest).is_none());
    assert!(rt; is_at(hits(&meeting, &entry), 180, 1));
    assert!(rt; hits(&meeting, &plain_tau).is_none());
    assert!(rt; hits(&farthest, &plain_tau).is_none());
    assert!(rt; hits(&farthest, &tau).is_none());
    Ok(())
}

/// The time num/den, where it lies on the leg.
fn time_on(leg: &Leg, num: i128, den: i128) -> Option<Point>
    requires { IsLegInRange leg.now }
{
    if den < 1 || den > 8589934592 || num < 0 || num > 2199023255552 {
        return None;
    }
    let time = Point {
        num: num as i64,
        den: den as i64,
    };
    let end = Point {
        num: leg.secs as i64,
        den: 1,
    };
    if before(&end, &time) {
        None
    } else {
        Some(time)
    }
}

/// The closest approach, where it lies on the leg.
fn closest_of(leg: &Leg) -> Option<Point>
    requires { IsLegInRange leg.now }
{
    let rate = dot(&leg.place.flat, &leg.velocity.flat);
    time_on(leg, rate.checked_neg()?, square(&leg.velocity.flat))
}

/// `tthr / 2` seconds before the closest approach, where that lies on the leg.
fn middle_of(leg: &Leg, volume: &Volume) -> Option<Point>
    requires { IsLegInRange leg.now }
{
    let speed = square(&leg.velocity.flat);
    let rate = dot(&leg.place.flat, &leg.velocity.flat);
    let way = speed.checked_mul(volume.tthr as i128)?;
    time_on(
        leg,
        rate.checked_mul(-2)?.checked_sub(way)?,
        speed.checked_mul(2)?,
    )
}

/// Whether the volume itself holds at a time, where there is one.
fn violates_at(leg: &Leg, volume: &Volume, time: Option<Point>) -> bool
    requires leg { IsLegInRange leg.now }
    requires volume { IsVolumeInRange volume.now }
{
    match time {
        Some(point) => violates(leg, volume, &point),
        None => false,
    }
}

/// Whether the volume itself holds at one of four times: the first and the last at which its
/// vertical part does, the closest approach, and `tthr / 2` seconds before it.
fn violates_at_one_of_four(leg: &Leg, volume: &Volume) -> bool
    requires leg { IsLegInRange leg.now }
    requires volume { IsVolumeInRange volume.now }
{
    let at_end = match window(leg, volume) {
        Some((first, last)) => violates(leg, volume, &first) || violates(leg, volume, &last),
        None => false,
    };
    at_end
        || violates_at(leg, volume, closest_of(leg))
        || violates_at(leg, volume, middle_of(leg, volume))
}

/// What `hits` answers, where `is_hit` and a body without the box test answer the same.
fn agree(leg: &Leg, volume: &Volume) -> Option<bool>
    requires leg { IsLegInRange leg.now }
    requires volume { IsVolumeInRange volume.now }
{
    let answer = hits(leg, volume).is_some();
    let plain = violates_at_one_of_four(leg, volume);
    if answer == is_hit(leg, volume) && answer == plain {
        Some(answer)
    } else {
        None
    }
}

// On each side at 23760 units and one more, standing still; and with ten seconds ahead, flying
// there.
#[test]
fn box_test_changes_no_answer(rt: HostRuntime) -> Result<(), Fail> {
    assert!(rt; agree(&leg(&solid(23760, 0, 0), &STILL, 1), &CYLINDER) == Some(true));
    assert!(rt; agree(&leg(&solid(23761, 0, 0), &STILL, 1), &CYLINDER) == Some(false));
    assert!(rt; agree(&leg(&solid(-23760, 0, 0), &STILL, 1), &CYLINDER) == Some(true));
    assert!(rt; agree(&leg(&solid(-23761, 0, 0), &STILL, 1), &CYLINDER) == Some(false));
    assert!(rt; agree(&leg(&solid(0, 23760, 0), &STILL, 1), &CYLINDER) == Some(true));
    assert!(rt; agree(&leg(&solid(0, 23761, 0), &STILL, 1), &CYLINDER) == Some(false));
    assert!(rt; agree(&leg(&solid(0, -23760, 0), &STILL, 1), &CYLINDER) == Some(true));
    assert!(rt; agree(&leg(&solid(0, -23761, 0), &STILL, 1), &CYLINDER) == Some(false));
    let ahead = Volume {
        tthr: 10,
        ..CYLINDER
    };
    assert!(rt; agree(&leg(&solid(0, -51407, 0), &NORTHWARD, 1), &ahead) == Some(true));
    assert!(rt; agree(&leg(&solid(0, -51409, 0), &NORTHWARD, 1), &ahead) == Some(false));
    assert!(rt; agree(&leg(&solid(0, -63360, 0), &NORTHWARD, 1), &ahead) == Some(false));
    assert!(rt; agree(&leg(&solid(0, -63361, 0), &NORTHWARD, 1), &ahead) == Some(false));
    Ok(())
}

const HUNDRED_FEET: Volume = Volume {
    zthr: 6000,
    ..CYLINDER
};

/// Ten seconds northward at 360 knots, climbing at 3000 feet a minute from 140 feet below: within
/// 100 feet from 0.8 to 4.8 seconds.
fn climbing(east: i64, north: i64) -> Leg
    requires east { unsigned_abs east < 40000000 }
    requires north { unsigned_abs north < 40000000 }
    ensures { IsLegInRange result }
{
    leg(&solid(east, north, -8400), &solid(0, 3600, 3000), 10)
}

// It is 0.66 miles off at 0.8 seconds, at 4.8 seconds or at the closest approach, or a unit
// farther.
#[test]
fn nearest_time_of_the_window_decides(rt: HostRuntime) -> Result<(), Fail> {
    assert!(rt; agree(&climbing(0, 20880), &HUNDRED_FEET) == Some(true));
    assert!(rt; agree(&climbing(0, 20881), &HUNDRED_FEET) == Some(false));
    assert!(rt; agree(&climbing(0, -41040), &HUNDRED_FEET) == Some(true));
    assert!(rt; agree(&climbing(0, -41041), &HUNDRED_FEET) == Some(false));
    assert!(rt; agree(&climbing(23760, -7200), &HUNDRED_FEET) == Some(true));
    assert!(rt; agree(&climbing(23761, -7200), &HUNDRED_FEET) == Some(false));
    assert!(rt; agree(&climbing(23760, -2880), &HUNDRED_FEET) == Some(true));
    assert!(rt; agree(&climbing(23760, -2879), &HUNDRED_FEET) == Some(false));
    assert!(rt; agree(&climbing(23760, -17280), &HUNDRED_FEET) == Some(true));
    assert!(rt; agree(&climbing(23760, -17281), &HUNDRED_FEET) == Some(false));
    assert!(rt; is_at(hits(&climbing(23760, -7200), &HUNDRED_FEET), 2, 1));
    assert!(rt; is_at(hits(&climbing(23760, -17280), &HUNDRED_FEET), 24, 5));
    Ok(())
}

// At 4.8 seconds the closest approach is a second ahead, at 23760 units, or ten seconds ahead, at
// 11880; or a unit farther on.
#[test]
fn time_ahead_at_the_end_of_the_window(rt: HostRuntime) -> Result<(), Fail> {
    let second = Volume {
        tthr: 1,
        ..HUNDRED_FEET
    };
    let ten = Volume {
        tthr: 10,
        ..HUNDRED_FEET
    };
    assert!(rt; agree(&climbing(23760, -20880), &second) == Some(true));
    assert!(rt; agree(&climbing(23760, -20881), &second) == Some(false));
    assert!(rt; agree(&climbing(23761, -20880), &second) == Some(false));
    assert!(rt; agree(&climbing(11880, -53281), &ten) == Some(true));
    assert!(rt; agree(&climbing(11880, 30000), &ten) == Some(false));
    let closest_second = Volume {
        model: Model::Tcpa,
        ..second
    };
    let closest_ten = Volume {
        model: Model::Tcpa,
        ..ten
    };
    assert!(rt; agree(&climbing(23760, -20880), &closest_second) == Some(true));
    assert!(rt; agree(&climbing(23760, -20881), &closest_second) == Some(false));
    assert!(rt; agree(&climbing(23761, -20880), &closest_second) == Some(false));
    assert!(rt; agree(&climbing(11880, -53280), &closest_ten) == Some(true));
    assert!(rt; agree(&climbing(11880, -53281), &closest_ten) == Some(false));
    assert!(rt; agree(&climbing(11880, 30000), &closest_ten) == Some(false));
    Ok(())
}

// It climbs straight up, or its heights meet at the last instant of a second.
#[test]
fn no_horizontal_speed_and_one_instant(rt: HostRuntime) -> Result<(), Fail> {
    let straight_up = solid(0, 0, 3000);
    let ahead = Volume {
        tthr: 35,
        ..HUNDRED_FEET
    };
    assert!(rt; agree(&leg(&solid(16800, 16800, -8400), &straight_up, 10), &ahead) == Some(true));
    assert!(rt; agree(&leg(&solid(16801, 16801, -8400), &straight_up, 10), &ahead) == Some(false));
    let slower = solid(0, 3600, 2400);
    assert!(rt; agree(&leg(&solid(0, 20160, -8400), &slower, 1), &HUNDRED_FEET) == Some(true));
    assert!(rt; agree(&leg(&solid(0, 20161, -8400), &slower, 1), &HUNDRED_FEET) == Some(false));
    assert!(rt; agree(&leg(&solid(0, -27360, -8400), &slower, 1), &HUNDRED_FEET) == Some(true));
    assert!(rt; agree(&leg(&solid(0, -27361, -8400), &slower, 1), &HUNDRED_FEET) == Some(false));
    Ok(())
}

// By tau with 14 seconds the middle is 25200 units before the closest approach. A line 25200 units
// off is in time then alone: at the second second, at an end of the window, or a unit beyond it.
#[test]
fn middle_decides_by_tau(rt: HostRuntime) -> Result<(), Fail> {
    let tau = Volume {
        dthr: 25200,
        tthr: 14,
        model: Model::Tau,
        ..HUNDRED_FEET
    };
    let wider = Volume { dthr: 25201, ..tau };
    assert!(rt; agree(&climbing(25200, -32400), &tau) == Some(true));
    assert!(rt; is_at(hits(&climbing(25200, -32400), &tau), 2, 1));
    assert!(rt; agree(&climbing(25201, -32400), &tau) == Some(false));
    assert!(rt; agree(&climbing(25201, -32400), &wider) == Some(false));
    assert!(rt; is_at(hits(&climbing(25200, -28080), &tau), 4, 5));
    assert!(rt; agree(&climbing(25200, -28079), &tau) == Some(false));
    assert!(rt; is_at(hits(&climbing(25200, -42480), &tau), 24, 5));
    assert!(rt; agree(&climbing(25200, -42481), &tau) == Some(false));
    Ok(())
}

// By tau with a second what is near counts, at the closest approach; by the entry point a distance
// of 23760 units after a second, or 23759.3 and 23760.2 after ten.
#[test]
fn near_by_tau_and_entry_at_the_end_of_the_window(rt: HostRuntime) -> Result<(), Fail> {
    let tau = Volume {
        tthr: 1,
        model: Model::Tau,
        ..HUNDRED_FEET
    };
    let second = Volume {
        model: Model::Tep,
        ..tau
    };
    let ten = Volume { tthr: 10, ..second };
    assert!(rt; agree(&climbing(23760, -17280), &tau) == Some(true));
    assert!(rt; agree(&climbing(23760, -17281), &tau) == Some(false));
    assert!(rt; agree(&climbing(0, 20880), &tau) == Some(true));
    assert!(rt; agree(&climbing(23760, -7200), &tau) == Some(true));
    assert!(rt; agree(&climbing(23760, -20880), &second) == Some(true));
    assert!(rt; agree(&climbing(23760, -20881), &second) == Some(false));
    assert!(rt; agree(&climbing(11880, -53280), &ten) == Some(true));
    assert!(rt; agree(&climbing(11880, -73856), &ten) == Some(true));
    assert!(rt; agree(&climbing(11880, -73857), &ten) == Some(false));
    Ok(())
}

// It climbs straight up by tau and by the entry point: the distance alone counts.
#[test]
fn no_horizontal_speed_by_tau_and_entry(rt: HostRuntime) -> Result<(), Fail> {
    let tau = Volume {
        tthr: 35,
        model: Model::Tau,
        ..HUNDRED_FEET
    };
    let entry = Volume {
        model: Model::Tep,
        ..tau
    };
    let straight_up = solid(0, 0, 3000);
    assert!(rt; agree(&leg(&solid(16800, 16800, -8400), &straight_up, 10), &tau) == Some(true));
    assert!(rt; agree(&leg(&solid(16801, 16801, -8400), &straight_up, 10), &tau) == Some(false));
    assert!(rt; agree(&leg(&solid(16800, 16800, -8400), &straight_up, 10), &entry) == Some(true));
    assert!(rt; agree(&leg(&solid(16801, 16801, -8400), &straight_up, 10), &entry) == Some(false));
    Ok(())
}
