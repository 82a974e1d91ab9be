//! Worked times of the volume. The aircraft moves north at 360 knots, 3600 units a second; 660
//! thousandths of a nautical mile are 23760 units.

ghost use Rattle.std.specs.Prelude.{◌≤◌};
ghost use Rattle.daa_taumod.specs.Volume.{IsVolumeInRange};

use super::*;
use daa_fixed::{Flat, Leg, Point, Solid};
use std::test::Fail;

const NORTHWARD: Solid = Solid {
    flat: Flat {
        east: 0,
        north: 3600,
    },
    up: 0,
};

/// It touches a distance of 23760 units at 1/2 second.
const TOUCHING: Leg = Leg {
    place: Solid {
        flat: Flat {
            east: -23760,
            north: -1800,
        },
        up: 0,
    },
    velocity: NORTHWARD,
    secs: 1,
};

/// Ten seconds before its closest approach, which is 11880 units away.
const APPROACHING: Leg = Leg {
    place: Solid {
        flat: Flat {
            east: -11880,
            north: -36000,
        },
        up: 0,
    },
    velocity: NORTHWARD,
    secs: 10,
};

/// 30000 units below, rising by 1000 a second.
const RISING: Leg = Leg {
    place: Solid {
        flat: Flat { east: 0, north: 0 },
        up: -30000,
    },
    velocity: Solid {
        flat: Flat { east: 0, north: 0 },
        up: 1000,
    },
    secs: 30,
};

const CYLINDER: Volume = Volume {
    dthr: 23760,
    zthr: 27000,
    tthr: 0,
    tcoa: 0,
    model: Model::Taumod,
};

#[test]
fn touch_at_exactly_the_distance_violates(rt: HostRuntime) -> Result<(), Fail> {
    assert!(rt; violates(&TOUCHING, &CYLINDER, &Point { num: 1, den: 2 }));
    assert!(rt; !violates(&TOUCHING, &CYLINDER, &Point { num: 1, den: 3 }));
    assert!(rt; !violates(&TOUCHING, &CYLINDER, &Point { num: 1, den: 1 }));
    Ok(())
}

/// The cylinder with a time to look at.
fn ahead(tthr: u32, model: Model) -> Volume
    requires { tthr ≤ 120 }
    ensures { IsVolumeInRange result }
{
    Volume {
        tthr,
        model,
        ..CYLINDER
    }
}

// At the start tau is 11.1 s, (11880^2 + 36000^2) / (36000 * 3600), the closest approach is 10 s
// off, modified tau 6.7 s, with 23760^2 less above, and the distance is 23760 units after 4.3 s.
#[test]
fn times_of_the_models(rt: HostRuntime) -> Result<(), Fail> {
    let start = Point { num: 0, den: 1 };
    assert!(rt; violates(&APPROACHING, &ahead(12, Model::Tau), &start));
    assert!(rt; !violates(&APPROACHING, &ahead(11, Model::Tau), &start));
    assert!(rt; violates(&APPROACHING, &ahead(10, Model::Tcpa), &start));
    assert!(rt; !violates(&APPROACHING, &ahead(9, Model::Tcpa), &start));
    assert!(rt; violates(&APPROACHING, &ahead(7, Model::Taumod), &start));
    assert!(rt; !violates(&APPROACHING, &ahead(6, Model::Taumod), &start));
    assert!(rt; violates(&APPROACHING, &ahead(5, Model::Tep), &start));
    assert!(rt; !violates(&APPROACHING, &ahead(4, Model::Tep), &start));
    models_are_nested();
    worked_examples();
    Ok(())
}

// With 8 s: tau is that from 3.74 s on, 22538 units before the closest approach, which is 8 s off
// at second 2. The distance is less than 23760 units from 4.28 s on.
#[test]
fn the_first_time_by_tau_and_by_the_closest_approach(rt: HostRuntime) -> Result<(), Fail> {
    let by_tau = ahead(8, Model::Tau);
    let by_closest = ahead(8, Model::Tcpa);
    assert!(rt; !violates(&APPROACHING, &by_tau, &Point { num: 37, den: 10 }));
    assert!(rt; violates(&APPROACHING, &by_tau, &Point { num: 15, den: 4 }));
    assert!(rt; !violates(&APPROACHING, &by_closest, &Point { num: 199, den: 100 }));
    assert!(rt; violates(&APPROACHING, &by_closest, &Point { num: 2, den: 1 }));
    Ok(())
}

/// Head-on, 59796 units away: at 23760 units after 10.01 s.
const HEAD_ON: Leg = Leg {
    place: Solid {
        flat: Flat {
            east: 0,
            north: -59796,
        },
        up: 0,
    },
    velocity: NORTHWARD,
    secs: 10,
};

// 20 s after the start it is some 37910 units away and going.
#[test]
fn the_entry_point_is_looked_for_until_it_leaves(rt: HostRuntime) -> Result<(), Fail> {
    let by_entry = ahead(10, Model::Tep);
    assert!(rt; !violates(&HEAD_ON, &by_entry, &Point { num: 0, den: 1 }));
    assert!(rt; !violates(&HEAD_ON, &by_entry, &Point { num: 1, den: 101 }));
    assert!(rt; violates(&HEAD_ON, &by_entry, &Point { num: 1, den: 100 }));
    assert!(rt;
        violates(
            &APPROACHING,
            &ahead(20, Model::Tep),
            &Point { num: 0, den: 1 }
        )
    );
    Ok(())
}

#[test]
fn heights_and_the_time_to_co_altitude(rt: HostRuntime) -> Result<(), Fail> {
    let soon = Volume {
        tcoa: 20,
        ..CYLINDER
    };
    assert!(rt; !violates(&RISING, &CYLINDER, &Point { num: 5, den: 2 }));
    assert!(rt; violates(&RISING, &CYLINDER, &Point { num: 3, den: 1 }));
    assert!(rt;
        !violates(
            &RISING,
            &Volume { zthr: 0, ..soon },
            &Point { num: 9, den: 1 }
        )
    );
    assert!(rt;
        violates(
            &RISING,
            &Volume { zthr: 0, ..soon },
            &Point { num: 10, den: 1 }
        )
    );
    Ok(())
}

fn may_be_sent<T: Send>() {}

// The check refuses a type that may not be sent between threads.
#[test]
fn values_may_be_sent() {
    may_be_sent::<Model>();
    may_be_sent::<Volume>();
}
