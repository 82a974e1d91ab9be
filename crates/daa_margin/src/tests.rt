//! Worked times of the volume where errors have bounds. 3600 units a second are 360 knots.

use super::*;
use daa_fixed::{Flat, Leg, Point, Solid};
use daa_taumod::{Model, Volume};
use std::test::Fail;

const LEVEL: Solid = Solid {
    flat: Flat {
        east: 0,
        north: 3600,
    },
    up: 0,
};

const STILL: Solid = Solid {
    flat: Flat { east: 0, north: 0 },
    up: 0,
};

// Half a second before a closest approach of 24760 units.
const BESIDE: Leg = Leg {
    place: Solid {
        flat: Flat {
            east: -24760,
            north: -1800,
        },
        up: 0,
    },
    velocity: LEVEL,
    secs: 2,
};

// 24760 units off, without relative motion.
const STANDING: Leg = Leg {
    place: Solid {
        flat: Flat {
            east: -24760,
            north: 0,
        },
        up: 0,
    },
    velocity: STILL,
    secs: 2,
};

// Straight ahead.
const AHEAD: Leg = Leg {
    place: Solid {
        flat: Flat {
            east: 0,
            north: -65800,
        },
        up: 0,
    },
    velocity: LEVEL,
    secs: 2,
};

// Five seconds before a closest approach of 20000 units.
const PASSING: Leg = Leg {
    place: Solid {
        flat: Flat {
            east: 20000,
            north: -50000,
        },
        up: 0,
    },
    velocity: Solid {
        flat: Flat {
            east: 0,
            north: 10000,
        },
        up: 0,
    },
    secs: 2,
};

// 30000 units below, rising by 1000 a second.
const BELOW: Leg = Leg {
    place: Solid {
        flat: Flat { east: 0, north: 0 },
        up: -30000,
    },
    velocity: Solid {
        flat: Flat { east: 0, north: 0 },
        up: 1000,
    },
    secs: 2,
};

const CYLINDER: Volume = Volume {
    dthr: 23760,
    zthr: 27000,
    tthr: 0,
    tcoa: 0,
    model: Model::Taumod,
};

const EXACT: ErrorBounds = ErrorBounds {
    place: 0,
    speed: 0,
    height: 0,
    climb: 0,
};

const NOW: Point = Point { num: 0, den: 1 };

const HALF: Point = Point { num: 1, den: 2 };

const SECOND_1: Point = Point { num: 1, den: 1 };

const SECOND_2: Point = Point { num: 2, den: 1 };

// 24760 units are 1000 beyond `dthr`.
#[test]
fn an_error_of_the_place_counts_at_exactly_what_is_missing(rt: HostRuntime) -> Result<(), Fail> {
    let enough = ErrorBounds {
        place: 1000,
        ..EXACT
    };
    let less = ErrorBounds {
        place: 999,
        ..EXACT
    };
    assert!(rt; may_violate(&BESIDE, &CYLINDER, &enough, &HALF));
    assert!(rt; !may_violate(&BESIDE, &CYLINDER, &less, &HALF));
    assert!(rt; !may_violate(&BESIDE, &CYLINDER, &enough, &NOW));
    Ok(())
}

// 500 a second have grown to 1000 after two seconds; the entry point may be a second off before.
#[test]
fn an_error_of_the_velocity_grows(rt: HostRuntime) -> Result<(), Fail> {
    let bounds = ErrorBounds {
        speed: 500,
        ..EXACT
    };
    let by_entry = Volume {
        tthr: 1,
        model: Model::Tep,
        ..CYLINDER
    };
    let by_modified_tau = Volume {
        tthr: 1,
        ..CYLINDER
    };
    assert!(rt; may_violate(&STANDING, &CYLINDER, &bounds, &SECOND_2));
    assert!(rt; !may_violate(&STANDING, &CYLINDER, &bounds, &SECOND_1));
    assert!(rt; may_violate(&STANDING, &by_entry, &bounds, &SECOND_1));
    assert!(rt; !may_violate(&STANDING, &by_entry, &bounds, &NOW));
    assert!(rt; !may_violate(&STANDING, &by_modified_tau, &bounds, &SECOND_1));
    Ok(())
}

// Modified tau is exactly 16 seconds at 64800 units.
#[test]
fn modified_tau_may_be_sixteen_seconds(rt: HostRuntime) -> Result<(), Fail> {
    let soon = Volume {
        dthr: 21600,
        tthr: 16,
        ..CYLINDER
    };
    let enough = ErrorBounds {
        place: 1000,
        ..EXACT
    };
    let less = ErrorBounds {
        place: 999,
        ..EXACT
    };
    assert!(rt; may_violate(&AHEAD, &soon, &enough, &NOW));
    assert!(rt; !may_violate(&AHEAD, &soon, &less, &NOW));
    Ok(())
}

// The distance is 20000 units after five seconds, and more before and after. An error of the
// velocity of 1 has grown to 5 then.
#[test]
fn what_passes_may_be_near_in_between(rt: HostRuntime) -> Result<(), Fail> {
    let by_entry = Volume {
        dthr: 20000,
        tthr: 10,
        model: Model::Tep,
        ..CYLINDER
    };
    let five_less = Volume {
        dthr: 19995,
        ..by_entry
    };
    let six_less = Volume {
        dthr: 19994,
        ..by_entry
    };
    let bounds = ErrorBounds { speed: 1, ..EXACT };
    assert!(rt; may_violate(&PASSING, &by_entry, &EXACT, &NOW));
    assert!(rt; !may_violate(&PASSING, &five_less, &EXACT, &NOW));
    assert!(rt; may_violate(&PASSING, &five_less, &bounds, &NOW));
    assert!(rt; !may_violate(&PASSING, &six_less, &bounds, &NOW));
    Ok(())
}

#[test]
fn errors_of_height_and_vertical_speed_count(rt: HostRuntime) -> Result<(), Fail> {
    let level_in_29 = Volume {
        zthr: 0,
        tcoa: 29,
        ..CYLINDER
    };
    let level_in_25 = Volume {
        zthr: 0,
        tcoa: 25,
        ..CYLINDER
    };
    let high = ErrorBounds {
        height: 3000,
        ..EXACT
    };
    let less_high = ErrorBounds {
        height: 2999,
        ..EXACT
    };
    let climbing = ErrorBounds {
        climb: 200,
        ..EXACT
    };
    let less_climbing = ErrorBounds {
        climb: 199,
        ..EXACT
    };
    assert!(rt; may_violate(&BELOW, &CYLINDER, &high, &NOW));
    assert!(rt; !may_violate(&BELOW, &CYLINDER, &less_high, &NOW));
    assert!(rt; may_violate(&BELOW, &level_in_29, &high, &NOW));
    assert!(rt; !may_violate(&BELOW, &level_in_29, &EXACT, &NOW));
    assert!(rt; may_violate(&BELOW, &level_in_25, &climbing, &NOW));
    assert!(rt; !may_violate(&BELOW, &level_in_25, &less_climbing, &NOW));
    Ok(())
}

// Near from half a second on, by 1000 units of error.
#[test]
fn a_fraction_of_a_leg_decides(rt: HostRuntime) -> Result<(), Fail> {
    let enough = ErrorBounds {
        place: 1000,
        ..EXACT
    };
    let less = ErrorBounds {
        place: 999,
        ..EXACT
    };
    assert!(rt; is_met(&BESIDE, &CYLINDER, &enough));
    assert!(rt; !is_met(&BESIDE, &CYLINDER, &less));
    Ok(())
}

// The height is within 27000 units at the beginning alone, and the distance within 23760 from a
// second on. An error of 1000 a second in the vertical speed makes both possible then.
#[test]
fn parts_at_different_times_do_not_meet(rt: HostRuntime) -> Result<(), Fail> {
    let leg = Leg {
        place: Solid {
            flat: Flat {
                east: 0,
                north: -27360,
            },
            up: 27000,
        },
        velocity: Solid {
            flat: Flat {
                east: 0,
                north: 3600,
            },
            up: 1000,
        },
        secs: 2,
    };
    let enough = ErrorBounds {
        climb: 1000,
        ..EXACT
    };
    let less = ErrorBounds {
        climb: 999,
        ..EXACT
    };
    assert!(rt; !is_met(&leg, &CYLINDER, &EXACT));
    assert!(rt; is_met(&leg, &CYLINDER, &enough));
    assert!(rt; !is_met(&leg, &CYLINDER, &less));
    Ok(())
}

// The height is within 27000 units at the beginning alone, where modified tau is 16 seconds at
// 64800 units.
#[test]
fn the_last_time_of_the_window_decides(rt: HostRuntime) -> Result<(), Fail> {
    let leg = Leg {
        place: Solid {
            flat: Flat {
                east: 0,
                north: -65800,
            },
            up: 27000,
        },
        velocity: Solid {
            flat: Flat {
                east: 0,
                north: 3600,
            },
            up: 1000,
        },
        secs: 2,
    };
    let soon = Volume {
        dthr: 21600,
        tthr: 16,
        ..CYLINDER
    };
    let enough = ErrorBounds {
        place: 1000,
        ..EXACT
    };
    let less = ErrorBounds {
        place: 999,
        ..EXACT
    };
    assert!(rt; is_met(&leg, &soon, &enough));
    assert!(rt; !is_met(&leg, &soon, &less));
    Ok(())
}

// 30000 units below and rising by 1000 a second: within 28000 at the end of two seconds.
#[test]
fn a_window_may_be_one_time(rt: HostRuntime) -> Result<(), Fail> {
    let enough = ErrorBounds {
        height: 1000,
        ..EXACT
    };
    let less = ErrorBounds {
        height: 999,
        ..EXACT
    };
    assert!(rt; window(&BELOW, &CYLINDER, &enough).is_some());
    assert!(rt; window(&BELOW, &CYLINDER, &less).is_none());
    Ok(())
}
