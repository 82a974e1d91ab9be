//! Flights past an aircraft that was reported 23760 units to the right and abeam in ten seconds,
//! with a volume whose `dthr` lacks 1000 units. 3600 units a second are 360 knots.

ghost use Rattle.std.specs.Prelude.{◌≤◌};
ghost use Rattle.daa_state.specs.InRange.{AreBoundsInRange, IsTrafficInRange};

use super::*;
use daa_fixed::{Flat, Solid};
use daa_legs::OwnRun;
use daa_state::{Id, PairBounds, ReportBounds, Traffic};
use daa_taumod::{Model, Volume};
use std::test::Fail;

const NORTH: Solid = Solid {
    flat: Flat {
        east: 0,
        north: 3600,
    },
    up: 0,
};

// From the moment on.
const RUN: OwnRun = OwnRun {
    place: Solid {
        flat: Flat { east: 0, north: 0 },
        up: 60000,
    },
    velocity: NORTH,
    secs: 20,
};

// The same flight from second 6 on.
const LATER: OwnRun = OwnRun {
    place: Solid {
        flat: Flat {
            east: 0,
            north: 21600,
        },
        up: 60000,
    },
    velocity: NORTH,
    secs: 10,
};

const NEAR: Volume = Volume {
    dthr: 22760,
    zthr: 27000,
    tthr: 0,
    tcoa: 0,
    model: Model::Taumod,
};

// 360 units, and one unit a second.
const OWN: ReportBounds = ReportBounds {
    place: 10,
    speed: 1,
    ..ReportBounds::EXACT
};

// 612 units, and one unit a second.
const AIRCRAFT: ReportBounds = ReportBounds {
    place: 17,
    speed: 1,
    ..ReportBounds::EXACT
};

const BOTH: PairBounds = PairBounds {
    own: OWN,
    aircraft: AIRCRAFT,
};

// 0.66 nautical miles to the right, one ahead, at the same altitude.
fn reported(age: u32, bounds: PairBounds) -> Traffic
    requires age { age ≤ 60 }
    requires bounds { AreBoundsInRange bounds }
    ensures { IsTrafficInRange result }
{
    Traffic {
        id: Id::default(),
        x: 660,
        y: 1000,
        alt: 1000,
        vx: 0,
        vy: 0,
        vs: 0,
        age,
        bounds,
    }
}

// 972 units, 10 of the ownship's speed, and 18 of the aircraft's after 8 and 10 seconds.
#[test]
fn errors_grow_from_the_report_on(rt: HostRuntime) -> Result<(), Fail> {
    assert!(rt; meets_on_run(&RUN, &reported(8, BOTH), &NEAR, 0));
    assert!(rt; !meets_on_run(&RUN, &reported(7, BOTH), &NEAR, 0));
    Ok(())
}

// The seconds before a run count too.
#[test]
fn errors_grow_from_the_moment_on(rt: HostRuntime) -> Result<(), Fail> {
    assert!(rt; meets_on_run(&LATER, &reported(8, BOTH), &NEAR, 6));
    assert!(rt; !meets_on_run(&LATER, &reported(7, BOTH), &NEAR, 6));
    Ok(())
}

// Of exact reports the distance itself decides.
#[test]
fn exact_reports_are_as_reported(rt: HostRuntime) -> Result<(), Fail> {
    let touched = Volume {
        dthr: 23760,
        ..NEAR
    };
    let missed = Volume {
        dthr: 23759,
        ..NEAR
    };
    assert!(rt; meets_on_run(&RUN, &reported(60, PairBounds::EXACT), &touched, 0));
    assert!(rt; !meets_on_run(&RUN, &reported(60, PairBounds::EXACT), &missed, 0));
    Ok(())
}
