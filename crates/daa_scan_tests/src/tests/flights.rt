//! daa_legs: worked flights. The rates are 3 degrees, 1 knot and 100 ft/min a second, and 1000
//! ft/min; 3600 units a second are 360 knots.

ghost use Rattle.std.specs.Prelude.{◌≡◌, ◌+◌, ◌<◌};
ghost use Rattle.daa_config.specs.Settings.{IsCandidateInRange};
ghost use Rattle.daa_state.specs.InRange.{IsOwnInRange};
ghost use Rattle.daa_legs.specs.OwnLeg.{IsOwnLegInRange};

use daa_config::examples::ONE_LEVEL;
use daa_config::{Candidate, Config, read};
use daa_fixed::{Flat, Leg, Solid};
use daa_legs::*;
use daa_state::{Id, Own, PairBounds, Traffic};
use std::test::Fail;

const OWN: Own = Own {
    x: 0,
    y: 0,
    alt: 1000,
    trk: 0,
    gs: 3600,
    vs: 0,
};

/// Leg `k` of a flight.
fn leg_at(config: &Config, own: &Own, candidate: Candidate, k: u32) -> OwnLeg
    requires own { IsOwnInRange own.now }
    requires candidate { IsCandidateInRange candidate }
    requires k { k < 180 }
    ensures { IsOwnLegInRange result }
{
    let mut flight = Flight::begin(own, config, candidate);
    for _ in 0..k {
        let _ = flight.next_leg();
    }
    flight.next_leg()
}

/// Whether leg `k` of a flight that goes on from the ownship above has this velocity.
fn flies(config: &Config, candidate: Candidate, k: u32, velocity: (i64, i64, i64)) -> bool
    requires candidate { IsCandidateInRange candidate }
    requires k { k < 180 }
{
    let (east, north, up) = velocity;
    leg_at(config, &OWN, candidate, k).velocity == solid(east, north, up)
}

/// Whether the runs of 180 seconds of a flight have these lengths.
fn has_runs(config: &Config, own: &Own, candidate: Candidate, lengths: &[u32]) -> bool
    requires own { IsOwnInRange own.now }
    requires candidate { IsCandidateInRange candidate }
{
    let mut flight = Flight::begin(own, config, candidate);
    let mut left = 180;
    for length in lengths {
        if left == 0 || flight.next_run(left).secs != *length {
            return false;
        }
        left -= *length;
    }
    left == 0
}

// Sines of 3 and 1 degrees are 0.0523 and 0.0175. The turns of 179 and 180 degrees go right, that
// of 181 goes left.
#[test]
fn half_a_turn_goes_right(rt: HostRuntime) -> Result<(), Fail> {
    let config = read(rt.alloc(), ONE_LEVEL.as_bytes())?;
    assert!(rt; flies(&config, Candidate::Track(180), 0, (0, 3600, 0)));
    assert!(rt; flies(&config, Candidate::Track(179), 1, (188, 3594, 0)));
    assert!(rt; flies(&config, Candidate::Track(180), 1, (188, 3594, 0)));
    assert!(rt; flies(&config, Candidate::Track(181), 1, (-188, 3594, 0)));
    assert!(rt; flies(&config, Candidate::Track(179), 60, (63, -3599, 0)));
    assert!(rt; flies(&config, Candidate::Track(180), 60, (0, -3600, 0)));
    assert!(rt; flies(&config, Candidate::Track(181), 60, (-63, -3599, 0)));
    assert!(rt; flies(&config, Candidate::Track(181), 179, (-63, -3599, 0)));
    Ok(())
}

#[test]
fn speeds_move_by_their_rates(rt: HostRuntime) -> Result<(), Fail> {
    let config = read(rt.alloc(), ONE_LEVEL.as_bytes())?;
    assert!(rt; flies(&config, Candidate::GroundSpeed(3625), 0, (0, 3600, 0)));
    assert!(rt; flies(&config, Candidate::GroundSpeed(3625), 2, (0, 3620, 0)));
    assert!(rt; flies(&config, Candidate::GroundSpeed(3625), 3, (0, 3625, 0)));
    assert!(rt; flies(&config, Candidate::GroundSpeed(3585), 1, (0, 3590, 0)));
    assert!(rt; flies(&config, Candidate::GroundSpeed(3585), 2, (0, 3585, 0)));
    assert!(rt; flies(&config, Candidate::VerticalSpeed(-150), 0, (0, 3600, 0)));
    assert!(rt; flies(&config, Candidate::VerticalSpeed(-150), 1, (0, 3600, -100)));
    assert!(rt; flies(&config, Candidate::VerticalSpeed(-150), 2, (0, 3600, -150)));
    Ok(())
}

// 40 feet are 2400 units. What climbs at present levels off at once where it goes to the present
// altitude.
#[test]
fn climbs_to_an_altitude_and_stays(rt: HostRuntime) -> Result<(), Fail> {
    let config = read(rt.alloc(), ONE_LEVEL.as_bytes())?;
    assert!(rt; flies(&config, Candidate::Altitude(1040), 0, (0, 3600, 1000)));
    assert!(rt; flies(&config, Candidate::Altitude(1040), 1, (0, 3600, 1000)));
    assert!(rt; flies(&config, Candidate::Altitude(1040), 2, (0, 3600, 400)));
    assert!(rt; flies(&config, Candidate::Altitude(1040), 3, (0, 3600, 0)));
    assert!(rt; leg_at(&config, &OWN, Candidate::Altitude(1040), 3).place.up == 62400);
    let climbing = Own { vs: 3000, ..OWN };
    assert!(rt;
        leg_at(&config, &climbing, Candidate::Altitude(1000), 0)
            .velocity
            .up
            == 0
    );
    assert!(rt; leg_at(&config, &climbing, Candidate::Hold, 0).velocity.up == 3000);
    Ok(())
}

// The last leg begins after 179 seconds.
#[test]
fn places_of_the_first_and_the_last_leg(rt: HostRuntime) -> Result<(), Fail> {
    let config = read(rt.alloc(), ONE_LEVEL.as_bytes())?;
    let own = Own {
        x: 10,
        y: -20,
        vs: 60,
        ..OWN
    };
    let first = leg_at(&config, &own, Candidate::Hold, 0);
    let last = leg_at(&config, &own, Candidate::Hold, 179);
    assert!(rt; first == leg(solid(360, -720, 60000), solid(0, 3600, 60)));
    assert!(rt; last == leg(solid(360, 643680, 70740), solid(0, 3600, 60)));
    Ok(())
}

fn leg(place: Solid, velocity: Solid) -> OwnLeg {
    OwnLeg { place, velocity }
}

fn solid(east: i64, north: i64, up: i64) -> Solid {
    Solid {
        flat: Flat { east, north },
        up,
    }
}

static TURN_OF_TWENTY: [u32; 21] = [
    1, 1, 1, 1, 1, 1, 1, 1, 1, 1, 1, 1, 1, 1, 1, 1, 1, 1, 1, 1, 160,
];

#[test]
fn runs_of_180_seconds(rt: HostRuntime) -> Result<(), Fail> {
    let config = read(rt.alloc(), ONE_LEVEL.as_bytes())?;
    assert!(rt; has_runs(&config, &OWN, Candidate::Hold, &[180]));
    assert!(rt; has_runs(&config, &OWN, Candidate::Altitude(1040), &[2, 1, 177]));
    assert!(rt; has_runs(&config, &OWN, Candidate::Track(60), &TURN_OF_TWENTY));
    assert!(rt; has_runs(&config, &OWN, Candidate::VerticalSpeed(0), &[180]));
    assert!(rt; has_runs(&config, &OWN, Candidate::GroundSpeed(3620), &[1, 1, 178]));
    Ok(())
}

// A run begins where the one before it ended, and is cut at the number that is asked for.
#[test]
fn runs_follow_one_another(rt: HostRuntime) -> Result<(), Fail> {
    let config = read(rt.alloc(), ONE_LEVEL.as_bytes())?;
    let mut flight = Flight::begin(&OWN, &config, Candidate::Altitude(1040));
    let one = flight.next_run(1);
    let two = flight.next_run(100);
    let _ = flight.next_leg();
    let rest = flight.next_run(60);
    assert!(rt; one == run(solid(0, 0, 60000), solid(0, 3600, 1000), 1));
    assert!(rt; two == run(solid(0, 3600, 61000), solid(0, 3600, 1000), 1));
    assert!(rt; rest == run(solid(0, 10800, 62400), solid(0, 3600, 0), 60));
    Ok(())
}

fn run(place: Solid, velocity: Solid, secs: u32) -> OwnRun {
    OwnRun {
        place,
        velocity,
        secs,
    }
}

// 0.66 miles east, and 60 feet a minute of climb. A report of 10 seconds is one of now from 10
// seconds further on.
#[test]
fn an_aircraft_flies_on_from_its_report(rt: HostRuntime) -> Result<(), Fail> {
    let config = read(rt.alloc(), ONE_LEVEL.as_bytes())?;
    let aircraft = Traffic {
        id: Id::of(b"A").expect(&rt, "an identifier"),
        x: 660,
        y: -1000,
        alt: 1000,
        vx: -10,
        vy: 3600,
        vs: 60,
        age: 0,
        bounds: PairBounds::EXACT,
    };
    let aged = Traffic {
        age: 10,
        ..aircraft
    };
    let own = leg_at(&config, &OWN, Candidate::Hold, 5);
    let seen = relative(&own, &aircraft, 5);
    let later = relative(&own, &aged, 5);
    assert!(rt; seen == seen_leg(solid(-23710, 36000, -300), solid(10, 0, -60), 1));
    assert!(rt; later == seen_leg(solid(-23610, 0, -900), solid(10, 0, -60), 1));
    Ok(())
}

fn seen_leg(place: Solid, velocity: Solid, secs: u32) -> Leg {
    Leg {
        place,
        velocity,
        secs,
    }
}

// The same run as one leg of all its seconds.
#[test]
fn a_run_is_one_leg(rt: HostRuntime) -> Result<(), Fail> {
    let config = read(rt.alloc(), ONE_LEVEL.as_bytes())?;
    let aircraft = Traffic {
        id: Id::of(b"A").expect(&rt, "an identifier"),
        x: 0,
        y: 1000,
        alt: 1000,
        vx: 0,
        vy: 0,
        vs: 0,
        age: 60,
        bounds: PairBounds::EXACT,
    };
    let mut flight = Flight::begin(&OWN, &config, Candidate::Altitude(1040));
    let first = relative_run(&flight.next_run(2), &aircraft, 0);
    let second = relative_run(&flight.next_run(10), &aircraft, 2);
    let third = relative_run(&flight.next_run(168), &aircraft, 3);
    assert!(rt; first == seen_leg(solid(0, -36000, 0), solid(0, 3600, 1000), 2));
    assert!(rt; second == seen_leg(solid(0, -28800, 2000), solid(0, 3600, 400), 1));
    assert!(rt; third == seen_leg(solid(0, -25200, 2400), solid(0, 3600, 0), 168));
    Ok(())
}

// To 1040 feet there are 2400 units, two whole seconds and 400 more; to 1050 three whole seconds.
#[test]
fn a_way_of_whole_seconds_has_no_leg_of_its_own(rt: HostRuntime) -> Result<(), Fail> {
    let config = read(rt.alloc(), ONE_LEVEL.as_bytes())?;
    let short = branch_of(&OWN, &config.rates(), Candidate::Altitude(1040));
    let whole = branch_of(&OWN, &config.rates(), Candidate::Altitude(1050));
    assert!(rt; short.leaves == 2);
    assert!(rt; short.settles == 3);
    assert!(rt; short.rise == 400);
    assert!(rt; whole.leaves == 3);
    assert!(rt; whole.settles == 3);
    Ok(())
}

fn may_be_sent<T: Send>() {}

/// The check refuses a type that may not be sent between threads.
fn values_may_be_sent() {
    may_be_sent::<OwnLeg>();
    may_be_sent::<OwnRun>();
    may_be_sent::<Flight>();
    may_be_sent::<Trunk>();
    may_be_sent::<Branch>();
}
