//! The ownship as an aircraft sees it.

ghost use Rattle.std.specs.Prelude.{◌↔◌, ◌+◌, ◌≡◌, ◌<◌, ◌≤◌};
ghost use Rattle.daa_fixed.specs.Leg.{IsLegInRange, IsSolidBelow, minus};
ghost use Rattle.daa_fixed.specs.Time.{HoldsSometime};
ghost use Rattle.daa_taumod.specs.declared.Volume.{Volume};
ghost use Rattle.daa_config.specs.declared.candidate.Candidate.{Candidate};
ghost use Rattle.daa_config.specs.Settings.{Settings, rates_of};
ghost use Rattle.daa_state.specs.InRange.{IsTrafficInRange};
ghost use Rattle.daa_state.specs.declared.word.Own.{Own};
ghost use Rattle.daa_legs.specs.OwnLeg.{IsOwnLegInRange};
ghost use Rattle.daa_legs.specs.Runs.{first_leg_of, IsRunOf, IsOwnRunInRange, MeetsBetween};
ghost use Rattle.daa_legs.specs.Relative.{relative_for, traffic_place};
ghost use Rattle.daa_legs.specs.Violating.{ViolatesBy};

use crate::own_leg::{OwnLeg, OwnRun};
use crate::traffic::{place_from, traffic_now, velocity_of};
use daa_fixed::{Flat, Leg, Solid};
use daa_state::Traffic;

/// The ownship minus the aircraft on second `k`, 0 to 179: the ownship's leg less the aircraft's
/// place at that second, which is `age + k` seconds after its report, and less its velocity. The
/// leg has one second.
pub fn relative(leg: &OwnLeg, aircraft: &Traffic, k: u32) -> Leg
    requires leg { IsOwnLegInRange leg.now }
    requires aircraft { IsTrafficInRange aircraft.now }
    requires k { k < 180 }
    ensures value { result ≡ relative_for 1 leg.now aircraft.now k }
    ensures in_range { IsLegInRange result }
{
    relative_from(leg, aircraft, &traffic_now(aircraft), k)
}

/// What `relative` answers, for a caller that knows where the aircraft is now.
#[inline(always)]
pub fn relative_from(leg: &OwnLeg, aircraft: &Traffic, now: &Solid, k: u32) -> Leg
    requires leg { IsOwnLegInRange leg.now }
    requires aircraft { IsTrafficInRange aircraft.now }
    requires now { now.now ≡ traffic_place aircraft.now 0 }
    requires k { k < 180 }
    ensures value { result ≡ relative_for 1 leg.now aircraft.now k }
    ensures in_range { IsLegInRange result }
{
    Leg {
        place: difference(&leg.place, &place_from(aircraft, now, k)),
        velocity: difference(&leg.velocity, &velocity_of(aircraft)),
        secs: 1,
    }
}

/// The ownship minus the aircraft on the run that begins with second `k`, as one leg of all its
/// seconds. Where the run is one of a candidate's flight, a volume is violated at some time of this
/// leg exactly where it is at some time of one of the run's one-second legs, also where what is
/// reported may err.
pub fn relative_run(run: &OwnRun, aircraft: &Traffic, k: u32) -> Leg
    requires run { IsOwnRunInRange run.now }
    requires aircraft { IsTrafficInRange aircraft.now }
    requires k { k < 180 }
    requires short { run.now.secs ≤ 180 }
    ensures value { result ≡ relative_for run.now.secs (first_leg_of run.now) aircraft.now k }
    ensures in_range { IsLegInRange result }
    ensures seconds { (settings : Settings) (own : Own) (candidate : Candidate) (volume : Volume)
        → IsRunOf own (rates_of settings) candidate k run.now
        → HoldsSometime result.secs (ViolatesBy aircraft.now k result volume)
        ↔ MeetsBetween settings own candidate aircraft.now volume k (k + run.now.secs) }
{
    relative_run_from(run, aircraft, &traffic_now(aircraft), k)
}

/// What `relative_run` answers, for a caller that knows where the aircraft is now.
#[inline(always)]
pub fn relative_run_from(run: &OwnRun, aircraft: &Traffic, now: &Solid, k: u32) -> Leg
    requires run { IsOwnRunInRange run.now }
    requires aircraft { IsTrafficInRange aircraft.now }
    requires now { now.now ≡ traffic_place aircraft.now 0 }
    requires k { k < 180 }
    requires short { run.now.secs ≤ 180 }
    ensures value { result ≡ relative_for run.now.secs (first_leg_of run.now) aircraft.now k }
    ensures in_range { IsLegInRange result }
    ensures seconds { (settings : Settings) (own : Own) (candidate : Candidate) (volume : Volume)
        → IsRunOf own (rates_of settings) candidate k run.now
        → HoldsSometime result.secs (ViolatesBy aircraft.now k result volume)
        ↔ MeetsBetween settings own candidate aircraft.now volume k (k + run.now.secs) }
{
    Leg {
        place: difference(&run.place, &place_from(aircraft, now, k)),
        velocity: difference(&run.velocity, &velocity_of(aircraft)),
        secs: run.secs,
    }
}

/// The difference of two vectors, each axis by itself.
fn difference(x: &Solid, y: &Solid) -> Solid
    requires x { IsSolidBelow 20000000 x.now }
    requires y { IsSolidBelow 20000000 y.now }
    ensures { result ≡ minus x.now y.now }
{
    Solid {
        flat: Flat {
            east: x.flat.east - y.flat.east,
            north: x.flat.north - y.flat.north,
        },
        up: x.up - y.up,
    }
}
