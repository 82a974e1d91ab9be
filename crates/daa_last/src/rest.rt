//! What is left of a flight that begins late, in runs of seconds with one velocity.

ghost use Rattle.std.specs.Prelude.{◌≡◌, ◌↔◌, ◌<◌, ◌≤◌, ◌+◌, ℕ, IsTrue, pos, negsuc};
ghost use Rattle.std.specs.Prelude.{unsigned_abs, ◌+ℤ◌, ◌-ℤ◌, ◌*ℤ◌, ◌≤ℤ◌};
ghost use Rattle.daa_fixed.specs.Leg.{IsSolidBelow, plus, times};
ghost use Rattle.daa_fixed.specs.Size.{IsFrom, IsWithin};
ghost use Rattle.daa_fixed.specs.Toward.{toward_of};
ghost use Rattle.daa_taumod.specs.Volume.{IsVolumeInRange};
ghost use Rattle.daa_config.specs.Settings.{AreRatesInRange, IsCandidateInRange, rates_of};
ghost use Rattle.daa_state.specs.InRange.{IsOwnInRange, IsTrafficInRange};
ghost use Rattle.daa_last.specs.Inside.Rests.{flown_at, velocity_from as next_velocity, IsRestOf};
ghost use Rattle.daa_last.specs.Inside.Search.{MeetsLate};

use daa_config::{Candidate, Config, Rates};
use daa_fixed::{Flat, Solid, feet, toward};
use daa_legs::{OwnRun, relative_run};
use daa_meet::violates_on;
use daa_state::{Own, Traffic};
use daa_taumod::Volume;

/// A candidate's flight that began late, from leg `from` on, where it is at this place. To an
/// altitude it goes over ground at the velocity, and rises toward it. Else it keeps the velocity;
/// but before leg `settles` it rises by `rise`.
#[derive(Clone, Copy)]
pub(crate) struct Rest {
    pub(crate) candidate: Candidate,
    pub(crate) from: u32,
    pub(crate) settles: u32,
    pub(crate) place: Solid,
    pub(crate) velocity: Solid,
    pub(crate) rise: i64,
}

/// What a second rises, and for how many seconds.
#[derive(Clone, Copy)]
struct Climb {
    rise: i64,
    secs: u32,
}

/// Whether the rest of the flight that is delayed by `m` violates the volume around the aircraft at
/// some time of a leg before `upto`, which is at most 180.
pub(crate) fn meets_late(
    config: &Config,
    own: &Own,
    m: u32,
    rest: &Rest,
    aircraft: &Traffic,
    volume: &Volume,
    upto: u32,
) -> bool
    requires own { IsOwnInRange own.now }
    requires rest { IsRestOf own.now (rates_of config.now) m rest.now }
    requires aircraft { IsTrafficInRange aircraft.now }
    requires volume { IsVolumeInRange volume.now }
    requires upto { upto ≤ 180 }
    ensures { IsTrue result ↔ MeetsLate config.now own.now rest.now.candidate m aircraft.now
        volume.now rest.now.from upto }
{
    let rates = config.rates();
    let mut place = rest.place;
    let mut k = rest.from;
    while k < upto {
        let run = next_run(&rates, rest, &place, k, upto - k);
        if violates_on(&relative_run(&run, aircraft, k), volume, aircraft, k) {
            return true;
        }
        place = end_of_run(&run);
        k += run.secs;
    }
    false
}

/// The seconds from leg `k` on that all have one velocity, at least one and at most so many.
fn next_run(rates: &Rates, rest: &Rest, place: &Solid, k: u32, most: u32) -> OwnRun
    requires rates { AreRatesInRange rates.now }
    requires candidate { IsCandidateInRange rest.now.candidate }
    requires height { IsWithin 20000000 place.now.up }
    requires some { 1 ≤ most }
    ensures place { result.place ≡ place.now }
    ensures some { 1 ≤ result.secs }
    ensures within { result.secs ≤ most }
    ensures keeps { (j : ℕ) → j < result.secs → next_velocity rates.now rest.now.candidate
        (plus place.now (times (pos j) result.velocity)) (flown_at rest.now (k + j))
        ≡ result.velocity }
{
    match rest.candidate {
        Candidate::Altitude(a) => climb_run(rest, place, a, rates.alt, most),
        _ => straight_run(rest, place, k, most),
    }
}

/// The next run on the way to an altitude.
fn climb_run(rest: &Rest, place: &Solid, a: i32, rate: i32, most: u32) -> OwnRun
    requires height { IsWithin 20000000 place.now.up }
    requires a { IsFrom (negsuc 1999) (pos 60000) a }
    requires rate { IsFrom (pos 1) (pos 10000) rate }
    requires some { 1 ≤ most }
    ensures place { result.place ≡ place.now }
    ensures flat { result.velocity.flat ≡ rest.now.velocity.flat }
    ensures some { 1 ≤ result.secs }
    ensures within { result.secs ≤ most }
    ensures keeps { (j : ℕ) → j < result.secs
        → toward_of (place.now.up +ℤ pos j *ℤ result.velocity.up) (pos 60 *ℤ a) rate
        -ℤ (place.now.up +ℤ pos j *ℤ result.velocity.up) ≡ result.velocity.up }
{
    let climb = climb_of(&place.up, a, rate, most);
    OwnRun {
        place: *place,
        velocity: Solid {
            flat: rest.velocity.flat,
            up: climb.rise,
        },
        secs: climb.secs,
    }
}

/// The next run of any other flight.
fn straight_run(rest: &Rest, place: &Solid, k: u32, most: u32) -> OwnRun
    requires some { 1 ≤ most }
    ensures place { result.place ≡ place.now }
    ensures some { 1 ≤ result.secs }
    ensures within { result.secs ≤ most }
    ensures keeps { (j : ℕ) → j < result.secs → flown_at rest.now (k + j) ≡ result.velocity }
{
    if k < rest.settles {
        OwnRun {
            place: *place,
            velocity: Solid {
                flat: rest.velocity.flat,
                up: rest.rise,
            },
            secs: 1,
        }
    } else {
        OwnRun {
            place: *place,
            velocity: rest.velocity,
            secs: most,
        }
    }
}

/// What the next second rises from a height toward an altitude, and for how many seconds, at most
/// so many.
fn climb_of(height: &i64, a: i32, rate: i32, most: u32) -> Climb
    requires height { IsWithin 20000000 height.now }
    requires a { IsFrom (negsuc 1999) (pos 60000) a }
    requires rate { IsFrom (pos 1) (pos 10000) rate }
    requires some { 1 ≤ most }
    ensures some { 1 ≤ result.secs }
    ensures within { result.secs ≤ most }
    ensures keeps { (j : ℕ) → j < result.secs
        → toward_of (height.now +ℤ pos j *ℤ result.rise) (pos 60 *ℤ a) rate
        -ℤ (height.now +ℤ pos j *ℤ result.rise) ≡ result.rise }
{
    let rise = rise(height, a, rate);
    if rise == 0 {
        Climb { rise, secs: most }
    } else {
        Climb {
            rise,
            secs: whole_seconds(height, a, rate).max(1).min(most),
        }
    }
}

/// What the next second rises, in units, on the way to an altitude.
fn rise(height: &i64, a: i32, rate: i32) -> i64
    requires height { IsWithin 20000000 height.now }
    requires a { IsFrom (negsuc 1999) (pos 60000) a }
    requires rate { IsFrom (pos 1) (pos 10000) rate }
    ensures { result ≡ toward_of height.now (pos 60 *ℤ a) rate -ℤ height.now }
{
    toward(*height, feet(a), i64::from(rate)) - *height
}

/// How many whole seconds at the rate fit into the way from a height to an altitude.
fn whole_seconds(height: &i64, a: i32, rate: i32) -> u32
    requires height { IsWithin 20000000 height.now }
    requires a { IsFrom (negsuc 1999) (pos 60000) a }
    requires rate { IsFrom (pos 1) (pos 10000) rate }
    ensures { (pos result *ℤ rate) ≤ℤ pos (unsigned_abs (pos 60 *ℤ a -ℤ height.now)) }
{
    (feet(a) - *height).unsigned_abs() as u32 / rate.unsigned_abs()
}

/// Where a run ends.
fn end_of_run(run: &OwnRun) -> Solid
    requires place { IsSolidBelow 20000000 run.now.place }
    requires velocity { IsSolidBelow 20000 run.now.velocity }
    requires secs { run.now.secs ≤ 180 }
    ensures { result ≡ plus run.now.place (times (pos run.now.secs) run.now.velocity) }
{
    Solid {
        flat: Flat {
            east: coordinate_after(&run.place.flat.east, &run.velocity.flat.east, run.secs),
            north: coordinate_after(&run.place.flat.north, &run.velocity.flat.north, run.secs),
        },
        up: coordinate_after(&run.place.up, &run.velocity.up, run.secs),
    }
}

/// A coordinate after so many seconds.
fn coordinate_after(begin: &i64, speed: &i64, secs: u32) -> i64
    requires begin { IsWithin 20000000 begin.now }
    requires speed { IsWithin 20000 speed.now }
    requires secs { secs ≤ 180 }
    ensures { result ≡ begin.now +ℤ pos secs *ℤ speed.now }
{
    *begin + i64::from(secs) * *speed
}
