//! States flown to one instant: a report has a time of its own, in milliseconds, and so has the
//! moment.

ghost use Rattle.std.specs.Prelude.{◌≡◌, ◌≢◌, ◌<◌, ◌≤◌, ℤ, pos, neg_ℤ, ◌<ℤ◌, ◌+ℤ◌, ◌*ℤ◌, ◌*◌};
ghost use Rattle.std.specs.Prelude.{IfOk, IfErr, None};
ghost use Rattle.daa_fixed.specs.Size.{IsFrom, IsWithin};
ghost use Rattle.daa_state.specs.InRange.{IsOwnInRange, IsTrafficInRange};
ghost use Rattle.daa_numbers.specs.Flown.{nearest, place_after, altitude_after, flown_traffic};
ghost use Rattle.daa_numbers.specs.Flown.{flown_own};
ghost use Rattle.daa_numbers.specs.Flown.{IsAge, IsAhead, IsTooOld, IsFlown, IsOwnFlown};
ghost use Rattle.daa_numbers.specs.Flown.{IsSoundBut};
ghost use Rattle.daa_numbers.specs.Inside.Flown.{AreParts};
ghost use Rattle.daa_numbers.specs.Refusal.{own_refusal, traffic_refusal, IsCodeOf};
ghost use Rattle.daa_numbers.specs.States.{traffic_of};

use crate::codes::{AHEAD, TOO_OLD};
use crate::refusal::code;
use crate::states::{DaaTraffic, checked_traffic, test_own};
use daa_heading::velocity;
use daa_state::{Own, Traffic};

/// The most milliseconds that a report may be old: the engine takes ages of up to 60 seconds.
const MOST_AGE: u32 = 60_999;

/// The whole number nearest to a / b.
fn nearest(a: i64, b: i64) -> i64
    requires a { IsWithin 609990000 a }
    requires b { IsFrom (pos 1) (pos 60000) b }
    ensures value { result ≡ nearest a b }
    ensures size { IsWithin 1220040000 result }
{
    (2 * a + b).div_euclid(2 * b)
}

/// So many milliseconds at a speed.
fn way(speed: i64, ms: i64) -> i64
    requires speed { IsWithin 10000 speed }
    requires ms { IsFrom (neg_ℤ (pos 1000)) (pos 60999) ms }
    ensures value { result ≡ speed *ℤ ms }
    ensures size { IsWithin 609990000 result }
{
    speed * ms
}

/// A number from which another one is as far as the nearest to a / b.
fn beyond(from: i32, a: i64, b: i64) -> i32
    requires from { IsWithin 200000 from }
    requires a { IsWithin 609990000 a }
    requires b { IsFrom (pos 1) (pos 60000) b }
    ensures { result ≡ from +ℤ nearest a b }
{
    (i64::from(from) + nearest(a, b)) as i32
}

/// A place on an axis after some time.
fn place_after(place: i32, speed: i64, ms: i64) -> i32
    requires place { IsWithin 200000 place }
    requires speed { IsWithin 10000 speed }
    requires ms { IsFrom (neg_ℤ (pos 1000)) (pos 60999) ms }
    ensures { result ≡ place_after place speed ms }
{
    beyond(place, way(speed, ms), 36_000)
}

/// An altitude after some time.
fn altitude_after(altitude: i32, speed: i32, ms: i64) -> i32
    requires altitude { IsWithin 60000 altitude }
    requires speed { IsWithin 10000 speed }
    requires ms { IsFrom (neg_ℤ (pos 1000)) (pos 60999) ms }
    ensures { result ≡ altitude_after altitude speed ms }
{
    beyond(altitude, way(i64::from(speed), ms), 60_000)
}

/// How old a report is, or why it is not taken.
fn age_of(at: u64, now: u64, most: u32) -> Result<i64, i32>
    ensures age { IfOk result (IsAge at now most) }
    ensures old { IfErr result (λ code. code ≡ pos 31 → IsTooOld at now most) }
    ensures ahead { IfErr result (λ code. code ≢ pos 31 → (code ≡ pos 32) × IsAhead at now) }
{
    if at > now {
        let ahead = at - now;
        if ahead > 1000 {
            return Err(AHEAD);
        }
        return Ok(-(ahead as i64));
    }
    let age = now - at;
    if age > u64::from(most.min(MOST_AGE)) {
        return Err(TOO_OLD);
    }
    Ok(age as i64)
}

/// The whole seconds of an age, and what is left of it; of a time ahead all is left.
fn parts_of(age: i64) -> (u32, i64)
    requires { IsFrom (neg_ℤ (pos 1000)) (pos 60999) age }
    ensures { AreParts age result.0 result.1 }
{
    if age < 0 {
        return (0, age);
    }
    ((age / 1000) as u32, age % 1000)
}

/// An aircraft flown on.
fn flown_traffic(traffic: &DaaTraffic, ms: i64, age: u32) -> DaaTraffic
    requires range { IsTrafficInRange (traffic_of traffic.now) }
    requires ms { IsFrom (neg_ℤ (pos 1000)) (pos 60999) ms }
    ensures { result ≡ flown_traffic traffic.now ms age }
{
    DaaTraffic {
        id: traffic.id,
        x: place_after(traffic.x, i64::from(traffic.vx), ms),
        y: place_after(traffic.y, i64::from(traffic.vy), ms),
        alt: altitude_after(traffic.alt, traffic.vs, ms),
        vx: traffic.vx,
        vy: traffic.vy,
        vs: traffic.vs,
        age,
    }
}

/// An ownship flown on.
fn flown_own(own: &Own, ms: i64) -> Own
    requires range { IsOwnInRange own.now }
    requires ms { IsFrom (neg_ℤ (pos 1000)) (pos 60999) ms }
    ensures { result ≡ flown_own own.now ms }
{
    let speed = velocity(own.gs, own.trk);
    Own {
        x: place_after(own.x, speed.east, ms),
        y: place_after(own.y, speed.north, ms),
        alt: altitude_after(own.alt, own.vs, ms),
        trk: own.trk,
        gs: own.gs,
        vs: own.vs,
    }
}

/// An aircraft without its age.
fn ageless(traffic: &DaaTraffic) -> DaaTraffic
    ensures { result ≡ record traffic.now { age = 0 } }
{
    DaaTraffic { age: 0, ..*traffic }
}

/// Fills in an aircraft as it is at a time, from its report of another time, both in milliseconds:
/// its age in whole seconds, over which the engine flies it, and its numbers flown straight on over
/// what is left. A report of up to a second ahead is flown back. The age of the report itself is
/// not read. Returns 0, or the code of why nothing was filled in.
pub fn fly(traffic: &DaaTraffic, at: u64, now: u64, most: u32, out: &mut DaaTraffic) -> i32
    ensures sound { result ≡ pos 0 → traffic_refusal (record traffic.now { age = 0 }) ≡ None }
    ensures flown { result ≡ pos 0 → IsFlown at now most traffic.now out.new }
    ensures kept { result ≢ pos 0 → out.new ≡ out.old }
    ensures too_old { result ≡ pos 31
        → IsSoundBut (traffic_refusal (record traffic.now { age = 0 })) (IsTooOld at now most) }
    ensures ahead { result ≡ pos 32
        → IsSoundBut (traffic_refusal (record traffic.now { age = 0 })) (IsAhead at now) }
    ensures refused { result ≢ pos 0 → result ≢ pos 31 → result ≢ pos 32
        → IsCodeOf (traffic_refusal (record traffic.now { age = 0 })) result }
{
    let ageless = ageless(traffic);
    if let Err(refusal) = checked_traffic(&ageless) {
        return code(refusal);
    }
    let age = match age_of(at, now, most) {
        Ok(age) => age,
        Err(code) => return code,
    };
    let (seconds, rest) = parts_of(age);
    *out = flown_traffic(&ageless, rest, seconds);
    0
}

/// Fills in the ownship as it is at a time, from its report of another time, both in milliseconds:
/// flown straight on over all of its age, since the engine takes it as it is. A report of up to a
/// second ahead is flown back. Returns 0, or the code of why nothing was filled in.
pub fn fly_own(own: &Own, at: u64, now: u64, most: u32, out: &mut Own) -> i32
    ensures sound { result ≡ pos 0 → own_refusal own.now ≡ None }
    ensures flown { result ≡ pos 0 → IsOwnFlown at now most own.now out.new }
    ensures kept { result ≢ pos 0 → out.new ≡ out.old }
    ensures too_old { result ≡ pos 31
        → IsSoundBut (own_refusal own.now) (IsTooOld at now most) }
    ensures ahead { result ≡ pos 32 → IsSoundBut (own_refusal own.now) (IsAhead at now) }
    ensures refused { result ≢ pos 0 → result ≢ pos 31 → result ≢ pos 32
        → IsCodeOf (own_refusal own.now) result }
{
    if let Err(refusal) = test_own(own) {
        return code(refusal);
    }
    let age = match age_of(at, now, most) {
        Ok(age) => age,
        Err(code) => return code,
    };
    *out = flown_own(own, age);
    0
}
