//! What the candidates of one side share against an aircraft: the walk along the flight that leads
//! on their side.

ghost use Rattle.std.specs.Prelude.{◌≡◌, ◌≤◌, ◌<◌, ◌+◌, ◌-◌, ◌^◌, ◌↔◌, ◌⊎◌, IsTrue, false};
ghost use Rattle.daa_config.specs.Settings.{IsCandidateInRange, rates_of};
ghost use Rattle.daa_config.specs.declared.candidate.Candidate.{Candidate};
ghost use Rattle.daa_legs.specs.Branch.{FliesOn, velocity_there};
ghost use Rattle.daa_legs.specs.Table.{IsBranchOf};
ghost use Rattle.daa_legs.specs.OwnLeg.{place_on};
ghost use Rattle.daa_scan.specs.Inside.Rounds.{settings_in, own_in, aircraft_in, IsHitOn, IsMet, IsMetFrom};
ghost use Rattle.daa_scan.specs.Inside.Sharing.{IsTrailOf, IsSure, IsTrailAt, IsTrailFor, IsLed, IsBranchBy};

use crate::encounter::Round;
use crate::trail::Trail;
use daa_config::Candidate;
use daa_fixed::Solid;
use daa_legs::{Branch, OwnLeg, OwnRun, Trunk, end_of, relative_from, relative_run_from};
use daa_meet::violates_on;

/// So many legs of a trunk are walked at least, once a leg is, or all before the lookahead: one
/// call for many candidates.
const STRIDE: u32 = 16;

/// Walks the trail on to leg `upto` or to a hit, where it was not walked so far. It may be walked
/// some legs farther.
#[inline(always)]
pub(crate) fn walk_ahead(
    round: &Round,
    lead: Candidate,
    trunk: &Trunk,
    trail: &mut Trail,
    upto: u32,
)
    requires lead { IsLed round.now lead trunk.now }
    requires upto { upto ≤ round.now.level.lookahead }
    requires trail { IsTrailAt round.now lead trail.old }
    ensures trail { IsTrailAt round.now lead trail.new }
    ensures done { trail.new.hit ≡ false → upto ≤ trail.new.walked }
    ensures end { trail.new.end ≡ trail.old.end }
{
    if trail.hit || upto <= trail.walked {
        return;
    }
    let far = stride_end(trail.walked, upto, round.level.lookahead);
    walk_on(round, lead, trunk, trail, far);
    trail.past = sure_past(trail, round.level.lookahead);
    trail.answer = answer_of(trail.hit, round.l);
}

/// What is added to the masks of candidates that the trail alone answers: level `l` where there is
/// a hit.
#[inline(always)]
fn answer_of(hit: bool, l: u32) -> u8
    requires { (1 ≤ l) × (l ≤ 8) }
    ensures hit { IsTrue hit → result ≡ 2 ^ (l - 1) }
    ensures clear { hit ≡ false → result ≡ 0 }
{
    u8::from(hit) << (l - 1)
}

/// After which leg a candidate must leave the trail's flight to be answered by the trail alone, if
/// there is such a leg: after the hit, or after the last leg that may violate, since it then leaves
/// where nothing may violate any more.
#[inline(always)]
pub(crate) fn sure_past(trail: &Trail, lookahead: u32) -> u32
    ensures { IsSure lookahead (record trail.now { past = result }) }
{
    if trail.hit && trail.walked < lookahead {
        return trail.walked;
    }
    let last = lookahead.min(trail.end);
    if !trail.hit && last <= trail.walked {
        return last.saturating_sub(1);
    }
    u32::MAX
}

/// The leg up to which a trail is walked on, where it has to be walked on to leg `upto`.
#[inline(always)]
fn stride_end(walked: u32, upto: u32, most: u32) -> u32
    requires upto { upto ≤ most }
    requires most { most ≤ 180 }
    ensures far { upto ≤ result }
    ensures within { result ≤ most }
{
    if most - upto <= STRIDE {
        return most;
    }
    if upto - upto.min(walked) < STRIDE {
        upto + STRIDE
    } else {
        upto
    }
}

/// Walks the trail on to leg `upto`, or to a hit.
#[inline(never)]
fn walk_on(round: &Round, lead: Candidate, trunk: &Trunk, trail: &mut Trail, upto: u32)
    requires lead { IsLed round.now lead trunk.now }
    requires upto { upto ≤ round.now.level.lookahead }
    requires trail { IsTrailOf (settings_in round.now) (own_in round.now) lead
        (aircraft_in round.now) round.now.level.volume trail.old }
    ensures trail { IsTrailOf (settings_in round.now) (own_in round.now) lead
        (aircraft_in round.now) round.now.level.volume trail.new }
    ensures done { trail.new.hit ≡ false → upto ≤ trail.new.walked }
    ensures end { trail.new.end ≡ trail.old.end }
{
    if trail.hit || upto <= trail.walked {
        return;
    }
    let last = upto.min(trail.end);
    let mut walked = trail.walked;
    while walked < last {
        if violates_on_trunk(round, lead, trunk, walked) {
            trail.walked = walked;
            trail.hit = true;
            return;
        }
        walked += 1;
    }
    trail.walked = upto;
}

/// Whether a leg of the trunk violates the level's volume.
#[inline(always)]
fn violates_on_trunk(round: &Round, lead: Candidate, trunk: &Trunk, k: u32) -> bool
    requires lead { IsLed round.now lead trunk.now }
    requires k { k < round.now.level.lookahead }
    ensures { IsTrue result ↔ IsHitOn round.now lead k }
{
    let aircraft = round.encounter.aircraft;
    let seen = relative_from(trunk.leg(k), aircraft, &round.encounter.place, k);
    violates_on(&seen, &round.level.volume, aircraft, k)
}

/// Whether the candidate that has this branch meets the aircraft on the leg on which it leaves the
/// trunk, or later. It stands in the loop over the candidates: as a call it would cost each of them
/// what the loop keeps at hand.
#[inline(always)]
fn meets_after(round: &Round, lead: Candidate, trunk: &Trunk, branch: &Branch) -> bool
    ghost candidate: { Candidate }
    requires lead { IsLed round.now lead trunk.now }
    requires branch { IsBranchBy round.now lead candidate branch.now }
    requires leaves { branch.now.leaves < round.now.level.lookahead }
    ensures { IsTrue result ↔ IsMetFrom round.now candidate branch.now.leaves }
{
    let k = branch.leaves;
    let place = &trunk.leg(k).place;
    if branch.settles > k {
        meets_from_own_leg(round, branch, place)
    } else {
        meets_on_rest(round, &branch.velocity, place, k)
    }
}

/// Whether the candidate that has this branch, and which is at this place when it leaves the trunk,
/// meets the aircraft then or later. It leaves by a leg of its own. Few do, so that this is a call:
/// what it keeps at hand would cost each of the others.
#[inline(never)]
fn meets_from_own_leg(round: &Round, branch: &Branch, place: &Solid) -> bool
    ghost candidate: { Candidate }
    requires candidate { IsCandidateInRange candidate }
    requires branch { IsBranchOf (own_in round.now) (rates_of (settings_in round.now))
        candidate branch.now }
    requires leaves { branch.now.leaves < round.now.level.lookahead }
    requires later { branch.now.leaves < branch.now.settles }
    requires place { place.now ≡ place_on (own_in round.now) (rates_of (settings_in round.now))
        candidate branch.now.leaves }
    ensures { IsTrue result ↔ IsMetFrom round.now candidate branch.now.leaves }
{
    let k = branch.leaves;
    let first = own_leg_of(branch, place);
    let aircraft = round.encounter.aircraft;
    let seen = relative_from(&first, aircraft, &round.encounter.place, k);
    if violates_on(&seen, &round.level.volume, aircraft, k) {
        return true;
    }
    meets_on_rest(round, &branch.velocity, &end_of(&first), k + 1)
}

/// The leg of the candidate's own, which begins at this place.
fn own_leg_of(branch: &Branch, place: &Solid) -> OwnLeg
    ensures { result ≡ record {
      place = place.now;
      velocity = record { flat = branch.now.velocity.flat; up = branch.now.rise };
    } }
{
    OwnLeg {
        place: *place,
        velocity: Solid {
            flat: branch.velocity.flat,
            up: branch.rise,
        },
    }
}

/// Whether the candidate, which flies straight on from this place at this velocity, meets the
/// aircraft on leg `k` or later.
#[inline(always)]
fn meets_on_rest(round: &Round, velocity: &Solid, place: &Solid, k: u32) -> bool
    ghost candidate: { Candidate }
    requires candidate { IsCandidateInRange candidate }
    requires velocity { velocity.now ≡ velocity_there (own_in round.now) candidate }
    requires place { place.now ≡ place_on (own_in round.now) (rates_of (settings_in round.now))
        candidate k }
    requires on { FliesOn (own_in round.now) (rates_of (settings_in round.now)) candidate k }
    ensures { IsTrue result ↔ IsMetFrom round.now candidate k }
{
    if k >= round.level.lookahead {
        return false;
    }
    let run = OwnRun {
        place: *place,
        velocity: *velocity,
        secs: round.level.lookahead - k,
    };
    let aircraft = round.encounter.aircraft;
    let seen = relative_run_from(&run, aircraft, &round.encounter.place, k);
    violates_on(&seen, &round.level.volume, aircraft, k)
}

/// Whether the candidate that has this branch, which violates nothing from the trail's end on,
/// meets the aircraft within the level's lookahead.
#[inline(always)]
pub(crate) fn meets_by_branch(
    round: &Round,
    lead: Candidate,
    trunk: &Trunk,
    trail: &Trail,
    branch: &Branch,
) -> bool
    ghost candidate: { Candidate }
    requires lead { IsLed round.now lead trunk.now }
    requires branch { IsBranchBy round.now lead candidate branch.now }
    requires trail { IsTrailFor round.now lead candidate trail.now }
    requires walked { trail.now.hit ≡ false → (branch.now.leaves ≤ trail.now.walked)
        ⊎ (round.now.level.lookahead ≤ trail.now.walked) }
    ensures { IsTrue result ↔ IsMet round.now candidate }
{
    if trail.hit && trail.walked < branch.leaves && trail.walked < round.level.lookahead {
        return true;
    }
    let last = round.level.lookahead.min(trail.end);
    if branch.leaves >= last {
        return false;
    }
    meets_after(round, lead, trunk, branch)
}
