//! Whether some candidate of a kind is open where it begins at a second.

ghost use Rattle.std.specs.Prelude.{◌≡◌, ◌↔◌, ◌<◌, ◌≤◌, ◌+◌, ℤ, IsTrue, MatchOption};
ghost use Rattle.daa_config.specs.declared.candidate.Candidate.TheVariants.{Hold};
ghost use Rattle.daa_config.specs.declared.candidate.Candidate.{Candidate};
ghost use Rattle.daa_config.specs.Candidates.{candidate_to};
ghost use Rattle.daa_config.specs.Settings.{IsCandidateInRange, rates_of};
ghost use Rattle.daa_state.specs.InRange.{IsOwnInRange, IsPictureInRange, IsTrafficInRange};
ghost use Rattle.daa_legs.specs.Branch.{lead_of, FliesAs};
ghost use Rattle.daa_legs.specs.OwnLeg.{own_leg, place_on};
ghost use Rattle.daa_legs.specs.Table.{IsBranchOf};
ghost use Rattle.daa_recovery.specs.OutlookState.{IsHorizon};
ghost use Rattle.daa_last.specs.Last.{IsOpenDelayed, IsSomeOpen};
ghost use Rattle.daa_last.specs.Inside.Starts.{IsHeldOpenOfAll};
ghost use Rattle.daa_last.specs.Inside.Rests.{IsMovedAlone, IsRestOf};
ghost use Rattle.daa_last.specs.Inside.Search.{IsClosedLate, IsClosedLateOfSome};
ghost use Rattle.daa_last.specs.Inside.Sides.{IsSide, AreSides, IsWalk, AreWalks};

use crate::aircraft::aircraft_at;
use crate::rest::{Rest, meets_late};
use crate::side::{NONE, Side, Sides, Walk, Walks, moved_leg, walk_to};
use daa_config::{Candidate, Config, Kind};
use daa_fixed::Solid;
use daa_legs::{Branch, OwnLeg, branch_of};
use daa_recovery::candidate_going_to;
use daa_state::{Own, Picture, Traffic};

/// Whether some candidate of the kind that begins at second `m` is open. The present flight's leg
/// `m` is `start`, and it is clear before.
pub(crate) fn is_some_open(
    config: &Config,
    picture: &Picture,
    kind: Kind,
    sides: &Sides,
    start: &OwnLeg,
    m: u32,
    horizon: u32,
) -> bool
    requires picture { IsPictureInRange picture.now }
    requires sides { AreSides picture.now.own (rates_of config.now) horizon kind sides.now }
    requires start { start.now ≡ own_leg picture.now.own (rates_of config.now) Hold m }
    requires m { m < horizon }
    requires horizon { IsHorizon config.now horizon }
    requires short { horizon ≤ 180 }
    requires held { IsHeldOpenOfAll config.now picture.now m }
    ensures { IsTrue result ↔ IsSomeOpen config.now picture.now kind m }
{
    let mut walks = new_walks(config, picture, sides, m);
    let mut likely = 0;
    for index in 0..config.count(kind) {
        let candidate = candidate_going_to(kind, &config.value(kind, index));
        match closing(
            config, picture, kind, sides, &mut walks, candidate, start, m, horizon, likely,
        ) {
            None => return true,
            Some(place) => likely = place,
        }
    }
    false
}

/// Nothing was walked so far.
fn new_walks(config: &Config, picture: &Picture, sides: &Sides, m: u32) -> Walks
    ensures { AreWalks config.now picture.now m sides.now result }
{
    let walk = Walk {
        walked: 0,
        blocked: NONE,
    };
    Walks {
        upper: walk,
        lower: walk,
    }
}

/// `None` exactly if the candidate is open; else the place of an aircraft that is tried first of
/// the next one, which no clause says.
fn closing(
    config: &Config,
    picture: &Picture,
    kind: Kind,
    sides: &Sides,
    walks: &mut Walks,
    candidate: Candidate,
    start: &OwnLeg,
    m: u32,
    horizon: u32,
    likely: u32,
) -> Option<u32>
    requires picture { IsPictureInRange picture.now }
    requires sides { AreSides picture.now.own (rates_of config.now) horizon kind sides.now }
    requires walks { AreWalks config.now picture.now m sides.now walks.old }
    requires candidate { IsCandidateInRange candidate }
    requires kind { (z : ℤ) × (candidate ≡ candidate_to kind z) }
    requires start { start.now ≡ own_leg picture.now.own (rates_of config.now) Hold m }
    requires m { m < horizon }
    requires horizon { IsHorizon config.now horizon }
    requires short { horizon ≤ 180 }
    requires held { IsHeldOpenOfAll config.now picture.now m }
    ensures closes { MatchOption result
        (IsOpenDelayed config.now picture.now candidate m)
        (λ place. ¬ IsOpenDelayed config.now picture.now candidate m) }
    ensures walks { AreWalks config.now picture.now m sides.now walks.new }
{
    match candidate {
        Candidate::Altitude(_a) => closing_from(config, picture, candidate, start, m, likely),
        _ => {
            let branch = branch_of(&picture.own, &config.rates(), candidate);
            if branch.upper {
                closing_beside(
                    config,
                    picture,
                    &sides.upper,
                    &mut walks.upper,
                    candidate,
                    &branch,
                    &start.place,
                    m,
                    horizon,
                    likely,
                )
            } else {
                closing_beside(
                    config,
                    picture,
                    &sides.lower,
                    &mut walks.lower,
                    candidate,
                    &branch,
                    &start.place,
                    m,
                    horizon,
                    likely,
                )
            }
        }
    }
}

/// The same of an altitude, whose way begins at another height.
fn closing_from(
    config: &Config,
    picture: &Picture,
    candidate: Candidate,
    start: &OwnLeg,
    m: u32,
    likely: u32,
) -> Option<u32>
    requires picture { IsPictureInRange picture.now }
    requires candidate { IsCandidateInRange candidate }
    requires altitude { (a : ℤ) × (candidate ≡ Candidate.Altitude a) }
    requires start { start.now ≡ own_leg picture.now.own (rates_of config.now) Hold m }
    requires held { IsHeldOpenOfAll config.now picture.now m }
    ensures { MatchOption result
        (IsOpenDelayed config.now picture.now candidate m)
        (λ place. ¬ IsOpenDelayed config.now picture.now candidate m) }
{
    let _rates = config.rates();
    let rest = Rest {
        candidate,
        from: m,
        settles: m,
        place: start.place,
        velocity: start.velocity,
        rise: 0,
    };
    closing_on(config, picture, m, &rest, likely)
}

/// The same of a candidate that leaves the flight that leads on its side. What closes most of them
/// is tried first: a leg of that flight that is known to be violated, and then the straight rest.
fn closing_beside(
    config: &Config,
    picture: &Picture,
    side: &Side,
    walk: &mut Walk,
    candidate: Candidate,
    branch: &Branch,
    start: &Solid,
    m: u32,
    horizon: u32,
    likely: u32,
) -> Option<u32>
    requires picture { IsPictureInRange picture.now }
    requires side { IsSide picture.now.own (rates_of config.now) horizon side.now }
    requires lead { IsMovedAlone picture.now.own (rates_of config.now) m side.now.lead }
    requires walk { IsWalk config.now picture.now m side.now.lead walk.old }
    requires candidate { IsCandidateInRange candidate }
    requires alone { IsMovedAlone picture.now.own (rates_of config.now) m candidate }
    requires other { (a : ℤ) → candidate ≡ Candidate.Altitude a → ⊥ }
    requires leads { side.now.lead ≡ lead_of picture.now.own candidate branch.now.upper }
    requires branch { IsBranchOf picture.now.own (rates_of config.now) candidate branch.now }
    requires start { start.now ≡ place_on picture.now.own (rates_of config.now) Hold m }
    requires m { m < horizon }
    requires horizon { IsHorizon config.now horizon }
    requires short { horizon ≤ 180 }
    requires held { IsHeldOpenOfAll config.now picture.now m }
    ensures closes { MatchOption result
        (IsOpenDelayed config.now picture.now candidate m)
        (λ place. ¬ IsOpenDelayed config.now picture.now candidate m) }
    ensures walk { IsWalk config.now picture.now m side.now.lead walk.new }
{
    let left = horizon - m;
    if branch.leaves >= left {
        return closing_by_lead(
            config, picture, side, walk, candidate, start, m, left, horizon, likely,
        );
    }
    let rest = rest_of(
        config,
        &picture.own,
        side,
        candidate,
        branch,
        start,
        m,
        horizon,
    );
    if walk.blocked < branch.leaves {
        return Some(likely);
    }
    match closing_on(config, picture, m, &rest, likely) {
        Some(place) => Some(place),
        None => closing_by_lead(
            config,
            picture,
            side,
            walk,
            candidate,
            start,
            m,
            branch.leaves,
            horizon,
            likely,
        ),
    }
}

/// The same, where no aircraft closes the candidate from where it leaves the flight that leads.
fn closing_by_lead(
    config: &Config,
    picture: &Picture,
    side: &Side,
    walk: &mut Walk,
    candidate: Candidate,
    start: &Solid,
    m: u32,
    leaves: u32,
    horizon: u32,
    likely: u32,
) -> Option<u32>
    requires picture { IsPictureInRange picture.now }
    requires side { IsSide picture.now.own (rates_of config.now) horizon side.now }
    requires lead { IsMovedAlone picture.now.own (rates_of config.now) m side.now.lead }
    requires walk { IsWalk config.now picture.now m side.now.lead walk.old }
    requires alone { IsMovedAlone picture.now.own (rates_of config.now) m candidate }
    requires alike { FliesAs picture.now.own (rates_of config.now) candidate side.now.lead leaves }
    requires rest { ¬ IsClosedLateOfSome config.now picture.now candidate m (m + leaves) }
    requires start { start.now ≡ place_on picture.now.own (rates_of config.now) Hold m }
    requires leaves { m + leaves ≤ horizon }
    requires horizon { horizon ≤ 180 }
    requires held { IsHeldOpenOfAll config.now picture.now m }
    ensures closes { MatchOption result
        (IsOpenDelayed config.now picture.now candidate m)
        (λ place. ¬ IsOpenDelayed config.now picture.now candidate m) }
    ensures walk { IsWalk config.now picture.now m side.now.lead walk.new }
{
    walk_to(config, picture, side, walk, start, m, leaves, horizon);
    if walk.blocked < leaves {
        Some(likely)
    } else {
        None
    }
}

/// The straight rest of a candidate that leaves before the horizon.
fn rest_of(
    config: &Config,
    own: &Own,
    side: &Side,
    candidate: Candidate,
    branch: &Branch,
    start: &Solid,
    m: u32,
    horizon: u32,
) -> Rest
    requires own { IsOwnInRange own.now }
    requires side { IsSide own.now (rates_of config.now) horizon side.now }
    requires lead { IsMovedAlone own.now (rates_of config.now) m side.now.lead }
    requires candidate { IsCandidateInRange candidate }
    requires alone { IsMovedAlone own.now (rates_of config.now) m candidate }
    requires other { (a : ℤ) → candidate ≡ Candidate.Altitude a → ⊥ }
    requires leads { side.now.lead ≡ lead_of own.now candidate branch.now.upper }
    requires branch { IsBranchOf own.now (rates_of config.now) candidate branch.now }
    requires start { start.now ≡ place_on own.now (rates_of config.now) Hold m }
    requires leaves { m + branch.now.leaves < horizon }
    requires horizon { horizon ≤ 180 }
    ensures rest { IsRestOf own.now (rates_of config.now) m result }
    ensures candidate { result.candidate ≡ candidate }
    ensures from { result.from ≡ m + branch.now.leaves }
{
    Rest {
        candidate,
        from: m + branch.leaves,
        settles: m + branch.settles,
        place: moved_leg(config, own, side, start, m, branch.leaves, horizon).place,
        velocity: branch.velocity,
        rise: branch.rise,
    }
}

/// `None` exactly if no aircraft violates a level that closes on the rest of a flight; else the
/// place of one that does. The one at the place `likely` is tried first, since it closed the
/// candidate before.
fn closing_on(config: &Config, picture: &Picture, m: u32, rest: &Rest, likely: u32) -> Option<u32>
    requires picture { IsPictureInRange picture.now }
    requires rest { IsRestOf picture.now.own (rates_of config.now) m rest.now }
    ensures { MatchOption result
        (¬ IsClosedLateOfSome config.now picture.now rest.now.candidate m rest.now.from)
        (λ place. IsClosedLateOfSome config.now picture.now rest.now.candidate m rest.now.from) }
{
    let own = &picture.own;
    let count = picture.traffic.len() as u32;
    if likely < count {
        let aircraft = aircraft_at(picture, likely);
        if is_closed(config, own, m, rest, aircraft) {
            return Some(likely);
        }
    }
    for place in 0..count {
        let aircraft = aircraft_at(picture, place);
        if is_closed(config, own, m, rest, aircraft) {
            return Some(place);
        }
    }
    None
}

/// Whether the aircraft violates a level that closes on the rest of a flight.
fn is_closed(config: &Config, own: &Own, m: u32, rest: &Rest, aircraft: &Traffic) -> bool
    requires own { IsOwnInRange own.now }
    requires rest { IsRestOf own.now (rates_of config.now) m rest.now }
    requires aircraft { IsTrafficInRange aircraft.now }
    ensures { IsTrue result ↔ IsClosedLate config.now own.now rest.now.candidate m
        aircraft.now rest.now.from }
{
    for l in config.resolve()..config.levels() + 1 {
        let level = config.level(l);
        let (volume, upto) = (&level.volume, level.lookahead);
        if meets_late(config, own, m, rest, aircraft, volume, upto) {
            return true;
        }
    }
    false
}
