//! What the candidates on one side of a kind share: the flight that leads there, which each of them
//! flies until it leaves it. Begun late, it is the same flight, moved.

ghost use Rattle.std.specs.Prelude.{◌≡◌, ◌↔◌, ◌⊎◌, ◌<◌, ◌≤◌, ◌+◌, ℤ, ◌+ℤ◌, ◌-ℤ◌, IsTrue};
ghost use Rattle.daa_fixed.specs.Leg.{IsLegInRange, IsSolidBelow};
ghost use Rattle.daa_fixed.specs.Size.{IsWithin};
ghost use Rattle.daa_fixed.specs.Time.{HoldsSometime};
ghost use Rattle.daa_taumod.specs.Volume.{IsVolumeInRange};
ghost use Rattle.daa_config.specs.declared.candidate.Candidate.TheVariants.{Hold};
ghost use Rattle.daa_config.specs.Candidates.{candidate_to};
ghost use Rattle.daa_config.specs.Settings.{rates_of};
ghost use Rattle.daa_state.specs.InRange.{IsOwnInRange, IsPictureInRange, IsTrafficInRange};
ghost use Rattle.daa_legs.specs.Violating.{ViolatesBy};
ghost use Rattle.daa_legs.specs.Branch.{lead_of};
ghost use Rattle.daa_legs.specs.OwnLeg.{place_on, IsOwnLegInRange};
ghost use Rattle.daa_last.specs.Delayed.{leg_delayed};
ghost use Rattle.daa_last.specs.Inside.Rests.{IsMovedAlone};
ghost use Rattle.daa_last.specs.Inside.Search.{IsStruck, IsStruckBy};
ghost use Rattle.daa_last.specs.Inside.Sides.{moved as moved_to, IsSide, AreSides, IsWalk};

use crate::aircraft::aircraft_at;
use daa_config::{Candidate, Config, Kind, Level};
use daa_fixed::{Flat, Leg, Solid};
use daa_legs::{OwnLeg, Trunk, relative};
use daa_meet::violates_on;
use daa_recovery::lead_to;
use daa_state::{Own, Picture, Traffic};

/// How many legs a flight has: no leg has this number.
pub(crate) const NONE: u32 = 180;

/// The flight that leads on a side of a kind.
#[derive(Drop)]
pub(crate) struct Side {
    pub(crate) lead: Candidate,
    pub(crate) legs: Trunk,
}

/// Both sides of a kind: to the right or up, and to the left or down.
#[derive(Drop)]
pub(crate) struct Sides {
    pub(crate) upper: Side,
    pub(crate) lower: Side,
}

/// How far the flight that leads on a side was walked, where it is begun at one second. Its legs
/// are counted from there.
#[derive(Clone, Copy)]
pub(crate) struct Walk {
    /// So many legs are violated by no aircraft at a level that closes.
    pub(crate) walked: u32,
    /// A leg that is, or `NONE`.
    pub(crate) blocked: u32,
}

/// How far both flights that lead were walked.
#[derive(Clone, Copy)]
pub(crate) struct Walks {
    pub(crate) upper: Walk,
    pub(crate) lower: Walk,
}

/// Both sides of a kind.
pub(crate) fn sides_of(config: &Config, own: &Own, kind: Kind, horizon: u32) -> Sides
    requires own { IsOwnInRange own.now }
    requires horizon { horizon ≤ 180 }
    ensures { AreSides own.now (rates_of config.now) horizon kind result }
{
    Sides {
        upper: side_of(config, own, kind, true, horizon),
        lower: side_of(config, own, kind, false, horizon),
    }
}

/// A side of a kind.
fn side_of(config: &Config, own: &Own, kind: Kind, upper: bool, horizon: u32) -> Side
    requires own { IsOwnInRange own.now }
    requires horizon { horizon ≤ 180 }
    ensures side { IsSide own.now (rates_of config.now) horizon result }
    ensures lead { (z : ℤ) → result.lead ≡ lead_of own.now (candidate_to kind z) upper }
{
    let lead = lead_to(own, kind, upper);
    let mut legs = Trunk::new();
    legs.fill(own, config, lead, horizon);
    Side { lead, legs }
}

/// Walks the flight that leads, begun at second `m` where the present flight is at `start`, on to
/// leg `upto`, or to a leg that is violated.
pub(crate) fn walk_to(
    config: &Config,
    picture: &Picture,
    side: &Side,
    walk: &mut Walk,
    start: &Solid,
    m: u32,
    upto: u32,
    horizon: u32,
)
    requires picture { IsPictureInRange picture.now }
    requires side { IsSide picture.now.own (rates_of config.now) horizon side.now }
    requires alone { IsMovedAlone picture.now.own (rates_of config.now) m side.now.lead }
    requires walk { IsWalk config.now picture.now m side.now.lead walk.old }
    requires start { start.now ≡ place_on picture.now.own (rates_of config.now) Hold m }
    requires upto { m + upto ≤ horizon }
    requires horizon { horizon ≤ 180 }
    ensures walk { IsWalk config.now picture.now m side.now.lead walk.new }
    ensures on { (walk.new.blocked < upto) ⊎ (upto ≤ walk.new.walked) }
{
    while walk.walked < upto && upto <= walk.blocked {
        walk_leg(config, picture, side, walk, start, m, horizon);
    }
}

/// Walks one leg more, or finds that it is violated.
fn walk_leg(
    config: &Config,
    picture: &Picture,
    side: &Side,
    walk: &mut Walk,
    start: &Solid,
    m: u32,
    horizon: u32,
)
    requires picture { IsPictureInRange picture.now }
    requires side { IsSide picture.now.own (rates_of config.now) horizon side.now }
    requires alone { IsMovedAlone picture.now.own (rates_of config.now) m side.now.lead }
    requires walk { IsWalk config.now picture.now m side.now.lead walk.old }
    requires start { start.now ≡ place_on picture.now.own (rates_of config.now) Hold m }
    requires left { m + walk.old.walked < horizon }
    requires horizon { horizon ≤ 180 }
    ensures walk { IsWalk config.now picture.now m side.now.lead walk.new }
    ensures on { ((walk.new.walked ≡ walk.old.walked) × (walk.new.blocked ≡ walk.old.walked))
        ⊎ ((walk.new.walked ≡ walk.old.walked + 1) × (walk.new.blocked ≡ walk.old.blocked)) }
{
    let j = walk.walked;
    let leg = moved_leg(config, &picture.own, side, start, m, j, horizon);
    if is_struck(config, picture, side.lead, &leg, m, m + j) {
        walk.blocked = j;
    } else {
        walk.walked = j + 1;
    }
}

/// Leg `j` of the flight that leads, begun at second `m`.
pub(crate) fn moved_leg(
    config: &Config,
    own: &Own,
    side: &Side,
    start: &Solid,
    m: u32,
    j: u32,
    horizon: u32,
) -> OwnLeg
    requires own { IsOwnInRange own.now }
    requires side { IsSide own.now (rates_of config.now) horizon side.now }
    requires alone { IsMovedAlone own.now (rates_of config.now) m side.now.lead }
    requires start { start.now ≡ place_on own.now (rates_of config.now) Hold m }
    requires j { m + j < horizon }
    requires horizon { horizon ≤ 180 }
    ensures value { result ≡ leg_delayed own.now (rates_of config.now) m side.now.lead (m + j) }
    ensures in_range { IsOwnLegInRange result }
{
    let _rates = config.rates();
    let leg = side.legs.leg(j);
    let here = side.legs.leg(0);
    OwnLeg {
        place: moved(&leg.place, start, &here.place),
        velocity: leg.velocity,
    }
}

/// A place of a flight that is begun at a place, where it is begun at another.
#[tactic(auto, unfolding(crate::specs::Inside::Sides::moved))]
fn moved(place: &Solid, start: &Solid, here: &Solid) -> Solid
    requires place { IsSolidBelow 20000000 place.now }
    requires start { IsSolidBelow 20000000 start.now }
    requires here { IsSolidBelow 20000000 here.now }
    ensures { result ≡ moved_to place.now start.now here.now }
{
    Solid {
        flat: Flat {
            east: coordinate_moved(&place.flat.east, &start.flat.east, &here.flat.east),
            north: coordinate_moved(&place.flat.north, &start.flat.north, &here.flat.north),
        },
        up: coordinate_moved(&place.up, &start.up, &here.up),
    }
}

/// A coordinate of such a place.
fn coordinate_moved(place: &i64, start: &i64, here: &i64) -> i64
    requires place { IsWithin 20000000 place.now }
    requires start { IsWithin 20000000 start.now }
    requires here { IsWithin 20000000 here.now }
    ensures { result ≡ (place.now +ℤ start.now) -ℤ here.now }
{
    *place + *start - *here
}

/// Whether some aircraft violates a level that closes on leg `k`, before the level's lookahead.
fn is_struck(
    config: &Config,
    picture: &Picture,
    candidate: Candidate,
    leg: &OwnLeg,
    m: u32,
    k: u32,
) -> bool
    requires picture { IsPictureInRange picture.now }
    requires leg { leg.now ≡ leg_delayed picture.now.own (rates_of config.now) m candidate k }
    requires in_range { IsOwnLegInRange leg.now }
    requires k { k < 180 }
    ensures { IsTrue result ↔ IsStruck config.now picture.now candidate m k }
{
    for place in 0..picture.traffic.len() as u32 {
        let aircraft = aircraft_at(picture, place);
        if is_struck_by(config, &picture.own, candidate, leg, m, k, aircraft) {
            return true;
        }
    }
    false
}

/// Whether the aircraft does so. What it sees of the leg is found once for all levels.
fn is_struck_by(
    config: &Config,
    own: &Own,
    candidate: Candidate,
    leg: &OwnLeg,
    m: u32,
    k: u32,
    aircraft: &Traffic,
) -> bool
    requires leg { leg.now ≡ leg_delayed own.now (rates_of config.now) m candidate k }
    requires in_range { IsOwnLegInRange leg.now }
    requires k { k < 180 }
    requires aircraft { IsTrafficInRange aircraft.now }
    ensures { IsTrue result ↔ IsStruckBy config.now own.now candidate m aircraft.now k }
{
    let seen = relative(leg, aircraft, k);
    for l in config.resolve()..config.levels() + 1 {
        let level = config.level(l);
        if violates_before(&seen, aircraft, k, level) {
            return true;
        }
    }
    false
}

/// Whether what an aircraft sees of leg `k` violates the level, and the leg is before the level's
/// lookahead.
fn violates_before(seen: &Leg, aircraft: &Traffic, k: u32, level: &Level) -> bool
    requires seen { IsLegInRange seen.now }
    requires aircraft { IsTrafficInRange aircraft.now }
    requires k { k < 180 }
    requires level { IsVolumeInRange level.now.volume }
    ensures { IsTrue result ↔ ((k < level.now.lookahead)
        × HoldsSometime seen.now.secs (ViolatesBy aircraft.now k seen.now level.now.volume)) }
{
    k < level.lookahead && violates_on(seen, &level.volume, aircraft, k)
}
