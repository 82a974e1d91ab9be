//! A walk along a flight, leg by leg, against all aircraft of the moment: which legs are closed,
//! and which come into a cylinder.

ghost use Rattle.std.specs.Prelude.{◌≡◌, ◌↔◌, ◌⊎◌, ◌+◌, ◌<◌, ◌≤◌, IsTrue, false};
ghost use Rattle.daa_fixed.specs.Leg.{IsLegInRange};
ghost use Rattle.daa_fixed.specs.Time.{HoldsSometime};
ghost use Rattle.daa_taumod.specs.Volume.{IsVolumeInRange};
ghost use Rattle.daa_config.specs.Settings.{rates_of};
ghost use Rattle.daa_state.specs.InRange.{IsTrafficInRange};
ghost use Rattle.daa_legs.specs.OwnLeg.{own_leg, IsOwnLegInRange};
ghost use Rattle.daa_legs.specs.Meeting.{ViolatesOn};
ghost use Rattle.daa_legs.specs.Violating.{ViolatesBy};
ghost use Rattle.daa_recovery.specs.Inside.Legs.{IsClosedOn, IsClosed, IsNear, IsLastBefore};
ghost use Rattle.daa_recovery.specs.Inside.Sides.{IsSide};

use crate::outlook::Outlook;
use crate::side::Side;
use daa_config::{Candidate, Level};
use daa_fixed::Leg;
use daa_legs::{OwnLeg, relative};
use daa_meet::violates_on;
use daa_state::Traffic;

impl<'a> Outlook<'a> {
    /// Walks the flight that leads on to leg `upto`, or into a cylinder.
    pub(crate) fn walk(&self, side: &mut Side, upto: u32)
        requires side { IsSide self.now side.old }
        requires upto { upto ≤ self.now.horizon }
        ensures side { IsSide self.now side.new }
        ensures lead { side.new.lead ≡ side.old.lead }
        ensures done { side.new.struck ≡ false → upto ≤ side.new.walked }
    {
        while side.walked < upto && !side.struck {
            self.walk_leg(side);
        }
    }

    /// Walks one leg, or finds that it comes into a cylinder.
    fn walk_leg(&self, side: &mut Side)
        requires side { IsSide self.now side.old }
        requires left { side.old.walked < self.now.horizon }
        requires clear { side.old.struck ≡ false }
        ensures side { IsSide self.now side.new }
        ensures lead { side.new.lead ≡ side.old.lead }
        ensures on { IsTrue side.new.struck
            ⊎ ((side.new.struck ≡ false) × (side.new.walked ≡ side.old.walked + 1)) }
    {
        let k = side.walked;
        let leg = side.legs.leg(k);
        if self.is_near(side.lead, leg, k) {
            side.struck = true;
            return;
        }
        let next = self.last_with(side.lead, leg, k, side.lasts[k as usize]);
        side.lasts[k as usize + 1] = next;
        side.walked = k + 1;
    }

    /// One more than the last closed leg up to leg `k`, which comes into no cylinder; `last` is
    /// that of the legs before it.
    pub(crate) fn last_with(&self, candidate: Candidate, leg: &OwnLeg, k: u32, last: u32) -> u32
        requires k { k < 180 }
        requires leg { leg.now ≡ own_leg self.now.picture.own (rates_of self.now.settings)
            candidate k }
        requires in_range { IsOwnLegInRange leg.now }
        requires last { IsLastBefore self.now candidate k last }
        requires apart { ¬ IsNear self.now candidate k }
        ensures { IsLastBefore self.now candidate (k + 1) result }
    {
        if self.is_closed(candidate, leg, k) {
            k + 1
        } else {
            last
        }
    }

    /// Whether leg `k` comes into the cylinder round some aircraft.
    pub(crate) fn is_near(&self, candidate: Candidate, leg: &OwnLeg, k: u32) -> bool
        requires k { k < 180 }
        requires leg { leg.now ≡ own_leg self.now.picture.own (rates_of self.now.settings)
            candidate k }
        requires in_range { IsOwnLegInRange leg.now }
        ensures { IsTrue result ↔ IsNear self.now candidate k }
    {
        for place in 0..self.picture.traffic.len() as u32 {
            if self.is_near_to(candidate, leg, k, self.aircraft(place)) {
                return true;
            }
        }
        false
    }

    /// Whether leg `k` comes into the cylinder round the aircraft.
    fn is_near_to(&self, candidate: Candidate, leg: &OwnLeg, k: u32, aircraft: &Traffic) -> bool
        requires k { k < 180 }
        requires leg { leg.now ≡ own_leg self.now.picture.own (rates_of self.now.settings)
            candidate k }
        requires in_range { IsOwnLegInRange leg.now }
        requires aircraft { IsTrafficInRange aircraft.now }
        ensures { IsTrue result ↔ ViolatesOn self.now.settings self.now.picture.own candidate
            aircraft.now self.now.cylinder k }
    {
        violates_on(&relative(leg, aircraft, k), self.cylinder, aircraft, k)
    }

    /// Whether some aircraft violates a level that closes on leg `k`, before the level's lookahead.
    fn is_closed(&self, candidate: Candidate, leg: &OwnLeg, k: u32) -> bool
        requires k { k < 180 }
        requires leg { leg.now ≡ own_leg self.now.picture.own (rates_of self.now.settings)
            candidate k }
        requires in_range { IsOwnLegInRange leg.now }
        ensures { IsTrue result ↔ IsClosed self.now candidate k }
    {
        for place in 0..self.picture.traffic.len() as u32 {
            if self.is_closed_by(candidate, leg, k, self.aircraft(place)) {
                return true;
            }
        }
        false
    }

    /// Whether the aircraft does so. What it sees of the leg is found once for all levels.
    fn is_closed_by(&self, candidate: Candidate, leg: &OwnLeg, k: u32, aircraft: &Traffic) -> bool
        requires k { k < 180 }
        requires leg { leg.now ≡ own_leg self.now.picture.own (rates_of self.now.settings)
            candidate k }
        requires in_range { IsOwnLegInRange leg.now }
        requires aircraft { IsTrafficInRange aircraft.now }
        ensures { IsTrue result ↔ IsClosedOn self.now candidate aircraft.now k }
    {
        let seen = relative(leg, aircraft, k);
        for l in self.config.resolve()..self.config.levels() + 1 {
            let level = self.config.level(l);
            if violates_before(&seen, aircraft, k, level) {
                return true;
            }
        }
        false
    }
}

/// Whether what an aircraft sees of leg `k` violates the level, and the leg is before the level's
/// lookahead.
fn violates_before(seen: &Leg, aircraft: &Traffic, k: u32, level: &Level) -> bool
    requires seen { IsLegInRange seen.now }
    requires aircraft { IsTrafficInRange aircraft.now }
    requires k { k < 180 }
    requires level { IsVolumeInRange level.now.volume }
    ensures { IsTrue result ↔ ((k < level.now.lookahead)
        × HoldsSometime seen.now.secs (ViolatesBy aircraft.now k seen.now level.now.volume)) }
{
    k < level.lookahead && violates_on(seen, &level.volume, aircraft, k)
}
