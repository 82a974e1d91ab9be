//! The least time at which one candidate recovers, once the flight that leads on its side was
//! walked to where it leaves it.

ghost use Rattle.std.specs.Prelude.{◌≡◌, ◌↔◌, ◌<◌, ◌≤◌, IsTrue};
ghost use Rattle.daa_config.specs.Settings.{IsCandidateInRange, rates_of};
ghost use Rattle.daa_taumod.specs.Volume.{IsVolumeInRange};
ghost use Rattle.daa_state.specs.InRange.{IsTrafficInRange};
ghost use Rattle.daa_legs.specs.Branch.{lead_of};
ghost use Rattle.daa_legs.specs.Meeting.{ViolatesOn};
ghost use Rattle.daa_legs.specs.OwnLeg.{place_on};
ghost use Rattle.daa_legs.specs.Runs.{MeetsBetween};
ghost use Rattle.daa_legs.specs.Table.{IsBranchOf};
ghost use Rattle.daa_recovery.specs.OutlookState.{IsHorizon};
ghost use Rattle.daa_recovery.specs.Inside.OutlookState.{IsOutlook};
ghost use Rattle.daa_recovery.specs.Inside.Legs.{IsClosedOn, IsLastBefore, IsRaised};
ghost use Rattle.daa_recovery.specs.Inside.Search.{IsLeastTime};
ghost use Rattle.daa_recovery.specs.Inside.Sides.{IsSide, IsRestOf};

use crate::outlook::Outlook;
use crate::rest::{Rest, place_at};
use crate::side::Side;
use daa_config::Candidate;
use daa_fixed::Solid;
use daa_legs::{Branch, OwnLeg, OwnRun, end_of};
use daa_meet::meets_on_run;
use daa_state::Traffic;
use daa_taumod::Volume;

impl<'a> Outlook<'a> {
    /// The least time below a bound at which the candidate that has this branch recovers, if there
    /// is one.
    pub(crate) fn time_along(
        &self,
        side: &mut Side,
        candidate: Candidate,
        branch: &Branch,
        bound: u32,
    ) -> Option<u32>
        requires side { IsSide self.now side.old }
        requires candidate { IsCandidateInRange candidate }
        requires lead { side.old.lead ≡ lead_of self.now.picture.own candidate branch.now.upper }
        requires branch { IsBranchOf self.now.picture.own (rates_of self.now.settings)
            candidate branch.now }
        ensures time { IsLeastTime self.now candidate bound result }
        ensures side { IsSide self.now side.new }
        ensures lead { side.new.lead ≡ side.old.lead }
    {
        let leaves = branch.leaves.min(self.horizon);
        self.walk(side, leaves);
        if side.walked < leaves {
            return None;
        }
        let last = side.lasts[leaves as usize];
        if leaves < self.horizon {
            self.time_from(candidate, branch, &side.legs.leg(leaves).place, last, bound)
        } else {
            self.time_after(candidate, last, bound)
        }
    }

    /// The same, for a candidate that leaves before the horizon and is at this place then.
    fn time_from(
        &self,
        candidate: Candidate,
        branch: &Branch,
        place: &Solid,
        last: u32,
        bound: u32,
    ) -> Option<u32>
        requires known { IsOutlook self.now }
        requires candidate { IsCandidateInRange candidate }
        requires branch { IsBranchOf self.now.picture.own (rates_of self.now.settings)
            candidate branch.now }
        requires leaves { branch.now.leaves < self.now.horizon }
        requires place { place.now ≡ place_on self.now.picture.own (rates_of self.now.settings)
            candidate branch.now.leaves }
        requires last { IsLastBefore self.now candidate branch.now.leaves last }
        ensures { IsLeastTime self.now candidate bound result }
    {
        if branch.settles > branch.leaves {
            return self.time_by_own_leg(candidate, branch, place, last, bound);
        }
        let rest = Rest {
            from: branch.leaves,
            place: *place,
            velocity: branch.velocity,
        };
        self.time_on(candidate, &rest, last, bound)
    }

    /// The same, for a candidate that leaves by a leg of its own.
    fn time_by_own_leg(
        &self,
        candidate: Candidate,
        branch: &Branch,
        place: &Solid,
        last: u32,
        bound: u32,
    ) -> Option<u32>
        requires known { IsOutlook self.now }
        requires candidate { IsCandidateInRange candidate }
        requires branch { IsBranchOf self.now.picture.own (rates_of self.now.settings)
            candidate branch.now }
        requires leaves { branch.now.leaves < self.now.horizon }
        requires later { branch.now.leaves < branch.now.settles }
        requires place { place.now ≡ place_on self.now.picture.own (rates_of self.now.settings)
            candidate branch.now.leaves }
        requires last { IsLastBefore self.now candidate branch.now.leaves last }
        ensures { IsLeastTime self.now candidate bound result }
    {
        let k = branch.leaves;
        let leg = own_leg_of(branch, place);
        if self.is_near(candidate, &leg, k) {
            return None;
        }
        let next = self.last_with(candidate, &leg, k, last);
        let rest = Rest {
            from: k + 1,
            place: end_of(&leg),
            velocity: branch.velocity,
        };
        self.time_on(candidate, &rest, next, bound)
    }

    /// The same, where the last closed leg before the straight rest is known.
    fn time_on(&self, candidate: Candidate, rest: &Rest, last: u32, bound: u32) -> Option<u32>
        requires rest { IsRestOf self.now candidate rest.now }
        requires last { IsLastBefore self.now candidate rest.now.from last }
        ensures { IsLeastTime self.now candidate bound result }
    {
        if last >= bound {
            return None;
        }
        let mut need = last;
        for place in 0..self.picture.traffic.len() as u32 {
            let aircraft = self.aircraft(place);
            need = self.raised_beside(candidate, rest, aircraft, need);
            if need >= bound {
                return None;
            }
            if self.comes_near(candidate, rest, aircraft) {
                return None;
            }
        }
        self.time_after(candidate, need, bound)
    }

    /// The same, where the last closed leg of all is known: one second later, but from second 1 on.
    fn time_after(&self, candidate: Candidate, last: u32, bound: u32) -> Option<u32>
        requires ahead { IsHorizon self.now.settings self.now.horizon }
        requires last { IsLastBefore self.now candidate self.now.horizon last }
        ensures { IsLeastTime self.now candidate bound result }
    {
        let after = last.max(1);
        if after < bound { Some(after) } else { None }
    }

    /// Whether the straight rest comes into the cylinder round the aircraft before the horizon.
    fn comes_near(&self, candidate: Candidate, rest: &Rest, aircraft: &Traffic) -> bool
        requires rest { IsRestOf self.now candidate rest.now }
        requires aircraft { IsTrafficInRange aircraft.now }
        ensures { IsTrue result ↔ MeetsBetween self.now.settings self.now.picture.own candidate
            aircraft.now self.now.cylinder rest.now.from self.now.horizon }
    {
        self.meets(
            candidate,
            rest,
            aircraft,
            self.cylinder,
            rest.from,
            self.horizon,
        )
    }

    /// One more than the last leg of the straight rest on which the aircraft violates a level that
    /// closes, or `need` if that is more.
    fn raised_beside(&self, candidate: Candidate, rest: &Rest, aircraft: &Traffic, need: u32) -> u32
        requires rest { IsRestOf self.now candidate rest.now }
        requires aircraft { IsTrafficInRange aircraft.now }
        ensures { IsRaised (IsClosedOn self.now candidate aircraft.now) rest.now.from need result }
    {
        let mut raised = need;
        for l in self.config.resolve()..self.config.levels() + 1 {
            let level = self.config.level(l);
            raised = self.raised(
                candidate,
                rest,
                aircraft,
                &level.volume,
                level.lookahead,
                raised,
            );
        }
        raised
    }

    /// One more than the last leg of the straight rest, before leg `upto`, on which the aircraft
    /// violates the volume, or `need` if that is more.
    fn raised(
        &self,
        candidate: Candidate,
        rest: &Rest,
        aircraft: &Traffic,
        volume: &Volume,
        upto: u32,
        need: u32,
    ) -> u32
        requires rest { IsRestOf self.now candidate rest.now }
        requires aircraft { IsTrafficInRange aircraft.now }
        requires volume { IsVolumeInRange volume.now }
        requires upto { upto ≤ self.now.horizon }
        ensures { IsRaised (λ k. (k < upto) × ViolatesOn self.now.settings self.now.picture.own
            candidate aircraft.now volume.now k) rest.now.from need result }
    {
        let first = rest.from.max(need);
        if self.meets(candidate, rest, aircraft, volume, first, upto) {
            self.after_last(candidate, rest, aircraft, volume, first, upto)
        } else {
            need
        }
    }

    /// One more than the last leg from `first` on, before leg `upto`, on which the aircraft
    /// violates the volume, where there is one.
    fn after_last(
        &self,
        candidate: Candidate,
        rest: &Rest,
        aircraft: &Traffic,
        volume: &Volume,
        first: u32,
        upto: u32,
    ) -> u32
        requires rest { IsRestOf self.now candidate rest.now }
        requires aircraft { IsTrafficInRange aircraft.now }
        requires volume { IsVolumeInRange volume.now }
        requires upto { upto ≤ self.now.horizon }
        requires first { rest.now.from ≤ first }
        requires met { MeetsBetween self.now.settings self.now.picture.own candidate aircraft.now
            volume.now first upto }
        ensures above { first < result }
        ensures within { result ≤ upto }
        ensures raised { IsRaised (λ k. (k < upto) × ViolatesOn self.now.settings
            self.now.picture.own candidate aircraft.now volume.now k) first first result }
    {
        let mut low = first;
        let mut high = upto;
        while high - low > 1 {
            let middle = low + (high - low) / 2;
            if self.meets(candidate, rest, aircraft, volume, middle, upto) {
                low = middle;
            } else {
                high = middle;
            }
        }
        high
    }

    /// Whether the straight rest violates the volume around the aircraft on one of the legs from
    /// `first` on, before `upto`.
    fn meets(
        &self,
        candidate: Candidate,
        rest: &Rest,
        aircraft: &Traffic,
        volume: &Volume,
        first: u32,
        upto: u32,
    ) -> bool
        requires rest { IsRestOf self.now candidate rest.now }
        requires aircraft { IsTrafficInRange aircraft.now }
        requires volume { IsVolumeInRange volume.now }
        requires first { rest.now.from ≤ first }
        requires upto { upto ≤ self.now.horizon }
        ensures { IsTrue result ↔ MeetsBetween self.now.settings self.now.picture.own candidate
            aircraft.now volume.now first upto }
    {
        if first >= upto {
            return false;
        }
        let run = OwnRun {
            place: place_at(rest, first),
            velocity: rest.velocity,
            secs: upto - first,
        };
        meets_on_run(&run, aircraft, volume, first)
    }
}

/// The leg of the candidate's own, which begins at this place.
fn own_leg_of(branch: &Branch, place: &Solid) -> OwnLeg
    ensures { result ≡ record {
      place = place.now;
      velocity = record { flat = branch.now.velocity.flat; up = branch.now.rise };
    } }
{
    OwnLeg {
        place: *place,
        velocity: Solid {
            flat: branch.velocity.flat,
            up: branch.rise,
        },
    }
}
