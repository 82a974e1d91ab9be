//! A configuration with a moment and the cylinder: which candidates recover, and when.

ghost use Rattle.std.specs.Prelude.{◌≡◌, ◌<◌, ◌+◌, ◌↔◌, ℤ, int_lt, IsTrue};
ghost use Rattle.std.specs.Prelude.{Some, length, slice_get};
ghost use Rattle.daa_config.specs.Candidates.{values_of, candidate_to as to_value};
ghost use Rattle.daa_config.specs.Settings.{IsAccepted, IsCandidateInRange};
ghost use Rattle.daa_legs.specs.Branch.{lead_of};
ghost use Rattle.daa_state.specs.InRange.{IsPictureInRange, IsTrafficInRange};
ghost use Rattle.daa_state.specs.Picture.{aircraft_of};
ghost use Rattle.daa_recovery.specs.OutlookState.{IsHorizon};
ghost use Rattle.daa_resolve.specs.Side.{present_of};
ghost use Rattle.daa_recovery.specs.Recovery.{IsAmong, IsFound};
ghost use Rattle.daa_recovery.specs.Inside.Search.{IsFoundBelow, placed};
ghost use Rattle.daa_recovery.specs.Inside.Search.{IsBeforeHorizon, bound_for, IsLeastTime};
ghost use Rattle.daa_recovery.specs.Inside.Sides.{IsSide, AreSides};

use crate::order::place;
use crate::recovery::Recovery;
use crate::side::{PLACES, Side, Sides, lead_to};
use daa_config::{Candidate, Config, Kind};
use daa_legs::{Trunk, branch_of};
use daa_resolve::{is_on_side, present};
use daa_state::{Picture, Traffic};
use daa_taumod::Volume;
use std::marker::Model;

/// A configuration with a moment and the cylinder that a recovery stays out of, and how many
/// seconds ahead it looks. Contracts see it as an `OutlookState`.
#[derive(Drop)]
pub(crate) struct Outlook<'a> {
    pub(crate) config: &'a Config,
    pub(crate) picture: &'a Picture,
    pub(crate) cylinder: &'a Volume,
    pub(crate) horizon: u32,
}

impl<'a> Model for Outlook<'a> {
    ghost use Rattle.daa_recovery.specs.OutlookState.{OutlookState};
    ghost use Rattle.daa_recovery.specs.Inside.OutlookState.{IsOutlook};

    ghost Value = { OutlookState };

    ghost view = { λ o. record {
      settings = o.config.now;
      picture = o.picture.now;
      cylinder = o.cylinder.now;
      horizon = o.horizon;
    } };

    ghost invariant = { λ o. IsOutlook (record {
      settings = o.config.now;
      picture = o.picture.now;
      cylinder = o.cylinder.now;
      horizon = o.horizon;
    }) };
}

impl<'a> Outlook<'a> {
    /// The outlook of a configuration and an ended moment.
    pub(crate) fn of(config: &'a Config, picture: &'a Picture, cylinder: &'a Volume) -> Outlook<'a>
        requires picture { IsPictureInRange picture.now }
        requires cylinder { config.now.recovery ≡ Some cylinder.now }
        ensures parts { result ≡ record {
          settings = config.now;
          picture = picture.now;
          cylinder = cylinder.now;
          horizon = result.horizon;
        } }
        ensures horizon { IsHorizon config.now result.horizon }
    {
        let horizon = horizon_of(config);
        Outlook {
            config,
            picture,
            cylinder,
            horizon,
        }
    }

    /// The least time after which a candidate of the kind recovers, of all or of those on a side,
    /// and the first of the values that recover then, in the order that the configuration asks for.
    pub(crate) fn least(&self, kind: Kind, side: Option<daa_resolve::Side>) -> Option<Recovery>
        ensures { IsFound self.now kind side result }
    {
        let mut sides = self.sides_of(kind);
        let mut found = None;
        for index in 0..self.config.count(kind) {
            found = self.try_value(kind, side, index, found, &mut sides);
        }
        found
    }

    /// Both sides of a kind, of which no leg was walked so far.
    fn sides_of(&self, kind: Kind) -> Sides
        ensures { AreSides self.now kind result }
    {
        Sides {
            upper: self.side_of(kind, true),
            lower: self.side_of(kind, false),
        }
    }

    /// A side of a kind, of which no leg was walked so far.
    fn side_of(&self, kind: Kind, upper: bool) -> Side
        ensures side { IsSide self.now result }
        ensures lead { (z : ℤ) → result.lead
            ≡ lead_of self.now.picture.own (to_value kind z) upper }
    {
        let own = &self.picture.own;
        let lead = lead_to(own, kind, upper);
        let mut legs = Trunk::new();
        legs.fill(own, self.config, lead, self.horizon);
        Side {
            lead,
            legs,
            walked: 0,
            struck: false,
            lasts: [0; PLACES],
        }
    }

    /// The best of the candidates of a kind up to the one at an index; `found` is the best of the
    /// candidates before it.
    fn try_value(
        &self,
        kind: Kind,
        side: Option<daa_resolve::Side>,
        index: u32,
        found: Option<Recovery>,
        sides: &mut Sides,
    ) -> Option<Recovery>
        requires index { index < length (values_of kind self.now.settings) }
        requires found { IsFoundBelow self.now kind side index found }
        requires sides { AreSides self.now kind sides.old }
        ensures found { IsFoundBelow self.now kind side (index + 1) result }
        ensures sides { AreSides self.now kind sides.new }
    {
        let value = self.config.value(kind, index);
        if !self.is_among(kind, side, &value) {
            return found;
        }
        let candidate = candidate_going_to(kind, &value);
        let bound = self.bound(kind, &found, &value);
        match self.sooner_time(kind, candidate, bound, sides) {
            Some(after) => Some(Recovery { after, value }),
            None => found,
        }
    }

    /// Whether the value is among those that are asked about: all, or those on a side.
    fn is_among(&self, kind: Kind, side: Option<daa_resolve::Side>, value: &i32) -> bool
        ensures { IsTrue result
            ↔ IsAmong side kind (present_of kind self.now.picture.own) value.now }
    {
        match side {
            None => true,
            Some(side) => is_on_side(kind, side, &present(&self.picture.own, kind), value),
        }
    }

    /// A value is better than the best so far if it recovers before this time: the time of the
    /// best, or one second more if the value comes before the best; the horizon if none was found
    /// so far.
    fn bound(&self, kind: Kind, found: &Option<Recovery>, value: &i32) -> u32
        requires { IsBeforeHorizon self.now found.now }
        ensures { result ≡ bound_for self.now kind found.now value.now }
    {
        match found {
            Some(best) if self.comes_before(kind, value, &best.value) => best.after + 1,
            Some(best) => best.after,
            None => self.horizon,
        }
    }

    /// Whether the first of two values comes before the other in the order that the configuration
    /// asks for.
    fn comes_before(&self, kind: Kind, value: &i32, other: &i32) -> bool
        ensures { result ≡ int_lt (placed self.now kind value.now)
            (placed self.now kind other.now) }
    {
        let (nearest, now) = (self.config.nearest(), present(&self.picture.own, kind));
        place(nearest, kind, &now, value) < place(nearest, kind, &now, other)
    }

    /// The least time below a bound at which the candidate recovers, if there is one.
    fn sooner_time(
        &self,
        kind: Kind,
        candidate: Candidate,
        bound: u32,
        sides: &mut Sides,
    ) -> Option<u32>
        requires candidate { IsCandidateInRange candidate }
        requires kind { (z : ℤ) × (candidate ≡ to_value kind z) }
        requires sides { AreSides self.now kind sides.old }
        ensures time { IsLeastTime self.now candidate bound result }
        ensures sides { AreSides self.now kind sides.new }
    {
        if bound < 2 {
            return None;
        }
        let branch = branch_of(&self.picture.own, &self.config.rates(), candidate);
        if branch.upper {
            self.time_along(&mut sides.upper, candidate, &branch, bound)
        } else {
            self.time_along(&mut sides.lower, candidate, &branch, bound)
        }
    }

    /// The aircraft at a place of the moment's list.
    pub(crate) fn aircraft(&self, place: u32) -> &Traffic
        requires { place < length (aircraft_of self.now.picture) }
        ensures listed { slice_get (aircraft_of self.now.picture) place ≡ Some result.now }
        ensures in_range { IsTrafficInRange result.now }
    {
        &self.picture.traffic[place as usize]
    }
}

/// The greatest lookahead of the levels from `resolve` up, 1 to 180 seconds.
pub fn horizon_of(config: &Config) -> u32
    ensures value { IsHorizon config.now result }
    ensures accepted { IsAccepted config.now }
{
    let first = config.resolve();
    let mut horizon = config.level(first).lookahead;
    for l in first..config.levels() {
        horizon = horizon.max(config.level(l + 1).lookahead);
    }
    horizon
}

/// The candidate of a kind that goes to a value, in the kind's unit.
pub fn candidate_going_to(kind: Kind, value: &i32) -> Candidate
    ensures { result ≡ to_value kind value.now }
{
    match kind {
        Kind::Track => Candidate::Track(*value),
        Kind::GroundSpeed => Candidate::GroundSpeed(*value),
        Kind::VerticalSpeed => Candidate::VerticalSpeed(*value),
        Kind::Altitude => Candidate::Altitude(*value),
    }
}
