//! The flights that lead on the two sides of each kind, and the branches of the candidates, both
//! kept by the caller.

ghost use Rattle.std.specs.Prelude.{◌≡◌, ◌<◌, ◌≤◌, Bool, IsTrue, ℕ, ℤ, length, slice_index_or};
ghost use Rattle.daa_config.specs.Candidates.{candidate_to};
ghost use Rattle.daa_config.specs.Settings.{IsCandidateInRange, IsLevelAt, rates_of};
ghost use Rattle.daa_config.specs.declared.kind.Kind.{Kind};
ghost use Rattle.daa_config.specs.declared.level.Level.{Level};
ghost use Rattle.daa_state.specs.InRange.{IsOwnInRange};
ghost use Rattle.daa_legs.specs.Branch.{lead_of};
ghost use Rattle.daa_legs.specs.Trunk.{AreLegsOf};
ghost use Rattle.daa_legs.specs.declared.branch.Branch.{Branch};
ghost use Rattle.daa_legs.specs.declared.own_leg.OwnLeg.{OwnLeg};
ghost use Rattle.daa_scan.specs.Trunks.{trunk_index, trunk_in, is_needed, AreLeads};
ghost use Rattle.daa_scan.specs.Inside.Trunks.{IsAhead};

use crate::needs::Needs;
use daa_config::{Candidate, Config, Kind};
use daa_legs::{Branch, Trunk};
use daa_state::Own;
use std::marker::Model;

/// How many flights lead: on two sides of four kinds.
const LEADS: u32 = 8;

/// The kept flights, half a turn to the right and a degree less to the left, and those to the
/// greatest and the least value of the other kinds; and the branch of each candidate but Hold.
/// There are those of the kinds that are needed.
#[derive(Drop)]
pub(crate) struct Trunks<'a> {
    trunks: &'a [Trunk],
    branches: &'a [Branch],
    needs: Needs,
}

impl<'a> Model for Trunks<'a> {
    ghost use Rattle.std.specs.Prelude.{◌≡◌, length};
    ghost use Rattle.daa_scan.specs.Inside.Trunks.{Shared};

    ghost Value = { Shared };

    ghost view = { λ t. record {
      trunks = t.trunks.now;
      branches = t.branches.now;
      needs = t.needs;
    } };

    ghost invariant = { λ t. length t.trunks.now ≡ 8 };
}

impl<'a> Trunks<'a> {
    /// What is kept.
    pub(crate) fn of(trunks: &'a [Trunk], branches: &'a [Branch], needs: Needs) -> Trunks<'a>
        requires { length trunks.now ≡ 8 }
        ensures { result ≡ record {
          trunks = trunks.now;
          branches = branches.now;
          needs = needs;
        } }
    {
        Trunks {
            trunks,
            branches,
            needs,
        }
    }

    /// Whether the flights of a kind are needed.
    pub(crate) fn has(&self, kind: Kind) -> bool
        ensures { result ≡ is_needed self.now.needs kind }
    {
        self.needs.has(kind)
    }

    /// The flight that leads on a side of a kind.
    pub(crate) fn trunk(&self, kind: Kind, upper: bool) -> &Trunk
        ensures { result.now ≡ trunk_in self.now.trunks kind upper }
    {
        &self.trunks[trunk_index(kind, upper) as usize]
    }

    /// The branches, by the candidates' indices in the whole list.
    pub(crate) fn branches(&self) -> &[Branch]
        ensures { result.now ≡ self.now.branches }
    {
        self.branches
    }
}

/// Keeps the flights that lead on the sides of the kinds that are needed, as far as any level looks
/// ahead.
pub(crate) fn fill_trunks(trunks: &mut [Trunk], own: &Own, config: &Config, needs: &Needs)
    requires own { IsOwnInRange own.now }
    requires room { length trunks.old ≡ 8 }
    ensures leads { AreLeads config.now own.now needs.now trunks.new }
    ensures room { length trunks.new ≡ 8 }
{
    let most = most_lookahead(config);
    for index in 0..LEADS {
        keep(&mut trunks[index as usize], own, config, needs, index, most);
    }
}

/// Where the flight that leads on a side of a kind is kept.
fn trunk_index(kind: Kind, upper: bool) -> u32
    ensures value { result ≡ trunk_index kind upper }
    ensures within { result < 8 }
{
    let first = match kind {
        Kind::Track => 0,
        Kind::GroundSpeed => 2,
        Kind::VerticalSpeed => 4,
        Kind::Altitude => 6,
    };
    if upper { first } else { first + 1 }
}

/// The kind whose side has this index.
fn kind_at(index: u32) -> Kind
    requires { index < 8 }
    ensures { (kind : Kind) (upper : Bool) → index ≡ trunk_index kind upper → result ≡ kind }
{
    match index / 2 {
        0 => Kind::Track,
        1 => Kind::GroundSpeed,
        2 => Kind::VerticalSpeed,
        _ => Kind::Altitude,
    }
}

/// The candidate that leads on a side of a kind.
#[tactic(auto, unfolding(daa_legs::specs::Branch::lead_of))]
pub(crate) fn lead_to(own: &Own, kind: Kind, upper: bool) -> Candidate
    requires { IsOwnInRange own.now }
    ensures value { (z : ℤ) → result ≡ lead_of own.now (candidate_to kind z) upper }
    ensures in_range { IsCandidateInRange result }
{
    match kind {
        Kind::Track => Candidate::Track((own.trk + if upper { 180 } else { 181 }).rem_euclid(360)),
        Kind::GroundSpeed => Candidate::GroundSpeed(if upper { 10000 } else { 0 }),
        Kind::VerticalSpeed => Candidate::VerticalSpeed(if upper { 10000 } else { -10000 }),
        Kind::Altitude => Candidate::Altitude(if upper { 60000 } else { -2000 }),
    }
}

/// Keeps so many legs of the flight that leads on the side with this index, if its kind is needed.
fn keep(trunk: &mut Trunk, own: &Own, config: &Config, needs: &Needs, index: u32, most: u32)
    requires own { IsOwnInRange own.now }
    requires index { index < 8 }
    requires most { most ≤ 180 }
    ensures { (kind : Kind) (upper : Bool) (z : ℤ) → index ≡ trunk_index kind upper
        → IsTrue (is_needed needs.now kind)
        → AreLegsOf own.now (rates_of config.now) (lead_of own.now (candidate_to kind z) upper) most
        trunk.new }
{
    let kind = kind_at(index);
    if needs.has(kind) {
        let lead = lead_to(own, kind, index % 2 == 0);
        trunk.fill(own, config, lead, most);
    }
}

/// The greatest number of seconds that a level looks ahead.
fn most_lookahead(config: &Config) -> u32
    ensures few { result ≤ 180 }
    ensures all { IsAhead config.now (length config.now.levels) result }
{
    let mut most = 0;
    for l in 0..config.levels() {
        most = config.level(l + 1).lookahead.max(most);
    }
    most
}
