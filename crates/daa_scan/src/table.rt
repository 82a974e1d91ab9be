//! The table of the candidates' branches.

ghost use Rattle.std.specs.Prelude.{◌≡◌, ◌≤◌, ◌+◌, ℤ, pos, length};
ghost use Rattle.daa_config.specs.Candidates.{candidate_to, candidates_of, start_of, values_of};
ghost use Rattle.daa_config.specs.Settings.{IsCandidateInRange, AreRatesInRange};
ghost use Rattle.daa_state.specs.InRange.{IsOwnInRange};
ghost use Rattle.daa_heading.specs.Heading.{velocity_of};
ghost use Rattle.daa_legs.specs.Branch.{rate_for};
ghost use Rattle.daa_legs.specs.Table.{IsBranchOf};
ghost use Rattle.daa_scan.specs.Trunks.{AreBranchesOf};
ghost use Rattle.daa_scan.specs.Inside.Trunks.{AreBranchesBelow};

use crate::needs::Needs;
use daa_config::{Candidate, Config, Kind, Rates};
use daa_fixed::Flat;
use daa_heading::velocity;
use daa_legs::{Branch, Divisor, branch_from};
use daa_state::Own;

/// Keeps the branch of each candidate of the kinds that are needed, by the candidate's number in
/// the whole list. There is room for them.
pub(crate) fn fill_branches(branches: &mut [Branch], own: &Own, config: &Config, needs: &Needs)
    requires own { IsOwnInRange own.now }
    requires room { length (candidates_of config.now) ≤ length branches.old }
    ensures branches { AreBranchesOf config.now own.now needs.now branches.new }
    ensures length { length branches.new ≡ length branches.old }
{
    // a copy of its own, which no write into the table can change: what is found of the ownship
    // alone, as the sine of its track, is then found once and not for each candidate
    let own = *own;
    let present = velocity(own.gs, own.trk);
    // a copy of the loop for each kind, so that no candidate asks which it is
    fill_kind(branches, &own, config, needs, &present, Kind::Track);
    fill_kind(branches, &own, config, needs, &present, Kind::GroundSpeed);
    fill_kind(branches, &own, config, needs, &present, Kind::VerticalSpeed);
    fill_kind(branches, &own, config, needs, &present, Kind::Altitude);
}

/// Keeps those of a kind where it is needed, after those of the kinds before it, where the present
/// way over ground of a second is known.
#[inline(always)]
fn fill_kind(
    branches: &mut [Branch],
    own: &Own,
    config: &Config,
    needs: &Needs,
    present: &Flat,
    kind: Kind,
)
    requires own { IsOwnInRange own.now }
    requires present { present.now ≡ velocity_of own.now.gs own.now.trk }
    requires before { AreBranchesBelow config.now own.now needs.now
        (start_of kind config.now) branches.old }
    ensures branches { AreBranchesBelow config.now own.now needs.now
        (start_of kind config.now + length (values_of kind config.now)) branches.new }
    ensures length { length branches.new ≡ length branches.old }
{
    let rates = config.rates();
    let start = config.start(kind);
    if !needs.has(kind) {
        return;
    }
    let divisor = divisor_of(&rates, kind);
    for index in 0..config.count(kind) {
        let candidate = config.candidate_in(kind, index);
        keep(
            &mut branches[start as usize + index as usize],
            own,
            &rates,
            candidate,
            present,
            &divisor,
        );
    }
}

/// Keeps the branch of a candidate. It is written in place, since a read of what was just written
/// in parts is slow.
#[inline(always)]
fn keep(
    branch: &mut Branch,
    own: &Own,
    rates: &Rates,
    candidate: Candidate,
    present: &Flat,
    divisor: &Divisor,
)
    requires own { IsOwnInRange own.now }
    requires rates { AreRatesInRange rates.now }
    requires candidate { IsCandidateInRange candidate }
    requires present { present.now ≡ velocity_of own.now.gs own.now.trk }
    requires divisor { pos divisor.now.rate ≡ rate_for rates.now candidate }
    ensures { IsBranchOf own.now rates.now candidate branch.new }
{
    *branch = branch_from(own, rates, candidate, present, divisor);
}

/// The rate of a kind, made ready: the one division for all its candidates.
#[inline(always)]
fn divisor_of(rates: &Rates, kind: Kind) -> Divisor
    requires { AreRatesInRange rates.now }
    ensures { (z : ℤ) → pos result.rate ≡ rate_for rates.now (candidate_to kind z) }
{
    match kind {
        Kind::Track => Divisor::of(rates.turn),
        Kind::GroundSpeed => Divisor::of(rates.gs),
        Kind::VerticalSpeed => Divisor::of(rates.vs),
        Kind::Altitude => Divisor::of(rates.alt),
    }
}
