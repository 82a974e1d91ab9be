//! What the candidates on one side of a kind share: the flight that leads there, which each of them
//! flies until it leaves it.

ghost use Rattle.std.specs.Prelude.{◌≡◌, Bool, ℤ};
ghost use Rattle.daa_config.specs.Candidates.{candidate_to};
ghost use Rattle.daa_config.specs.Settings.{IsCandidateInRange};
ghost use Rattle.daa_state.specs.InRange.{IsOwnInRange};
ghost use Rattle.daa_legs.specs.Branch.{lead_of};

use daa_config::{Candidate, Kind};
use daa_legs::Trunk;
use daa_state::Own;

/// How many legs a flight has, and one more.
pub(crate) const PLACES: usize = 181;

/// The flight that leads on a side of a kind, leg by leg against all aircraft of the moment. Its
/// legs are walked as far as some candidate needs them, and each only once.
#[derive(Drop)]
pub(crate) struct Side {
    pub(crate) lead: Candidate,
    pub(crate) legs: Trunk,
    /// So many legs were walked, none of which comes into a cylinder.
    pub(crate) walked: u32,
    /// Whether the next leg does. It is then the last one that is looked at.
    pub(crate) struck: bool,
    /// For each leg that was walked and for the next one: one more than the last leg before it that
    /// is closed, or 0.
    pub(crate) lasts: [u32; PLACES],
}

/// Both sides of a kind: to the right or up, and to the left or down.
#[derive(Drop)]
pub(crate) struct Sides {
    pub(crate) upper: Side,
    pub(crate) lower: Side,
}

/// The candidate that leads on a side of a kind: half a turn to the right or a degree less to the
/// left, or the greatest or the least value that may be asked for.
#[tactic(auto, unfolding(daa_legs::specs::Branch::lead_of))]
pub fn lead_to(own: &Own, kind: Kind, upper: bool) -> Candidate
    requires { IsOwnInRange own.now }
    ensures value { (z : ℤ) → result ≡ lead_of own.now (candidate_to kind z) upper }
    ensures in_range { IsCandidateInRange result }
{
    match kind {
        Kind::Track => Candidate::Track((own.trk + if upper { 180 } else { 181 }).rem_euclid(360)),
        Kind::GroundSpeed => Candidate::GroundSpeed(if upper { 10000 } else { 0 }),
        Kind::VerticalSpeed => Candidate::VerticalSpeed(if upper { 10000 } else { -10000 }),
        Kind::Altitude => Candidate::Altitude(if upper { 60000 } else { -2000 }),
    }
}
