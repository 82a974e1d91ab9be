//! The candidates of a configuration.

ghost use Rattle.std.specs.Prelude.{◌≡◌, ◌≢◌, pos};
ghost use Rattle.daa_numbers.specs.Asked.{IsCandidateAt, HasNoCandidateAt};
ghost use Rattle.daa_numbers.specs.Codes.{answer_of, candidate_by};
ghost use Rattle.daa_numbers.specs.Numbers.{settings_by};

use crate::codes::{BAD_INDEX, fault_code};
use crate::setting::{DaaConfig, accept};
use daa_config::Candidate;

/// A candidate: its kind, 1 to 4, or 0 for the present flight, and the value that it goes to, in
/// the kind's unit.
#[repr(C)]
#[derive(Clone, Copy)]
pub struct DaaCandidate {
    pub kind: i32,
    pub value: i32,
}

/// The numbers of a candidate.
fn candidate_numbers(candidate: Candidate) -> DaaCandidate
    ensures { result ≡ candidate_by candidate }
{
    match candidate {
        Candidate::Hold => DaaCandidate { kind: 0, value: 0 },
        Candidate::Track(value) => DaaCandidate { kind: 1, value },
        Candidate::GroundSpeed(value) => DaaCandidate { kind: 2, value },
        Candidate::VerticalSpeed(value) => DaaCandidate { kind: 3, value },
        Candidate::Altitude(value) => DaaCandidate { kind: 4, value },
    }
}

/// Fills in the candidate at an index of the whole list. Returns 0, or why nothing was filled in.
pub fn candidate(config: &DaaConfig, index: u32, out: &mut DaaCandidate) -> i32
    ensures filled { result ≡ pos 0 → IsCandidateAt config.now index out.new }
    ensures kept { result ≢ pos 0 → out.new ≡ out.old }
    ensures beyond { result ≡ pos 25 → HasNoCandidateAt config.now index }
    ensures refused { result ≢ pos 0 → result ≢ pos 25
        → answer_of (settings_by config.now) ≡ result }
{
    let config = match accept(config) {
        Ok(config) => config,
        Err(fault) => return fault_code(fault),
    };
    if index >= config.total() {
        return BAD_INDEX;
    }
    *out = candidate_numbers(config.candidate(index));
    0
}
