//! Calls on a configuration.

ghost use Rattle.std.specs.Prelude.{◌≡◌, ◌≢◌, pos};
ghost use Rattle.daa_numbers.specs.Asked.{IsCandidateAt, HasNoCandidateAt};
ghost use Rattle.daa_numbers.specs.Codes.{answer_of};
ghost use Rattle.daa_numbers.specs.Numbers.{settings_by};

use daa_numbers::{DaaCandidate, DaaConfig};

/// Returns 0 if a configuration is accepted, else its fault, 6 to 8.
#[unsafe(no_mangle)]
pub extern "C" fn daa_check(config: &DaaConfig) -> i32
    ensures { result ≡ answer_of (settings_by config.now) }
{
    daa_numbers::check(config)
}

/// Fills in the candidate at an index of the whole list. Returns 0, or why nothing was filled in.
#[unsafe(no_mangle)]
pub extern "C" fn daa_candidate(config: &DaaConfig, index: u32, out: &mut DaaCandidate) -> i32
    ensures filled { result ≡ pos 0 → IsCandidateAt config.now index out.new }
    ensures kept { result ≢ pos 0 → out.new ≡ out.old }
    ensures beyond { result ≡ pos 25 → HasNoCandidateAt config.now index }
    ensures refused { result ≢ pos 0 → result ≢ pos 25
        → answer_of (settings_by config.now) ≡ result }
{
    daa_numbers::candidate(config, index, out)
}
