//! Why a caller's numbers are refused.

ghost use Rattle.std.specs.Prelude.{◌≡◌, ◌≢◌, pos};
ghost use Rattle.daa_numbers.specs.Refusal.{refusal_code};
ghost use Rattle.daa_numbers.specs.Inside.Codes.{IsOfStates};

use crate::codes::fault_code;
use daa_config::ConfigFault;
use daa_state::PictureFault;

/// Why numbers are refused: the configuration has a fault, the aircraft at a place has an
/// identifier that is not allowed, or the states are no picture.
#[derive(Clone, Copy)]
pub(crate) enum Refusal {
    Config(ConfigFault),
    BadId(usize),
    Picture(PictureFault),
}

/// The code of states that are no picture.
fn picture_code(fault: PictureFault) -> i32
    ensures value { result ≡ refusal_code (Refusal.Picture fault) }
    ensures some { result ≢ pos 0 }
    ensures others { IsOfStates result }
{
    match fault {
        PictureFault::Own(_) => 16,
        PictureFault::Traffic(_, _) => 17,
        PictureFault::TooMany => 18,
        PictureFault::SameId(_) => 22,
    }
}

/// The code of a refusal.
pub(crate) fn code(refusal: Refusal) -> i32
    ensures value { result ≡ refusal_code refusal }
    ensures some { result ≢ pos 0 }
    ensures others { IsOfStates result }
{
    match refusal {
        Refusal::Config(fault) => fault_code(fault),
        Refusal::BadId(_) => 21,
        Refusal::Picture(fault) => picture_code(fault),
    }
}
