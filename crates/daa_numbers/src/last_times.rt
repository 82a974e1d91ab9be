//! The last time of a kind.

ghost use Rattle.std.specs.Prelude.{◌≡◌, ◌≢◌, pos};
ghost use Rattle.daa_numbers.specs.Asked.{AsksForNoLast, HasNoKind, IsLastUnder};
ghost use Rattle.daa_numbers.specs.Filled.{last_by};
ghost use Rattle.daa_numbers.specs.Refusal.{refusal_of, IsCodeOf};
ghost use Rattle.daa_numbers.specs.States.{picture_of};

use crate::asking::config_picture_and_kind;
use crate::codes::NOT_ASKED;
use crate::setting::DaaConfig;
use crate::states::DaaTraffic;
use daa_last::last_of;
use daa_state::Own;

/// The last time of a kind: 1, and for how many seconds, 0 to 179, the present flight may be kept;
/// or both 0 where there is none.
#[repr(C)]
#[derive(Clone, Copy)]
pub struct DaaLast {
    pub found: i32,
    pub after: u32,
}

/// The numbers of a last time.
fn last_numbers(last: Option<u32>) -> DaaLast
    ensures { result ≡ last_by last }
{
    match last {
        None => DaaLast { found: 0, after: 0 },
        Some(after) => DaaLast { found: 1, after },
    }
}

/// Fills in the last time of a kind in a moment, whether or not the present flight is open. Returns
/// 0, or the code of why nothing was filled in.
pub fn last(
    config: &DaaConfig,
    own: &Own,
    traffic: &[DaaTraffic],
    kind: i32,
    out: &mut DaaLast,
) -> i32
    ensures filled { result ≡ pos 0
        → IsLastUnder config.now (picture_of 0 own.now traffic.now) kind out.new }
    ensures kept { result ≢ pos 0 → out.new ≡ out.old }
    ensures no_kind { result ≡ pos 23
        → HasNoKind (refusal_of config.now own.now traffic.now) kind }
    ensures not_asked { result ≡ pos 26
        → AsksForNoLast config.now (refusal_of config.now own.now traffic.now) kind }
    ensures refused { result ≢ pos 0 → result ≢ pos 23 → result ≢ pos 26
        → IsCodeOf (refusal_of config.now own.now traffic.now) result }
{
    let (config, picture, kind) = match config_picture_and_kind(config, own, traffic, &kind) {
        Ok(found) => found,
        Err(code) => return code,
    };
    if !config.last_times() {
        return NOT_ASKED;
    }
    *out = last_numbers(last_of(&config, &picture, kind));
    0
}
