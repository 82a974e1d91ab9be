//! The recovery of a kind, and that on one side of it.

ghost use Rattle.std.specs.Prelude.{◌≡◌, ◌≢◌, pos};
ghost use Rattle.daa_numbers.specs.Asked.{AsksForNone, HasNoKind, IsRecoveryUnder};
ghost use Rattle.daa_numbers.specs.Asked.{HasNoRecovery, HasNoSide, HasSideBut};
ghost use Rattle.daa_numbers.specs.Asked.{IsSideRecoveryUnder};
ghost use Rattle.daa_numbers.specs.Filled.{recovery_by};
ghost use Rattle.daa_numbers.specs.Refusal.{refusal_of, IsCodeOf};
ghost use Rattle.daa_numbers.specs.States.{picture_of};

use crate::asking::config_picture_and_kind;
use crate::codes::{BAD_SIDE, NOT_ASKED, side_in};
use crate::setting::DaaConfig;
use crate::states::DaaTraffic;
use daa_recovery::{Recovery, least, least_on};
use daa_state::Own;

/// The recovery of a kind, or that on one side of it: 1, after how many seconds and the value, in
/// the kind's unit; or all 0 where there is none.
#[repr(C)]
#[derive(Clone, Copy)]
pub struct DaaRecovery {
    pub found: i32,
    pub after: u32,
    pub value: i32,
}

/// The numbers of a recovery.
fn recovery_numbers(recovery: Option<Recovery>) -> DaaRecovery
    ensures { result ≡ recovery_by recovery }
{
    match recovery {
        None => DaaRecovery {
            found: 0,
            after: 0,
            value: 0,
        },
        Some(recovery) => DaaRecovery {
            found: 1,
            after: recovery.after,
            value: recovery.value,
        },
    }
}

/// Fills in the recovery of a kind in a moment. Returns 0, or the code of why nothing was filled
/// in.
pub fn recovery(
    config: &DaaConfig,
    own: &Own,
    traffic: &[DaaTraffic],
    kind: i32,
    out: &mut DaaRecovery,
) -> i32
    ensures filled { result ≡ pos 0
        → IsRecoveryUnder config.now (picture_of 0 own.now traffic.now) kind out.new }
    ensures kept { result ≢ pos 0 → out.new ≡ out.old }
    ensures no_kind { result ≡ pos 23
        → HasNoKind (refusal_of config.now own.now traffic.now) kind }
    ensures not_asked { result ≡ pos 26
        → AsksForNone config.now (refusal_of config.now own.now traffic.now) kind }
    ensures refused { result ≢ pos 0 → result ≢ pos 23 → result ≢ pos 26
        → IsCodeOf (refusal_of config.now own.now traffic.now) result }
{
    let (config, picture, kind) = match config_picture_and_kind(config, own, traffic, &kind) {
        Ok(found) => found,
        Err(code) => return code,
    };
    if config.recovery().is_none() {
        return NOT_ASKED;
    }
    *out = recovery_numbers(least(&config, &picture, kind));
    0
}

/// Fills in the recovery on a side of a kind in a moment: the soonest of the candidates on that
/// side of the present value, where the sides are those of `resolution`. Returns 0, or the code
/// of why nothing was filled in.
pub fn recovery_side(
    config: &DaaConfig,
    own: &Own,
    traffic: &[DaaTraffic],
    kind: i32,
    side: i32,
    out: &mut DaaRecovery,
) -> i32
    ensures filled { result ≡ pos 0 → IsSideRecoveryUnder
        config.now (picture_of 0 own.now traffic.now) kind side out.new }
    ensures kept { result ≢ pos 0 → out.new ≡ out.old }
    ensures no_kind { result ≡ pos 23
        → HasNoKind (refusal_of config.now own.now traffic.now) kind }
    ensures no_side { result ≡ pos 24
        → HasNoSide (refusal_of config.now own.now traffic.now) kind side }
    ensures not_asked { result ≡ pos 26 → HasSideBut
        (refusal_of config.now own.now traffic.now) kind side (HasNoRecovery config.now) }
    ensures refused { result ≢ pos 0 → result ≢ pos 23 → result ≢ pos 24 → result ≢ pos 26
        → IsCodeOf (refusal_of config.now own.now traffic.now) result }
{
    let (config, picture, kind) = match config_picture_and_kind(config, own, traffic, &kind) {
        Ok(found) => found,
        Err(code) => return code,
    };
    let Some(side) = side_in(side) else {
        return BAD_SIDE;
    };
    if config.recovery().is_none() {
        return NOT_ASKED;
    }
    *out = recovery_numbers(least_on(&config, &picture, kind, side));
    0
}
