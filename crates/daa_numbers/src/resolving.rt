//! The answer on a side of a kind.

ghost use Rattle.std.specs.Prelude.{◌≡◌, ◌≢◌, pos};
ghost use Rattle.daa_numbers.specs.Asked.{IsResolutionUnder, HasNoKind};
ghost use Rattle.daa_numbers.specs.Asked.{HasNoSide, HasSideBut};
ghost use Rattle.daa_numbers.specs.Boards.{IsNoBoard, IsDamaged, IsOfOtherTime, IsOfOtherOwn};
ghost use Rattle.daa_numbers.specs.Refusal.{refusal_of_own, IsCodeOf};
ghost use Rattle.daa_numbers.specs.Filled.{resolution_by};

use crate::asking::config_for;
use crate::boards::{DaaBoard, has_its_sum, is_decided, is_of_own};
use crate::codes::{
    BAD_BOARD, BAD_KIND, BAD_SIDE, DAMAGED_BOARD, OTHER_OWN, OTHER_TIME, kind_in, side_in,
};
use crate::setting::DaaConfig;
use daa_config::Resolution;
use daa_resolve::nearest;
use daa_state::Own;

/// The answer: 0 to keep the present flight, 1 to go to the value, in the kind's unit, 2 for no
/// open candidate.
#[repr(C)]
#[derive(Clone, Copy)]
pub struct DaaResolution {
    pub what: i32,
    pub value: i32,
}

/// The numbers of an answer.
fn resolution_numbers(resolution: Resolution) -> DaaResolution
    ensures { result ≡ resolution_by resolution }
{
    match resolution {
        Resolution::Keep => DaaResolution { what: 0, value: 0 },
        Resolution::To(value) => DaaResolution { what: 1, value },
        Resolution::Nothing => DaaResolution { what: 2, value: 0 },
    }
}

/// Fills in the answer on a side of a kind: the nearest open candidate, that there is none, or that
/// the present flight may be kept. Returns 0, or the code of why nothing was filled in.
pub fn resolution(
    config: &DaaConfig,
    time: u32,
    own: &Own,
    board: &DaaBoard,
    kind: i32,
    side: i32,
    out: &mut DaaResolution,
) -> i32
    ensures filled { result ≡ pos 0
        → IsResolutionUnder config.now time own.now board.now kind side out.new }
    ensures kept { result ≢ pos 0 → out.new ≡ out.old }
    ensures no_kind { result ≡ pos 23 → HasNoKind (refusal_of_own config.now own.now) kind }
    ensures no_side { result ≡ pos 24 → HasNoSide (refusal_of_own config.now own.now) kind side }
    ensures bad_board { result ≡ pos 27 → HasSideBut
        (refusal_of_own config.now own.now) kind side (IsNoBoard config.now board.now) }
    ensures damaged { result ≡ pos 30 → HasSideBut
        (refusal_of_own config.now own.now) kind side (IsDamaged config.now board.now) }
    ensures other_time { result ≡ pos 29 → HasSideBut
        (refusal_of_own config.now own.now) kind side (IsOfOtherTime config.now time board.now) }
    ensures other_own { result ≡ pos 28 → HasSideBut (refusal_of_own config.now own.now)
        kind side (IsOfOtherOwn config.now time own.now board.now) }
    ensures refused { result ≢ pos 0 → result ≢ pos 23 → result ≢ pos 24 → result ≢ pos 27
        → result ≢ pos 28 → result ≢ pos 29 → result ≢ pos 30
        → IsCodeOf (refusal_of_own config.now own.now) result }
{
    let accepted = match config_for(config, own) {
        Ok(accepted) => accepted,
        Err(code) => return code,
    };
    let Some(kind) = kind_in(kind) else {
        return BAD_KIND;
    };
    let Some(side) = side_in(side) else {
        return BAD_SIDE;
    };
    if !is_decided(config, &accepted, board) {
        return BAD_BOARD;
    }
    if !has_its_sum(&accepted, board) {
        return DAMAGED_BOARD;
    }
    if board.time != time {
        return OTHER_TIME;
    }
    if !is_of_own(board, own) {
        return OTHER_OWN;
    }
    *out = resolution_numbers(nearest(&board.masks, &accepted, own, kind, side));
    0
}
