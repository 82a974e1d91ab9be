//! Two boards of one moment joined, each of some of its aircraft, so that a moment may have more
//! than 64.

ghost use Rattle.std.specs.Prelude.{◌≡◌, ◌≢◌, ◌⊎◌, pos};
ghost use Rattle.daa_numbers.specs.Boards.{AreJoined, IsJoinedTo, IsNoBoard};
ghost use Rattle.daa_numbers.specs.Boards.{IsOneDamaged, AreOfTwoTimes, AreOfTwoOwns};
ghost use Rattle.daa_numbers.specs.Codes.{answer_of};
ghost use Rattle.daa_numbers.specs.Numbers.{settings_by};

use crate::boards::{DaaBoard, board_sum, has_its_sum, is_decided, is_of_own};
use crate::codes::{BAD_BOARD, DAMAGED_BOARD, OTHER_OWN, OTHER_TIME, fault_code};
use crate::setting::{DaaConfig, accept};
use daa_bands::{BOARD_MASKS, Board};

/// Adds masks to those of a board.
fn add(more: &[u8; BOARD_MASKS], masks: &mut Board)
    ensures { AreJoined masks.old more.now masks.new }
{
    for index in 0..BOARD_MASKS {
        masks.mark(index as u32, more[index]);
    }
}

/// Adds to a board the levels of another one of the same configuration, time and ownship. Then it
/// is the board of the aircraft of both together. Returns 0, or the code of why nothing was added:
/// of the board that is added before the other one.
pub fn join(config: &DaaConfig, more: &DaaBoard, board: &mut DaaBoard) -> i32
    ensures joined { result ≡ pos 0 → IsJoinedTo config.now more.now board.old board.new }
    ensures kept { result ≢ pos 0 → board.new ≡ board.old }
    ensures bad_board { result ≡ pos 27
        → IsNoBoard config.now more.now ⊎ IsNoBoard config.now board.old }
    ensures damaged { result ≡ pos 30 → IsOneDamaged config.now more.now board.old }
    ensures other_time { result ≡ pos 29 → AreOfTwoTimes config.now more.now board.old }
    ensures other_own { result ≡ pos 28 → AreOfTwoOwns config.now more.now board.old }
    ensures refused { result ≢ pos 0 → result ≢ pos 27 → result ≢ pos 28 → result ≢ pos 29
        → result ≢ pos 30 → answer_of (settings_by config.now) ≡ result }
{
    let accepted = match accept(config) {
        Ok(accepted) => accepted,
        Err(fault) => return fault_code(fault),
    };
    if !is_decided(config, &accepted, more) {
        return BAD_BOARD;
    }
    if !is_decided(config, &accepted, board) {
        return BAD_BOARD;
    }
    if !has_its_sum(&accepted, more) {
        return DAMAGED_BOARD;
    }
    if !has_its_sum(&accepted, board) {
        return DAMAGED_BOARD;
    }
    if more.time != board.time {
        return OTHER_TIME;
    }
    if !is_of_own(more, &board.own) {
        return OTHER_OWN;
    }
    add(more.masks.masks(), &mut board.masks);
    board.sum = board_sum(&accepted, &board.masks);
    0
}
