//! A moment decided, and the levels that its board shows.

ghost use Rattle.std.specs.Prelude.{◌≡◌, ◌≢◌, ◌≤◌, ◌-◌, ◌^◌, pos, drop, length};
ghost use Rattle.daa_bands.specs.Board.{HasLevelOn, IsBoardOf, mask_levels};
ghost use Rattle.daa_config.specs.Candidates.{candidates_of};
ghost use Rattle.daa_config.specs.Settings.{IsAccepted};
ghost use Rattle.daa_engine.specs.Covered.{CoveredAt};
ghost use Rattle.daa_state.specs.InRange.{IsPictureInRange};
ghost use Rattle.daa_numbers.specs.Asked.{IsDecided, AreLevelsUnder, HasMoreCandidates};
ghost use Rattle.daa_numbers.specs.Boards.{IsNoBoard, IsDamaged, IsOfOtherTime};
ghost use Rattle.daa_numbers.specs.Refusal.{refusal_of, IsCodeOf};
ghost use Rattle.daa_numbers.specs.Codes.{answer_of};
ghost use Rattle.daa_numbers.specs.Numbers.{settings_by};
ghost use Rattle.daa_numbers.specs.Filled.{AreLevelsOn};
ghost use Rattle.daa_numbers.specs.States.{picture_of};

use crate::asking::config_and_picture;
use crate::boards::{DaaBoard, board_sum, has_its_sum, is_decided, mark};
use crate::codes::{BAD_BOARD, DAMAGED_BOARD, OTHER_TIME, SHORT, fault_code};
use crate::setting::{DaaConfig, accept};
use crate::states::DaaTraffic;
use daa_bands::Board;
use daa_config::Config;
use daa_engine::{MOST_CANDIDATES, decide_in, leading_flights};
use daa_legs::Branch;
use daa_state::{Own, Picture};

/// Fills in the board of a picture.
#[inline(never)]
pub(crate) fn fill_board(config: &Config, picture: &Picture, board: &mut Board)
    requires { IsPictureInRange picture.now }
    ensures { IsBoardOf (CoveredAt config.now picture.now) config.now board.new }
{
    let mut trunks = leading_flights();
    let mut branches = [Branch::new(); MOST_CANDIDATES];
    decide_in(config, picture, &mut trunks, &mut branches, board);
}

/// Fills in the board of a moment: the levels at which each candidate is covered, the mark of the
/// configuration, the ownship, the time, and the sum of the masks. The time is the caller's number
/// of the moment, its second or a sequence. Returns 0, or the code of why nothing was filled in.
pub fn decide(
    config: &DaaConfig,
    time: u32,
    own: &Own,
    traffic: &[DaaTraffic],
    board: &mut DaaBoard,
) -> i32
    ensures decided { result ≡ pos 0
        → IsDecided config.now (picture_of time own.now traffic.now) board.new }
    ensures kept { result ≢ pos 0 → board.new ≡ board.old }
    ensures refused { result ≢ pos 0
        → IsCodeOf (refusal_of config.now own.now traffic.now) result }
{
    let (accepted, picture) = match config_and_picture(config, time, own, traffic) {
        Ok(found) => found,
        Err(code) => return code,
    };
    fill_board(&accepted, &picture, &mut board.masks);
    board.mark = mark(config);
    board.own = *own;
    board.time = time;
    board.sum = board_sum(&accepted, &board.masks);
    0
}

/// Fills in the levels that a board shows.
fn show(config: &Config, board: &Board, levels: &mut [u8])
    requires { length (candidates_of config.now) ≤ length levels.old }
    ensures shown { AreLevelsOn
        board.now mask_levels (length (candidates_of config.now)) levels.new }
    ensures fits { length (candidates_of config.now) ≤ length levels.new }
    ensures past_kept { drop (length (candidates_of config.now)) levels.new
        ≡ drop (length (candidates_of config.now)) levels.old }
{
    for index in 0..config.total() {
        levels[index as usize] = board.shown(index);
    }
}

/// Fills in the level that each candidate shows, 0 to the number of levels, in the order of the
/// whole list, and how many candidates there are. Returns 0, or the code of why nothing was filled
/// in.
pub fn levels(
    config: &DaaConfig,
    time: u32,
    board: &DaaBoard,
    levels: &mut [u8],
    count: &mut usize,
) -> i32
    ensures shown { result ≡ pos 0
        → AreLevelsUnder config.now time board.now levels.new count.new }
    ensures past_kept { result ≡ pos 0
        → drop count.new levels.new ≡ drop count.new levels.old }
    ensures kept { result ≢ pos 0 → (levels.new ≡ levels.old) × (count.new ≡ count.old) }
    ensures bad_board { result ≡ pos 27 → IsNoBoard config.now board.now }
    ensures damaged { result ≡ pos 30 → IsDamaged config.now board.now }
    ensures other_time { result ≡ pos 29 → IsOfOtherTime config.now time board.now }
    ensures short { result ≡ pos 19
        → HasMoreCandidates config.now time board.now (length levels.old) }
    ensures refused { result ≢ pos 0 → result ≢ pos 19 → result ≢ pos 27 → result ≢ pos 29
        → result ≢ pos 30 → answer_of (settings_by config.now) ≡ result }
{
    let accepted = match accept(config) {
        Ok(accepted) => accepted,
        Err(fault) => return fault_code(fault),
    };
    if !is_decided(config, &accepted, board) {
        return BAD_BOARD;
    }
    if !has_its_sum(&accepted, board) {
        return DAMAGED_BOARD;
    }
    if board.time != time {
        return OTHER_TIME;
    }
    let total = accepted.total() as usize;
    if levels.len() < total {
        return SHORT;
    }
    show(&accepted, &board.masks, levels);
    *count = total;
    0
}
