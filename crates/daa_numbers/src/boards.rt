//! Boards, marked with the configuration and the moment that they were decided of.

ghost use Rattle.std.specs.Prelude.{◌≡◌, ◌<◌, ◌≤◌, ◌-◌, ◌^◌, true, false, length};
ghost use Rattle.daa_config.specs.Settings.{IsAccepted};
ghost use Rattle.std.specs.Bool.{Decides};
ghost use Rattle.daa_numbers.specs.Boards.{mark_of, level_at, cylinder_at};
ghost use Rattle.daa_numbers.specs.Boards.{AreMasksWithin, IsMarked};
ghost use Rattle.daa_numbers.specs.Boards.{sum_with, sum_of, board_sum};

use crate::setting::DaaConfig;
use daa_bands::{BOARD_MASKS, Board};
use daa_config::{Config, LevelNumbers, RecoveryNumbers};
use daa_state::Own;

/// How many numbers a mark has.
const MARK: usize = 55;

/// The levels at which each candidate is covered, bit l - 1 of a mask means level l; the mark of
/// the configuration: its numbers, and 0 in the place of each that does not count; the ownship and
/// the time of the moment; and the sum of the candidates' masks.
#[repr(C)]
#[derive(Drop)]
pub struct DaaBoard {
    pub masks: Board,
    pub mark: [i64; MARK],
    pub own: Own,
    pub time: u32,
    pub sum: u32,
}

/// In the place of a level that does not count.
const NO_LEVEL: LevelNumbers = LevelNumbers {
    dthr: 0,
    zthr: 0,
    tthr: 0,
    tcoa: 0,
    lookahead: 0,
    alert: 0,
    tcpa: 0,
    tau: 0,
    tep: 0,
};

/// In the place of a cylinder that does not count.
const NO_CYLINDER: RecoveryNumbers = RecoveryNumbers {
    hdist: 0,
    vdist: 0,
    nearest: 0,
};

/// The numbers of the level at a place, if it counts.
fn level(config: &DaaConfig, place: usize) -> LevelNumbers
    requires { place < 4 }
    ensures { result ≡ level_at config.now place }
{
    if (place as u64) < config.count {
        config.levels[place]
    } else {
        NO_LEVEL
    }
}

/// The numbers of the cylinder, if it counts.
fn cylinder(config: &DaaConfig) -> RecoveryNumbers
    ensures { result ≡ cylinder_at config.now.recovery config.now.cylinder }
{
    if config.recovery == 0 {
        NO_CYLINDER
    } else {
        config.cylinder
    }
}

/// The mark of a configuration.
pub(crate) fn mark(config: &DaaConfig) -> [i64; MARK]
    ensures { result ≡ mark_of config.now }
{
    let numbers = &config.numbers;
    let cylinder = cylinder(config);
    let first = level(config, 0);
    let second = level(config, 1);
    let third = level(config, 2);
    let fourth = level(config, 3);
    [
        numbers.resolve,
        numbers.turn_rate,
        numbers.track_step,
        numbers.gs.min,
        numbers.gs.max,
        numbers.gs.step,
        numbers.gs.rate,
        numbers.vs.min,
        numbers.vs.max,
        numbers.vs.step,
        numbers.vs.rate,
        numbers.alt.min,
        numbers.alt.max,
        numbers.alt.step,
        numbers.alt.rate,
        cylinder.hdist,
        cylinder.vdist,
        cylinder.nearest,
        config.last_times,
        first.dthr,
        first.zthr,
        first.tthr,
        first.tcoa,
        first.lookahead,
        first.alert,
        first.tcpa,
        first.tau,
        first.tep,
        second.dthr,
        second.zthr,
        second.tthr,
        second.tcoa,
        second.lookahead,
        second.alert,
        second.tcpa,
        second.tau,
        second.tep,
        third.dthr,
        third.zthr,
        third.tthr,
        third.tcoa,
        third.lookahead,
        third.alert,
        third.tcpa,
        third.tau,
        third.tep,
        fourth.dthr,
        fourth.zthr,
        fourth.tthr,
        fourth.tcoa,
        fourth.lookahead,
        fourth.alert,
        fourth.tcpa,
        fourth.tau,
        fourth.tep,
    ]
}

/// Whether a mark is that of a configuration.
fn is_mark(board: &DaaBoard, config: &DaaConfig) -> bool
    ensures { Decides result (board.now.mark ≡ mark_of config.now) }
{
    board.mark == mark(config)
}

/// The bits that stand for so many levels.
fn level_bits(levels: u32) -> u8
    requires { levels ≤ 4 }
    ensures { result ≡ 2 ^ levels - 1 }
{
    match levels {
        0 => 0,
        1 => 1,
        2 => 3,
        3 => 7,
        _ => 15,
    }
}

/// Whether the masks of so many candidates have no bits but these, and all further masks are 0.
fn are_within(masks: &[u8; BOARD_MASKS], candidates: u32, bits: u8) -> bool
    ensures yes { result ≡ true → AreMasksWithin candidates bits masks.now }
    ensures no { result ≡ false → AreMasksWithin candidates bits masks.now → ⊥ }
{
    for index in 0..BOARD_MASKS {
        let greatest = if index < candidates as usize { bits } else { 0 };
        if masks[index] > greatest {
            return false;
        }
    }
    true
}

/// Whether a board is marked with this configuration, and says nothing but levels of its
/// candidates.
pub(crate) fn is_decided(asked: &DaaConfig, config: &Config, board: &DaaBoard) -> bool
    ensures yes { result ≡ true → IsMarked asked.now config.now board.now }
    ensures no { result ≡ false → IsMarked asked.now config.now board.now → ⊥ }
{
    let bits = level_bits(config.levels());
    is_mark(board, asked) && are_within(board.masks.masks(), config.total(), bits)
}

/// A sum with one mask more. The factor is odd, so that another sum so far, or another mask, makes
/// another sum.
fn sum_with(sum: u32, mask: u8) -> u32
    ensures { result ≡ sum_with sum mask }
{
    ((u64::from(sum) * 16_777_619 + u64::from(mask)) % 4_294_967_296) as u32
}

/// The sum of masks.
fn sum_of(masks: &[u8]) -> u32
    ensures { result ≡ sum_of masks.now }
{
    let mut sum = 1;
    for mask in masks {
        sum = sum_with(sum, *mask);
    }
    sum
}

/// The sum of the masks of a configuration's candidates.
pub(crate) fn board_sum(config: &Config, board: &Board) -> u32
    ensures { result ≡ board_sum config.now board.now }
{
    sum_of(&board.masks()[..config.total() as usize])
}

/// Whether a board is of this ownship.
pub(crate) fn is_of_own(board: &DaaBoard, own: &Own) -> bool
    ensures yes { result ≡ true → board.now.own ≡ own.now }
    ensures no { result ≡ false → board.now.own ≡ own.now → ⊥ }
{
    board.own == *own
}

/// Whether a board has the sum of its masks.
pub(crate) fn has_its_sum(config: &Config, board: &DaaBoard) -> bool
    ensures yes { result ≡ true → board.now.sum ≡ board_sum config.now board.now.masks }
    ensures no { result ≡ false → board.now.sum ≡ board_sum config.now board.now.masks → ⊥ }
{
    board.sum == board_sum(config, &board.masks)
}
