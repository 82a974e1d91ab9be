//! The bands of a kind.

ghost use Rattle.std.specs.Prelude.{◌≡◌, ◌≢◌, ◌≤◌, pos, drop, length, map, take};
ghost use Rattle.daa_bands.specs.Board.{HasLevelOn, mask_levels};
ghost use Rattle.daa_bands.specs.KindBands.{AreKindBands};
ghost use Rattle.daa_config.specs.Candidates.{values_of};
ghost use Rattle.daa_numbers.specs.Asked.{AreBandsUnder, HasKindBut};
ghost use Rattle.daa_numbers.specs.Asked.{HasMoreValues, HasNoKind};
ghost use Rattle.daa_numbers.specs.Boards.{IsNoBoard, IsDamaged, IsOfOtherTime};
ghost use Rattle.daa_numbers.specs.Codes.{answer_of};
ghost use Rattle.daa_numbers.specs.Refusal.{config_refusal};
ghost use Rattle.daa_numbers.specs.Filled.{band_of};
ghost use Rattle.daa_numbers.specs.Numbers.{settings_by};

use crate::boards::{DaaBoard, has_its_sum, is_decided};
use crate::codes::{BAD_BOARD, BAD_KIND, DAMAGED_BOARD, OTHER_TIME, SHORT, fault_code, kind_in};
use crate::setting::{DaaConfig, accept};
use daa_bands::{Band, Board, runs};
use daa_config::{Config, Kind};

/// A stretch of a kind's rising values, from one up to another, that all show one level; in the
/// kind's unit.
#[repr(C)]
#[derive(Clone, Copy)]
pub struct DaaBand {
    pub from: i32,
    pub upto: i32,
    pub level: u32,
}

/// The numbers of a band.
fn band_numbers(band: &Band) -> DaaBand
    ensures { band_of result ≡ band.now }
{
    DaaBand {
        from: band.from,
        upto: band.upto,
        level: u32::from(band.level),
    }
}

/// Fills in the bands of a kind, and returns how many there are.
fn fill(config: &Config, board: &Board, kind: Kind, bands: &mut [DaaBand]) -> usize
    requires { length (values_of kind config.now) ≤ length bands.old }
    ensures fits { result ≤ length bands.new }
    ensures past_kept { drop result bands.new ≡ drop result bands.old }
    ensures are { AreKindBands (HasLevelOn board.now) mask_levels config.now kind
        (map band_of (take result bands.new)) }
{
    let mut count = 0;
    for band in runs(board, config, kind) {
        bands[count] = band_numbers(&band);
        count += 1;
    }
    count
}

/// Fills in the bands of a kind, in the rising order of their values, and how many bands there are.
/// Returns 0, or the code of why nothing was filled in.
pub fn bands(
    config: &DaaConfig,
    time: u32,
    board: &DaaBoard,
    kind: i32,
    bands: &mut [DaaBand],
    count: &mut usize,
) -> i32
    ensures filled { result ≡ pos 0
        → AreBandsUnder config.now time board.now kind bands.new count.new }
    ensures past_kept { result ≡ pos 0 → drop count.new bands.new ≡ drop count.new bands.old }
    ensures kept { result ≢ pos 0 → (bands.new ≡ bands.old) × (count.new ≡ count.old) }
    ensures no_kind { result ≡ pos 23
        → HasNoKind (config_refusal (settings_by config.now)) kind }
    ensures bad_board { result ≡ pos 27 → HasKindBut
        (config_refusal (settings_by config.now)) kind (IsNoBoard config.now board.now) }
    ensures damaged { result ≡ pos 30 → HasKindBut
        (config_refusal (settings_by config.now)) kind (IsDamaged config.now board.now) }
    ensures other_time { result ≡ pos 29 → HasKindBut
        (config_refusal (settings_by config.now)) kind (IsOfOtherTime config.now time board.now) }
    ensures short { result ≡ pos 19
        → HasMoreValues config.now time board.now kind (length bands.old) }
    ensures refused { result ≢ pos 0 → result ≢ pos 19 → result ≢ pos 23 → result ≢ pos 27
        → result ≢ pos 29 → result ≢ pos 30 → answer_of (settings_by config.now) ≡ result }
{
    let accepted = match accept(config) {
        Ok(accepted) => accepted,
        Err(fault) => return fault_code(fault),
    };
    let Some(kind) = kind_in(kind) else {
        return BAD_KIND;
    };
    if !is_decided(config, &accepted, board) {
        return BAD_BOARD;
    }
    if !has_its_sum(&accepted, board) {
        return DAMAGED_BOARD;
    }
    if board.time != time {
        return OTHER_TIME;
    }
    if bands.len() < accepted.count(kind) as usize {
        return SHORT;
    }
    *count = fill(&accepted, &board.masks, kind, bands);
    0
}
