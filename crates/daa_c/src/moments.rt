//! Calls on a moment.

ghost use Rattle.std.specs.Prelude.{◌≡◌, ◌≢◌, ◌⊎◌, pos, ◌≤◌, drop, length, take};
ghost use Rattle.daa_numbers.specs.Asked.{IsAlertUnder, IsDecided, AreLevelsUnder};
ghost use Rattle.daa_numbers.specs.Asked.{HasMoreCandidates, AreBandsUnder, HasKindBut};
ghost use Rattle.daa_numbers.specs.Asked.{HasMoreValues, HasNoKind, IsResolutionUnder, HasNoSide};
ghost use Rattle.daa_numbers.specs.Asked.{HasSideBut, AsksForNone, AsksForNoLast};
ghost use Rattle.daa_numbers.specs.Asked.{IsLastUnder, IsRecoveryUnder, IsReported, HasLongerText};
ghost use Rattle.daa_numbers.specs.Asked.{HasNoRecovery, IsSideRecoveryUnder};
ghost use Rattle.daa_numbers.specs.Boards.{IsNoBoard, IsDamaged, IsOfOtherTime, IsOfOtherOwn};
ghost use Rattle.daa_numbers.specs.Boards.{IsJoinedTo, IsOneDamaged};
ghost use Rattle.daa_numbers.specs.Boards.{AreOfTwoTimes, AreOfTwoOwns};
ghost use Rattle.daa_numbers.specs.Codes.{answer_of};
ghost use Rattle.daa_numbers.specs.Numbers.{settings_by};
ghost use Rattle.daa_numbers.specs.Refusal.{refusal_of_two, IsCodeOf, refusal_of};
ghost use Rattle.daa_numbers.specs.Refusal.{config_refusal, refusal_of_own};
ghost use Rattle.daa_numbers.specs.States.{traffic_of, picture_of};

use daa_numbers::{
    DaaAlert, DaaBand, DaaBoard, DaaConfig, DaaLast, DaaRecovery, DaaResolution, DaaTraffic, Own,
};

/// Fills in the level of an aircraft now, its alert level and the first second that alerts. Returns
/// 0, or the code of why nothing was filled in.
#[unsafe(no_mangle)]
pub extern "C" fn daa_alert(
    config: &DaaConfig,
    own: &Own,
    traffic: &DaaTraffic,
    out: &mut DaaAlert,
) -> i32
    ensures filled { result ≡ pos 0
        → IsAlertUnder config.now own.now (traffic_of traffic.now) out.new }
    ensures kept { result ≢ pos 0 → out.new ≡ out.old }
    ensures refused { result ≢ pos 0
        → IsCodeOf (refusal_of_two config.now own.now traffic.now) result }
{
    daa_numbers::alert(config, own, traffic, out)
}

/// Fills in the board of a moment: the levels at which each candidate is covered, the mark of the
/// configuration, the ownship, the time, and the sum of the masks. The time is the caller's number
/// of the moment, its second or a sequence. Returns 0, or the code of why nothing was filled in.
#[unsafe(no_mangle)]
pub extern "C" fn daa_decide(
    config: &DaaConfig,
    time: u32,
    own: &Own,
    traffic: &[DaaTraffic],
    board: &mut DaaBoard,
) -> i32
    ensures decided { result ≡ pos 0
        → IsDecided config.now (picture_of time own.now traffic.now) board.new }
    ensures kept { result ≢ pos 0 → board.new ≡ board.old }
    ensures refused { result ≢ pos 0
        → IsCodeOf (refusal_of config.now own.now traffic.now) result }
{
    daa_numbers::decide(config, time, own, traffic, board)
}

/// Adds to a board the levels of another one of the same configuration, time and ownship. Then it
/// is the board of the aircraft of both together. Returns 0, or the code of why nothing was added:
/// of the board that is added before the other one.
#[unsafe(no_mangle)]
pub extern "C" fn daa_join(config: &DaaConfig, more: &DaaBoard, board: &mut DaaBoard) -> i32
    ensures joined { result ≡ pos 0 → IsJoinedTo config.now more.now board.old board.new }
    ensures kept { result ≢ pos 0 → board.new ≡ board.old }
    ensures bad_board { result ≡ pos 27
        → IsNoBoard config.now more.now ⊎ IsNoBoard config.now board.old }
    ensures damaged { result ≡ pos 30 → IsOneDamaged config.now more.now board.old }
    ensures other_time { result ≡ pos 29 → AreOfTwoTimes config.now more.now board.old }
    ensures other_own { result ≡ pos 28 → AreOfTwoOwns config.now more.now board.old }
    ensures refused { result ≢ pos 0 → result ≢ pos 27 → result ≢ pos 28 → result ≢ pos 29
        → result ≢ pos 30 → answer_of (settings_by config.now) ≡ result }
{
    daa_numbers::join(config, more, board)
}

/// Fills in the level that each candidate shows, 0 to the number of levels, in the order of the
/// whole list, and how many candidates there are. Returns 0, or the code of why nothing was filled
/// in.
#[unsafe(no_mangle)]
pub extern "C" fn daa_levels(
    config: &DaaConfig,
    time: u32,
    board: &DaaBoard,
    levels: &mut [u8],
    count: &mut usize,
) -> i32
    ensures shown { result ≡ pos 0
        → AreLevelsUnder config.now time board.now levels.new count.new }
    ensures past_kept { result ≡ pos 0
        → drop count.new levels.new ≡ drop count.new levels.old }
    ensures kept { result ≢ pos 0 → (levels.new ≡ levels.old) × (count.new ≡ count.old) }
    ensures bad_board { result ≡ pos 27 → IsNoBoard config.now board.now }
    ensures damaged { result ≡ pos 30 → IsDamaged config.now board.now }
    ensures other_time { result ≡ pos 29 → IsOfOtherTime config.now time board.now }
    ensures short { result ≡ pos 19
        → HasMoreCandidates config.now time board.now (length levels.old) }
    ensures refused { result ≢ pos 0 → result ≢ pos 19 → result ≢ pos 27 → result ≢ pos 29
        → result ≢ pos 30 → answer_of (settings_by config.now) ≡ result }
{
    daa_numbers::levels(config, time, board, levels, count)
}

/// Fills in the bands of a kind, in the rising order of their values, and how many bands there are.
/// Returns 0, or the code of why nothing was filled in.
#[unsafe(no_mangle)]
pub extern "C" fn daa_bands(
    config: &DaaConfig,
    time: u32,
    board: &DaaBoard,
    kind: i32,
    bands: &mut [DaaBand],
    count: &mut usize,
) -> i32
    ensures filled { result ≡ pos 0
        → AreBandsUnder config.now time board.now kind bands.new count.new }
    ensures past_kept { result ≡ pos 0 → drop count.new bands.new ≡ drop count.new bands.old }
    ensures kept { result ≢ pos 0 → (bands.new ≡ bands.old) × (count.new ≡ count.old) }
    ensures no_kind { result ≡ pos 23
        → HasNoKind (config_refusal (settings_by config.now)) kind }
    ensures bad_board { result ≡ pos 27 → HasKindBut
        (config_refusal (settings_by config.now)) kind (IsNoBoard config.now board.now) }
    ensures damaged { result ≡ pos 30 → HasKindBut
        (config_refusal (settings_by config.now)) kind (IsDamaged config.now board.now) }
    ensures other_time { result ≡ pos 29 → HasKindBut
        (config_refusal (settings_by config.now)) kind (IsOfOtherTime config.now time board.now) }
    ensures short { result ≡ pos 19
        → HasMoreValues config.now time board.now kind (length bands.old) }
    ensures refused { result ≢ pos 0 → result ≢ pos 19 → result ≢ pos 23 → result ≢ pos 27
        → result ≢ pos 29 → result ≢ pos 30 → answer_of (settings_by config.now) ≡ result }
{
    daa_numbers::bands(config, time, board, kind, bands, count)
}

/// Fills in the answer on a side of a kind: the nearest open candidate, that there is none, or that
/// the present flight may be kept. Returns 0, or the code of why nothing was filled in.
#[unsafe(no_mangle)]
pub extern "C" fn daa_resolution(
    config: &DaaConfig,
    time: u32,
    own: &Own,
    board: &DaaBoard,
    kind: i32,
    side: i32,
    out: &mut DaaResolution,
) -> i32
    ensures filled { result ≡ pos 0
        → IsResolutionUnder config.now time own.now board.now kind side out.new }
    ensures kept { result ≢ pos 0 → out.new ≡ out.old }
    ensures no_kind { result ≡ pos 23 → HasNoKind (refusal_of_own config.now own.now) kind }
    ensures no_side { result ≡ pos 24 → HasNoSide (refusal_of_own config.now own.now) kind side }
    ensures bad_board { result ≡ pos 27 → HasSideBut
        (refusal_of_own config.now own.now) kind side (IsNoBoard config.now board.now) }
    ensures damaged { result ≡ pos 30 → HasSideBut
        (refusal_of_own config.now own.now) kind side (IsDamaged config.now board.now) }
    ensures other_time { result ≡ pos 29 → HasSideBut
        (refusal_of_own config.now own.now) kind side (IsOfOtherTime config.now time board.now) }
    ensures other_own { result ≡ pos 28 → HasSideBut (refusal_of_own config.now own.now)
        kind side (IsOfOtherOwn config.now time own.now board.now) }
    ensures refused { result ≢ pos 0 → result ≢ pos 23 → result ≢ pos 24 → result ≢ pos 27
        → result ≢ pos 28 → result ≢ pos 29 → result ≢ pos 30
        → IsCodeOf (refusal_of_own config.now own.now) result }
{
    daa_numbers::resolution(config, time, own, board, kind, side, out)
}

/// Fills in the recovery of a kind in a moment. Returns 0, or the code of why nothing was filled
/// in.
#[unsafe(no_mangle)]
pub extern "C" fn daa_recovery(
    config: &DaaConfig,
    own: &Own,
    traffic: &[DaaTraffic],
    kind: i32,
    out: &mut DaaRecovery,
) -> i32
    ensures filled { result ≡ pos 0
        → IsRecoveryUnder config.now (picture_of 0 own.now traffic.now) kind out.new }
    ensures kept { result ≢ pos 0 → out.new ≡ out.old }
    ensures no_kind { result ≡ pos 23
        → HasNoKind (refusal_of config.now own.now traffic.now) kind }
    ensures not_asked { result ≡ pos 26
        → AsksForNone config.now (refusal_of config.now own.now traffic.now) kind }
    ensures refused { result ≢ pos 0 → result ≢ pos 23 → result ≢ pos 26
        → IsCodeOf (refusal_of config.now own.now traffic.now) result }
{
    daa_numbers::recovery(config, own, traffic, kind, out)
}

/// Fills in the recovery on a side of a kind in a moment: the soonest of the candidates on that
/// side of the present value, where the sides are those of `daa_resolution`. Returns 0, or the code
/// of why nothing was filled in.
#[unsafe(no_mangle)]
pub extern "C" fn daa_recovery_side(
    config: &DaaConfig,
    own: &Own,
    traffic: &[DaaTraffic],
    kind: i32,
    side: i32,
    out: &mut DaaRecovery,
) -> i32
    ensures filled { result ≡ pos 0 → IsSideRecoveryUnder
        config.now (picture_of 0 own.now traffic.now) kind side out.new }
    ensures kept { result ≢ pos 0 → out.new ≡ out.old }
    ensures no_kind { result ≡ pos 23
        → HasNoKind (refusal_of config.now own.now traffic.now) kind }
    ensures no_side { result ≡ pos 24
        → HasNoSide (refusal_of config.now own.now traffic.now) kind side }
    ensures not_asked { result ≡ pos 26 → HasSideBut
        (refusal_of config.now own.now traffic.now) kind side (HasNoRecovery config.now) }
    ensures refused { result ≢ pos 0 → result ≢ pos 23 → result ≢ pos 24 → result ≢ pos 26
        → IsCodeOf (refusal_of config.now own.now traffic.now) result }
{
    daa_numbers::recovery_side(config, own, traffic, kind, side, out)
}

/// Fills in the last time of a kind in a moment, whether or not the present flight is open. Returns
/// 0, or the code of why nothing was filled in.
#[unsafe(no_mangle)]
pub extern "C" fn daa_last(
    config: &DaaConfig,
    own: &Own,
    traffic: &[DaaTraffic],
    kind: i32,
    out: &mut DaaLast,
) -> i32
    ensures filled { result ≡ pos 0
        → IsLastUnder config.now (picture_of 0 own.now traffic.now) kind out.new }
    ensures kept { result ≢ pos 0 → out.new ≡ out.old }
    ensures no_kind { result ≡ pos 23
        → HasNoKind (refusal_of config.now own.now traffic.now) kind }
    ensures not_asked { result ≡ pos 26
        → AsksForNoLast config.now (refusal_of config.now own.now traffic.now) kind }
    ensures refused { result ≢ pos 0 → result ≢ pos 23 → result ≢ pos 26
        → IsCodeOf (refusal_of config.now own.now traffic.now) result }
{
    daa_numbers::last(config, own, traffic, kind, out)
}

/// Fills in the text of a moment, and how many bytes the text has. Returns 0, or the code of why
/// nothing was filled in.
#[unsafe(no_mangle)]
pub extern "C" fn daa_report(
    config: &DaaConfig,
    time: u32,
    own: &Own,
    traffic: &[DaaTraffic],
    text: &mut [u8],
    count: &mut usize,
) -> i32
    ensures said { result ≡ pos 0 → IsReported
        config.now (picture_of time own.now traffic.now) (take count.new text.new) }
    ensures fits { result ≡ pos 0 → count.new ≤ length text.new }
    ensures past_kept { result ≡ pos 0 → drop count.new text.new ≡ drop count.new text.old }
    ensures kept { result ≢ pos 0 → (text.new ≡ text.old) × (count.new ≡ count.old) }
    ensures short { result ≡ pos 19 → HasLongerText
        config.now (picture_of time own.now traffic.now) (length text.old) }
    ensures refused { result ≢ pos 0 → result ≢ pos 19
        → IsCodeOf (refusal_of config.now own.now traffic.now) result }
{
    daa_numbers::report(config, time, own, traffic, text, count)
}
