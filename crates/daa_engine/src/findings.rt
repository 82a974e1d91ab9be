//! What is found of each kind before it is written: the answers on its sides, and what the lines of
//! its last time and of its recovery say.

ghost use Rattle.std.specs.Prelude.{◌≡◌, ◌≢◌, ◌&&◌, not, option_map, None};
ghost use Rattle.daa_bands.specs.Board.{HasLevelOn};
ghost use Rattle.daa_state.specs.InRange.{IsPictureInRange};
ghost use Rattle.daa_engine.specs.Inside.Findings.{IsLastFound, IsRecoveryFound};
ghost use Rattle.daa_engine.specs.Inside.Findings.{IsFinding, AreFindings};
ghost use Rattle.daa_engine.specs.Inside.Findings.{are_nothing, is_keep, found_of};

use daa_bands::Board;
use daa_config::{Config, Kind, Resolution};
use daa_last::last_of;
use daa_recovery::{Recovery, least};
use daa_resolve::{Side, nearest};
use daa_state::Picture;

/// What is found of a kind.
#[derive(Clone, Copy, Debug)]
pub(crate) struct Finding {
    // the answers on its sides
    pub(crate) lower: Resolution,
    pub(crate) upper: Resolution,
    // what the line of its last time says, where it has one: for how many seconds the present
    // flight may be kept; or that each manoeuvre of the kind comes too late
    pub(crate) last: Option<Option<u32>>,
    // what the line of its recovery says, where it has one: after how many seconds, and the value;
    // or that there is none
    pub(crate) recovery: Option<Option<(u32, i32)>>,
}

/// What is found of all kinds.
#[derive(Clone, Copy, Debug)]
pub(crate) struct Findings {
    pub(crate) track: Finding,
    pub(crate) speed: Finding,
    pub(crate) climb: Finding,
    pub(crate) height: Finding,
}

/// What is found of all kinds in a moment, whose levels are on a board.
pub(crate) fn find(config: &Config, picture: &Picture, board: &Board) -> Findings
    requires { IsPictureInRange picture.now }
    ensures { AreFindings (HasLevelOn board.now) config.now picture.now result }
{
    Findings {
        track: find_kind(config, picture, board, Kind::Track),
        speed: find_kind(config, picture, board, Kind::GroundSpeed),
        climb: find_kind(config, picture, board, Kind::VerticalSpeed),
        height: find_kind(config, picture, board, Kind::Altitude),
    }
}

/// What is found of a kind.
fn find_kind(config: &Config, picture: &Picture, board: &Board, kind: Kind) -> Finding
    requires { IsPictureInRange picture.now }
    ensures { IsFinding (HasLevelOn board.now) config.now picture.now kind result }
{
    let lower = nearest(board, config, &picture.own, kind, Side::Lower);
    let upper = nearest(board, config, &picture.own, kind, Side::Upper);
    Finding {
        lower,
        upper,
        last: find_last(config, picture, kind, lower),
        recovery: find_recovery(config, picture, kind, lower, upper),
    }
}

/// The last time of a kind with this answer on its lower side, where the configuration asks for it
/// and the present flight may not be kept.
fn find_last(
    config: &Config,
    picture: &Picture,
    kind: Kind,
    lower: Resolution,
) -> Option<Option<u32>>
    requires { IsPictureInRange picture.now }
    ensures { IsLastFound config.now picture.now kind lower result }
{
    if config.last_times() && !may_be_kept(lower) {
        Some(last_of(config, picture, kind))
    } else {
        None
    }
}

/// The recovery of a kind with these answers on its sides, where the configuration asks for it and
/// neither side has an answer.
fn find_recovery(
    config: &Config,
    picture: &Picture,
    kind: Kind,
    lower: Resolution,
    upper: Resolution,
) -> Option<Option<(u32, i32)>>
    requires { IsPictureInRange picture.now }
    ensures { IsRecoveryFound config.now picture.now kind lower upper result }
{
    if config.recovery().is_some() && have_no_resolution(lower, upper) {
        Some(found_numbers(least(config, picture, kind)))
    } else {
        None
    }
}

/// Whether the present flight may be kept.
fn may_be_kept(lower: Resolution) -> bool
    ensures { result ≡ is_keep lower }
{
    match lower {
        Resolution::Keep => true,
        _ => false,
    }
}

/// Whether neither side has an answer.
fn have_no_resolution(lower: Resolution, upper: Resolution) -> bool
    ensures { result ≡ are_nothing lower upper }
{
    match (lower, upper) {
        (Resolution::Nothing, Resolution::Nothing) => true,
        _ => false,
    }
}

/// The numbers of a recovery on a line.
fn found_numbers(found: Option<Recovery>) -> Option<(u32, i32)>
    ensures { result ≡ option_map found_of found }
{
    match found {
        Some(recovery) => Some((recovery.after, recovery.value)),
        None => None,
    }
}
