//! The nearest open candidate on a side.

ghost use Rattle.std.specs.Prelude.{◌≡◌, ◌<◌, ◌+◌, ◌↔◌, ℤ, Some, IsTrue, length, slice_get};
ghost use Rattle.daa_config.specs.Candidates.{values_of};
ghost use Rattle.daa_bands.specs.Board.{HasLevelOn};
ghost use Rattle.daa_resolve.specs.Side.{present_of, distance_of};
ghost use Rattle.daa_resolve.specs.Resolution.{IsResolution, IsOpenOnSide};
ghost use Rattle.daa_resolve.specs.Inside.Best.{IsBest};

use crate::open::is_open;
use crate::side::{Side, distance, is_on_side, present};
use daa_bands::Board;
use daa_config::{Config, Kind, Resolution};
use daa_state::Own;

/// The answer on a side of a kind: `Keep` if the present flight is open, else the value of the
/// nearest open candidate on that side, or `Nothing` if there is none. A track is on the right if
/// it is 1 to 180 degrees to the right, and on the left if it is 0 to 179 degrees to the left. On
/// the other kinds a value is up if it is greater than the present one, and else down. So a
/// candidate with the present value itself is left or down. Source: the DAIDALUS reference manual,
/// on resolutions relative to a corrective level.
pub fn nearest(board: &Board, config: &Config, own: &Own, kind: Kind, side: Side) -> Resolution
    ensures { IsResolution (HasLevelOn board.now) config.now own.now kind side result }
{
    if is_open(board, config, 0) {
        return Resolution::Keep;
    }
    match best_index(board, config, own, kind, side) {
        Some(index) => Resolution::To(config.value(kind, index)),
        None => Resolution::Nothing,
    }
}

/// The index of the nearest of all.
fn best_index(board: &Board, config: &Config, own: &Own, kind: Kind, side: Side) -> Option<u32>
    ensures { IsBest (HasLevelOn board.now) config.now own.now kind side
        (length (values_of kind config.now)) result }
{
    let mut best = None;
    for index in 0..config.count(kind) {
        best = better_index(board, config, own, kind, side, best, index);
    }
    best
}

/// The index of the nearest value so far, or the next index if its value is open, on the side and
/// nearer.
fn better_index(
    board: &Board,
    config: &Config,
    own: &Own,
    kind: Kind,
    side: Side,
    best: Option<u32>,
    index: u32,
) -> Option<u32>
    requires index { index < length (values_of kind config.now) }
    requires best { IsBest (HasLevelOn board.now) config.now own.now kind side index best }
    ensures { IsBest (HasLevelOn board.now) config.now own.now kind side (index + 1) result }
{
    if !is_open_on_side(board, config, own, kind, side, index) {
        return best;
    }
    match best {
        None => Some(index),
        Some(other) => {
            if distance_at(config, own, kind, side, other)
                <= distance_at(config, own, kind, side, index)
            {
                return Some(other);
            }
            Some(index)
        }
    }
}

/// Whether the value at an index is on the side and its candidate open.
fn is_open_on_side(
    board: &Board,
    config: &Config,
    own: &Own,
    kind: Kind,
    side: Side,
    index: u32,
) -> bool
    requires { index < length (values_of kind config.now) }
    ensures { IsTrue result
        ↔ ((value : ℤ) × IsOpenOnSide
        (HasLevelOn board.now) config.now own.now kind side index value) }
{
    let value = config.value(kind, index);
    let candidate = config.start(kind) + index;
    is_on_side(kind, side, &present(own, kind), &value) && is_open(board, config, candidate)
}

/// How far the value at an index is on a side.
fn distance_at(config: &Config, own: &Own, kind: Kind, side: Side, index: u32) -> i64
    requires { index < length (values_of kind config.now) }
    ensures { (value : ℤ) → slice_get (values_of kind config.now) index ≡ Some value
        → result ≡ distance_of kind side (present_of kind own.now) value }
{
    distance(kind, side, &present(own, kind), &config.value(kind, index))
}
