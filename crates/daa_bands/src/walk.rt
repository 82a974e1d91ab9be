//! The bands of a kind, one after the other.

ghost use Rattle.std.specs.Prelude.{◌≡◌, ◌≢◌, ◌<◌, ◌≤◌, ◌+◌, ℕ, slice_index};
ghost use Rattle.daa_bands.specs.Board.{HasLevelOn, board_size, mask_levels};
ghost use Rattle.daa_bands.specs.KindBands.{AreKindBands};
ghost use Rattle.daa_bands.specs.Walk.{shown_of};

use crate::band::Band;
use crate::board::Board;
use daa_config::{Config, Kind};
use std::marker::Model;

/// The bands of a kind that are still to come.
#[derive(Drop)]
pub struct Runs<'a> {
    board: &'a Board,
    config: &'a Config,
    kind: Kind,
    at: u32,
}

impl<'a> Model for Runs<'a> {
    ghost use Rattle.std.specs.Prelude.{List};
    ghost use Rattle.daa_bands.specs.declared.band.Band.{Band};
    ghost use Rattle.daa_bands.specs.Walk.{bands_left};

    ghost Value = { List Band };

    ghost view = { λ r. bands_left r.board.now r.config.now r.kind r.at };
}

impl<'a> Runs<'a> {
    /// All bands of a kind.
    pub(crate) fn of(board: &'a Board, config: &'a Config, kind: Kind) -> Runs<'a>
        ensures { AreKindBands (HasLevelOn board.now) mask_levels config.now kind result }
    {
        Runs {
            board,
            config,
            kind,
            at: 0,
        }
    }
}

impl<'a> Iterator for Runs<'a> {
    type Item = Band;

    ghost use Rattle.std.specs.Iterator.{YieldsFirst, item_count};

    ghost next_gives = { YieldsFirst (λ bands. bands) };

    ghost remaining = { item_count (λ bands. bands) };

    /// The next band; `None` exactly after the last one.
    fn next(&mut self) -> Option<Band> {
        let count = self.config.count(self.kind);
        if self.at >= count {
            return None;
        }
        let start = self.config.start(self.kind);
        let level = shown_level(self.board, start + self.at);
        let last = last_of_level(self.board, start, level, self.at, count);
        let band = Band {
            from: self.config.value(self.kind, self.at),
            upto: self.config.value(self.kind, last),
            level,
        };
        self.at = last + 1;
        Some(band)
    }
}

/// The shown level of the candidate at an index.
fn shown_level(board: &Board, index: u32) -> u8
    requires { index < board_size }
    ensures { result ≡ shown_of (slice_index board.now index) }
{
    board.shown(index)
}

/// The last index, from one on, up to which the candidates show a level.
fn last_of_level(board: &Board, start: u32, level: u8, first: u32, count: u32) -> u32
    requires first { first < count }
    requires count { start + count ≤ board_size }
    requires level { shown_of (slice_index board.now (start + first)) ≡ level }
    ensures later { first ≤ result }
    ensures within { result < count }
    ensures same { (i : ℕ) → first ≤ i → i ≤ result
        → shown_of (slice_index board.now (start + i)) ≡ level }
    ensures other { result + 1 < count
        → shown_of (slice_index board.now (start + result + 1)) ≢ level }
{
    let mut last = first;
    while last + 1 < count && shown_level(board, start + last + 1) == level {
        last += 1;
    }
    last
}
