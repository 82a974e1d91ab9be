//! The bands of each kind.

ghost use Rattle.daa_bands.specs.Board.{HasLevelOn, mask_levels};
ghost use Rattle.daa_bands.specs.KindBands.{AreKindBands};

use crate::board::Board;
use crate::walk::Runs;
use daa_config::{Config, Kind};

/// The bands of a kind over the levels that a board shows, in the rising order of the values: each
/// stretch of equal level is one band, also at level 0; a band of tracks ends at north.
/// Source: the DAIDALUS reference manual, on bands.
pub fn runs<'a>(board: &'a Board, config: &'a Config, kind: Kind) -> Runs<'a>
    ensures { AreKindBands (HasLevelOn board.now) mask_levels config.now kind result }
{
    Runs::of(board, config, kind)
}
