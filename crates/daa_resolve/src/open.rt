//! Which candidates are open.

ghost use Rattle.std.specs.Prelude.{◌<◌, ◌↔◌, IsTrue};
ghost use Rattle.daa_bands.specs.Board.{HasLevelOn, board_size};
ghost use Rattle.daa_resolve.specs.Open.{IsOpen};

use daa_bands::Board;
use daa_config::Config;

/// Whether a candidate is covered at no level from `resolve` up to the greatest.
pub(crate) fn is_open(board: &Board, config: &Config, index: u32) -> bool
    requires { index < board_size }
    ensures { IsTrue result ↔ IsOpen (HasLevelOn board.now) config.now index }
{
    let mask = board.mask(index);
    for level in config.resolve()..config.levels() + 1 {
        if mask >> (level - 1) & 1 == 1 {
            return false;
        }
    }
    true
}
