//! Fills a board with what the candidates of a moment meet, aircraft by aircraft. What a board has
//! already is not looked for again.

ghost use Rattle.std.specs.Prelude.{◌≡◌, length};
ghost use Rattle.daa_bands.specs.Board.{IsBoardOf};
ghost use Rattle.daa_state.specs.InRange.{IsPictureInRange};
ghost use Rattle.daa_scan.specs.Trunks.{AreFlightsOf};
ghost use Rattle.daa_engine.specs.Covered.{CoveredAt};

use daa_bands::{BOARD_MASKS, Board};
use daa_config::Config;
use daa_legs::{Branch, Trunk};
use daa_scan::{Needs, Scene};
use daa_state::Picture;

/// Marks the levels at which each candidate is covered, and no others.
pub(crate) fn fill(
    board: &mut Board,
    trunks: &[Trunk],
    branches: &[Branch],
    needs: Needs,
    config: &Config,
    picture: &Picture,
)
    requires picture { IsPictureInRange picture.now }
    requires room { length trunks.now ≡ 8 }
    requires flights { AreFlightsOf config.now picture.now needs trunks.now branches.now }
    ensures { IsBoardOf (CoveredAt config.now picture.now) config.now board.new }
{
    // ensures that there is a mask for each candidate
    let _total = config.total();
    let scene = Scene::of(config, picture, trunks, branches, needs);
    let mut masks = [0u8; BOARD_MASKS];
    for place in 0..picture.traffic.len() as u32 {
        scene.add_levels(place, &mut masks);
    }
    *board = Board::of(&masks);
}
