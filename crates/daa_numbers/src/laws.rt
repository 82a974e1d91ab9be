//! Laws of the definitions, each the contract of a function that does nothing.

ghost use Rattle.std.specs.Prelude.{List, ℕ};
ghost use Rattle.daa_bands.specs.Board.{IsBoardOf};
ghost use Rattle.daa_config.specs.Settings.{Settings};
ghost use Rattle.daa_engine.specs.Covered.{CoveredAt};
ghost use Rattle.daa_state.specs.declared.word.Picture.{Picture};
ghost use Rattle.daa_numbers.specs.Boards.{AreJoined};
ghost use Rattle.daa_numbers.specs.Both.{IsOfBoth};

/// The boards of two pictures of one ownship, joined, are the board of the picture that has the
/// aircraft of both, however many these are.
pub fn a_joined_board_is_of_all_aircraft()
    ensures { (settings : Settings) (one other both : Picture) (a b joined : List ℕ)
        → IsOfBoth one other both
        → IsBoardOf (CoveredAt settings one) settings a
        → IsBoardOf (CoveredAt settings other) settings b
        → AreJoined a b joined
        → IsBoardOf (CoveredAt settings both) settings joined }
{}
