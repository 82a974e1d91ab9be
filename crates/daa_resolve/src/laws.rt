//! Laws of the definitions, each the contract of a function that does nothing.

ghost use Rattle.std.specs.Prelude.{◌≡◌, Bool, List, ℕ, pos, IsTrue};
ghost use Rattle.daa_config.specs.Settings.{Settings, IsAccepted};
ghost use Rattle.daa_config.specs.declared.candidate.Resolution.{Resolution};
ghost use Rattle.daa_config.specs.declared.kind.Kind.{Kind};
ghost use Rattle.daa_config.specs.declared.kind.Kind.TheVariants.{Track, GroundSpeed, Altitude};
ghost use Rattle.daa_state.specs.declared.word.Own.{Own};
ghost use Rattle.daa_bands.specs.Board.{HasLevelOn, IsBoardOf};
ghost use Rattle.daa_resolve.specs.declared.side.Side.{Side};
ghost use Rattle.daa_resolve.specs.declared.side.Side.TheVariants.{Lower, Upper};
ghost use Rattle.daa_fixed.specs.One.{HasOne};
ghost use Rattle.daa_resolve.specs.Resolution.{IsResolution};
ghost use Rattle.daa_resolve.specs.Side.{distance_of, IsOnSide};

/// Each side of each kind has exactly one answer: there is one, and no two candidates of a side are
/// equally far.
pub fn has_one_answer()
    ensures { (board : List ℕ) (settings : Settings) (own : Own) (kind : Kind) (side : Side)
        → IsAccepted settings
        → HasOne (IsResolution (HasLevelOn board) settings own kind side) }
{}

/// If a board marks exactly the covered candidates, the answers over the board are the answers over
/// what is covered.
pub fn board_answers_for_what_is_covered()
    ensures { (covered : ℕ → ℕ → Bool) (board : List ℕ) (settings : Settings) (own : Own)
        (kind : Kind)
        (side : Side) (resolution : Resolution)
        → IsAccepted settings → IsBoardOf (λ index l. IsTrue (covered index l)) settings board
        → IsResolution (HasLevelOn board) settings own kind side resolution
        → IsResolution (λ index l. IsTrue (covered index l)) settings own kind side resolution }
{}

/// Worked examples: from track 45 the track 0 is 45 degrees to the left, 90 is 45 to the right, 180
/// is 135 to the right and 270 is 135 to the left; exactly half a turn is to the right alone; the
/// present value is to the left or down.
pub fn worked_examples()
    ensures left_45 { distance_of Track Lower (pos 45) (pos 0) ≡ pos 45 }
    ensures right_45 { distance_of Track Upper (pos 45) (pos 90) ≡ pos 45 }
    ensures right_135 { distance_of Track Upper (pos 45) (pos 180) ≡ pos 135 }
    ensures left_135 { distance_of Track Lower (pos 45) (pos 270) ≡ pos 135 }
    ensures right_half { IsOnSide Track Upper (pos 90) (pos 270) }
    ensures not_left_half { IsOnSide Track Lower (pos 90) (pos 270) → ⊥ }
    ensures present_track { IsOnSide Track Lower (pos 90) (pos 90) }
    ensures not_right { IsOnSide Track Upper (pos 90) (pos 90) → ⊥ }
    ensures present_speed { IsOnSide GroundSpeed Lower (pos 3600) (pos 3600) }
    ensures not_up { IsOnSide GroundSpeed Upper (pos 3600) (pos 3600) → ⊥ }
    ensures down { distance_of Altitude Lower (pos 1000) (pos 400) ≡ pos 600 }
{}
