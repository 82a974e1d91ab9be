//! Laws of the definitions, each the contract of a function that does nothing.

ghost use Rattle.std.specs.Prelude.{◌≡◌, Bool, List, [], ◌∷◌, ℕ, ℤ, pos, length, IsTrue};
ghost use Rattle.daa_fixed.specs.Mask.{HasLevel, IsGreatestLevel};
ghost use Rattle.daa_config.specs.Packing.{mask_in};
ghost use Rattle.daa_config.specs.Settings.{Settings, IsAccepted};
ghost use Rattle.daa_config.specs.declared.kind.Kind.{Kind};
ghost use Rattle.daa_fixed.specs.One.{HasOne};
ghost use Rattle.daa_bands.specs.Band.{AreBands, band_of};
ghost use Rattle.daa_bands.specs.Board.{HasLevelOn, IsBoardOf, mask_levels};
ghost use Rattle.daa_bands.specs.declared.band.Band.{Band};
ghost use Rattle.daa_bands.specs.KindBands.{AreKindBands};

/// Values with their levels have exactly one list of bands, and so has each kind over any board.
pub fn has_one_list_of_bands()
    ensures marks { (marks : List (ℤ × ℕ)) → HasOne (AreBands marks) }
    ensures kinds { (board : List ℕ) (settings : Settings) (kind : Kind)
        → HasOne (AreKindBands (HasLevelOn board) mask_levels settings kind) }
{}

/// If a board marks exactly the covered candidates, its bands show what is covered.
pub fn board_shows_what_is_covered()
    ensures { (covered : ℕ → ℕ → Bool) (board : List ℕ) (settings : Settings) (kind : Kind)
        (bands : List Band) → IsAccepted settings
        → IsBoardOf (λ index l. IsTrue (covered index l)) settings board
        → AreKindBands (HasLevelOn board) mask_levels settings kind bands
        → AreKindBands (λ index l. IsTrue (covered index l))
        (length settings.levels) settings kind bands }
{}

/// Worked examples: of the tracks 0, 90, 180 and 270 the middle two show the same level and are one
/// band, the first and the last are not joined over north; a run is not split, and the values of
/// level 0 have a band too. A mask of levels 1 and 3 shows 3, and the fourth place of the packed
/// word 0xa8023 has levels 2 and 4.
pub fn worked_examples()
    ensures joined { AreBands ((pos 0, 1) ∷ (pos 90, 2) ∷ (pos 180, 2) ∷ (pos 270, 1) ∷ [])
        (band_of (pos 0) (pos 0) 1 ∷ band_of (pos 90) (pos 180) 2
        ∷ band_of (pos 270) (pos 270) 1 ∷ []) }
    ensures one_value { AreBands ((pos 1000, 0) ∷ []) (band_of (pos 1000) (pos 1000) 0 ∷ []) }
    ensures split { AreBands ((pos 0, 1) ∷ (pos 90, 1) ∷ [])
        (band_of (pos 0) (pos 0) 1 ∷ band_of (pos 90) (pos 90) 1 ∷ []) → ⊥ }
    ensures left_out { AreBands ((pos 0, 1) ∷ (pos 90, 0) ∷ []) (band_of (pos 0) (pos 0) 1 ∷ [])
        → ⊥ }
    ensures greatest { IsGreatestLevel (HasLevel 5) mask_levels 3 }
    ensures packed { mask_in 688163 3 ≡ 10 }
{}
