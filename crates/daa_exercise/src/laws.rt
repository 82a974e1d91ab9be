//! Laws of the definitions, each the contract of a function that does nothing.

ghost use Rattle.std.specs.Prelude.{◌≡◌, ◌<◌, ◌*◌, ◌^◌, ◌∷◌, [], ℕ, IfSome};
ghost use Rattle.std.specs.Prelude.{List, None, codes, length, neg_ℤ, pos, sum};
ghost use Rattle.std.specs.List.{AllZip, sum_by};
ghost use Rattle.rand_core.specs.Pcg32Seed.{pcg32_seed};
ghost use Rattle.rand_core.specs.Steps.{first_words};
ghost use Rattle.rand_pcg.specs.Pcg.{pcg32, pcg32_of_seed};
ghost use Rattle.daa_config.specs.Candidates.{values_of};
ghost use Rattle.daa_fixed.specs.One.{HasOne};
ghost use Rattle.daa_config.specs.Settings.{IsAccepted, Settings};
ghost use Rattle.daa_config.specs.declared.kind.Kind.{Kind};
ghost use Rattle.daa_state.specs.Bounds.{exact};
ghost use Rattle.daa_state.specs.InRange.{IsPictureInRange};
ghost use Rattle.daa_state.specs.MomentStep.{MomentsState};
ghost use Rattle.daa_state.specs.Picture.{aircraft_of};
ghost use Rattle.daa_state.specs.declared.word.Picture.{Picture};
ghost use Rattle.daa_legs.specs.Alerts.{IsAlertLevel};
ghost use Rattle.daa_bands.specs.KindBands.{AreShown};
ghost use Rattle.daa_bands.specs.Parts.{SplitsByEach};
ghost use Rattle.daa_engine.specs.Covered.{CoveredAt};
ghost use Rattle.daa_exercise.specs.Levels.{counts_of};
ghost use Rattle.daa_exercise.specs.Moments.{aircraft_at, begin_of, moment_of, own_at};
ghost use Rattle.daa_exercise.specs.Summary.{IsSummaryOf};
ghost use Rattle.daa_exercise.specs.Taken.{IsTaken};
ghost use Rattle.daa_exercise.specs.Outputs.{outputs_of};

/// Under a configuration that is accepted exactly one text is the summary of a seed and a number of
/// moments. This holds of the definitions alone, whatever a program does.
pub fn every_exercise_has_one_summary()
    ensures { (settings : Settings) (seed moments : ℕ) → IsAccepted settings
        → HasOne (IsSummaryOf settings seed moments) }
{}

/// Every moment that is drawn is in range, whatever the outputs are.
pub fn drawn_moments_are_in_range()
    ensures { (output : ℕ → ℕ) (time : ℕ) → IsPictureInRange (moment_of output time) }
{}

/// No moment that is drawn is refused: after any state with no open moment whose last time, if
/// there is one, is earlier, each word that says the moment is accepted, and its end gives the
/// moment. So the moments of the times 0, 1, .. are accepted one after the other.
pub fn drawn_moments_are_taken()
    ensures { (output : ℕ → ℕ) (time : ℕ) (state : MomentsState) → time < 2 ^ 32
        → state.moment ≡ None
        → IfSome state.last (λ last. last < time)
        → IsTaken state (moment_of output time) }
{}

/// Over any moments, how often each level was an alert level adds up to the number of aircraft, and
/// how often each was shown for a kind to the number of moments times that of the kind's
/// candidates.
pub fn counts_add_up()
    ensures alerts { (settings : Settings) (pictures : List Picture) (levels : List ℕ)
        → SplitsByEach (λ (picture : Picture).
        AllZip (IsAlertLevel settings picture.own) (aircraft_of picture)) pictures levels
        → sum (counts_of (length settings.levels) levels)
        ≡ sum_by (λ (picture : Picture). length (aircraft_of picture)) pictures }
    ensures shown { (settings : Settings) (kind : Kind) (pictures : List Picture) (levels : List ℕ)
        → SplitsByEach (λ (picture : Picture).
        AreShown (CoveredAt settings picture) (length settings.levels) settings kind)
        pictures levels
        → sum (counts_of (length settings.levels) levels)
        ≡ length pictures * length (values_of kind settings) }
{}

/// Worked examples: the first outputs of the seed 7, its first ownship and first aircraft, the
/// draws before its second moment, and levels that are counted.
pub fn worked_examples()
    ensures outputs { first_words pcg32 3 (pcg32_of_seed (pcg32_seed 16 7))
        ≡ 2442223337 ∷ 414063806 ∷ 2743600285 ∷ [] }
    ensures third { outputs_of 7 2 ≡ 2743600285 }
    ensures own { own_at (outputs_of 7) 0 ≡ record {
      x = pos 0;
      y = pos 0;
      alt = pos 1232;
      trk = pos 86;
      gs = pos 2732;
      vs = pos 1808;
    } }
    ensures aircraft { aircraft_at (outputs_of 7)
        (pos 1232) 1 5 ≡ record {
          id = codes "A1";
          x = pos 4580;
          y = pos 474;
          alt = pos 1225;
          vx = neg_ℤ (pos 2328);
          vy = neg_ℤ (pos 127);
          vs = neg_ℤ (pos 1150);
          age = 0;
          bounds = exact;
        } }
    ensures second { begin_of (outputs_of 7) 1 ≡ 23 }
    ensures counts { counts_of 3 (0 ∷ 3 ∷ 0 ∷ 1 ∷ []) ≡ 2 ∷ 1 ∷ 0 ∷ 1 ∷ [] }
{}
