//! Laws of the definitions, each the contract of a function that does nothing.

ghost use Rattle.std.specs.Prelude.{◌≡◌, ◌≢◌, ◌≤◌, ◌↔◌, ℕ, ℤ, pos, ◌≤ℤ◌};
ghost use Rattle.std.specs.Prelude.{◌*ℤ◌, Option, Some, None, unsigned_abs, false};
ghost use Rattle.daa_fixed.specs.declared.Leg.{Leg};
ghost use Rattle.daa_fixed.specs.Flat.{dot_of, square_of};
ghost use Rattle.daa_taumod.specs.declared.Model.{Model};
ghost use Rattle.daa_taumod.specs.declared.Volume.{Volume};
ghost use Rattle.daa_taumod.specs.Volume.{place_at, height_at, Violates};
ghost use Rattle.daa_config.specs.declared.candidate.Candidate.{Candidate};
ghost use Rattle.daa_config.specs.declared.kind.Kind.{Kind};
ghost use Rattle.daa_fixed.specs.One.{HasOne};
ghost use Rattle.daa_config.specs.Settings.{Settings, IsAccepted};
ghost use Rattle.daa_state.specs.declared.word.Picture.{Picture};
ghost use Rattle.daa_state.specs.InRange.{IsPictureInRange};
ghost use Rattle.daa_resolve.specs.declared.side.Side.{Side};
ghost use Rattle.daa_recovery.specs.OutlookState.{OutlookState};
ghost use Rattle.daa_recovery.specs.Recovery.{Recovers, RecoversAt, IsLeast};
ghost use Rattle.daa_recovery.specs.Recovery.{IsRecovery, IsSideRecovery};
ghost use Rattle.daa_recovery.specs.declared.recovery.Recovery.{Recovery};

/// Under an accepted configuration that asks for it, a kind has exactly one recovery.
pub fn has_one_recovery()
    ensures { (settings : Settings) (p : Picture) (kind : Kind) → IsAccepted settings
        → IsPictureInRange p
        → settings.recovery ≢ None
        → HasOne (IsRecovery settings p kind) }
{}

/// Under an accepted configuration that asks for recoveries, each side of a kind has exactly one.
pub fn has_one_recovery_on_each_side()
    ensures { (side : Side) (settings : Settings) (p : Picture) (kind : Kind)
        → IsAccepted settings
        → IsPictureInRange p
        → settings.recovery ≢ None
        → HasOne (IsSideRecovery side settings p kind) }
{}

/// The recovery of a kind, the soonest of all, is that of one of its sides; if there is none,
/// neither side has one.
pub fn the_recovery_of_a_kind_is_that_of_a_side()
    ensures some { (settings : Settings) (p : Picture) (kind : Kind) (r : Recovery)
        → IsRecovery settings p kind (Some r)
        → (side : Side) × IsSideRecovery side settings p kind (Some r) }
    ensures none { (settings : Settings) (p : Picture) (kind : Kind)
        → IsRecovery settings p kind None
        → (side : Side) → IsSideRecovery side settings p kind None }
{}

/// If the configuration does not ask for the nearest value, the recovery names the least of the
/// values that recover soonest.
pub fn without_nearest_the_least_value_is_named()
    ensures { (p : OutlookState) (kind : Kind) (side : Option Side) (r : Recovery)
        → p.settings.nearest ≡ false
        → IsLeast p kind side r
        → (index : ℕ) (value : ℤ) → RecoversAt p kind side index r.after value
        → r.value ≤ℤ value }
{}

/// What recovers at a second recovers at each later one.
pub fn recovering_lasts()
    ensures { (p : OutlookState) (candidate : Candidate) (m n : ℕ) → m ≤ n → Recovers p candidate m
        → Recovers p candidate n }
{}

/// With no time thresholds a volume by modified tau is the cylinder: at most so far off, and at
/// most so far above or below.
pub fn the_cylinder_is_what_is_near()
    ensures { (leg : Leg) (dthr zthr : ℕ) (n d : ℤ) → pos 1 ≤ℤ d
        → Violates leg (record {
          dthr = dthr;
          zthr = zthr;
          tthr = 0;
          tcoa = 0;
          model = Model.Taumod;
        }) n d
        ↔ ((dot_of (place_at leg n d) (place_at leg n d) ≤ℤ square_of (pos dthr *ℤ d))
        × (pos (unsigned_abs (height_at leg n d)) ≤ℤ (pos zthr *ℤ d))) }
{}
