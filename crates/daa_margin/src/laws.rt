//! Laws of the volume where errors have bounds.

ghost use Rattle.std.specs.Prelude.{ℕ, ℤ, pos, ◌≤◌, ◌≤ℤ◌, ◌+ℤ◌, ◌*ℤ◌, ◌⊎◌, ◌↔◌};
ghost use Rattle.daa_fixed.specs.declared.Leg.{Leg};
ghost use Rattle.daa_fixed.specs.Leg.{IsLegInRange};
ghost use Rattle.daa_fixed.specs.Time.{HoldsSometime};
ghost use Rattle.daa_taumod.specs.declared.Volume.{Volume};
ghost use Rattle.daa_taumod.specs.Volume.{IsVolumeInRange, Violates};
ghost use Rattle.daa_margin.specs.declared.ErrorBounds.{ErrorBounds};
ghost use Rattle.daa_margin.specs.ErrorBounds.{AreErrorBoundsInRange, AreNoWider, IsWithinErrors};
ghost use Rattle.daa_margin.specs.MayViolate.{IsVolumeWithin, MayViolate};
ghost use Rattle.daa_margin.specs.Later.{second_of, bounds_after, MayViolateOnSomeSecond};

/// No true violation is missed: where the truth violates the volume, by any of the four models, and
/// is within the bounds of what is reported at that time, what is reported may violate it.
pub fn no_true_violation_is_missed()
    ensures { (truth reported : Leg) (volume : Volume) (bounds : ErrorBounds) (n d : ℤ) →
        pos 0 ≤ℤ n → pos 1 ≤ℤ d → IsWithinErrors bounds truth reported n d →
        Violates truth volume n d → MayViolate reported volume bounds n d }
{}

/// With wider bounds no less may be violated.
pub fn may_violate_grows_with_the_bounds()
    ensures { (leg : Leg) (volume : Volume) (narrow wide : ErrorBounds) (n d : ℤ) →
        pos 0 ≤ℤ n → pos 1 ≤ℤ d → AreNoWider narrow wide →
        MayViolate leg volume narrow n d → MayViolate leg volume wide n d }
{}

/// With greater thresholds, or a later model in the order in which the models lie one within the
/// next, no less may be violated.
pub fn may_violate_grows_with_the_volume()
    ensures { (leg : Leg) (inner outer : Volume) (bounds : ErrorBounds) (n d : ℤ) →
        pos 0 ≤ℤ n → pos 1 ≤ℤ d → IsVolumeWithin inner outer →
        MayViolate leg inner bounds n d → MayViolate leg outer bounds n d }
{}

/// Whether the volume may be violated at a time can be decided, of any leg and at any time.
pub fn may_violate_is_decidable()
    ensures { (leg : Leg) (volume : Volume) (bounds : ErrorBounds) (n d : ℤ) →
        pos 0 ≤ℤ n → pos 1 ≤ℤ d →
        MayViolate leg volume bounds n d ⊎ ¬ MayViolate leg volume bounds n d }
{}

/// Whether it may be violated at some time of a leg can be decided too, of what is in range.
pub fn may_violate_sometime_is_decidable()
    ensures { (leg : Leg) (volume : Volume) (bounds : ErrorBounds) →
        IsLegInRange leg → IsVolumeInRange volume → AreErrorBoundsInRange bounds →
        HoldsSometime leg.secs (MayViolate leg volume bounds)
        ⊎ ¬ HoldsSometime leg.secs (MayViolate leg volume bounds) }
{}

/// A leg says what its seconds say: k seconds later, with the bounds that have grown until then,
/// the volume may be violated exactly where it may be k seconds later on the leg. So a leg that is
/// decided at once is met exactly if one of its seconds is, each decided alone.
pub fn a_leg_is_its_seconds()
    ensures at_each_time { (leg : Leg) (volume : Volume) (bounds : ErrorBounds) (k : ℕ) (n d : ℤ) →
        MayViolate (second_of leg k) volume (bounds_after bounds k) n d
        ↔ MayViolate leg volume bounds (n +ℤ pos k *ℤ d) d }
    ensures at_some_time { (leg : Leg) (volume : Volume) (bounds : ErrorBounds) → 1 ≤ leg.secs →
        HoldsSometime leg.secs (MayViolate leg volume bounds)
        ↔ MayViolateOnSomeSecond leg volume bounds }
{}
