//! A value that moves toward a target by a limited step.

ghost use Rattle.std.specs.Prelude.{◌≡◌, ◌↔◌, ◌^◌, ◌≤ℤ◌, ℤ, pos};
ghost use Rattle.daa_fixed.specs.Size.{IsWithin};
ghost use Rattle.daa_fixed.specs.Toward.{toward_of, IsNearestWithin};

/// The value moved toward the target by at most `rate`, and never past it. Each number is at most
/// 2^60 in size, and `rate` is not negative.
pub fn toward(now: i64, target: i64, rate: i64) -> i64
    requires now { IsWithin (2 ^ 60) now }
    requires target { IsWithin (2 ^ 60) target }
    requires rate { IsWithin (2 ^ 60) rate }
    requires not_negative { pos 0 ≤ℤ rate }
    ensures { result ≡ toward_of now target rate }
{
    (now - rate).max((now + rate).min(target))
}

/// A law of the definition: of all numbers at most `rate` away from `now`, `toward` returns the
/// nearest to the target.
pub fn toward_is_nearest()
    ensures { (now target rate x : ℤ) → pos 0 ≤ℤ rate →
        (x ≡ toward_of now target rate) ↔ IsNearestWithin now target rate x }
{}
