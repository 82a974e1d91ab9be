//! Roots, rounded up to whole numbers.

ghost use Rattle.std.specs.Prelude.{◌≤ℤ◌, ◌^◌, pos};
ghost use Rattle.daa_fixed.specs.Size.{IsWithin};
ghost use Rattle.daa_margin.specs.MayViolate.{IsRootAbove};

/// The least whole number whose square is at least this one.
pub(crate) fn root_above(square: i64) -> i64
    requires not_negative { pos 0 ≤ℤ square }
    requires size { IsWithin (2 ^ 48) square }
    ensures root { IsRootAbove square result }
    ensures size { IsWithin (2 ^ 25) result }
{
    let root = square.isqrt();
    if root * root < square { root + 1 } else { root }
}
