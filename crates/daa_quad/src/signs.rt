//! The value of a quadratic at a time, and its sign.

ghost use Rattle.std.specs.Prelude.{◌≡◌};
ghost use Rattle.daa_quad.specs.Quad.{value_of, IsSignOf};

use crate::{Quad, Sign};
use daa_fixed::Point;

/// The sign of the value at `at`, which is that of `a num^2 + b num den + c den^2`. A call for
/// other programs: `daidalus` does not make it.
pub fn sign_at(q: &Quad, at: &Point) -> Sign
    ensures { IsSignOf (value_of q.now at.now.num at.now.den) result }
{
    let value = value_at(q, at);
    if value < 0 {
        Sign::Below
    } else if value == 0 {
        Sign::Zero
    } else {
        Sign::Above
    }
}

/// The value at `at`, times the square of its denominator.
fn value_at(q: &Quad, at: &Point) -> i128
    ensures { result ≡ value_of q.now at.now.num at.now.den }
{
    let n = at.num as i128;
    let d = at.den as i128;
    (q.a * n + q.b * d) * n + q.c * d * d
}
