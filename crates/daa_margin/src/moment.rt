//! Times that may lie up to 120 seconds past a point in range, and what moves until then.

ghost use Rattle.std.specs.Prelude.{◌≡◌, ◌≤◌, ◌^◌, ◌*ℤ◌, ◌+ℤ◌, ◌≤ℤ◌, pos};
ghost use Rattle.daa_fixed.specs.Size.{IsWithin};

use daa_fixed::Point;

/// The time `num/den` in seconds.
#[derive(Clone, Copy)]
pub(crate) struct Moment {
    pub(crate) num: i64,
    pub(crate) den: i64,
    ghost not_negative: { pos 0 ≤ℤ num },
    ghost num_bound: { num ≤ℤ pos (2 ^ 42) },
    ghost positive: { pos 1 ≤ℤ den },
    ghost den_bound: { den ≤ℤ pos (2 ^ 33) },
}

/// The time itself.
pub(crate) fn at(point: &Point) -> Moment
    ensures num { result.num ≡ point.now.num }
    ensures den { result.den ≡ point.now.den }
{
    Moment {
        num: point.num,
        den: point.den,
    }
}

/// The time so many seconds later.
pub(crate) fn after(point: &Point, secs: u32) -> Moment
    requires { secs ≤ 120 }
    ensures num { result.num ≡ point.now.num +ℤ pos secs *ℤ point.now.den }
    ensures den { result.den ≡ point.now.den }
{
    Moment {
        num: point.num + secs as i64 * point.den,
        den: point.den,
    }
}

/// What begins at `begin` and moves at `speed`, times the time's denominator.
pub(crate) fn moved(begin: i64, speed: i64, moment: &Moment) -> i64
    requires begin { IsWithin 40000000 begin }
    requires speed { IsWithin 40000 speed }
    ensures value { result ≡ moment.now.den *ℤ begin +ℤ moment.now.num *ℤ speed }
    ensures size { IsWithin (2 ^ 59) result }
{
    moment.den * begin + moment.num * speed
}
