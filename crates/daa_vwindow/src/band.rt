//! The times at which a height lies within a band.

ghost use Rattle.std.specs.Prelude.{◌≡◌, ◌≤◌, ◌≤ℤ◌, ◌*ℤ◌, ◌-ℤ◌, neg_ℤ, pos, IfSome, MatchOption};
ghost use Rattle.std.specs.Int.{int_max, int_min};
ghost use Rattle.daa_fixed.specs.Size.{IsWithin};
ghost use Rattle.daa_fixed.specs.Time.{HoldsNever};
ghost use Rattle.daa_vwindow.specs.Inside.Band.{IsInBand};
ghost use Rattle.daa_vwindow.specs.Window.{HasSmallNumbers, IsWindow};

use daa_fixed::Point;

/// The times at which what stays at `height` is at most `high` off.
pub(crate) fn level_flight(height: i64, high: i64, secs: u32) -> Option<(Point, Point)>
    requires secs { secs ≤ 180 }
    requires height { IsWithin 40000000 height }
    ensures times { MatchOption result
        (HoldsNever secs (IsInBand height (pos 0) high high))
        (λ (p, q). IsWindow secs (IsInBand height (pos 0) high high) p q) }
    ensures small { IfSome result (λ (p, q). HasSmallNumbers p × HasSmallNumbers q) }
{
    if height.abs() <= high {
        let begin = Point { num: 0, den: 1 };
        let end = Point {
            num: secs as i64,
            den: 1,
        };
        Some((begin, end))
    } else {
        None
    }
}

/// The times at which what rises from `height` at `speed` is from `low` below to `high` above.
pub(crate) fn passage(
    height: i64,
    speed: i64,
    low: i64,
    high: i64,
    secs: u32,
) -> Option<(Point, Point)>
    requires secs { secs ≤ 180 }
    requires rises { pos 1 ≤ℤ speed }
    requires speed { speed ≤ℤ pos 40000 }
    requires height { IsWithin 40000000 height }
    requires low { IsWithin 40000000 low }
    requires high { IsWithin 40000000 high }
    ensures times { MatchOption result
        (HoldsNever secs (IsInBand height speed low high))
        (λ (p, q). IsWindow secs (IsInBand height speed low high) p q) }
    ensures small { IfSome result (λ (p, q). HasSmallNumbers p × HasSmallNumbers q) }
{
    let first = first_within(height, low);
    let last = last_within(height, speed, high, secs);
    if first <= last {
        let begin = Point {
            num: first,
            den: speed,
        };
        let end = Point {
            num: last,
            den: speed,
        };
        Some((begin, end))
    } else {
        None
    }
}

/// The first time at which what rises is at most `low` below, times its speed.
fn first_within(height: i64, low: i64) -> i64
    requires height { IsWithin 40000000 height }
    requires low { IsWithin 40000000 low }
    ensures { result ≡ int_max (neg_ℤ low -ℤ height) (pos 0) }
{
    (-low - height).max(0)
}

/// The last time at which what rises is at most `high` above, times its speed.
fn last_within(height: i64, speed: i64, high: i64, secs: u32) -> i64
    requires secs { secs ≤ 180 }
    requires rises { pos 1 ≤ℤ speed }
    requires speed { speed ≤ℤ pos 40000 }
    requires height { IsWithin 40000000 height }
    requires high { IsWithin 40000000 high }
    ensures { result ≡ int_min (high -ℤ height) (pos secs *ℤ speed) }
{
    (high - height).min(secs as i64 * speed)
}
