//! Worked quadratics, by hand: their zeros and vertices.

use super::*;
use daa_fixed::Point;
use std::test::Fail;

const START: Point = Point { num: 0, den: 1 };

const SECOND_2: Point = Point { num: 2, den: 1 };

/// `(t - 1)^2`
const TOUCHING_AT_1: Quad = Quad { a: 1, b: -2, c: 1 };
/// `(t - 1)^2 + 1`
const ABOVE: Quad = Quad { a: 1, b: -2, c: 2 };
/// `(2t - 1)^2`
const TOUCHING_AT_HALF: Quad = Quad { a: 4, b: -4, c: 1 };

fn is_at(found: Option<Point>, num: i64, den: i64) -> bool {
    match found {
        Some(p) => p.num as i128 * den as i128 == num as i128 * p.den as i128,
        None => false,
    }
}

#[test]
fn signs_beside_and_on_the_zeros(rt: HostRuntime) -> Result<(), Fail> {
    // (2t - 1)(t - 3): above before 1/2, below between, above after 3
    let crossing = Quad { a: 2, b: -7, c: 3 };
    for (num, den, want) in [
        (0, 1, Sign::Above),
        (1, 2, Sign::Zero),
        (2, 4, Sign::Zero),
        (5, 9, Sign::Below),
        (3, 1, Sign::Zero),
        (31, 10, Sign::Above),
    ] {
        assert!(rt;
            sign_at(&crossing, &Point { num, den }) == want,
            "at {num}/{den}"
        );
    }
    Ok(())
}

#[test]
fn dips_to_zero_at_the_vertex(rt: HostRuntime) -> Result<(), Fail> {
    assert!(rt; is_at(dips(&TOUCHING_AT_1, &START, &SECOND_2), 1, 1));
    assert!(rt; dips(&ABOVE, &START, &SECOND_2).is_none());
    assert!(rt; is_at(dips(&TOUCHING_AT_HALF, &START, &SECOND_2), 1, 2));
    Ok(())
}

// The vertex of (t - 1)^2 lies outside, so an end is least.
#[test]
fn least_at_an_end(rt: HostRuntime) -> Result<(), Fail> {
    let half = Point { num: 1, den: 2 };
    let three_halves = Point { num: 3, den: 2 };
    assert!(rt; is_at(Some(least_point(&TOUCHING_AT_1, &START, &half)), 1, 2));
    assert!(rt;
        is_at(
            Some(least_point(&TOUCHING_AT_1, &three_halves, &SECOND_2)),
            3,
            2
        )
    );
    assert!(rt; dips(&TOUCHING_AT_1, &START, &half).is_none());
    Ok(())
}

// A straight line has no vertex: it falls to zero at the end, at 2 seconds.
#[test]
fn lines_have_no_vertex(rt: HostRuntime) -> Result<(), Fail> {
    let falling = Quad { a: 0, b: -3, c: 6 };
    let level = Quad { a: 0, b: 0, c: 1 };
    assert!(rt; is_at(dips(&falling, &START, &SECOND_2), 2, 1));
    assert!(rt; dips(&level, &START, &SECOND_2).is_none());
    Ok(())
}

// At 2^41/2^33 = 256 seconds: 2^48 - 2^51 + 2^52 is above zero and 2^48 - 2^51 - 2^52 below, about.
#[test]
fn largest_numbers(rt: HostRuntime) -> Result<(), Fail> {
    let latest = Point {
        num: 2199023255552,
        den: 8589934592,
    };
    let high = Quad {
        a: 4294967295,
        b: -8796093022207,
        c: 4503599627370495,
    };
    let low = Quad {
        a: 4294967295,
        b: -8796093022207,
        c: -4503599627370495,
    };
    assert!(rt; sign_at(&high, &latest) == Sign::Above);
    assert!(rt; sign_at(&low, &latest) == Sign::Below);
    Ok(())
}

fn may_be_sent<T: Send>() {}

// The check refuses a type that may not be sent between threads.
#[test]
fn values_may_be_sent() {
    may_be_sent::<Quad>();
    may_be_sent::<Sign>();
}
