//! The units of the local plane.

ghost use Rattle.std.specs.Prelude.{◌≡◌, ◌*ℤ◌, pos};

/// Thousandths of a nautical mile as horizontal units of 1/36000 nautical mile.
pub fn mils(x: i32) -> i64
    ensures { result ≡ pos 36 *ℤ x }
{
    36 * i64::from(x)
}

/// Feet as vertical units of 1/60 foot.
pub fn feet(x: i32) -> i64
    ensures { result ≡ pos 60 *ℤ x }
{
    60 * i64::from(x)
}
