//! Numbers in fields: how they are spelled, and the range of each. A field that spells no number is
//! refused as `BadNumber`, and a number outside its range as `OutOfRange`.

ghost use Rattle.std.specs.Prelude.{◌≡◌, ◌≤◌, ◌<◌, ◌^◌, length, true, false};
ghost use Rattle.std.specs.Prelude.{IsTrue, pos, IfSome, IfOk, MatchOption};
ghost use Rattle.std.specs.Option.{SomeIff};
ghost use Rattle.std.specs.List.{list_all};
ghost use Rattle.std.specs.Char.{is_ascii_digit};
ghost use Rattle.daa_state.specs.Number.{number, number_in, count_in};
ghost use Rattle.daa_state.specs.Inside.Number.{has_minus, digits_of_field};
ghost use Rattle.daa_state.specs.Inside.Number.{are_digits, size_of_digits};
ghost use Rattle.daa_state.specs.Ranges.{positions, altitudes, tracks, ground_speeds};
ghost use Rattle.daa_state.specs.Ranges.{speeds, vertical_speeds, ages, error_bounds};
ghost use Rattle.daa_state.specs.Ranges.{formats, times};
ghost use Rattle.daa_state.specs.InRange.{IsPosition, IsAltitude, IsTrack, IsGroundSpeed};
ghost use Rattle.daa_state.specs.InRange.{IsSpeed, IsVerticalSpeed, IsAge, IsErrorBound};
ghost use Rattle.daa_state.specs.InRange.{IsFormat};

use crate::fault::LineFault;

/// The most digits of a number.
const MOST_DIGITS: usize = 10;

/// The number that a field spells.
#[tactic(auto, using(crate::proofs::NumberLemmas::number_is))]
fn number(field: &[u8]) -> Result<i64, LineFault>
    ensures { result ≡ number field.now }
{
    match size(unsigned(field)) {
        Some(size) if is_negative(field) => Ok(-size),
        Some(size) => Ok(size),
        None => Err(LineFault::BadNumber),
    }
}

/// Whether the field begins with a minus.
fn is_negative(field: &[u8]) -> bool
    ensures { result ≡ has_minus field.now }
{
    matches!(field, [b'-', ..])
}

/// The field without a sign in front.
fn unsigned(field: &[u8]) -> &[u8]
    ensures { result.now ≡ digits_of_field field.now }
{
    match field {
        [b'+' | b'-', digits @ ..] => digits,
        _ => field,
    }
}

/// The number that 1 to 10 digits write.
fn size(digits: &[u8]) -> Option<i64>
    ensures { SomeIff result (IsTrue (are_digits digits.now)) (pos (size_of_digits digits.now)) }
{
    if digits.is_empty() || digits.len() > MOST_DIGITS {
        return None;
    }
    let value = digits_value(digits)?;
    Some(value as i64)
}

/// The number that digits write, of which there are few enough that it fits.
fn digits_value(digits: &[u8]) -> Option<u64>
    requires { length digits.now ≤ 18 }
    ensures value { MatchOption result (list_all is_ascii_digit digits.now ≡ false)
        (λ value. (list_all is_ascii_digit digits.now ≡ true)
        × (value ≡ size_of_digits digits.now)) }
    ensures small { IfSome result (λ value. value < 10 ^ 18) }
{
    let mut value = 0u64;
    for b in digits {
        if !b.is_ascii_digit() {
            return None;
        }
        value = value * 10 + (*b - b'0') as u64;
    }
    Some(value)
}

/// A place east or north, in thousandths of a nautical mile: -200000 to 200000.
#[tactic(auto, unfolding(crate::specs::Number::number_in))]
pub(crate) fn position(field: &[u8]) -> Result<i32, LineFault>
    ensures value { result ≡ number_in positions field.now }
    ensures range { IfOk result IsPosition }
{
    match number(field)? {
        n @ -200_000..=200_000 => Ok(n as i32),
        _ => Err(LineFault::OutOfRange),
    }
}

/// An altitude, in feet: -2000 to 60000.
#[tactic(auto, unfolding(crate::specs::Number::number_in))]
pub(crate) fn altitude(field: &[u8]) -> Result<i32, LineFault>
    ensures value { result ≡ number_in altitudes field.now }
    ensures range { IfOk result IsAltitude }
{
    match number(field)? {
        n @ -2_000..=60_000 => Ok(n as i32),
        _ => Err(LineFault::OutOfRange),
    }
}

/// A track, in degrees clockwise from north: 0 to 359.
#[tactic(auto, unfolding(crate::specs::Number::number_in))]
pub(crate) fn track(field: &[u8]) -> Result<i32, LineFault>
    ensures value { result ≡ number_in tracks field.now }
    ensures range { IfOk result IsTrack }
{
    match number(field)? {
        n @ 0..=359 => Ok(n as i32),
        _ => Err(LineFault::OutOfRange),
    }
}

/// A ground speed, in tenths of a knot: 0 to 10000.
#[tactic(auto, unfolding(crate::specs::Number::number_in))]
pub(crate) fn ground_speed(field: &[u8]) -> Result<i32, LineFault>
    ensures value { result ≡ number_in ground_speeds field.now }
    ensures range { IfOk result IsGroundSpeed }
{
    match number(field)? {
        n @ 0..=10_000 => Ok(n as i32),
        _ => Err(LineFault::OutOfRange),
    }
}

/// A speed east or north, in tenths of a knot: -10000 to 10000.
#[tactic(auto, unfolding(crate::specs::Number::number_in))]
pub(crate) fn speed(field: &[u8]) -> Result<i32, LineFault>
    ensures value { result ≡ number_in speeds field.now }
    ensures range { IfOk result IsSpeed }
{
    match number(field)? {
        n @ -10_000..=10_000 => Ok(n as i32),
        _ => Err(LineFault::OutOfRange),
    }
}

/// A vertical speed, in feet per minute: -10000 to 10000.
#[tactic(auto, unfolding(crate::specs::Number::number_in))]
pub(crate) fn vertical_speed(field: &[u8]) -> Result<i32, LineFault>
    ensures value { result ≡ number_in vertical_speeds field.now }
    ensures range { IfOk result IsVerticalSpeed }
{
    match number(field)? {
        n @ -10_000..=10_000 => Ok(n as i32),
        _ => Err(LineFault::OutOfRange),
    }
}

/// How many seconds old a report is: 0 to 60.
#[tactic(auto, unfolding(crate::specs::Number::count_in, crate::specs::Number::number_in))]
pub(crate) fn age(field: &[u8]) -> Result<u32, LineFault>
    ensures value { result ≡ count_in ages field.now }
    ensures range { IfOk result IsAge }
{
    match number(field)? {
        n @ 0..=60 => Ok(n as u32),
        _ => Err(LineFault::OutOfRange),
    }
}

/// A format of the lines: 1, 2 or 3.
#[tactic(auto, unfolding(crate::specs::Number::count_in, crate::specs::Number::number_in))]
pub(crate) fn line_format(field: &[u8]) -> Result<u32, LineFault>
    ensures value { result ≡ count_in formats field.now }
    ensures range { IfOk result IsFormat }
{
    match number(field)? {
        n @ 1..=3 => Ok(n as u32),
        _ => Err(LineFault::OutOfRange),
    }
}

/// How far a report may be from the truth, in the unit of the number: 0 to 10000.
#[tactic(auto, unfolding(crate::specs::Number::count_in, crate::specs::Number::number_in))]
pub(crate) fn error_bound(field: &[u8]) -> Result<u32, LineFault>
    ensures value { result ≡ count_in error_bounds field.now }
    ensures range { IfOk result IsErrorBound }
{
    match number(field)? {
        n @ 0..=10_000 => Ok(n as u32),
        _ => Err(LineFault::OutOfRange),
    }
}

/// The time of a moment, in seconds, below 2 ^ 32.
#[tactic(auto, unfolding(crate::specs::Number::count_in, crate::specs::Number::number_in))]
pub(crate) fn seconds(field: &[u8]) -> Result<u32, LineFault>
    ensures { result ≡ count_in times field.now }
{
    match number(field)? {
        n @ 0..=4_294_967_295 => Ok(n as u32),
        _ => Err(LineFault::OutOfRange),
    }
}
