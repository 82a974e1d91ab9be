//! A line in hand, of at most 64 bytes.

ghost use Rattle.std.specs.Prelude.{◌≡◌, ◌≤◌, ◌+◌, ◌*◌, ◌++◌, length, codes, decimal};
ghost use Rattle.std.specs.Fmt.{signed_decimal};
ghost use Rattle.std.specs.List.{flat_map};
ghost use Rattle.std.specs.Option.{option_map_or};
ghost use Rattle.arrayvec.specs.ArrayVec.{array_vec_len};
ghost use Rattle.daa_report.specs.Lines.{resolution_text};

use crate::line::LONGEST_LINE;
use arrayvec::ArrayVec;
use daa_config::Resolution;
use itoa::Buffer;

/// Adds bytes at the end.
pub(crate) fn add_bytes(line: &mut ArrayVec<u8, LONGEST_LINE>, bytes: &[u8])
    requires { array_vec_len line.old + length bytes.now ≤ 64 }
    ensures items { line.new.items ≡ line.old.items ++ bytes.now }
    ensures len { array_vec_len line.new ≡ array_vec_len line.old + length bytes.now }
{
    let _ = line.try_extend_from_slice(bytes);
}

/// Adds a text at the end.
pub(crate) fn add(line: &mut ArrayVec<u8, LONGEST_LINE>, text: &str)
    requires { array_vec_len line.old + length text.now ≤ 64 }
    ensures items { line.new.items ≡ line.old.items ++ text.now }
    ensures len { array_vec_len line.new ≡ array_vec_len line.old + length text.now }
{
    add_bytes(line, text.as_bytes());
}

/// Adds a number at the end, in decimal digits.
pub(crate) fn add_number(line: &mut ArrayVec<u8, LONGEST_LINE>, number: u64)
    requires { array_vec_len line.old + 20 ≤ 64 }
    ensures items { line.new.items ≡ line.old.items ++ decimal number }
    ensures len { array_vec_len line.new ≤ array_vec_len line.old + 20 }
{
    let mut buffer = Buffer::new();
    add(line, buffer.format(number));
}

/// Adds a number at the end, in decimal digits, with a sign where it is negative.
pub(crate) fn add_signed(line: &mut ArrayVec<u8, LONGEST_LINE>, number: &i32)
    requires { array_vec_len line.old + 11 ≤ 64 }
    ensures items { line.new.items ≡ line.old.items ++ signed_decimal number.now }
    ensures len { array_vec_len line.new ≤ array_vec_len line.old + 11 }
{
    let mut buffer = Buffer::new();
    add(line, buffer.format(*number));
}

/// Adds a number, or this word where there is none.
pub(crate) fn add_number_or(line: &mut ArrayVec<u8, LONGEST_LINE>, number: Option<u32>, none: &str)
    requires room { array_vec_len line.old + 20 ≤ 64 }
    requires short { length none.now ≤ 20 }
    ensures items { line.new.items ≡ line.old.items ++ option_map_or decimal number none.now }
    ensures len { array_vec_len line.new ≤ array_vec_len line.old + 20 }
{
    match number {
        Some(number) => add_number(line, u64::from(number)),
        None => add(line, none),
    }
}

/// Adds what is answered on a side.
pub(crate) fn add_resolution(line: &mut ArrayVec<u8, LONGEST_LINE>, resolution: &Resolution)
    requires { array_vec_len line.old + 11 ≤ 64 }
    ensures items { line.new.items ≡ line.old.items ++ resolution_text resolution.now }
    ensures len { array_vec_len line.new ≤ array_vec_len line.old + 11 }
{
    match resolution {
        Resolution::Keep => add(line, "keep"),
        Resolution::To(value) => add_signed(line, value),
        Resolution::Nothing => add(line, "none"),
    }
}

/// Adds a blank and a text.
pub(crate) fn add_field(line: &mut ArrayVec<u8, LONGEST_LINE>, text: &str)
    requires { array_vec_len line.old + length text.now + 1 ≤ 64 }
    ensures items { line.new.items ≡ line.old.items ++ codes " " ++ text.now }
    ensures len { array_vec_len line.new ≡ array_vec_len line.old + length text.now + 1 }
{
    add(line, " ");
    add(line, text);
}

/// Adds a blank and a number with its sign.
pub(crate) fn add_signed_field(line: &mut ArrayVec<u8, LONGEST_LINE>, number: &i32)
    requires { array_vec_len line.old + 12 ≤ 64 }
    ensures items { line.new.items ≡ line.old.items ++ codes " " ++ signed_decimal number.now }
    ensures len { array_vec_len line.new ≤ array_vec_len line.old + 12 }
{
    add(line, " ");
    add_signed(line, number);
}

/// Adds a blank and what is answered on a side.
pub(crate) fn add_resolution_field(line: &mut ArrayVec<u8, LONGEST_LINE>, resolution: &Resolution)
    requires { array_vec_len line.old + 12 ≤ 64 }
    ensures items { line.new.items ≡ line.old.items ++ codes " " ++ resolution_text resolution.now }
    ensures len { array_vec_len line.new ≤ array_vec_len line.old + 12 }
{
    add(line, " ");
    add_resolution(line, resolution);
}

/// Adds a blank and a number of at most twenty digits.
pub(crate) fn add_long_field(line: &mut ArrayVec<u8, LONGEST_LINE>, number: u64)
    requires { array_vec_len line.old + 21 ≤ 64 }
    ensures items { line.new.items ≡ line.old.items ++ (codes " " ++ decimal number) }
    ensures len { array_vec_len line.new ≤ array_vec_len line.old + 21 }
{
    add(line, " ");
    add_number(line, number);
}

/// Adds a blank and a number of at most ten digits.
pub(crate) fn add_number_field(line: &mut ArrayVec<u8, LONGEST_LINE>, number: u32)
    requires { array_vec_len line.old + 11 ≤ 64 }
    ensures items { line.new.items ≡ line.old.items ++ (codes " " ++ decimal number) }
    ensures len { array_vec_len line.new ≤ array_vec_len line.old + 11 }
{
    let mut buffer = Buffer::new();
    add(line, " ");
    add(line, buffer.format(number));
}

/// Adds a blank and each of the numbers.
pub(crate) fn add_number_fields(line: &mut ArrayVec<u8, LONGEST_LINE>, numbers: &[u32])
    requires { array_vec_len line.old + 11 * length numbers.now ≤ 64 }
    ensures items { line.new.items
        ≡ line.old.items ++ flat_map (λ number. codes " " ++ decimal number) numbers.now }
    ensures len { array_vec_len line.new ≤ array_vec_len line.old + 11 * length numbers.now }
{
    for number in numbers {
        add_number_field(line, *number);
    }
}

/// Adds a number of seconds and a value, or `none` in their place.
pub(crate) fn add_found(line: &mut ArrayVec<u8, LONGEST_LINE>, found: &Option<(u32, i32)>)
    requires { array_vec_len line.old + 32 ≤ 64 }
    ensures items { line.new.items ≡ line.old.items
        ++ option_map_or (λ f. decimal f.0 ++ codes " " ++ signed_decimal f.1) found.now
        (codes "none") }
    ensures len { array_vec_len line.new ≤ array_vec_len line.old + 32 }
{
    match found {
        Some((after, value)) => {
            add_number(line, u64::from(*after));
            add_signed_field(line, value);
        }
        None => add(line, "none"),
    }
}
