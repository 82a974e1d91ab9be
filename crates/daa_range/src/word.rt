//! A range in one word: `first` in its upper 32 bits, `upto` in its lower 32.

ghost use Rattle.std.specs.Prelude.{◌≡◌};
ghost use Rattle.daa_range.specs.Word.{packed, unpacked};

use crate::Range;

// One more than the lower 32 bits can hold.
const PART: u64 = 1 << 32;

/// The word of a range.
pub fn pack(range: Range) -> u64
    ensures { result ≡ packed range }
{
    u64::from(range.first) * PART + u64::from(range.upto)
}

/// The range of a word. A word whose parts are not in order is read as the empty range at its first
/// part.
pub fn unpack(word: u64) -> Range
    ensures { result ≡ unpacked word }
{
    let first = (word / PART) as u32;
    let upto = (word % PART) as u32;
    if first <= upto {
        Range { first, upto }
    } else {
        Range { first, upto: first }
    }
}
