//! What holds of all ranges and words.

ghost use Rattle.std.specs.Prelude.{◌≡◌, ℕ, ◌+◌, ◌/◌, ◌^◌, ◌<◌, ◌≤◌};
ghost use Rattle.daa_range.specs.Range.{RangeState, range_of, range_len, IsOrdered, times_in};
ghost use Rattle.daa_range.specs.Range.{times_below, lower_of, upper_of, first_unit_of, rest_of};
ghost use Rattle.daa_range.specs.Word.{packed, first_part, upto_part, IsInOrder, unpacked};

/// A range that is packed is read back, and a word that is in order is its range, packed.
pub fn packing_and_unpacking_undo_each_other()
    ensures range { (range : RangeState) → IsOrdered range → range.upto < 2 ^ 32
        → unpacked (packed range) ≡ range }
    ensures word { (word : ℕ) → IsInOrder word → packed (unpacked word) ≡ word }
{}

/// A word whose parts are not in order is read as the empty range at its first part.
pub fn parts_out_of_order_are_no_units()
    ensures { (word : ℕ) → upto_part word < first_part word
        → unpacked word ≡ range_of (first_part word) (first_part word) }
{}

/// The length is the number of units in the range.
#[tactic(auto, using(crate::proofs::Ranges::times_below_all))]
pub fn len_counts_the_units()
    ensures { (range : RangeState) (most : ℕ) → IsOrdered range → range.upto ≤ most
        → times_below most range ≡ range_len range }
{}

/// Each unit of the range is in one of its halves, and no other unit is. The upper half has half of
/// the units.
pub fn halves_are_the_range()
    ensures ordered { (range : RangeState) → IsOrdered range → IsOrdered (lower_of range)
        × IsOrdered (upper_of range) }
    ensures once { (range : RangeState) (unit : ℕ) → IsOrdered range
        → times_in unit range ≡ times_in unit (lower_of range) + times_in unit (upper_of range) }
    ensures upper { (range : RangeState) → IsOrdered range
        → range_len (upper_of range) ≡ range_len range / 2 }
    ensures lower { (range : RangeState) → IsOrdered range
        → range_len (lower_of range) + range_len range / 2 ≡ range_len range }
{}

/// Each unit of a range that is not empty is its first or in its rest, and no other unit is.
pub fn the_first_unit_and_the_rest_are_the_range()
    ensures one { (range : RangeState) → range_len (first_unit_of range) ≡ 1 }
    ensures once { (range : RangeState) (unit : ℕ) → 0 < range_len range
        → times_in unit range ≡ times_in unit (first_unit_of range) + times_in unit
        (rest_of range) }
{}
