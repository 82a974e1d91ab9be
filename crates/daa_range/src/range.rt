//! A range of units, and how it is cut.

ghost use Rattle.std.specs.Prelude.{◌≡◌, ◌+◌, ◌-◌, ◌/◌, ◌<◌, ◌≤◌, ◌==◌};

use std::marker::Model;

/// The units from `first` on, below `upto`, with `first <= upto`. Contracts see it as a
/// `RangeState`.
#[derive(Clone, Copy, PartialEq, Eq, Debug)]
pub struct Range {
    /// The first unit, if there is one.
    pub first: u32,
    /// One past the last unit.
    pub upto: u32,
}

impl Model for Range {
    ghost use Rattle.std.specs.Prelude.{◌≤◌};
    ghost use Rattle.daa_range.specs.Range.{RangeState};

    ghost Value = { RangeState };

    ghost view = { λ r. record { first = r.first; upto = r.upto } };

    ghost invariant = { λ r. r.first ≤ r.upto };

    ghost inverse = { λ s. record { first = s.first; upto = s.upto } };
}

impl Range {
    ghost use Rattle.daa_range.specs.Range.{range_of, range_len, IsOrdered, middle_of};
    ghost use Rattle.daa_range.specs.Range.{lower_of, upper_of, first_unit_of, rest_of};

    /// The units from `first` on, below `upto`.
    pub fn new(first: u32, upto: u32) -> Range
        requires { first ≤ upto }
        ensures { result ≡ range_of first upto }
    {
        Range { first, upto }
    }

    /// How many units the range has.
    pub fn len(self) -> u32
        ensures len { result ≡ range_len self }
        ensures ordered { IsOrdered self }
    {
        self.upto - self.first
    }

    /// Whether the range has no units.
    pub fn is_empty(self) -> bool
        ensures { result ≡ (range_len self == 0) }
    {
        self.len() == 0
    }

    /// The range of the first unit alone, if there is one.
    pub fn first_unit(self) -> Range
        requires { 0 < range_len self }
        ensures { result ≡ first_unit_of self }
    {
        Range {
            first: self.first,
            upto: self.first + 1,
        }
    }

    /// All but the first unit, if there is one.
    pub fn rest(self) -> Range
        requires { 0 < range_len self }
        ensures { result ≡ rest_of self }
    {
        Range {
            first: self.first + 1,
            upto: self.upto,
        }
    }

    /// What is left of the range without its upper half.
    pub fn lower_half(self) -> Range
        ensures { result ≡ lower_of self }
    {
        Range {
            first: self.first,
            upto: self.middle(),
        }
    }

    /// The last half of the units, cut toward zero.
    pub fn upper_half(self) -> Range
        ensures { result ≡ upper_of self }
    {
        Range {
            first: self.middle(),
            upto: self.upto,
        }
    }

    /// Where the upper half begins.
    fn middle(self) -> u32
        ensures middle { result ≡ middle_of self }
        ensures within { (self.first ≤ result) × (result ≤ self.upto) }
    {
        self.upto - self.len() / 2
    }
}
