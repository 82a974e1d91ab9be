//! Ranges of units of work, each packed in one 64-bit word, so that a single atomic step
//! can read or change a whole range.
#![tactic(auto)]

mod laws;
mod range;
mod word;

pub use laws::{
    halves_are_the_range, len_counts_the_units, packing_and_unpacking_undo_each_other,
    parts_out_of_order_are_no_units, the_first_unit_and_the_rest_are_the_range,
};
pub use range::Range;
pub use word::{pack, unpack};

#[cfg(test)]
mod tests;
