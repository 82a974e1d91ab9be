//! State lines to moments: `read_line` returns the word of a line, and `Moments` takes word after
//! word and returns a picture at the end of each moment. A line or a word that does not fit
//! is refused with one fault and changes nothing. Nothing here takes memory.
#![tactic(auto)]

mod checked;
mod copy;
pub mod examples;
mod fault;
mod fields;
mod id;
mod laws;
mod moments;
mod number;
mod word;
mod word_of;

pub use checked::{Field, OutOfRange, PictureFault};
pub use fault::LineFault;
pub use id::Id;
pub use laws::{
    first_256_bytes_decide, format_1_has_no_ages, formats_1_and_2_have_no_bounds,
    other_words_leave_the_format, without_format_lines_four_words_are_read, worked_examples,
};
pub use moments::Moments;
pub use word::{MOST_AIRCRAFT, Own, PairBounds, Picture, ReportBounds, Traffic, Word};
pub use word_of::read_line;
