//! The lines of a report, as values.

ghost use Rattle.std.specs.Prelude.{◌≡◌, ◌≤◌, ◌+◌, ◌*◌, ◌++◌, [], ◌∷◌, length, codes};
ghost use Rattle.daa_report.specs.Lines.{alert_line, band_line, last_line, numbers_line};
ghost use Rattle.daa_report.specs.Lines.{recover_line, resolve_line};

use crate::adding::{
    add, add_bytes, add_field, add_found, add_long_field, add_number, add_number_fields,
    add_number_or, add_resolution_field, add_signed_field,
};
use crate::kind_words::{kind_word, lower_word, upper_word};
use arrayvec::ArrayVec;
use daa_config::{Kind, Resolution};
use daa_state::Id;
use std::marker::Model;

/// The bytes of an identifier: 8 at most.
fn bytes_of(id: &Id) -> &[u8]
    ensures value { result.now ≡ id.now }
    ensures few { length result.now ≤ 8 }
{
    id.bytes()
}

/// The most bytes of a line of a report.
pub(crate) const LONGEST_LINE: usize = 64;

/// A line of a report, of at most 64 bytes with its line feed. Contracts see it as the list of its
/// bytes.
#[derive(Drop)]
pub struct Line {
    bytes: ArrayVec<u8, LONGEST_LINE>,
}

impl Model for Line {
    ghost use Rattle.std.specs.Prelude.{List, ℕ};

    ghost Value = { List ℕ };

    ghost view = { λ l. l.bytes.items };
}

impl Line {
    /// The bytes of the line.
    pub fn as_bytes(&self) -> &[u8]
        ensures value { result.now ≡ self.now }
        ensures few { length self.now ≤ 64 }
    {
        self.bytes.as_slice()
    }

    /// The line `refused NUMBER CODE`: the input's line of this number, from 1 on, was refused with
    /// the fault of this code.
    #[tactic(auto, unfolding(crate::specs::Lines::numbers_line))]
    pub fn refused(number: u64, code: u8) -> Line
        ensures text { result ≡ numbers_line (codes "refused") (number ∷ code ∷ []) }
        ensures few { length result ≤ 64 }
    {
        let mut line = ArrayVec::<u8, LONGEST_LINE>::new();
        add(&mut line, "refused");
        add_long_field(&mut line, number);
        add_long_field(&mut line, u64::from(code));
        add(&mut line, "\n");
        Line { bytes: line }
    }

    /// The line `moment TIME`: the moment of this time, in seconds, begins.
    pub fn moment(time: u32) -> Line
        ensures text { result ≡ numbers_line (codes "moment") (time ∷ []) }
        ensures few { length result ≤ 64 }
    {
        Line::numbers("moment", &[time])
    }

    /// The line `now ID LEVEL`: the level that an aircraft violates now, or 0.
    #[tactic(auto, unfolding(crate::specs::Lines::numbers_line))]
    pub fn now(id: &Id, level: u8) -> Line
        ensures text { result ≡ numbers_line (codes "now " ++ id.now) (level ∷ []) }
        ensures few { length result ≤ 64 }
    {
        let mut line = ArrayVec::<u8, LONGEST_LINE>::new();
        add(&mut line, "now ");
        add_bytes(&mut line, bytes_of(id));
        add_number_fields(&mut line, &[u32::from(level)]);
        add(&mut line, "\n");
        Line { bytes: line }
    }

    /// The line `alert ID LEVEL FIRST`: the alert level of an aircraft, or 0, and the first second,
    /// from 0, that violates this level; a dash stands for none.
    #[tactic(auto, unfolding(crate::specs::Lines::alert_line))]
    pub fn alert(id: &Id, level: u8, first: Option<u32>) -> Line
        ensures text { result ≡ alert_line id.now level first }
        ensures few { length result ≤ 64 }
    {
        let mut line = ArrayVec::<u8, LONGEST_LINE>::new();
        add(&mut line, "alert ");
        add_bytes(&mut line, bytes_of(id));
        add(&mut line, " ");
        add_number(&mut line, u64::from(level));
        add(&mut line, " ");
        add_number_or(&mut line, first, "-");
        add(&mut line, "\n");
        Line { bytes: line }
    }

    /// The line `KIND FROM UPTO LEVEL`: the values of a kind from one up to another, in the kind's
    /// unit, show this level.
    #[tactic(auto, unfolding(crate::specs::Lines::band_line))]
    pub fn band(kind: Kind, from: i32, upto: i32, level: u8) -> Line
        ensures text { result ≡ band_line kind from upto level }
        ensures few { length result ≤ 64 }
    {
        let mut line = ArrayVec::<u8, LONGEST_LINE>::new();
        add(&mut line, kind_word(kind));
        add_signed_field(&mut line, &from);
        add_signed_field(&mut line, &upto);
        add(&mut line, " ");
        add_number(&mut line, u64::from(level));
        add(&mut line, "\n");
        Line { bytes: line }
    }

    /// The line `resolve KIND SIDE ANSWER SIDE ANSWER`: what is answered on the lower and on the
    /// upper side of a kind.
    #[tactic(auto, unfolding(crate::specs::Lines::resolve_line))]
    pub fn resolve(kind: Kind, lower: Resolution, upper: Resolution) -> Line
        ensures text { result ≡ resolve_line kind lower upper }
        ensures few { length result ≤ 64 }
    {
        let mut line = ArrayVec::<u8, LONGEST_LINE>::new();
        add(&mut line, "resolve");
        add_field(&mut line, kind_word(kind));
        add_field(&mut line, lower_word(kind));
        add_resolution_field(&mut line, &lower);
        add_field(&mut line, upper_word(kind));
        add_resolution_field(&mut line, &upper);
        add(&mut line, "\n");
        Line { bytes: line }
    }

    /// The line `last KIND SECONDS`: for how many seconds the present flight may be kept until a
    /// manoeuvre of the kind comes too late; `none` says that each comes too late now.
    #[tactic(auto, unfolding(crate::specs::Lines::last_line))]
    pub fn last(kind: Kind, seconds: Option<u32>) -> Line
        ensures text { result ≡ last_line kind seconds }
        ensures few { length result ≤ 64 }
    {
        let mut line = ArrayVec::<u8, LONGEST_LINE>::new();
        add(&mut line, "last ");
        add(&mut line, kind_word(kind));
        add(&mut line, " ");
        add_number_or(&mut line, seconds, "none");
        add(&mut line, "\n");
        Line { bytes: line }
    }

    /// The line `recover KIND SECONDS VALUE`: after how many seconds a candidate of the kind is
    /// clear, and the value that it goes to; `none` stands for both where there is no such
    /// candidate.
    #[tactic(auto, unfolding(crate::specs::Lines::recover_line))]
    pub fn recover(kind: Kind, found: Option<(u32, i32)>) -> Line
        ensures text { result ≡ recover_line kind found }
        ensures few { length result ≤ 64 }
    {
        let mut line = ArrayVec::<u8, LONGEST_LINE>::new();
        add(&mut line, "recover ");
        add(&mut line, kind_word(kind));
        add(&mut line, " ");
        add_found(&mut line, &found);
        add(&mut line, "\n");
        Line { bytes: line }
    }

    /// The line `done TIME`: the moment of this time, in seconds, ends.
    pub fn done(time: u32) -> Line
        ensures text { result ≡ numbers_line (codes "done") (time ∷ []) }
        ensures few { length result ≤ 64 }
    {
        Line::numbers("done", &[time])
    }

    /// The line of a word and numbers, with a blank before each number. It has at most 64 bytes
    /// also where each number has ten digits.
    #[tactic(auto, unfolding(crate::specs::Lines::numbers_line))]
    pub fn numbers(word: &str, numbers: &[u32]) -> Line
        requires { length word.now + 11 * length numbers.now + 1 ≤ 64 }
        ensures text { result ≡ numbers_line word.now numbers.now }
        ensures few { length result ≤ 64 }
    {
        let mut line = ArrayVec::<u8, LONGEST_LINE>::new();
        add(&mut line, word);
        add_number_fields(&mut line, numbers);
        add(&mut line, "\n");
        Line { bytes: line }
    }

    /// The line `config CODE`: the configuration was refused with the fault of this code.
    pub fn config(code: u8) -> Line
        ensures text { result ≡ numbers_line (codes "config") (code ∷ []) }
        ensures few { length result ≤ 64 }
    {
        Line::numbers("config", &[u32::from(code)])
    }

    /// The line `same`: a report is the right one, byte for byte.
    pub fn same() -> Line
        ensures text { result ≡ codes "same\n" }
        ensures few { length result ≤ 64 }
    {
        let mut line = ArrayVec::<u8, LONGEST_LINE>::new();
        add(&mut line, "same\n");
        Line { bytes: line }
    }

    /// The line `differs NUMBER`: a report differs from the right one, in the line of this number,
    /// from 1 on, first.
    #[tactic(auto, unfolding(crate::specs::Lines::numbers_line))]
    pub fn differs(number: u64) -> Line
        ensures text { result ≡ numbers_line (codes "differs") (number ∷ []) }
        ensures few { length result ≤ 64 }
    {
        let mut line = ArrayVec::<u8, LONGEST_LINE>::new();
        add(&mut line, "differs");
        add_long_field(&mut line, number);
        add(&mut line, "\n");
        Line { bytes: line }
    }
}
