//! Why a line is refused.

ghost use Rattle.std.specs.Prelude.{◌≡◌};
ghost use Rattle.daa_state.specs.Fault.{code_of};

use thiserror::Error;

/// Why a line is refused. If more than one cause applies, the first of this list is reported,
/// except that `BadNumber`, `BadId` and `OutOfRange` are decided field by field from the left, for
/// each field first its spelling.
#[derive(Clone, Copy, Debug, PartialEq, Eq, Error)]
pub enum LineFault {
    /// The line has more than 255 bytes, with a carriage return at its end counted. This goes for a
    /// comment too.
    #[error("fault 1: the line has more than 255 bytes")]
    LongLine,
    /// The first field is none of `moment`, `own`, `traffic`, `format` and `end`.
    #[error("fault 2: the first field is no word of a state line")]
    BadWord,
    /// The fields after the first are more or fewer than the word takes.
    #[error("fault 3: the word takes another number of fields")]
    FieldCount,
    /// A number's field is not an optional sign and 1 to 10 digits.
    #[error("fault 4: a field is no number of 1 to 10 digits")]
    BadNumber,
    /// The identifier's field is not 1 to 8 bytes, each an ASCII letter or digit, an underscore or
    /// a dash.
    #[error("fault 5: the identifier is not 1 to 8 letters, digits, underscores or dashes")]
    BadId,
    /// A number is outside its range.
    #[error("fault 6: a number is outside its range")]
    OutOfRange,
    /// `own`, `traffic` or `end` while no moment is open.
    #[error("fault 7: no moment is open")]
    NoMoment,
    /// `moment` or `format` while a moment is open.
    #[error("fault 8: a moment is open")]
    MomentOpen,
    /// `moment` with a time that is not greater than the time of the last ended moment. The fault
    /// carries that moment's time, in seconds.
    #[error("fault 9: the time is not later than {0} s, at which the last moment ended")]
    NotLater(u32),
    /// `own` while the open moment has an ownship.
    #[error("fault 10: the moment has an ownship")]
    OwnTwice,
    /// `traffic` with the identifier of an aircraft of the open moment.
    #[error("fault 11: the moment has an aircraft of that identifier")]
    SameId,
    /// `traffic` while the open moment has 64 aircraft.
    #[error("fault 12: the moment has 64 aircraft")]
    Full,
    /// `end` while the open moment has no ownship.
    #[error("fault 13: the moment has no ownship")]
    NoOwn,
    /// The input ended while a moment is open.
    #[error("fault 14: the input ended while a moment is open")]
    Unfinished,
}

impl LineFault {
    /// The number, 1 to 14, under which the fault is reported.
    pub fn code(&self) -> u8
        ensures { result ≡ code_of self.now }
    {
        match self {
            LineFault::LongLine => 1,
            LineFault::BadWord => 2,
            LineFault::FieldCount => 3,
            LineFault::BadNumber => 4,
            LineFault::BadId => 5,
            LineFault::OutOfRange => 6,
            LineFault::NoMoment => 7,
            LineFault::MomentOpen => 8,
            LineFault::NotLater(_) => 9,
            LineFault::OwnTwice => 10,
            LineFault::SameId => 11,
            LineFault::Full => 12,
            LineFault::NoOwn => 13,
            LineFault::Unfinished => 14,
        }
    }
}
