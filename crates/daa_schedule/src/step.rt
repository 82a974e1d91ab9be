//! The steps of the schedule, and what may refuse one.

ghost use Rattle.std.specs.Prelude.{◌≡◌};

use thiserror::Error;

/// One step by one worker; `by` and `from` are numbers of workers.
#[derive(Clone, Copy, PartialEq, Eq, Debug)]
pub enum Step {
    /// The first unit of the own range goes to the hand.
    Claim { by: u32 },
    /// The upper half of another worker's range goes to the hand.
    Steal { by: u32, from: u32 },
    /// All but the first unit of the hand becomes the own range.
    Keep { by: u32 },
    /// The hand's one unit gets the word on the board, and the hand is empty.
    Settle { by: u32, word: u64 },
    /// The worker has ended.
    End { by: u32 },
}

/// Why a step is refused.
#[derive(Clone, Copy, PartialEq, Eq, Debug, Error)]
pub enum StepFault {
    /// The worker's number is not below the number of workers.
    #[error("fault 1: the number is not below the number of workers")]
    NoSuchWorker,
    /// The hand is not empty.
    #[error("fault 2: the hand is not empty")]
    HandFull,
    /// The hand is empty.
    #[error("fault 3: the hand is empty")]
    HandEmpty,
    /// The own range is empty.
    #[error("fault 4: the own range is empty")]
    RangeEmpty,
    /// The range that is stolen from, or the hand that is kept from, has fewer than two units.
    #[error("fault 5: the range or the hand has fewer than two units")]
    TooShort,
    /// A worker steals from itself.
    #[error("fault 6: a worker does not steal from itself")]
    Own,
    /// The word is not the unit's answer.
    #[error("fault 7: the word {word} is not the unit's answer {answer}")]
    NotAnswer { word: u64, answer: u64 },
    /// The worker has ended.
    #[error("fault 8: the worker has ended")]
    Ended,
    /// The hand has more than one unit.
    #[error("fault 9: the hand has more than one unit")]
    Stolen,
    /// The own range is not empty.
    #[error("fault 10: the own range is not empty")]
    RangeLeft,
}

impl StepFault {
    ghost use Rattle.daa_schedule.specs.Step.{code_of};

    /// The number of the fault, 1 to 10 in the order in which they are declared.
    pub fn code(self) -> u8
        ensures { result ≡ code_of self }
    {
        match self {
            StepFault::NoSuchWorker => 1,
            StepFault::HandFull => 2,
            StepFault::HandEmpty => 3,
            StepFault::RangeEmpty => 4,
            StepFault::TooShort => 5,
            StepFault::Own => 6,
            StepFault::NotAnswer { word: _, answer: _ } => 7,
            StepFault::Ended => 8,
            StepFault::Stolen => 9,
            StepFault::RangeLeft => 10,
        }
    }
}
