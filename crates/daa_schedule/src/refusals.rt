//! What refuses each step: the first rule of its list that applies.

ghost use Rattle.std.specs.Prelude.{◌≡◌};
ghost use Rattle.daa_schedule.specs.Step.{fault_of, verdict};

use crate::{Core, Step, StepFault};

impl Core {
    /// What refuses a Claim, if anything does.
    pub(crate) fn check_claim(&self, by: u32) -> Result<(), StepFault>
        ensures { result ≡ verdict (fault_of self.now (Step.Claim by)) }
    {
        if self.is_stranger(by) {
            Err(StepFault::NoSuchWorker)
        } else if self.ended(by) {
            Err(StepFault::Ended)
        } else if self.hand(by).len() > 0 {
            Err(StepFault::HandFull)
        } else if self.range(by).len() == 0 {
            Err(StepFault::RangeEmpty)
        } else {
            Ok(())
        }
    }

    /// What refuses a Steal, if anything does.
    pub(crate) fn check_steal(&self, by: u32, other: u32) -> Result<(), StepFault>
        ensures { result ≡ verdict (fault_of self.now (Step.Steal by other)) }
    {
        if self.is_stranger(by) || self.is_stranger(other) {
            Err(StepFault::NoSuchWorker)
        } else if self.ended(by) {
            Err(StepFault::Ended)
        } else if by == other {
            Err(StepFault::Own)
        } else if self.hand(by).len() > 0 {
            Err(StepFault::HandFull)
        } else if self.range(by).len() > 0 {
            Err(StepFault::RangeLeft)
        } else if self.range(other).len() < 2 {
            Err(StepFault::TooShort)
        } else {
            Ok(())
        }
    }

    /// What refuses a Keep, if anything does.
    pub(crate) fn check_keep(&self, by: u32) -> Result<(), StepFault>
        ensures { result ≡ verdict (fault_of self.now (Step.Keep by)) }
    {
        if self.is_stranger(by) {
            Err(StepFault::NoSuchWorker)
        } else if self.ended(by) {
            Err(StepFault::Ended)
        } else if self.hand(by).len() == 0 {
            Err(StepFault::HandEmpty)
        } else if self.hand(by).len() < 2 {
            Err(StepFault::TooShort)
        } else {
            Ok(())
        }
    }

    /// What refuses a Settle, if anything does.
    pub(crate) fn check_settle(&self, by: u32, word: u64) -> Result<(), StepFault>
        ensures { result ≡ verdict (fault_of self.now (Step.Settle by word)) }
    {
        if self.is_stranger(by) {
            return Err(StepFault::NoSuchWorker);
        }
        if self.ended(by) {
            return Err(StepFault::Ended);
        }
        let hand = self.hand(by);
        if hand.len() == 0 {
            return Err(StepFault::HandEmpty);
        }
        if hand.len() > 1 {
            return Err(StepFault::Stolen);
        }
        let answer = self.answer(hand.first);
        if word != answer {
            return Err(StepFault::NotAnswer { word, answer });
        }
        Ok(())
    }

    /// What refuses an End, if anything does.
    pub(crate) fn check_end(&self, by: u32) -> Result<(), StepFault>
        ensures { result ≡ verdict (fault_of self.now (Step.End by)) }
    {
        if self.is_stranger(by) {
            Err(StepFault::NoSuchWorker)
        } else if self.ended(by) {
            Err(StepFault::Ended)
        } else if self.hand(by).len() > 0 {
            Err(StepFault::HandFull)
        } else if self.range(by).len() > 0 {
            Err(StepFault::RangeLeft)
        } else {
            Ok(())
        }
    }
}
