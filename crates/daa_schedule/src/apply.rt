//! One step of the core, or its refusal.

ghost use Rattle.std.specs.Prelude.{◌≡◌, OnErr};
ghost use Rattle.daa_schedule.specs.CoreState.{worker_count, unit_count};
ghost use Rattle.daa_schedule.specs.Step.{fault_of, stepped, verdict};

use crate::{Core, Step, StepFault};

impl Core {
    /// Makes the step, or refuses it by the first rule of the step's list that applies and leaves
    /// the core as it was.
    pub fn apply(&mut self, step: Step) -> Result<(), StepFault>
        ensures fault { result ≡ verdict (fault_of self.old step) }
        ensures core { self.new ≡ stepped self.old step }
        ensures refused { OnErr result (self.new ≡ self.old) }
        ensures workers { worker_count self.new ≡ worker_count self.old }
        ensures units { unit_count self.new ≡ unit_count self.old }
    {
        match step {
            Step::Claim { by } => {
                self.check_claim(by)?;
                self.claim(by);
            }
            Step::Steal { by, from } => {
                self.check_steal(by, from)?;
                self.steal(by, from);
            }
            Step::Keep { by } => {
                self.check_keep(by)?;
                self.keep(by);
            }
            Step::Settle { by, word } => {
                self.check_settle(by, word)?;
                self.settle(by, word);
            }
            Step::End { by } => {
                self.check_end(by)?;
                self.end(by);
            }
        }
        Ok(())
    }
}
