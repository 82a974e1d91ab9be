//! What the workers find out.

ghost use Rattle.std.specs.Prelude.{◌≡◌, ℕ, ◌<◌, List, length, slice_index};
ghost use Rattle.daa_schedule.specs.Answers.{AreAnswers};

/// A word for each unit, which depends on the value and the unit alone and is never 0.
pub trait Answers {
    /// The words in order of units.
    ghost answers: { Self → List ℕ };

    /// How many units there are. They are numbered from 0.
    fn units(&self) -> u32
        ensures { result ≡ length (answers self.now) };

    /// The answer of a unit.
    fn word(&self, unit: u32) -> u64
        requires { unit < length (answers self.now) }
        ensures { result ≡ slice_index (answers self.now) unit };

    /// No word is 0.
    ghost real: { (a : Self) → AreAnswers (answers a) };
}
