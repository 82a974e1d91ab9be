//! Output, in pieces.

ghost use Rattle.std.specs.Prelude.{◌≡◌, ◌≤◌, ◌<◌, ℕ, List, Option};
ghost use Rattle.std.specs.Prelude.{length, take, IfOk, OnOk, OnErr};
ghost use Rattle.std.specs.Io.KnownBytes.{Appends, Keeps};
ghost use Rattle.daa_io.specs.Faults.{HasRisen};

use crate::faults::Failed;

/// Something that bytes are written to.
pub trait Sink {
    // The bytes that it took so far, if it shows them.
    ghost taken: { Self → Option (List ℕ) };

    // The fault counter: it rises in a call that fails, and does not change in any
    // other.
    ghost faults: { Self → ℕ };

    /// Takes bytes from the front of `piece`, and returns how many: at least one if the piece is
    /// not empty. A call that fails takes nothing.
    fn write(&mut self, piece: &[u8]) -> Result<usize, Failed>
        ensures within { IfOk result (λ n. n ≤ length piece.now) }
        ensures moves { IfOk result (λ n. 0 < length piece.now → 0 < n) }
        ensures appended { IfOk result
            (λ n. Appends (taken self.old) (taken self.new) (take n piece.now)) }

        ensures risen { OnErr result (HasRisen (faults self.old) (faults self.new)) }
        ensures kept { OnErr result (Keeps (taken self.old) (taken self.new)) }
        ensures never_falls { faults self.old ≤ faults self.new }
        ensures no_fault { OnOk result (faults self.new ≡ faults self.old) };
}
