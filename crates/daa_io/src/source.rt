//! Input, in pieces.

ghost use Rattle.std.specs.Prelude.{◌≡◌, ◌≤◌, ◌<◌, ℕ, List, Option};
ghost use Rattle.std.specs.Prelude.{length, take, IfOk, OnOk, OnErr};
ghost use Rattle.std.specs.Io.KnownBytes.{Consumes, Keeps, IsAtEnd};
ghost use Rattle.daa_io.specs.Faults.{HasRisen};

use crate::faults::Failed;

/// Something that bytes are read from.
pub trait Source {
    // The bytes that it has left, if it shows them.
    ghost left: { Self → Option (List ℕ) };

    // The fault counter: it rises in a call that fails, and does not change in any
    // other.
    ghost faults: { Self → ℕ };

    /// Hands out the next bytes into the front of `buf`, and returns how many. 0 for a buffer that
    /// is not empty is the end of the input. A call that fails hands out nothing.
    fn read(&mut self, buf: &mut [u8]) -> Result<usize, Failed>
        ensures within { IfOk result (λ n. n ≤ length buf.old) }
        ensures next { IfOk result
            (λ n. Consumes (left self.old) (left self.new) (take n buf.new)) }
        ensures end { IfOk result (λ n. n ≡ 0 → 0 < length buf.old → IsAtEnd (left self.old)) }

        ensures risen { OnErr result (HasRisen (faults self.old) (faults self.new)) }
        ensures kept { OnErr result (Keeps (left self.old) (left self.new)) }
        ensures never_falls { faults self.old ≤ faults self.new }
        ensures no_fault { OnOk result (faults self.new ≡ faults self.old) };
}
