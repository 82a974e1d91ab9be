//! A source for tests: one of its reads waits at a gate, until another thread arrives there.

use daa_io::{Failed, Gate, MemSource, Source};

/// A source whose read of one number waits at a gate. It passes the gate as worker 0.
#[derive(Drop)]
pub struct HoldingSource<'a, G> {
    /// The bytes.
    pub inner: MemSource,
    /// How many reads were made, at most 255.
    pub calls: u8,
    /// The number of the read that waits, from 0 on, below 255.
    pub waits: u8,
    /// Where it waits.
    pub gate: &'a G,
}

impl<G: Gate> Source for HoldingSource<'_, G> {
    ghost use Rattle.std.specs.Prelude.{Some};

    ghost left = { λ s. Some s.inner.left };

    ghost faults = { λ s. s.inner.faults };

    fn read(&mut self, buf: &mut [u8]) -> Result<usize, Failed> {
        if self.calls == self.waits {
            self.gate.pass(0, 0);
        }
        self.calls = self.calls.saturating_add(1);
        self.inner.read(buf)
    }
}
