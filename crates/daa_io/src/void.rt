//! A sink that keeps nothing.

use crate::faults::Failed;
use crate::sink::Sink;

/// A sink that takes each piece whole and shows nothing. No call fails.
#[derive(Clone, Copy, Debug)]
pub struct Void;

impl Sink for Void {
    ghost use Rattle.std.specs.Prelude.{◌≡◌, Ok, None, length};

    ghost taken = { λ _. None };

    ghost faults = { λ _. 0 };

    fn write(&mut self, piece: &[u8]) -> Result<usize, Failed>
        ensures whole { result ≡ Ok (length piece.now) }
    {
        Ok(piece.len())
    }
}
