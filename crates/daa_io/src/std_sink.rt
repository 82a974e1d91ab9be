//! A sink over standard output.

ghost use Rattle.std.specs.Prelude.{◌≤◌, ℕ, length, take, IfOk, OnErr};
ghost use Rattle.std.specs.Io.KnownBytes.{Appends};

use crate::faults::{Failed, count_up};
use crate::sink::Sink;
use std::io;
use std::io::Write;

/// A sink over a writer, as standard output. It shows nothing of what was taken, since a flush may
/// fail after a write.
#[derive(Drop)]
pub struct StdSink<W: Write> {
    writer: W,
    faults: u64,
}

impl<W: Write> StdSink<W> {
    ghost use Rattle.std.specs.Prelude.{◌≡◌};
    ghost use Rattle.daa_io.specs.StdSink.{writer_of, faults_of};

    /// A sink over this writer. Each error of the writer is a fault, and so is a write that takes
    /// no byte of a piece that is not empty.
    pub fn new(writer: W) -> Self
        ensures writer { writer_of result ≡ writer }
        ensures faults { faults_of result ≡ 0 }
    {
        StdSink { writer, faults: 0 }
    }
}

impl<W: Write> Sink for StdSink<W> {
    ghost use Rattle.std.specs.Prelude.{◌≡◌, ◌≤◌, ◌<◌, ℕ, None, length, take, IfOk, OnOk, OnErr};
    ghost use Rattle.std.specs.Io.KnownBytes.{Appends};
    ghost use Rattle.daa_io.specs.Faults.{HasRisen, one_more};
    ghost use Rattle.daa_io.specs.StdSink.{writer_of, faults_of};

    ghost taken = { λ _. None };

    ghost faults = { faults_of };

    /// Writes and flushes.
    fn write(&mut self, piece: &[u8]) -> Result<usize, Failed>
        ensures within { IfOk result (λ n. n ≤ length piece.now) }
        ensures moves { IfOk result (λ n. 0 < length piece.now → 0 < n) }
        ensures risen { OnErr result (HasRisen (faults_of self.old) (faults_of self.new)) }
        ensures never_falls { faults_of self.old ≤ faults_of self.new }

        // What the writer shows of its own bytes.
        ensures writer_appended { IfOk result (λ n. Appends (W.contents (writer_of self.old))
            (W.contents (writer_of self.new)) (take n piece.now)) }
        ensures writer_front { OnErr result ((n : ℕ) × Appends (W.contents (writer_of self.old))
            (W.contents (writer_of self.new)) (take n piece.now)) }

        ensures no_fault { OnOk result (faults_of self.new ≡ faults_of self.old) }
        ensures one_fault { OnErr result (faults_of self.new ≡ one_more (faults_of self.old)) }
    {
        match write_and_flush(&mut self.writer, piece) {
            Ok(n) if n > 0 || piece.is_empty() => Ok(n),
            _ => {
                self.faults = count_up(self.faults);
                Err(Failed)
            }
        }
    }
}

/// Writes a beginning of the piece and flushes it; returns how many bytes were written.
fn write_and_flush<W: Write>(writer: &mut W, piece: &[u8]) -> io::Result<usize>
    ensures within { IfOk result (λ n. n ≤ length piece.now) }
    ensures appended { IfOk result
        (λ n. Appends (W.contents writer.old) (W.contents writer.new) (take n piece.now)) }
    ensures front { OnErr result ((n : ℕ)
        × Appends (W.contents writer.old) (W.contents writer.new) (take n piece.now)) }
{
    let n = writer.write(piece)?;
    writer.flush()?;
    Ok(n)
}
