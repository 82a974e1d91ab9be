//! A source over standard input.

use crate::faults::{Failed, count_up};
use crate::source::Source;
use std::io::Read;

/// A source over a reader, as standard input. It shows nothing of what is left; a call returns what
/// one read of the reader returns.
#[derive(Drop)]
pub struct StdSource<R: Read> {
    reader: R,
    faults: u64,
}

impl<R: Read> StdSource<R> {
    ghost use Rattle.std.specs.Prelude.{◌≡◌};
    ghost use Rattle.daa_io.specs.StdSource.{reader_of, faults_of};

    /// A source over this reader. Each error of the reader is a fault.
    pub fn new(reader: R) -> Self
        ensures reader { reader_of result ≡ reader }
        ensures faults { faults_of result ≡ 0 }
    {
        StdSource { reader, faults: 0 }
    }
}

impl<R: Read> Source for StdSource<R> {
    ghost use Rattle.std.specs.Prelude.{◌≡◌, ◌≤◌, ◌<◌, None, length, take, IfOk, OnOk, OnErr};
    ghost use Rattle.std.specs.Io.KnownBytes.{Consumes, Keeps, IsAtEnd};
    ghost use Rattle.daa_io.specs.Faults.{HasRisen, one_more};
    ghost use Rattle.daa_io.specs.StdSource.{reader_of, faults_of};

    ghost left = { λ _. None };

    ghost faults = { faults_of };

    fn read(&mut self, buf: &mut [u8]) -> Result<usize, Failed>
        ensures within { IfOk result (λ n. n ≤ length buf.old) }
        ensures risen { OnErr result (HasRisen (faults_of self.old) (faults_of self.new)) }
        ensures never_falls { faults_of self.old ≤ faults_of self.new }

        // What the reader shows of its own bytes.
        ensures reader_next { IfOk result (λ n. Consumes (R.remaining (reader_of self.old))
            (R.remaining (reader_of self.new)) (take n buf.new)) }
        ensures reader_end { IfOk result (λ n. n ≡ 0 → 0 < length buf.old →
            IsAtEnd (R.remaining (reader_of self.new))) }
        ensures reader_kept { OnErr result (Keeps (R.remaining (reader_of self.old))
            (R.remaining (reader_of self.new))) }

        ensures no_fault { OnOk result (faults_of self.new ≡ faults_of self.old) }
        ensures one_fault { OnErr result (faults_of self.new ≡ one_more (faults_of self.old)) }
    {
        match self.reader.read(buf) {
            Ok(n) => Ok(n),
            Err(_) => {
                self.faults = count_up(self.faults);
                Err(Failed)
            }
        }
    }
}
