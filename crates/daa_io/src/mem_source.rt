//! A source over bytes in memory.

ghost use Rattle.std.specs.Prelude.{◌≡◌};

use crate::calls::CallCounts;
use crate::faults::Failed;
use crate::pieces::hand_out;
use crate::source::Source;
use std::marker::Model;

/// Bytes in memory, handed out in pieces of given sizes, with faults at given calls.
#[derive(Drop)]
pub struct MemSource {
    bytes: Vec<u8>,
    at: usize,
    pieces: Vec<usize>,
    calls: CallCounts,
}

impl Model for MemSource {
    ghost use Rattle.std.specs.Prelude.{◌≤◌, drop, vec_len};
    ghost use Rattle.daa_io.specs.MemSource.{MemSourceState};

    ghost Value = { MemSourceState };

    ghost view = { λ s. record {
      left = drop s.at s.bytes.items;
      pieces = s.pieces.items;
      fails = s.calls.fails.items;
      calls = s.calls.made;
      faults = s.calls.faults;
    } };

    ghost invariant = { λ s. s.at ≤ vec_len s.bytes };
}

impl MemSource {
    /// A source of these bytes. Call i gives at most `pieces[i]` bytes, where 0 counts as 1, and
    /// past the end of `pieces` there is no bound. The calls in `fails` fail. Calls are numbered
    /// from 0.
    pub fn new(bytes: Vec<u8>, pieces: Vec<usize>, fails: Vec<u64>) -> Self
        ensures { result ≡ record {
          left = bytes.items;
          pieces = pieces.items;
          fails = fails.items;
          calls = 0;
          faults = 0;
        } }
    {
        MemSource {
            bytes,
            at: 0,
            pieces,
            calls: CallCounts::new(fails),
        }
    }
}

impl Source for MemSource {
    ghost use Rattle.std.specs.Prelude.{◌≡◌, ◌≤◌, ◌<◌, ◌↔◌, Some, length, take, drop};
    ghost use Rattle.std.specs.Prelude.{min, Contains, IsErr, IfOk, OnOk, OnErr};
    ghost use Rattle.std.specs.Io.KnownBytes.{Consumes, Keeps, IsAtEnd};
    ghost use Rattle.daa_io.specs.Faults.{HasRisen, one_more};
    ghost use Rattle.daa_io.specs.Pieces.{moved_by};

    ghost left = { λ s. Some s.left };

    ghost faults = { λ s. s.faults };

    fn read(&mut self, buf: &mut [u8]) -> Result<usize, Failed>
        ensures within { IfOk result (λ n. n ≤ length buf.old) }
        ensures next { IfOk result
            (λ n. Consumes (Some self.old.left) (Some self.new.left) (take n buf.new)) }
        ensures end { IfOk result (λ n. n ≡ 0 → 0 < length buf.old → IsAtEnd (Some self.old.left)) }

        ensures risen { OnErr result (HasRisen self.old.faults self.new.faults) }
        ensures kept { OnErr result (Keeps (Some self.old.left) (Some self.new.left)) }
        ensures never_falls { self.old.faults ≤ self.new.faults }

        ensures exactly { IfOk result (λ n. n ≡ moved_by self.old.pieces self.old.calls
            (min (length buf.old) (length self.old.left))) }
        ensures rest { IfOk result (λ n. drop n buf.new ≡ drop n buf.old) }
        ensures untouched { OnErr result (buf.new ≡ buf.old) }
        ensures fails { IsErr result ↔ Contains self.old.fails self.old.calls }
        ensures no_fault { OnOk result (self.new.faults ≡ self.old.faults) }
        ensures one_fault { OnErr result (self.new.faults ≡ one_more self.old.faults) }
        ensures counted { self.new.calls ≡ one_more self.old.calls }
        ensures same_pieces { self.new.pieces ≡ self.old.pieces }
        ensures same_fails { self.new.fails ≡ self.old.fails }
    {
        let call = self.calls.begin()?;
        let n = hand_out(&self.bytes, self.at, &self.pieces, call, buf);
        self.at += n;
        Ok(n)
    }
}
