//! A source in memory that never fails.

ghost use Rattle.std.specs.Prelude.{◌≡◌};

use crate::faults::{Failed, count_up};
use crate::pieces::hand_out;
use crate::source::Source;
use std::marker::Model;

/// Bytes in memory, handed out in pieces of given sizes. No call fails.
#[derive(Drop)]
pub struct CalmSource {
    bytes: Vec<u8>,
    at: usize,
    pieces: Vec<usize>,
    calls: u64,
}

impl Model for CalmSource {
    ghost use Rattle.std.specs.Prelude.{◌≤◌, drop, vec_len};
    ghost use Rattle.daa_io.specs.CalmSource.{CalmSourceState};

    ghost Value = { CalmSourceState };

    ghost view = { λ s. record {
      left = drop s.at s.bytes.items;
      pieces = s.pieces.items;
      calls = s.calls;
    } };

    ghost invariant = { λ s. s.at ≤ vec_len s.bytes };
}

impl CalmSource {
    /// A source of these bytes. Call i gives at most `pieces[i]` bytes, where 0 counts as 1, and
    /// past the end of `pieces` there is no bound. Calls are numbered from 0.
    pub fn new(bytes: Vec<u8>, pieces: Vec<usize>) -> Self
        ensures { result ≡ record {
          left = bytes.items;
          pieces = pieces.items;
          calls = 0;
        } }
    {
        CalmSource {
            bytes,
            at: 0,
            pieces,
            calls: 0,
        }
    }
}

impl Source for CalmSource {
    ghost use Rattle.std.specs.Prelude.{◌≡◌, ◌≤◌, ◌<◌, Some, length, take};
    ghost use Rattle.std.specs.Prelude.{drop, min, IsOkAnd, IfOk, OnErr};
    ghost use Rattle.std.specs.Io.KnownBytes.{Consumes, Keeps, IsAtEnd};
    ghost use Rattle.daa_io.specs.Faults.{HasRisen, one_more};
    ghost use Rattle.daa_io.specs.Pieces.{moved_by};

    ghost left = { λ s. Some s.left };

    ghost faults = { λ _. 0 };

    fn read(&mut self, buf: &mut [u8]) -> Result<usize, Failed>
        ensures within { IfOk result (λ n. n ≤ length buf.old) }
        ensures next { IfOk result
            (λ n. Consumes (Some self.old.left) (Some self.new.left) (take n buf.new)) }
        ensures end { IfOk result (λ n. n ≡ 0 → 0 < length buf.old → IsAtEnd (Some self.old.left)) }

        ensures exactly { IsOkAnd result (λ n. n ≡ moved_by self.old.pieces self.old.calls
            (min (length buf.old) (length self.old.left))) }
        ensures rest { IfOk result (λ n. drop n buf.new ≡ drop n buf.old) }
        ensures counted { self.new.calls ≡ one_more self.old.calls }
        ensures same_pieces { self.new.pieces ≡ self.old.pieces }
    {
        let n = hand_out(&self.bytes, self.at, &self.pieces, self.calls, buf);
        self.at += n;
        self.calls = count_up(self.calls);
        Ok(n)
    }
}
