//! A sink over a vector of fixed length.

ghost use Rattle.std.specs.Prelude.{◌≡◌, ◌≤◌, ◌+◌, ◌++◌, [], length, take, vec_len};

use crate::calls::CallCounts;
use crate::faults::Failed;
use crate::pieces::moved_count;
use crate::sink::Sink;
use std::marker::Model;

/// A vector that takes bytes in pieces of given sizes, with faults at given calls and when it is
/// full.
#[derive(Drop)]
pub struct MemSink {
    space: Vec<u8>,
    used: usize,
    pieces: Vec<usize>,
    calls: CallCounts,
}

impl Model for MemSink {
    ghost use Rattle.std.specs.Prelude.{◌≤◌, ◌-◌, take, vec_len};
    ghost use Rattle.daa_io.specs.MemSink.{MemSinkState};

    ghost Value = { MemSinkState };

    ghost view = { λ s. record {
      taken = take s.used s.space.items;
      room = vec_len s.space - s.used;
      pieces = s.pieces.items;
      fails = s.calls.fails.items;
      calls = s.calls.made;
      faults = s.calls.faults;
    } };

    ghost invariant = { λ s. s.used ≤ vec_len s.space };
}

impl MemSink {
    /// A sink that takes as many bytes as `room` has, and overwrites them. Call i takes at most
    /// `pieces[i]` bytes, where 0 counts as 1, and past the end of `pieces` there is no bound. The
    /// calls in `fails` fail, and so does each call once the vector is full, also one with an empty
    /// piece. Calls are numbered from 0.
    pub fn over(room: Vec<u8>, pieces: Vec<usize>, fails: Vec<u64>) -> Self
        ensures { result ≡ record {
          taken = [];
          room = vec_len room;
          pieces = pieces.items;
          fails = fails.items;
          calls = 0;
          faults = 0;
        } }
    {
        MemSink {
            space: room,
            used: 0,
            pieces,
            calls: CallCounts::new(fails),
        }
    }

    /// The bytes taken so far.
    pub fn taken(&self) -> &[u8]
        ensures { result.now ≡ self.now.taken }
    {
        &self.space[..self.used]
    }
}

impl Sink for MemSink {
    ghost use Rattle.std.specs.Prelude.{◌≡◌, ◌≤◌, ◌<◌, ◌+◌, ◌↔◌, ◌⊎◌, Some, length};
    ghost use Rattle.std.specs.Prelude.{take, min, Contains, IsErr, IfOk, OnOk, OnErr};
    ghost use Rattle.std.specs.Io.KnownBytes.{Appends, Keeps};
    ghost use Rattle.daa_io.specs.Faults.{HasRisen, one_more};
    ghost use Rattle.daa_io.specs.Pieces.{moved_by};

    ghost taken = { λ s. Some s.taken };

    ghost faults = { λ s. s.faults };

    fn write(&mut self, piece: &[u8]) -> Result<usize, Failed>
        ensures within { IfOk result (λ n. n ≤ length piece.now) }
        ensures moves { IfOk result (λ n. 0 < length piece.now → 0 < n) }
        ensures appended { IfOk result
            (λ n. Appends (Some self.old.taken) (Some self.new.taken) (take n piece.now)) }

        ensures risen { OnErr result (HasRisen self.old.faults self.new.faults) }
        ensures kept { OnErr result (Keeps (Some self.old.taken) (Some self.new.taken)) }
        ensures never_falls { self.old.faults ≤ self.new.faults }

        ensures exactly { IfOk result (λ n. n ≡ moved_by self.old.pieces self.old.calls
            (min (length piece.now) self.old.room)) }
        ensures fails { IsErr result
            ↔ (Contains self.old.fails self.old.calls ⊎ (self.old.room ≡ 0)) }
        ensures less_room { IfOk result (λ n. self.new.room + n ≡ self.old.room) }
        ensures same_room { OnErr result (self.new.room ≡ self.old.room) }
        ensures no_fault { OnOk result (self.new.faults ≡ self.old.faults) }
        ensures one_fault { OnErr result (self.new.faults ≡ one_more self.old.faults) }
        ensures counted { self.new.calls ≡ one_more self.old.calls }
        ensures same_pieces { self.new.pieces ≡ self.old.pieces }
        ensures same_fails { self.new.fails ≡ self.old.fails }
    {
        let room = self.space.len() - self.used;
        if room == 0 {
            return Err(self.calls.fail());
        }
        let call = self.calls.begin()?;
        let n = moved_count(&self.pieces, call, piece.len().min(room));
        write_at(&mut self.space, self.used, &piece[..n]);
        self.used += n;
        Ok(n)
    }
}

/// Writes the piece over the bytes from an index on.
fn write_at(space: &mut [u8], at: usize, piece: &[u8])
    requires { at + length piece.now ≤ length space.old }
    ensures { take (at + length piece.now) space.new ≡ take at space.old ++ piece.now }
{
    let end = at + piece.len();
    space[at..end].copy_from_slice(piece);
}
