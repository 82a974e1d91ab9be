//! A sink of fixed room, which fails only where it is full.

ghost use Rattle.std.specs.Prelude.{◌≡◌, ◌≤◌, ◌<◌, ◌+◌, ◌++◌, [], IfOk, length, take};
ghost use Rattle.daa_judge.specs.Sheet.{IsSheet, sheet_room};

use daa_io::{Failed, Sink};
use std::alloc::Global;
use std::marker::Model;
use thiserror::Error;

/// How many bytes a sheet has room for at least: one more than the text of a moment has at most.
const ROOM: usize = 130177;

/// There was no memory for a sheet.
#[derive(Clone, Copy, Debug, PartialEq, Eq, Error)]
#[error("there was no memory for a sheet")]
pub struct NoMemory;

/// A sink in memory with room for 130177 bytes or more. A write to it fails only where it is full.
#[derive(Drop)]
pub struct Sheet {
    space: Vec<u8>,
    used: usize,
    faults: u64,
}

impl Model for Sheet {
    ghost use Rattle.std.specs.Prelude.{◌≡◌, ◌≤◌, ◌<◌, take, vec_len};
    ghost use Rattle.daa_judge.specs.Sheet.{IsSheet, SheetState, sheet_room};

    ghost Value = { SheetState };

    ghost view = { λ s. record {
      text = take s.used s.space.items;
      faults = s.faults;
      room = vec_len s.space;
    } };

    ghost invariant = { λ s. (sheet_room ≤ vec_len s.space) × (s.used ≤ vec_len s.space)
        × (0 < s.faults → s.used ≡ vec_len s.space) };
}

impl Sheet {
    /// A sheet with nothing on it, and room for 130177 bytes. `NoMemory` says that there was no
    /// memory for them.
    pub fn new(alloc: Global) -> Result<Sheet, NoMemory>
        ensures { IfOk result
            (λ sheet. sheet ≡ record { text = []; faults = 0; room = sheet_room }) }
    {
        Sheet::with_room(alloc, ROOM)
    }

    /// A sheet with nothing on it, and room for this many bytes. `NoMemory` says that there was no
    /// memory for them.
    pub fn with_room(alloc: Global, room: usize) -> Result<Sheet, NoMemory>
        requires { sheet_room ≤ room }
        ensures { IfOk result (λ sheet. sheet ≡ record { text = []; faults = 0; room = room }) }
    {
        match vec![in alloc; 0u8; room] {
            Ok(space) => Ok(Sheet {
                space,
                used: 0,
                faults: 0,
            }),
            Err(_) => Err(NoMemory),
        }
    }

    /// The text on the sheet. If a write to the sheet has failed since it was last cut or cleared,
    /// the sheet is full.
    pub fn text(&self) -> &[u8]
        ensures value { result.now ≡ self.now.text }
        ensures sheet { IsSheet self.now }
    {
        &self.space[..self.used]
    }

    /// Keeps so many bytes of the text, takes back the others, and forgets the writes that failed.
    pub fn cut(&mut self, len: usize)
        requires { len ≤ length self.old.text }
        ensures { self.new ≡ record self.old { text = take len self.old.text; faults = 0 } }
    {
        self.used = len;
        self.faults = 0;
    }

    /// Takes back the whole text, and forgets the writes that failed.
    pub fn clear(&mut self)
        ensures { self.new ≡ record self.old { text = []; faults = 0 } }
    {
        self.used = 0;
        self.faults = 0;
    }
}

impl Sink for Sheet {
    ghost use Rattle.std.specs.Prelude.{◌≡◌, ◌≤◌, ◌<◌, ◌↔◌, Some, length, take};
    ghost use Rattle.std.specs.Prelude.{IfOk, IsErr, OnOk, OnErr};
    ghost use Rattle.std.specs.Io.KnownBytes.{Appends, Keeps};
    ghost use Rattle.daa_io.specs.Faults.{HasRisen, one_more};

    ghost taken = { λ s. Some s.text };

    ghost faults = { λ s. s.faults };

    fn write(&mut self, piece: &[u8]) -> Result<usize, Failed>
        ensures within { IfOk result (λ n. n ≤ length piece.now) }
        ensures moves { IfOk result (λ n. 0 < length piece.now → 0 < n) }
        ensures appended { IfOk result
            (λ n. Appends (Some self.old.text) (Some self.new.text) (take n piece.now)) }

        ensures risen { OnErr result (HasRisen self.old.faults self.new.faults) }
        ensures kept { OnErr result (Keeps (Some self.old.text) (Some self.new.text)) }
        ensures never_falls { self.old.faults ≤ self.new.faults }
        ensures no_fault { OnOk result (self.new.faults ≡ self.old.faults) }

        ensures full { IsErr result ↔ (length self.old.text ≡ self.old.room) }
        ensures one_fault { OnErr result (self.new.faults ≡ one_more self.old.faults) }
        ensures room { self.new.room ≡ self.old.room }
    {
        let room = self.space.len() - self.used;
        if room == 0 {
            self.faults = self.faults.saturating_add(1);
            return Err(Failed);
        }
        let count = piece.len().min(room);
        write_at(&mut self.space, self.used, &piece[..count]);
        self.used += count;
        Ok(count)
    }
}

/// Writes the piece over the bytes from an index on.
fn write_at(space: &mut [u8], at: usize, piece: &[u8])
    requires { at + length piece.now ≤ length space.old }
    ensures written { take (at + length piece.now) space.new ≡ take at space.old ++ piece.now }
    ensures same_size { length space.new ≡ length space.old }
{
    let end = at + piece.len();
    space[at..end].copy_from_slice(piece);
}
