//! Room for the text of a moment.

ghost use Rattle.std.specs.Prelude.{◌≡◌, ◌<◌, [], Some, length};

use arrayvec::ArrayVec;
use daa_io::{Failed, Sink};

/// One byte more than the text of a moment has at most.
const ROOM: usize = 130_177;

/// A sheet in an array, which takes no memory: room for the text of a moment, and how many writes
/// to it failed. No write fails before it is full.
#[derive(Drop)]
pub(crate) struct ArraySheet {
    pub(crate) text: ArrayVec<u8, ROOM>,
    pub(crate) faults: u64,
    ghost full: { 0 < faults → length text.items ≡ 130177 },
}

impl ArraySheet {
    /// A sheet with nothing on it.
    pub(crate) fn new() -> ArraySheet
        ensures { result.text.items ≡ [] }
    {
        ArraySheet {
            text: ArrayVec::new(),
            faults: 0,
        }
    }
}

impl Sink for ArraySheet {
    ghost use Rattle.std.specs.Prelude.{Some};

    ghost taken = { λ s. Some s.text.items };

    ghost faults = { λ s. s.faults };

    /// Takes what there is room for.
    fn write(&mut self, piece: &[u8]) -> Result<usize, Failed> {
        let room = self.text.remaining_capacity();
        if room == 0 {
            self.faults = self.faults.saturating_add(1);
            return Err(Failed);
        }
        let count = piece.len().min(room);
        let _fits = self.text.try_extend_from_slice(&piece[..count]);
        Ok(count)
    }
}
