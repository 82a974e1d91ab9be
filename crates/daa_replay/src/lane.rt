//! What one worker makes of a piece: the texts of its events, on a sheet of the worker's own.

ghost use Rattle.std.specs.Prelude.{◌≡◌, ◌<◌, IfNone, IfSome, Some, true, false, length};
ghost use Rattle.daa_config.specs.Settings.{Settings};
ghost use Rattle.daa_lines.specs.LinesOf.{Bytes};
ghost use Rattle.daa_report.specs.Says.{SaysSome};
ghost use Rattle.daa_replay.specs.Lines.{IsEventInRange};
ghost use Rattle.daa_replay.specs.Moment.{IsEventText};
ghost use Rattle.daa_replay.specs.Inside.Batch.{AddsText, AddsTexts, HasTexts, IsFilled, IsChunk};
ghost use Rattle.daa_replay.specs.Inside.Checkpoint.{IsCheckpoint, reading, reading_at};

use crate::checkpoint::{Checkpoint, place_behind};
use crate::events::{any_refusal, either, next_of_lines};
use crate::lines::Event;
use crate::moment::write_refusal;
use daa_bands::Board;
use daa_config::Config;
use daa_engine::{Room, Tickets};
use daa_io::Gate;
use daa_judge::Sheet;
use daa_lines::Lines;
use daa_report::SinkFault;
use daa_state::Moments;
use std::alloc::Global;

/// How many bytes a sheet has at least: room for the text of any event.
const LEAST_SHEET: usize = 130177;

/// How many stretches the workers share at a time at most: those of a read of 1 MiB.
pub(crate) const MOST_STRETCHES: usize = 512;

/// A part of a sheet: its bytes from `start` up to `end` are the texts of the events from one place
/// of a piece to another. `refused` says whether some of these is a refusal.
#[derive(Clone, Copy)]
pub(crate) struct Chunk {
    pub(crate) from: Checkpoint,
    pub(crate) upto: Checkpoint,
    pub(crate) refused: bool,
    pub(crate) start: usize,
    pub(crate) end: usize,
}

/// The text of a part, from which place to which it goes, and whether some of its events is a
/// refusal.
#[derive(Clone, Copy)]
pub(crate) struct ChunkText<'a> {
    pub(crate) text: &'a [u8],
    pub(crate) from: Checkpoint,
    pub(crate) upto: Checkpoint,
    pub(crate) refused: bool,
}

/// Up to which place texts were made or written, and whether some of their events is a refusal.
#[derive(Clone, Copy)]
pub(crate) struct Reach {
    pub(crate) upto: Checkpoint,
    pub(crate) refused: bool,
}

/// What a worker needs: its number, room to decide in, a board and a sheet of so many bytes, and
/// the parts that its sheet has, in the order in which they were written, which is also that of
/// their events. No part has more bytes than `most`.
#[derive(Drop)]
pub(crate) struct Lane {
    number: u32,
    pub(crate) room: Room,
    pub(crate) board: Board,
    pub(crate) sheet: Sheet,
    pub(crate) parts: Vec<Chunk>,
    size: usize,
    most: usize,
}

/// The unit of a moment, by which its worker passes the gate: the number of its last line, or
/// 4294967295 if that is greater.
pub(crate) fn unit_of(lines: &Lines) -> u32 {
    lines.number().min(u32::MAX as u64) as u32
}

impl Lane {
    /// The lane of a worker, with a sheet of so many bytes or what one needs, if there is memory
    /// for it.
    fn new(alloc: Global, number: u32, sheet: usize) -> Option<Lane> {
        let size = sheet.max(LEAST_SHEET);
        let room = Room::new(alloc).ok()?;
        let sheet = Sheet::with_room(alloc, size).ok()?;
        let parts = Vec::with_capacity(alloc, MOST_STRETCHES).ok()?;
        Some(Lane {
            number,
            room,
            board: Board::new(),
            sheet,
            parts,
            size,
            most: 0,
        })
    }

    /// Writes the text of an event on the sheet. It passes the gate before it decides a moment.
    fn say<G: Gate>(
        &mut self,
        config: &Config,
        event: &Event,
        unit: u32,
        gate: &G,
    ) -> Result<(), SinkFault>
        requires { IsEventInRange event.now }
        ensures says { SaysSome (IsEventText config.now event.now) (Some self.old.sheet.text)
            (Some self.new.sheet.text) self.old.sheet.faults self.new.sheet.faults result }
        ensures parts { self.new.parts.items ≡ self.old.parts.items }
    {
        match event {
            Event::Refused(number, fault) => {
                write_refusal(&mut self.sheet, *number, fault.code())
            }
            Event::Ended(picture) => {
                gate.pass(self.number, unit);
                self.room
                    .report(config, picture, &mut self.board, &mut self.sheet)
            }
        }
    }

    /// Adds the text of an event to the sheet, and returns whether there was room for it.
    fn add<G: Gate>(&mut self, config: &Config, event: &Event, unit: u32, gate: &G) -> bool
        requires { IsEventInRange event.now }
        ensures added { result ≡ true
            → AddsText config.now event.now self.old.sheet.text self.new.sheet.text }
        ensures kept { result ≡ false → self.new.sheet.text ≡ self.old.sheet.text }
        ensures parts { self.new.parts.items ≡ self.old.parts.items }
    {
        let written = self.sheet.text().len();
        match self.say(config, event, unit, gate) {
            Ok(()) => true,
            Err(_) => {
                self.sheet.cut(written);
                false
            }
        }
    }

    /// Reads the lines of a piece from a place on, up to the end of a moment, and adds the texts of
    /// their events to the sheet. It adds none if there is no room for all, or if no moment ends
    /// before the byte `until`.
    fn add_moment<G: Gate>(
        &mut self,
        config: &Config,
        piece: &[u8],
        from: Checkpoint,
        until: usize,
        lines: &mut Lines,
        moments: &mut Moments,
        gate: &G,
    ) -> Option<Reach>
        requires there { IsCheckpoint piece.now from }
        requires stands { reading from.done lines.old moments.old ≡ reading_at from }
        ensures added { IfSome result (λ reach. AddsTexts config.now piece.now (reading_at from)
            (reading_at reach.upto) reach.refused self.old.sheet.text self.new.sheet.text) }
        ensures stands { IfSome result (λ reach.
            reading reach.upto.done lines.new moments.new ≡ reading_at reach.upto) }
        ensures there { IfSome result (λ reach. IsCheckpoint piece.now reach.upto) }
        ensures further { IfSome result (λ reach. from.done < reach.upto.done) }
        ensures kept { IfNone result (self.new.sheet.text ≡ self.old.sheet.text) }
        ensures parts { self.new.parts.items ≡ self.old.parts.items }
    {
        let before = self.sheet.text().len();
        let mut done = from.done;
        let mut refused = false;
        while done < until && done < piece.len() {
            if let Some(event) = next_of_lines(lines, moments, piece, &mut done) {
                if !self.add(config, &event, unit_of(lines), gate) {
                    self.sheet.cut(before);
                    return None;
                }
                refused = any_refusal(refused, &event);
                if let Some(upto) = place_behind(lines, moments, &event, done) {
                    return Some(Reach { upto, refused });
                }
            }
        }
        self.sheet.cut(before);
        None
    }

    /// Adds the texts of the events from a place up to a byte to the sheet, moment after moment, as
    /// far as there is room. Returns up to which place they are there.
    fn add_moments<G: Gate>(
        &mut self,
        config: &Config,
        piece: &[u8],
        from: Checkpoint,
        until: usize,
        gate: &G,
    ) -> Reach
        requires { IsCheckpoint piece.now from }
        ensures added { AddsTexts config.now piece.now (reading_at from) (reading_at result.upto)
            result.refused self.old.sheet.text self.new.sheet.text }
        ensures there { IsCheckpoint piece.now result.upto }
        ensures parts { self.new.parts.items ≡ self.old.parts.items }
    {
        let mut lines = from.lines();
        let mut moments = from.moments();
        let mut reach = Reach {
            upto: from,
            refused: false,
        };
        while reach.upto.done < until {
            let upto = reach.upto;
            match self.add_moment(config, piece, upto, until, &mut lines, &mut moments, gate) {
                Some(next) => {
                    reach = Reach {
                        upto: next.upto,
                        refused: either(reach.refused, next.refused),
                    };
                }
                None => return reach,
            }
        }
        reach
    }

    /// Notes a part of the sheet, if it has an event, and if there is room for it.
    fn note(&mut self, part: Chunk)
        ensures { (settings : Settings) (piece : Bytes)
            → IsFilled settings piece self.old → IsChunk settings piece self.old.sheet.text part
            → IsFilled settings piece self.new }
    {
        if part.from.done < part.upto.done && self.parts.len() < self.parts.capacity() {
            self.parts.push_reserved(part);
        }
    }

    /// Writes the texts of the events from a place up to a byte on the sheet, behind its other
    /// parts, as far as there is room.
    fn write<G: Gate>(
        &mut self,
        config: &Config,
        piece: &[u8],
        from: Checkpoint,
        until: usize,
        gate: &G,
    )
        requires there { IsCheckpoint piece.now from }
        requires filled { IsFilled config.now piece.now self.old }
        ensures { IsFilled config.now piece.now self.new }
    {
        let start = self.sheet.text().len();
        let reach = self.add_moments(config, piece, from, until, gate);
        let end = self.sheet.text().len();
        self.most = self.most.max(end.saturating_sub(start));
        self.note(Chunk {
            from,
            upto: reach.upto,
            refused: reach.refused,
            start,
            end,
        });
    }

    /// Whether the sheet has room for twice as much as any of its parts has.
    fn has_room(&self) -> bool {
        let left = self.size.saturating_sub(self.sheet.text().len());
        self.most.saturating_mul(2) <= left
    }

    /// Empties the sheet and the list of its parts.
    fn clear(&mut self)
        ensures sheet { length self.new.sheet.text ≡ 0 }
        ensures parts { (settings : Settings) (piece : Bytes) → IsFilled settings piece self.new }
    {
        self.sheet.clear();
        self.parts.clear();
        self.most = 0;
    }

    /// Takes stretches between two of the places, one after the other, and writes the texts of
    /// their events on the sheet, while it has room and no other worker has taken them.
    pub(crate) fn fill<G: Gate>(
        &mut self,
        config: &Config,
        piece: &[u8],
        places: &[Checkpoint],
        tickets: &Tickets,
        gate: &G,
    )
        ensures { IsFilled config.now piece.now self.new }
    {
        self.clear();
        for _ in 0..MOST_STRETCHES {
            if !self.has_room() {
                return;
            }
            let ticket = tickets.draw();
            let Some([from, upto]) = places.get(ticket..ticket.saturating_add(2)) else {
                return;
            };
            if from.is_in(piece) {
                self.write(config, piece, *from, upto.done, gate);
            }
        }
    }

    /// The part that begins behind so many bytes, if the sheet has it.
    pub(crate) fn part_from(&self, done: usize) -> Option<ChunkText<'_>>
        ensures texts { (settings : Settings) (piece : Bytes) → IsFilled settings piece self.now
            → IfSome result
            (λ part. HasTexts settings piece part.from part.upto part.refused part.text.now) }
        ensures begins { IfSome result (λ part. part.from.done ≡ done) }
    {
        let parts = self.parts.as_slice();
        let place = parts
            .binary_search_by_key(&done, |part: &Chunk| part.from.done)
            .ok()?;
        let part = parts[place];
        let text = self.sheet.text().get(part.start..part.end)?;
        Some(ChunkText {
            text,
            from: part.from,
            upto: part.upto,
            refused: part.refused,
        })
    }
}

/// A lane for each worker, if there is memory for them. Their sheets have so many bytes together,
/// as far as each has more than it needs.
pub(crate) fn lanes_in(alloc: Global, workers: u32, sheets: usize) -> Option<Vec<Lane>> {
    let mut lanes = Vec::new(alloc);
    let sheet = sheets / (workers as usize).max(1);
    for worker in 0..workers {
        let lane = Lane::new(alloc, worker, sheet)?;
        lanes.push(lane).ok()?;
    }
    Some(lanes)
}
