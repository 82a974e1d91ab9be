//! A replay: feeds the bytes of the source to the lines, and writes the text of each event.

ghost use Rattle.std.specs.Prelude.{◌≡◌, ◌<◌, ◌^◌, [], Bool, IfOk, OnOk, OnErr, ◌≤◌, length};
ghost use Rattle.daa_ahead.specs.Bytes.{stream_state};
ghost use Rattle.daa_replay.specs.Inside.Events.{IsBetween, IsGiven};
ghost use Rattle.daa_replay.specs.Inside.Replay.{Breaks, CanReport, EndsAs, Reaches, Steps, Writes, course};
ghost use Rattle.daa_ahead.specs.Moves.{Moves, wants_more};
ghost use Rattle.daa_ahead.specs.Taker.{CanTake, TakesBytes};
ghost use Rattle.daa_replay.specs.Outside.{ShelfState, outside};
ghost use Rattle.daa_replay.specs.Inside.Run.{Leaves, Replays};

use crate::batch::{Batch, batch_in, write_together};
use crate::events::{Progress, any_refusal, begin, has_more, next_event};
use crate::guesses::has_two_ends;
use crate::moment::{Context, write_event};
use crate::status::Status;
use daa_ahead::{BUFFER, Calls, Ended, Taker, ahead, in_turn};
use daa_engine::Engine;
use daa_io::{Gate, Sink, Source};
use daa_report::SinkFault;
use std::alloc::Global;
use std::thread::Threads;
use std::time::Clock;

/// The most bytes that one read asks for with several workers, and with one.
const MOST_READ: usize = 1 << 20;

const MOST_READ_ALONE: usize = 1 << 16;

/// How many bytes of text the workers hold together: the report of a large read.
const SHEETS: usize = 1 << 22;

/// Writes the texts of the events of a piece that the workers share, if there are several, and if
/// more than one moment seems to end in it: those of all its lines, and else none. Returns how many
/// bytes are fed then.
fn write_front<R: Threads + Sync, K: Sink, G: Gate>(
    context: &Context<'_, R, G>,
    engine: &mut Engine,
    progress: &mut Progress,
    batch: &mut Option<Batch>,
    sink: &mut K,
    piece: &[u8],
) -> Result<usize, SinkFault>
    requires { CanReport (course engine.old.settings progress.old (K.taken sink.old)
        (K.faults sink.old)) (length piece.now) }
    ensures ok { IfOk result (λ done. (last : Bool)
        → Reaches (course engine.old.settings progress.old
        (K.taken sink.old) (K.faults sink.old)) piece.now done last
        (course engine.new.settings progress.new (K.taken sink.new) (K.faults sink.new))) }
    ensures err { OnErr result ((last : Bool) → Breaks (course engine.old.settings progress.old
        (K.taken sink.old) (K.faults sink.old)) piece.now last
        (course engine.new.settings progress.new (K.taken sink.new) (K.faults sink.new))) }
{
    let Some(batch) = batch else {
        return Ok(0);
    };
    if !has_two_ends(piece) {
        return Ok(0);
    }
    let lines = &mut progress.lines;
    let moments = &mut progress.moments;
    match write_together(context, engine, sink, batch, lines, moments, piece) {
        Ok(refused) => {
            progress.any_refused = progress.any_refused || refused;
            Ok(piece.len())
        }
        Err(fault) => Err(fault),
    }
}

/// Writes the texts of the events of a piece; if it is the last one, also those of the end.
fn write_piece<R: Threads + Sync, K: Sink, G: Gate>(
    context: &Context<'_, R, G>,
    engine: &mut Engine,
    progress: &mut Progress,
    batch: &mut Option<Batch>,
    sink: &mut K,
    piece: &[u8],
    last: bool,
) -> Result<(), SinkFault>
    requires { CanReport (course engine.old.settings progress.old (K.taken sink.old)
        (K.faults sink.old)) (length piece.now) }
    ensures ok { OnOk result (Writes (course engine.old.settings progress.old (K.taken sink.old)
        (K.faults sink.old)) piece.now last
        (course engine.new.settings progress.new (K.taken sink.new) (K.faults sink.new))) }
    ensures err { OnErr result (Breaks (course engine.old.settings progress.old (K.taken sink.old)
        (K.faults sink.old)) piece.now last
        (course engine.new.settings progress.new (K.taken sink.new) (K.faults sink.new))) }
{
    let mut done = write_front(context, engine, progress, batch, sink, piece)?;
    while has_more(progress, piece, done, last) {
        if let Some(event) = next_event(progress, piece, &mut done, last) {
            progress.any_refused = any_refusal(progress.any_refused, &event);
            match write_event(context, engine, sink, &event) {
                Ok(()) => {}
                Err(fault) => return Err(fault),
            }
        }
    }
    Ok(())
}

/// Takes a piece, and returns whether its text was written.
fn take_piece<R: Threads + Sync, K: Sink, G: Gate>(
    context: &Context<'_, R, G>,
    engine: &mut Engine,
    sink: &mut K,
    progress: &mut Progress,
    batch: &mut Option<Batch>,
    piece: &[u8],
) -> bool
    requires { CanReport (course engine.old.settings progress.old (K.taken sink.old)
        (K.faults sink.old)) (length piece.now) }
    ensures { Steps (course engine.old.settings progress.old (K.taken sink.old)
        (K.faults sink.old)) piece.now result
        (course engine.new.settings progress.new (K.taken sink.new) (K.faults sink.new)) }
{
    match write_piece(context, engine, progress, batch, sink, piece, false) {
        Ok(()) => true,
        Err(_) => false,
    }
}

/// Reads for the taker: in turn if `places` is 0, else ahead of it while `places` pieces may wait.
fn read_for<R: Threads + Clock + Sync, S: Source + Send, T: Taker + Send, G>(
    context: &Context<'_, R, G>,
    source: &mut S,
    places: u32,
    most: u64,
    taker: &mut T,
    buf: &mut [u8],
) -> Ended
    requires places { places ≤ 1024 }
    requires some { 1 ≤ most }
    requires buffer { 0 < length buf.old }
    requires can { CanTake T.takes T.ready most taker.old }
    ensures { Moves places result most (stream_state (S.left source.old) (S.faults source.old))
        (stream_state (S.left source.new) (S.faults source.new))
        (TakesBytes T.takes (wants_more result) taker.old taker.new) }
{
    if places == 0 {
        return in_turn(source, most, taker, buf);
    }
    ahead(context.rt, context.alloc, source, places, most, taker, buf)
}

/// Reads at most `most` bytes, and reports them as they are taken.
fn write_all<R: Threads + Clock + Sync, S: Source + Send, K: Sink + Send, G: Gate>(
    context: &Context<'_, R, G>,
    engine: &mut Engine,
    source: &mut S,
    sink: &mut K,
    progress: &mut Progress,
    batch: &mut Option<Batch>,
    buf: &mut [u8],
    places: u32,
    most: u64,
) -> Ended
    requires places { places ≤ 1024 }
    requires some { 1 ≤ most }
    requires buffer { 0 < length buf.old }
    requires bound { most ≤ 2 ^ 40 }
    requires between { IsBetween progress.old }
    requires begun { IsGiven [] [] progress.old }
    ensures moves { Moves places result most
        (stream_state (S.left source.old) (S.faults source.old))
        (stream_state (S.left source.new) (S.faults source.new))
        (λ bytes. Steps (course engine.old.settings progress.old (K.taken sink.old)
        (K.faults sink.old)) bytes (wants_more result)
        (course engine.new.settings progress.new (K.taken sink.new) (K.faults sink.new))) }
{
    let mut taker = Calls {
        call: |piece: &[u8]| -> bool
            requires { CanReport (course engine.now.settings progress.now (K.taken sink.now)
                (K.faults sink.now)) (length piece.now) }
            ensures { Steps (course engine.entry.now.settings progress.entry.now
                (K.taken sink.entry.now) (K.faults sink.entry.now)) piece.entry.now result
                (course engine.exit.now.settings progress.exit.now (K.taken sink.exit.now)
                (K.faults sink.exit.now)) }
        { take_piece(context, engine, sink, progress, batch, piece) },
    };
    read_for(context, source, places, most, &mut taker, buf)
}

/// The input is over: writes the texts of the events that it still has.
fn write_end<R: Threads + Sync, K: Sink, G: Gate>(
    context: &Context<'_, R, G>,
    engine: &mut Engine,
    progress: &mut Progress,
    batch: &mut Option<Batch>,
    sink: &mut K,
) -> Status
    requires { CanReport (course engine.old.settings progress.old (K.taken sink.old)
        (K.faults sink.old)) 0 }
    ensures { EndsAs result
        (course engine.old.settings progress.old (K.taken sink.old) (K.faults sink.old))
        (course engine.new.settings progress.new (K.taken sink.new) (K.faults sink.new)) }
{
    match write_piece(context, engine, progress, batch, sink, &[], true) {
        Ok(()) if progress.any_refused => Status::Refused,
        Ok(()) => Status::Accepted,
        Err(_) => Status::SinkFault,
    }
}

/// Writes the report of the source's bytes as `run_replay` does, with the lanes of the workers, if
/// there are any.
fn replay_with<R: Threads + Clock + Sync, S: Source + Send, K: Sink + Send, G: Gate>(
    context: &Context<'_, R, G>,
    engine: &mut Engine,
    source: &mut S,
    sink: &mut K,
    batch: &mut Option<Batch>,
    buf: &mut [u8],
    places: u32,
    most: u64,
) -> Status
    requires places { places ≤ 1024 }
    requires some { 1 ≤ most }
    requires buffer { 0 < length buf.old }
    requires bound { most ≤ 2 ^ 40 }
    ensures { (before after : ShelfState) → Leaves (Replays engine.old.settings most places) result
        (outside before (stream_state (S.left source.old) (S.faults source.old))
        (stream_state (K.taken sink.old) (K.faults sink.old)))
        (outside after (stream_state (S.left source.new) (S.faults source.new))
        (stream_state (K.taken sink.new) (K.faults sink.new))) }
{
    // its clause says that the configuration is accepted
    let _config = engine.config();
    let mut progress = begin();
    match write_all(
        context,
        engine,
        source,
        sink,
        &mut progress,
        batch,
        buf,
        places,
        most,
    ) {
        Ended::End => write_end(context, engine, &mut progress, batch, sink),
        Ended::Fault => Status::SourceFault,
        Ended::Limit => Status::Limit,
        Ended::Stopped => Status::SinkFault,
    }
}

/// A buffer to read into, of a size that goes with the number of workers. It is empty if there is
/// no memory for it.
fn buffer_in(alloc: Global, workers: u32) -> Vec<u8> {
    let size = if workers < 2 {
        MOST_READ_ALONE
    } else {
        MOST_READ
    };
    match vec![in alloc; 0u8; size] {
        Ok(buffer) => buffer,
        Err(_) => Vec::new(alloc),
    }
}

/// Writes the report of the source's bytes, at most `most` of them, under this configuration. It
/// reads in turn if `places` is 0, and else ahead while `places` pieces may wait.
pub(crate) fn run_replay<R: Threads + Clock + Sync, S: Source + Send, K: Sink + Send, G: Gate>(
    context: &Context<'_, R, G>,
    engine: &mut Engine,
    source: &mut S,
    sink: &mut K,
    places: u32,
    most: u64,
) -> Status
    requires places { places ≤ 1024 }
    requires some { 1 ≤ most }
    requires bound { most ≤ 2 ^ 40 }
    ensures { (before after : ShelfState) → Leaves (Replays engine.old.settings most places) result
        (outside before (stream_state (S.left source.old) (S.faults source.old))
        (stream_state (K.taken sink.old) (K.faults sink.old)))
        (outside after (stream_state (S.left source.new) (S.faults source.new))
        (stream_state (K.taken sink.new) (K.faults sink.new))) }
{
    let mut batch = batch_in(context.alloc, engine.workers(), SHEETS);
    let mut large = buffer_in(context.alloc, engine.workers());
    if large.is_empty() {
        let mut small = [0u8; BUFFER];
        return replay_with(
            context, engine, source, sink, &mut batch, &mut small, places, most,
        );
    }
    let buf = large.as_mut_slice();
    replay_with(context, engine, source, sink, &mut batch, buf, places, most)
}
