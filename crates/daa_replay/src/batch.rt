//! The moments of a piece, which the workers cut out of it and decide side by side: of one read of
//! a replay, or of the states of a comparison.

ghost use Rattle.std.specs.Prelude.{◌≡◌, ◌≤◌, ◌<◌, All, IfOk, IfSome, OnErr, OnOk, Some, false, length};
ghost use Rattle.daa_config.specs.Settings.{Settings};
ghost use Rattle.daa_lines.specs.LinesOf.{Bytes};
ghost use Rattle.daa_report.specs.Says.{HasCause, SaysSome};
ghost use Rattle.daa_replay.specs.Lines.{IsEventInRange};
ghost use Rattle.daa_replay.specs.Moment.{IsEventText};
ghost use Rattle.daa_replay.specs.Inside.Batch.{Fails, HasTexts, IsFilled, Shares};
ghost use Rattle.daa_replay.specs.Inside.Events.{HasLines};
ghost use Rattle.daa_replay.specs.Inside.Checkpoint.{IsCheckpoint, reading, reading_at};

use crate::checkpoint::{Checkpoint, place_behind, place_in_front};
use crate::events::{any_refusal, either, next_of_lines};
use crate::guesses::guess_places;
use crate::lane::{ChunkText, Lane, MOST_STRETCHES, Reach, lanes_in, unit_of};
use crate::lines::Event;
use crate::moment::{Context, write_event_alone};
use daa_config::Config;
use daa_engine::{Engine, Tickets, workers_for};
use daa_io::{Gate, Sink};
use daa_lines::Lines;
use daa_report::{SinkFault, put};
use daa_state::Moments;
use std::alloc::Global;
use std::thread;
use std::thread::Threads;

/// How many bytes a stretch has, which a worker takes at once, before it ends with a moment: those
/// of a few moments.
const STRETCH: usize = 2048;

/// How many stretches there are at least for each worker, where there are enough moments.
const STRETCHES_EACH: usize = 16;

/// A lane for each worker, and the places at which stretches of a piece begin and end, as far as
/// they were guessed. The lanes were filled up to the byte `tried` of the piece.
#[derive(Drop)]
pub(crate) struct Batch {
    pub(crate) lanes: Vec<Lane>,
    places: Vec<Checkpoint>,
    tried: usize,
}

/// A batch for these workers, if there is more than one, and memory for it. The sheets have so many
/// bytes together, or what the lanes need.
pub(crate) fn batch_in(alloc: Global, workers: u32, sheets: usize) -> Option<Batch> {
    if workers < 2 {
        return None;
    }
    let lanes = lanes_in(alloc, workers, sheets)?;
    let places = Vec::with_capacity(alloc, MOST_STRETCHES + 1).ok()?;
    Some(Batch {
        lanes,
        places,
        tried: 0,
    })
}

/// The workers write the texts of the events between the places upon their sheets, side by side:
/// each takes the next stretch as soon as it is free.
fn fill_lanes<R: Threads + Sync, G: Gate>(
    context: &Context<'_, R, G>,
    config: &Config,
    lanes: &mut [Lane],
    piece: &[u8],
    places: &[Checkpoint],
    tickets: &Tickets,
    workers: usize,
)
    requires { 0 < workers }
    ensures { All (IsFilled config.now piece.now) lanes.new }
{
    let gate = context.gate;
    thread::for_each_mut(
        context.rt,
        lanes,
        workers,
        &|_number: usize, lane: &mut Lane|
            ensures { IsFilled config.entry.now piece.entry.now lane.exit.now }
        { lane.fill(config, piece, places, tickets, gate) },
    );
}

/// No lane has a part of another piece any more: the lanes are filled between no places.
pub(crate) fn clear_lanes<R: Threads + Sync, G: Gate>(
    context: &Context<'_, R, G>,
    config: &Config,
    batch: &mut Batch,
    piece: &[u8],
)
    ensures { All (IsFilled config.now piece.now) batch.new.lanes.items }
{
    let lanes = batch.lanes.as_mut_slice();
    fill_lanes(context, config, lanes, piece, &[], &Tickets::new(), 1);
    batch.tried = 0;
}

/// How many bytes a stretch has, where so many are left for so many workers.
fn stretch_size(left: usize, workers: usize) -> usize {
    let most = workers.saturating_mul(STRETCHES_EACH).max(1);
    (left / most).min(STRETCH)
}

/// How many of all workers share the lanes where so many are wanted: half of them at most, or all,
/// since each gets as many lanes as another.
fn evenly(workers: usize, all: usize) -> usize
    requires { 0 < workers }
    ensures { 0 < result }
{
    if all / 2 < workers {
        all.max(1)
    } else {
        workers
    }
}

/// Has the lanes filled from a place on, if they were not by now.
pub(crate) fn fill_from<R: Threads + Sync, G: Gate>(
    context: &Context<'_, R, G>,
    config: &Config,
    batch: &mut Batch,
    piece: &[u8],
    from: Checkpoint,
)
    requires { All (IsFilled config.now piece.now) batch.old.lanes.items }
    ensures { All (IsFilled config.now piece.now) batch.new.lanes.items }
{
    if from.done < batch.tried {
        return;
    }
    let all = batch.lanes.len().max(1);
    let size = stretch_size(piece.len().saturating_sub(from.done), all);
    guess_places(&mut batch.places, piece, from, size);
    let places = batch.places.as_slice();
    let last = match places {
        [_, .., last] => *last,
        _ => {
            batch.tried = piece.len();
            return;
        }
    };
    let lines = last.number.saturating_sub(from.number) as usize;
    let workers = evenly(workers_for(config, lines, all), all);
    let tickets = Tickets::new();
    let lanes = batch.lanes.as_mut_slice();
    fill_lanes(context, config, lanes, piece, places, &tickets, workers);
    batch.tried = match places.get(tickets.draw()) {
        Some(place) => place.done,
        None => last.done,
    };
}

/// The part that begins behind so many bytes, if a sheet has it.
fn part_from<'a>(lanes: &'a [Lane], done: usize) -> Option<ChunkText<'a>>
    ensures texts { (settings : Settings) (piece : Bytes) → All (IsFilled settings piece) lanes.now
        → IfSome result
        (λ part. HasTexts settings piece part.from part.upto part.refused part.text.now) }
    ensures begins { IfSome result (λ part. part.from.done ≡ done) }
{
    for place in 0..lanes.len() {
        if let Some(part) = lanes[place].part_from(done) {
            return Some(part);
        }
    }
    None
}

/// The part that begins at this very place, if a sheet has one that goes on from it.
pub(crate) fn next_part<'a>(lanes: &'a [Lane], here: &Checkpoint) -> Option<ChunkText<'a>>
    ensures texts { (settings : Settings) (piece : Bytes) → All (IsFilled settings piece) lanes.now
        → IfSome result
        (λ part. HasTexts settings piece here.now part.upto part.refused part.text.now) }
    ensures further { IfSome result (λ part. here.now.done < part.upto.done) }
{
    match part_from(lanes, here.done) {
        Some(part) if part.from.is(here) && here.done < part.upto.done => Some(part),
        _ => None,
    }
}

/// Writes the texts on the sheets to the sink, in the order of the events, from a place on up to
/// the first one at which no part begins. The lanes are filled on the way.
fn write_parts<R: Threads + Sync, K: Sink, G: Gate>(
    context: &Context<'_, R, G>,
    config: &Config,
    sink: &mut K,
    batch: &mut Batch,
    piece: &[u8],
    from: Checkpoint,
) -> Result<Reach, SinkFault>
    requires there { IsCheckpoint piece.now from }
    requires filled { All (IsFilled config.now piece.now) batch.old.lanes.items }
    ensures filled { All (IsFilled config.now piece.now) batch.new.lanes.items }
    ensures ok { IfOk result (λ reach. Shares config.now piece.now (reading_at from)
        (reading_at reach.upto) reach.refused (K.taken sink.old) (K.taken sink.new)) }
    ensures there { IfOk result (λ reach. IsCheckpoint piece.now reach.upto) }
    ensures forward { IfOk result (λ reach. from.done ≤ reach.upto.done) }
    ensures err { OnErr result (Fails config.now piece.now (reading_at from) (K.taken sink.old)
        (K.taken sink.new)) }
    ensures cause { HasCause (K.faults sink.old) (K.faults sink.new) result }
{
    let mut reach = Reach {
        upto: from,
        refused: false,
    };
    while reach.upto.done < piece.len() {
        fill_from(context, config, batch, piece, reach.upto);
        let Some(part) = next_part(batch.lanes.as_slice(), &reach.upto) else {
            return Ok(reach);
        };
        put(sink, part.text)?;
        reach = Reach {
            upto: part.upto,
            refused: either(reach.refused, part.refused),
        };
    }
    Ok(reach)
}

/// Before a moment that the caller decides, it passes the gate as worker 0.
pub(crate) fn pass_here<G: Gate>(gate: &G, event: &Event, unit: u32) {
    if matches!(event, Event::Ended(_)) {
        gate.pass(0, unit);
    }
}

/// Writes the text of an event, which the caller decides.
fn write_here<K: Sink, G: Gate>(
    gate: &G,
    engine: &mut Engine,
    sink: &mut K,
    event: &Event,
    unit: u32,
) -> Result<(), SinkFault>
    requires { IsEventInRange event.now }
    ensures kept { engine.new.settings ≡ engine.old.settings }
    ensures says { SaysSome (IsEventText engine.old.settings event.now) (K.taken sink.old)
        (K.taken sink.new) (K.faults sink.old) (K.faults sink.new) result }
{
    pass_here(gate, event, unit);
    write_event_alone(engine, sink, event)
}

/// Writes the texts of the events that the lines of a piece give: the parts that the workers made,
/// and what is in none of them, as the rest of a moment of which the piece before had the front.
/// Returns whether some event is a refusal.
pub(crate) fn write_together<R: Threads + Sync, K: Sink, G: Gate>(
    context: &Context<'_, R, G>,
    engine: &mut Engine,
    sink: &mut K,
    batch: &mut Batch,
    lines: &mut Lines,
    moments: &mut Moments,
    piece: &[u8],
) -> Result<bool, SinkFault>
    requires { HasLines (length piece.now) lines.old }
    ensures same { engine.new.settings ≡ engine.old.settings }
    ensures lines { OnOk result (HasLines 0 lines.new) }
    ensures ok { IfOk result (λ refused. Shares engine.old.settings piece.now
        (reading 0 lines.old moments.old) (reading (length piece.now) lines.new moments.new)
        refused (K.taken sink.old) (K.taken sink.new)) }
    ensures err { OnErr result (Fails engine.old.settings piece.now
        (reading 0 lines.old moments.old) (K.taken sink.old) (K.taken sink.new)) }
    ensures cause { HasCause (K.faults sink.old) (K.faults sink.new) result }
{
    clear_lanes(context, engine.config(), batch, piece);
    let mut done = 0;
    let mut refused = false;
    let mut here = place_in_front(lines, moments);
    while done < piece.len() {
        match here {
            Some(place) => {
                let reach = write_parts(context, engine.config(), sink, batch, piece, place)?;
                refused = either(refused, reach.refused);
                *lines = reach.upto.lines();
                *moments = reach.upto.moments();
                done = reach.upto.done;
                here = None;
            }
            None => {
                if let Some(event) = next_of_lines(lines, moments, piece, &mut done) {
                    refused = any_refusal(refused, &event);
                    write_here(context.gate, engine, sink, &event, unit_of(lines))?;
                    here = place_behind(lines, moments, &event, done);
                }
            }
        }
    }
    Ok(refused)
}
