//! A comparison: of the report of given states with what a source hands out, event by event, or
//! part by part where the workers share the moments.

ghost use Rattle.std.specs.Prelude.{◌≡◌, ◌≢◌, ◌<◌, ◌≤◌, ◌+◌, ◌^◌, [], All, IfErr, IfOk, length};
ghost use Rattle.daa_ahead.specs.Bytes.{stream_state};
ghost use Rattle.daa_judge.specs.Matching.{HasRoom};
ghost use Rattle.daa_judge.specs.declared.found.Found.TheVariants as found;
ghost use Rattle.daa_replay.specs.Inside.Batch.{IsFilled};
ghost use Rattle.daa_replay.specs.Inside.Events.{HasLines, IsBetween, IsGiven};
ghost use Rattle.daa_replay.specs.Inside.Judge.{ComparesBetween, ComparesFirst, ComparesSome, Matches, Stops, StopsBetween, found_in};
ghost use Rattle.daa_replay.specs.Inside.Checkpoint.{IsCheckpoint, reading, reading_at};
ghost use Rattle.daa_replay.specs.Lines.{IsEventInRange};
ghost use Rattle.daa_replay.specs.Judge.{Judged};
ghost use Rattle.daa_replay.specs.Moment.{IsEventText};
ghost use Rattle.daa_replay.specs.Outside.{ShelfState, outside};
ghost use Rattle.daa_replay.specs.Inside.Run.{Judges, Leaves};

use crate::batch::{Batch, batch_in, clear_lanes, fill_from, next_part, pass_here};
use crate::checkpoint::{Checkpoint, place_behind, place_in_front};
use crate::events::{Progress, begin, has_more, next_event, next_of_lines};
use crate::guesses::has_two_ends;
use crate::lane::unit_of;
use crate::lines::Event;
use crate::moment::{Context, write_event_alone};
use crate::status::{Status, status_of};
use daa_config::Config;
use daa_engine::Engine;
use daa_io::{Gate, Sink, Source};
use daa_judge::{Found, Matching, Sheet};
use daa_report::{write_differs, write_same};
use std::alloc::Global;
use std::thread::Threads;

/// How many bytes of text the workers hold together. The states have at most a sixteenth of a read.
const SHEETS: usize = 1 << 18;

/// The sheet for the texts that the caller decides, and how far the report was compared.
#[derive(Drop)]
struct Comparison {
    sheet: Sheet,
    matching: Matching,
}

/// Writes the text of an event, and nothing else, on the sheet, which has room for it.
fn sheet_event(engine: &mut Engine, sheet: &mut Sheet, event: &Event)
    requires { IsEventInRange event.now }
    ensures same { engine.new.settings ≡ engine.old.settings }
    ensures written { IsEventText engine.old.settings event.now sheet.new.text }
{
    sheet.clear();
    let _said = write_event_alone(engine, sheet, event);
    // its clause says that a write to it failed only if it is full
    let _text = sheet.text();
}

/// Comparing goes on if the text matched.
fn stop_of(found: Found) -> Result<(), Found>
    ensures same { found_in result ≡ found }
    ensures stops { Stops result }
{
    match found {
        Found::Alike => Ok(()),
        Found::Differs(line) => Err(Found::Differs(line)),
        Found::Fault => Err(Found::Fault),
        Found::Limit => Err(Found::Limit),
    }
}

/// Compares a text with what the source hands out.
fn judge_text<S: Source>(matching: &mut Matching, source: &mut S, text: &[u8]) -> Result<(), Found>
    requires room { HasRoom matching.old }
    ensures room { HasRoom matching.new }
    ensures never_falls { S.faults source.old ≤ S.faults source.new }
    ensures compares { ComparesSome (λ some. some ≡ text.now) (found_in result) matching.old
        matching.new (stream_state (S.left source.old) (S.faults source.old))
        (stream_state (S.left source.new) (S.faults source.new)) }
    ensures stops { Stops result }
{
    stop_of(matching.compare(source, text))
}

/// Compares the text of an event with what the source hands out.
fn judge_event<S: Source>(
    engine: &mut Engine,
    comparison: &mut Comparison,
    source: &mut S,
    event: &Event,
) -> Result<(), Found>
    requires range { IsEventInRange event.now }
    requires room { HasRoom comparison.old.matching }
    ensures same { engine.new.settings ≡ engine.old.settings }
    ensures room { HasRoom comparison.new.matching }
    ensures never_falls { S.faults source.old ≤ S.faults source.new }
    ensures compares { ComparesSome (IsEventText engine.old.settings event.now) (found_in result)
        comparison.old.matching comparison.new.matching
        (stream_state (S.left source.old) (S.faults source.old))
        (stream_state (S.left source.new) (S.faults source.new)) }
    ensures stops { Stops result }
{
    sheet_event(engine, &mut comparison.sheet, event);
    judge_text(&mut comparison.matching, source, comparison.sheet.text())
}

/// Compares the texts on the sheets, in the order of the events, from a place on up to the first
/// one at which no part begins, and returns that one. The lanes are filled on the way.
fn judge_parts<R: Threads + Sync, S: Source, G: Gate>(
    context: &Context<'_, R, G>,
    config: &Config,
    matching: &mut Matching,
    source: &mut S,
    batch: &mut Batch,
    piece: &[u8],
    from: Checkpoint,
) -> Result<Checkpoint, Found>
    requires there { IsCheckpoint piece.now from }
    requires filled { All (IsFilled config.now piece.now) batch.old.lanes.items }
    requires room { HasRoom matching.old }
    ensures filled { All (IsFilled config.now piece.now) batch.new.lanes.items }
    ensures room { HasRoom matching.new }
    ensures never_falls { S.faults source.old ≤ S.faults source.new }
    ensures there { IfOk result (IsCheckpoint piece.now) }
    ensures forward { IfOk result (λ upto. from.done ≤ upto.done) }
    ensures ok { IfOk result (λ upto. ComparesBetween config.now piece.now (reading_at from)
        (reading_at upto) found.Alike matching.old matching.new
        (stream_state (S.left source.old) (S.faults source.old))
        (stream_state (S.left source.new) (S.faults source.new))) }
    ensures err { IfErr result (λ stop. StopsBetween config.now piece.now (reading_at from) stop
        matching.old matching.new (stream_state (S.left source.old) (S.faults source.old))
        (stream_state (S.left source.new) (S.faults source.new))) }
{
    let mut upto = from;
    while upto.done < piece.len() {
        fill_from(context, config, batch, piece, upto);
        let Some(part) = next_part(batch.lanes.as_slice(), &upto) else {
            return Ok(upto);
        };
        match judge_text(matching, source, part.text) {
            Ok(()) => upto = part.upto,
            Err(found) => return Err(found),
        }
    }
    Ok(upto)
}

/// Compares the texts of the events that the lines of a piece give: the parts that the workers
/// made, and what is in none of them, which the caller decides.
fn judge_together<R: Threads + Sync, S: Source, G: Gate>(
    context: &Context<'_, R, G>,
    engine: &mut Engine,
    comparison: &mut Comparison,
    source: &mut S,
    batch: &mut Batch,
    progress: &mut Progress,
    piece: &[u8],
) -> Result<(), Found>
    requires lines { HasLines (length piece.now) progress.old.lines }
    requires room { HasRoom comparison.old.matching }
    ensures same { engine.new.settings ≡ engine.old.settings }
    ensures room { HasRoom comparison.new.matching }
    ensures never_falls { S.faults source.old ≤ S.faults source.new }
    ensures left { progress.new.left ≡ progress.old.left }
    ensures lines { IfOk result (λ _. HasLines 0 progress.new.lines) }
    ensures ok { IfOk result (λ _. ComparesBetween engine.old.settings piece.now
        (reading 0 progress.old.lines progress.old.moments)
        (reading (length piece.now) progress.new.lines progress.new.moments) found.Alike
        comparison.old.matching comparison.new.matching
        (stream_state (S.left source.old) (S.faults source.old))
        (stream_state (S.left source.new) (S.faults source.new))) }
    ensures err { IfErr result (λ stop. StopsBetween engine.old.settings piece.now
        (reading 0 progress.old.lines progress.old.moments) stop comparison.old.matching
        comparison.new.matching (stream_state (S.left source.old) (S.faults source.old))
        (stream_state (S.left source.new) (S.faults source.new))) }
{
    clear_lanes(context, engine.config(), batch, piece);
    let mut done = 0;
    let mut here = place_in_front(&mut progress.lines, &mut progress.moments);
    while done < piece.len() {
        match here {
            Some(place) => {
                let matching = &mut comparison.matching;
                match judge_parts(
                    context,
                    engine.config(),
                    matching,
                    source,
                    batch,
                    piece,
                    place,
                ) {
                    Ok(upto) => {
                        progress.lines = upto.lines();
                        progress.moments = upto.moments();
                        done = upto.done;
                        here = None;
                    }
                    Err(found) => return Err(found),
                }
            }
            None => {
                let lines = &mut progress.lines;
                let moments = &mut progress.moments;
                if let Some(event) = next_of_lines(lines, moments, piece, &mut done) {
                    pass_here(context.gate, &event, unit_of(lines));
                    here = place_behind(lines, moments, &event, done);
                    match judge_event(engine, comparison, source, &event) {
                        Ok(()) => {}
                        Err(found) => return Err(found),
                    }
                }
            }
        }
    }
    Ok(())
}

/// Compares the texts of the events of the states' lines where the workers share them, and returns
/// how many bytes are fed then.
fn judge_front<R: Threads + Sync, S: Source, G: Gate>(
    context: &Context<'_, R, G>,
    engine: &mut Engine,
    comparison: &mut Comparison,
    source: &mut S,
    batch: &mut Option<Batch>,
    progress: &mut Progress,
    states: &[u8],
) -> Result<usize, Found>
    requires between { IsBetween progress.old }
    requires begun { IsGiven [] [] progress.old }
    requires few { progress.old.lines.fed + length states.now < 2 ^ 63 }
    requires room { HasRoom comparison.old.matching }
    ensures same { engine.new.settings ≡ engine.old.settings }
    ensures room { HasRoom comparison.new.matching }
    ensures never_falls { S.faults source.old ≤ S.faults source.new }
    ensures ok { IfOk result (λ done. Matches engine.old.settings states.now done progress.new
        comparison.old.matching comparison.new.matching
        (stream_state (S.left source.old) (S.faults source.old))
        (stream_state (S.left source.new) (S.faults source.new))) }
    ensures err { IfErr result (λ stop. ComparesFirst engine.old.settings states.now stop
        comparison.old.matching comparison.new.matching
        (stream_state (S.left source.old) (S.faults source.old))
        (stream_state (S.left source.new) (S.faults source.new))) }
    ensures stops { IfErr result (λ stop. stop ≢ found.Alike) }
{
    let Some(batch) = batch else {
        return Ok(0);
    };
    match judge_together(context, engine, comparison, source, batch, progress, states) {
        Ok(()) => Ok(states.len()),
        Err(found) => Err(found),
    }
}

/// Compares the texts of the events of the states, up to the first that differs.
fn judge_states<R: Threads + Sync, S: Source, G: Gate>(
    context: &Context<'_, R, G>,
    engine: &mut Engine,
    comparison: &mut Comparison,
    source: &mut S,
    batch: &mut Option<Batch>,
    states: &[u8],
) -> Result<(), Found>
    requires room { HasRoom comparison.old.matching }
    requires few { length states.now < 2 ^ 63 }
    ensures never_falls { S.faults source.old ≤ S.faults source.new }
    ensures compares { ComparesFirst engine.old.settings states.now (found_in result)
        comparison.old.matching comparison.new.matching
        (stream_state (S.left source.old) (S.faults source.old))
        (stream_state (S.left source.new) (S.faults source.new)) }
    ensures stops { Stops result }
{
    let mut progress = begin();
    let front = judge_front(
        context,
        engine,
        comparison,
        source,
        batch,
        &mut progress,
        states,
    );
    let mut done = match front {
        Ok(done) => done,
        Err(found) => return Err(found),
    };
    while has_more(&progress, states, done, true) {
        if let Some(event) = next_event(&mut progress, states, &mut done, true) {
            match judge_event(engine, comparison, source, &event) {
                Ok(()) => {}
                Err(found) => return Err(found),
            }
        }
    }
    Ok(())
}

/// A batch for these workers, if more than one moment seems to end in the states, and if there are
/// several workers, and memory for it.
fn batch_for(alloc: Global, workers: u32, states: &[u8]) -> Option<Batch> {
    if has_two_ends(states) {
        batch_in(alloc, workers, SHEETS)
    } else {
        None
    }
}

/// Compares the bytes of the source, of which at most `most` are read, with the report of
/// the states.
fn judge_all<R: Threads + Sync, S: Source, G: Gate>(
    context: &Context<'_, R, G>,
    engine: &mut Engine,
    sheet: Sheet,
    source: &mut S,
    states: &[u8],
    most: u64,
) -> Found
    requires bound { most ≤ 2 ^ 40 }
    requires few { length states.now < 2 ^ 63 }
    ensures judged { Judged engine.old.settings states.now most result
        (stream_state (S.left source.old) (S.faults source.old))
        (stream_state (S.left source.new) (S.faults source.new)) }
    ensures never_falls { S.faults source.old ≤ S.faults source.new }
{
    let mut batch = batch_for(context.alloc, engine.workers(), states);
    // its clause says that the configuration is accepted
    let _config = engine.config();
    let matching = Matching::new(most);
    let mut comparison = Comparison { sheet, matching };
    match judge_states(context, engine, &mut comparison, source, &mut batch, states) {
        Ok(()) => comparison.matching.end(source),
        Err(found) => found,
    }
}

/// Compares the bytes of the source, of which at most `most` are read, with the report of the
/// states, and writes the result.
pub(crate) fn run_judge<R: Threads + Sync, S: Source, K: Sink, G: Gate>(
    context: &Context<'_, R, G>,
    engine: &mut Engine,
    sheet: Sheet,
    source: &mut S,
    sink: &mut K,
    states: &[u8],
    most: u64,
) -> Status
    requires bound { most ≤ 2 ^ 40 }
    requires few { length states.now < 2 ^ 63 }
    ensures { (before after : ShelfState)
        → Leaves (Judges engine.old.settings most states.now) result
        (outside before (stream_state (S.left source.old) (S.faults source.old))
        (stream_state (K.taken sink.old) (K.faults sink.old)))
        (outside after (stream_state (S.left source.new) (S.faults source.new))
        (stream_state (K.taken sink.new) (K.faults sink.new))) }
{
    match judge_all(context, engine, sheet, source, states, most) {
        Found::Alike => status_of(write_same(sink), Status::Accepted),
        Found::Differs(line) => status_of(write_differs(sink, line), Status::Refused),
        Found::Fault => Status::SourceFault,
        Found::Limit => Status::Limit,
    }
}
