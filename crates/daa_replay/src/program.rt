//! The top call: all that the program does.

ghost use Rattle.std.specs.Prelude.{◌≡◌, ◌≤◌, ◌^◌, map, string_bytes};
ghost use Rattle.daa_replay.specs.Outside.{outside, shelf_state, ShelfState};
ghost use Rattle.daa_ahead.specs.Bytes.{stream_state};
ghost use Rattle.daa_replay.specs.Run.{Runs};
ghost use Rattle.daa_replay.specs.Inside.Status.{code_of};
ghost use Rattle.daa_replay.specs.Inside.Run.{Leaves, Performs};
ghost use Rattle.daa_replay.specs.Inside.Opening.{WorkIsInRange};

use crate::judge::run_judge;
use crate::moment::Context;
use crate::opening::{Ready, Work, open};
use crate::replay::run_replay;
use crate::status::{Status, status_of, write_reason};
use daa_exercise::exercise;
use daa_io::{Gate, Shelf, Sink, Source};
use std::alloc::Global;
use std::thread::Threads;
use std::time::Clock;

/// The most bytes that a run reads.
const MOST_BYTES: u64 = 1 << 40;

/// Runs what the words ask for.
fn run_words<R: Threads + Clock + Sync, F: Shelf, S: Source + Send, K: Sink + Send, G: Gate>(
    context: &Context<'_, R, G>,
    words: &[String],
    shelf: &mut F,
    source: &mut S,
    sink: &mut K,
    most: u64,
) -> Status
    requires some { 1 ≤ most }
    requires bound { most ≤ 2 ^ 40 }
    ensures { Runs most (map string_bytes words.now) (code_of result)
        (outside (shelf_state (F.texts shelf.old) (F.faults shelf.old))
        (stream_state (S.left source.old) (S.faults source.old))
        (stream_state (K.taken sink.old) (K.faults sink.old)))
        (outside (shelf_state (F.texts shelf.new) (F.faults shelf.new))
        (stream_state (S.left source.new) (S.faults source.new))
        (stream_state (K.taken sink.new) (K.faults sink.new))) }
{
    match open(context.rt, context.alloc, words, shelf) {
        Ok(ready) => run_work(context, ready, source, sink, most),
        Err(why) => write_reason(why, sink),
    }
}

/// Reads the command words and fetches the configuration that they name from the shelf. A replay
/// reads state lines from the source, at most `most` bytes of them and one more, and writes the
/// report of at most `most` to the sink; an exercise reads nothing and writes the summary of the
/// moments that its seed draws; a comparison fetches states too, reads as much as a replay, and
/// writes whether it is the report of the states, or in which line they first differ. `words[0]` is
/// the program's name. Where nothing fails, the bytes are the same for every number of workers and
/// of pieces that are read ahead.
///
/// Returns the status of the process:
/// - 0 if the input was read to its end and no line was refused, or the exercise ended, or a
///   report is that of the states; 1 if some line was refused, or a report is another one;
/// - 2 if the words are not taken; the usage line is written;
/// - 3 if the configuration is refused; `config` and its code are written;
/// - 4 if the source failed, 5 if the sink did, 7 if the shelf did or holds nothing under
///   a name;
/// - 6 if there was no memory for words, texts, configuration, engine or sheet; nothing is read
///   or written;
/// - 8 exactly if `most` bytes were read and there was one more, and the sink did not fail
///   before they were reported; of a comparison only if the report begins with those bytes;
/// - 9 if the states have more than 65536 bytes; `states long` is written.
///
/// A run ends for lack of memory, with status 6, only before the source is read.
pub fn run_within<R: Threads + Clock + Sync, F: Shelf, S: Source + Send, K: Sink + Send, G: Gate>(
    rt: &R,
    alloc: Global,
    words: &[String],
    shelf: &mut F,
    source: &mut S,
    sink: &mut K,
    gate: &G,
    most: u64,
) -> u8
    requires some { 1 ≤ most }
    requires bound { most ≤ 2 ^ 40 }
    ensures runs { Runs most (map string_bytes words.now) result
        (outside (shelf_state (F.texts shelf.old) (F.faults shelf.old))
        (stream_state (S.left source.old) (S.faults source.old))
        (stream_state (K.taken sink.old) (K.faults sink.old)))
        (outside (shelf_state (F.texts shelf.new) (F.faults shelf.new))
        (stream_state (S.left source.new) (S.faults source.new))
        (stream_state (K.taken sink.new) (K.faults sink.new))) }
{
    let context = Context { rt, alloc, gate };
    run_words(&context, words, shelf, source, sink, most).code()
}

/// Carries out the task that the command words ask for, as [`run_within`] does, and reads at most
/// 2^40 bytes.
pub fn run<R: Threads + Clock + Sync, F: Shelf, S: Source + Send, K: Sink + Send, G: Gate>(
    rt: &R,
    alloc: Global,
    words: &[String],
    shelf: &mut F,
    source: &mut S,
    sink: &mut K,
    gate: &G,
) -> u8
    ensures runs { Runs (2 ^ 40) (map string_bytes words.now) result
        (outside (shelf_state (F.texts shelf.old) (F.faults shelf.old))
        (stream_state (S.left source.old) (S.faults source.old))
        (stream_state (K.taken sink.old) (K.faults sink.old)))
        (outside (shelf_state (F.texts shelf.new) (F.faults shelf.new))
        (stream_state (S.left source.new) (S.faults source.new))
        (stream_state (K.taken sink.new) (K.faults sink.new))) }
{
    run_within(rt, alloc, words, shelf, source, sink, gate, MOST_BYTES)
}

/// Runs a replay or a comparison, which reads at most `most` bytes, or an exercise.
pub(crate) fn run_work<R: Threads + Clock + Sync, S: Source + Send, K: Sink + Send, G: Gate>(
    context: &Context<'_, R, G>,
    ready: Ready,
    source: &mut S,
    sink: &mut K,
    most: u64,
) -> Status
    requires some { 1 ≤ most }
    requires most { most ≤ 2 ^ 40 }
    requires work { WorkIsInRange ready.work }
    ensures { (before after : ShelfState)
        → Leaves (Performs ready.engine.settings most ready.work) result
        (outside before (stream_state (S.left source.old) (S.faults source.old))
        (stream_state (K.taken sink.old) (K.faults sink.old)))
        (outside after (stream_state (S.left source.new) (S.faults source.new))
        (stream_state (K.taken sink.new) (K.faults sink.new))) }
{
    let Ready { mut engine, work } = ready;
    match work {
        Work::Replay { ahead } => run_replay(context, &mut engine, source, sink, ahead, most),
        Work::Exercise { seed, moments } => {
            let said = exercise(
                &mut engine,
                context.rt,
                context.alloc,
                seed,
                moments,
                sink,
                context.gate,
            );
            status_of(said, Status::Accepted)
        }
        Work::Judge { states, sheet } => run_judge(
            context,
            &mut engine,
            sheet,
            source,
            sink,
            states.as_slice(),
            most,
        ),
    }
}
