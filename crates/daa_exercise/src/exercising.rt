//! An exercise of an engine.

ghost use Rattle.std.specs.Prelude.{◌≡◌, ◌≤◌};
ghost use Rattle.daa_state.specs.InRange.{IsPictureInRange};
ghost use Rattle.daa_report.specs.Says.{SaysSome};
ghost use Rattle.daa_exercise.specs.Inside.Counting.{AreCounted, CountsPicture, IsRoomy};
ghost use Rattle.daa_exercise.specs.Outputs.{outputs_of};
ghost use Rattle.daa_exercise.specs.Summary.{IsSummaryOf};

use crate::beside::{clerks_in, count_beside};
use crate::counting::Counts;
use crate::sequence::{Sequence, empty_picture};
use crate::summary::summary;
use daa_engine::Engine;
use daa_io::{Gate, Sink};
use daa_report::{SinkFault, put};
use daa_state::Picture;
use std::alloc::Global;
use std::thread::Threads;

/// Decides a moment and counts it.
fn count_one<R: Threads + Sync, G: Gate>(
    engine: &mut Engine,
    rt: &R,
    alloc: Global,
    picture: &Picture,
    counts: &mut Counts,
    gate: &G,
)
    requires picture { IsPictureInRange picture.now }
    requires room { IsRoomy counts.old }
    ensures kept { engine.new ≡ record engine.old { board = engine.new.board } }
    ensures counted { CountsPicture engine.old.settings picture.now counts.old counts.new }
{
    engine.decide(rt, alloc, picture, gate);
    counts.add(engine.config(), picture, engine.board());
}

/// Counts the first moments of a seed, one after the other.
fn count_in_turn<R: Threads + Sync, G: Gate>(
    engine: &mut Engine,
    rt: &R,
    alloc: Global,
    seed: u32,
    moments: u32,
    gate: &G,
) -> Counts
    requires few { moments ≤ 10000 }
    ensures kept { engine.new ≡ record engine.old { board = engine.new.board } }
    ensures counted { AreCounted engine.old.settings (outputs_of seed) 0 moments result }
{
    // its clause says that it is accepted
    let _config = engine.config();
    let mut sequence = Sequence::of(seed);
    let mut picture = empty_picture();
    let mut counts = Counts::new();
    for _time in 0..moments {
        sequence.draw(&mut picture);
        count_one(engine, rt, alloc, &picture, &mut counts, gate);
    }
    counts
}

/// Counts the first moments of a seed: side by side where there are several workers and moments,
/// and memory.
fn count_all<R: Threads + Sync, G: Gate>(
    engine: &mut Engine,
    rt: &R,
    alloc: Global,
    seed: u32,
    moments: u32,
    gate: &G,
) -> Counts
    requires few { moments ≤ 10000 }
    ensures kept { engine.new ≡ record engine.old { board = engine.new.board } }
    ensures counted { AreCounted engine.old.settings (outputs_of seed) 0 moments result }
{
    let mut clerks = clerks_in(alloc, engine.config(), engine.workers(), moments);
    if clerks.is_empty() {
        return count_in_turn(engine, rt, alloc, seed, moments, gate);
    }
    count_beside(
        rt,
        engine.config(),
        clerks.as_mut_slice(),
        seed,
        moments,
        gate,
    )
}

/// Decides the moments that a seed draws, as many as are asked for, at most 10000, and writes their
/// summary: how many aircraft they had, how often each level was an aircraft's alert level, and how
/// often each was the shown level of a candidate of each kind. All is counted before the first byte
/// is written, and the same seed has the same summary for every number of workers. With several
/// workers moments are decided beside one another, if there is memory for them; the engine uses the
/// allocator to decide a moment alone. `SinkFault` is returned only if the sink failed; then a
/// beginning of the summary is written.
pub fn exercise<R: Threads + Sync, K: Sink, G: Gate>(
    engine: &mut Engine,
    rt: &R,
    alloc: Global,
    seed: u32,
    moments: u32,
    sink: &mut K,
    gate: &G,
) -> Result<(), SinkFault>
    requires few { moments ≤ 10000 }
    ensures kept { engine.new ≡ record engine.old { board = engine.new.board } }
    ensures says { SaysSome (IsSummaryOf engine.old.settings seed moments) (K.taken sink.old)
        (K.taken sink.new) (K.faults sink.old) (K.faults sink.new) result }
{
    let top = engine.config().levels();
    let counts = count_all(engine, rt, alloc, seed, moments, gate);
    put(sink, summary(seed, moments, top, &counts).as_slice())
}
