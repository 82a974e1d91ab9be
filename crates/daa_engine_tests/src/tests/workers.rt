//! Several workers: whether they work side by side, and how often they pass the gate.

use crate::tests::{NORTH, engine_of_workers, picture_in};
use daa_config::examples::{ONE_LEVEL, THREE_LEVELS};
use daa_engine::{Engine, Tickets};
use daa_io::{Gate, Meeting};
use std::process::Abort;
use std::sync::atomic::AtomicU64;
use std::sync::atomic::Ordering::SeqCst;
use std::test::Fail;
use std::thread::{Threads, join};
use std::time::Clock;

/// A gate that counts who passes, for each of the first four units and for all others.
#[derive(Drop)]
struct Counter {
    passes: [AtomicU64; 4],
    others: AtomicU64,
}

impl Counter {
    fn new() -> Counter {
        Counter {
            passes: [
                AtomicU64::new(0),
                AtomicU64::new(0),
                AtomicU64::new(0),
                AtomicU64::new(0),
            ],
            others: AtomicU64::new(0),
        }
    }

    fn passes_of(&self, unit: u32) -> &AtomicU64 {
        self.passes.get(unit as usize).unwrap_or(&self.others)
    }

    /// Each of the four units was passed for so often, and no other.
    fn counts(&self, times: u64) -> bool {
        (0..4).all(|unit| self.passes_of(unit).load(SeqCst) == times)
            && self.others.load(SeqCst) == 0
    }
}

impl Gate for Counter {
    fn pass(&self, _worker: u32, unit: u32) {
        self.passes_of(unit).fetch_add(1, SeqCst);
    }
}

/// The eight candidates are one group, so that each aircraft in reach is one unit.
static FOUR_IN_REACH: [&str; 6] = [
    NORTH,
    "traffic A 0 0 1000 0 3600 0 0",
    "traffic B 0 0 1000 0 3600 0 0",
    "traffic FAR 5162 0 1000 0 0 0 0",
    "traffic C 0 0 1000 0 3600 0 0",
    "traffic D 0 0 1000 0 3600 0 0",
];

static NONE_IN_REACH: [&str; 3] = [
    NORTH,
    "traffic FAR 5162 0 1000 0 0 0 0",
    "traffic HIGH 0 0 1617 0 0 0 0",
];

/// The engine decides the moment of these lines. It promises nothing of the board, since no test
/// needs it.
fn decides<R: Threads + Sync + AllocGlobal, G: Gate>(
    rt: &R,
    engine: &mut Engine,
    lines: &[&str],
    gate: &G,
) -> Result<(), Fail> {
    let picture = picture_in(lines).ok_or("the lines of a moment")?;
    engine.decide(rt, rt.alloc(), &picture, gate);
    Ok(())
}

/// No candidate of the board is covered.
fn is_clear(engine: &Engine) -> bool {
    (0..2048).all(|index| engine.board().mask(index) == 0)
}

/// So many workers pass the gate so often for each unit.
fn passes<R: Abort + Threads + Sync + AllocGlobal>(
    rt: &R,
    workers: u32,
    times: u64,
) -> Result<(), Fail> {
    let mut engine = engine_of_workers(rt, ONE_LEVEL, &[], workers)?;
    let counter = Counter::new();
    decides(rt, &mut engine, &FOUR_IN_REACH, &counter)?;
    assert!(rt; counter.counts(times), "with {workers}");
    assert!(rt; engine.board().mask(0) == 1, "with {workers}");
    decides(rt, &mut engine, &NONE_IN_REACH, &counter)?;
    assert!(rt; counter.counts(times), "with {workers}");
    assert!(rt; is_clear(&engine), "with {workers}");
    Ok(())
}

/// One thread passes no gate, several pass once for each unit, and there is none where no aircraft
/// is in reach.
#[test]
fn the_gate_is_passed_once_for_each_unit_of_several_workers(rt: HostRuntime) -> Result<(), Fail> {
    for (workers, times) in [(1, 0), (2, 1), (4, 1), (16, 1)] {
        passes(&rt, workers, times)?;
    }
    Ok(())
}

/// Whether all of four workers come to the gate.
fn four_meet<R: Abort + Threads + Sync + AllocGlobal, C: Clock + Sync + Drop>(
    rt: &R,
    clock: C,
) -> Result<bool, Fail> {
    let mut engine = engine_of_workers(rt, THREE_LEVELS, &[], 4)?;
    let meeting = Meeting::of(clock, 4);
    decides(rt, &mut engine, &EXAMPLE_MOMENT, &meeting)?;
    Ok(meeting.has_met())
}

/// Each of four workers waits at its first unit until all have come, worker 0 too. As a thread may
/// not be had, the meeting is tried five times.
#[test]
fn four_workers_meet_at_the_gate(rt: HostRuntime) -> Result<(), Fail> {
    let mut met = false;
    for _ in 0..5 {
        if !met {
            met = four_meet(&rt, &rt)?;
        }
    }
    assert!(rt; met);
    Ok(())
}

/// Three levels, 341 candidates, two aircraft in reach.
static EXAMPLE_MOMENT: [&str; 4] = [
    "own 0 0 10000 30 2500 500",
    "traffic A 5200 8900 10900 -1000 -1700 -200 0",
    "traffic FAR 190000 0 9000 0 0 0 0",
    "traffic B -6500 3000 9300 2100 300 300 12",
];

/// Draws so many numbers, and says whether each was the next one.
fn draws_in_turn(tickets: &Tickets, count: usize) -> bool {
    let mut all = true;
    for number in 0..count {
        all = all && tickets.draw() == number;
    }
    all
}

#[test]
fn tickets_are_drawn_in_turn(rt: HostRuntime) -> Result<(), Fail> {
    let tickets = Tickets::new();
    assert!(rt; draws_in_turn(&tickets, 100));
    assert!(rt; tickets.draw() == 100);
    Ok(())
}

fn draw_many(tickets: &Tickets) {
    for _ in 0..1_000_000 {
        let _number = tickets.draw();
    }
}

/// None is lost or drawn twice: so the next number is how many both have drawn.
#[test]
fn two_threads_draw_each_number_once(rt: HostRuntime) -> Result<(), Fail> {
    let tickets = Tickets::new();
    join(&rt, || draw_many(&tickets), || draw_many(&tickets));
    assert!(rt; tickets.draw() == 2_000_000);
    Ok(())
}
