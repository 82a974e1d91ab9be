//! Reading ahead of the report keeps each fault and each limit in its place.

use super::{
    NEVER, ONE, ONE_LEVEL, ONE_TEXT, ONES, REPLAY, Row, SEVENS, expect, gives_each, shelf_with,
    source_of, status_of, whole_sink,
};
use daa_ahead::examples::HoldingSource;
use daa_io::{Failed, Gate, Meeting, MemSink, Open, Sink};
use std::alloc::AllocError;
use std::process::Abort;
use std::test::Fail;
use std::thread::Threads;
use std::time::Clock;

/// The words that ask for a replay by turns, and for reading ahead by one piece and by four.
static READINGS: [&[&str]; 3] = [
    REPLAY,
    &["daidalus", "replay", "--config", "c", "--ahead", "1"],
    &["daidalus", "replay", "--config", "c", "--ahead", "4"],
];

/// Pieces of nine bytes.
const NINES: [usize; 8] = [9; 8];

/// `ONE` with three lines more.
const LONGER: &[u8] = b"moment 0\nown 0 0 1000 0 3600 0\ntraffic A 0 0 1000 0 3600 0\nend\n\n\n\n";

/// How much of the report is written before what is behind the lines of aircraft.
const FRONT: &[u8] = b"moment 0\nnow A 1\nalert A 1 0\n";

/// Limits, faults, and both.
static ROWS: [Row; 13] = [
    (ONE, &[], [NEVER; 3], 63, 0, ONE_TEXT),
    (ONE, &ONES, [NEVER; 3], 62, 8, b""),
    (ONE, &ONES, [NEVER; 3], 63, 0, ONE_TEXT),
    (ONE, &SEVENS, [NEVER; 3], 62, 8, b""),
    (ONE, &SEVENS, [NEVER; 3], 63, 0, ONE_TEXT),
    (b"\n\n\n\n\n", &[], [NEVER; 3], 4, 8, b""),
    (ONE, &NINES, [NEVER, 7, 0], 63, 5, b""),
    (ONE, &NINES, [NEVER, 6, 0], 63, 4, b""),
    (ONE, &NINES, [NEVER, 1, NEVER], 63, 4, b""),
    (ONE, &NINES, [NEVER, NEVER, 1], 63, 5, FRONT),
    (ONE, &NINES, [NEVER, 7, NEVER], 63, 4, ONE_TEXT),
    // the end is met once, and not asked for again
    (ONE, &NINES, [NEVER, 8, NEVER], 63, 0, ONE_TEXT),
    // the sink fails before the limit, though bytes past it are read ahead
    (LONGER, &NINES, [NEVER, NEVER, 0], 64, 5, b""),
];

#[test]
fn reading_ahead_keeps_faults_and_limits_in_their_places(rt: HostRuntime) -> Result<(), Fail> {
    for words in &READINGS {
        gives_each(&rt, words, &ROWS)?;
    }
    Ok(())
}

/// The number under which the sink comes to the meeting; the source comes as 0.
const WRITE: u32 = 1;

/// A sink whose first write waits at a gate.
#[derive(Drop)]
struct HoldingSink<'a, G> {
    inner: MemSink,
    calls: u8,
    meeting: &'a G,
}

impl<G: Gate> Sink for HoldingSink<'_, G> {
    ghost use Rattle.std.specs.Prelude.{Some};

    ghost taken = { λ s. Some s.inner.taken };

    ghost faults = { λ s. s.inner.faults };

    fn write(&mut self, piece: &[u8]) -> Result<usize, Failed> {
        if self.calls == 0 {
            self.meeting.pass(WRITE, 0);
        }
        self.calls = self.calls.saturating_add(1);
        self.inner.write(piece)
    }
}

/// The status of a replay that reads four pieces ahead, and what its sink took. The eighth read and
/// the first write wait at the gate.
fn status_held<R: Threads + Clock + Sync + AllocGlobal, G: Gate>(
    rt: &R,
    gate: &G,
) -> Result<(u8, Vec<u8>), AllocError> {
    let mut shelf = shelf_with(rt, ONE_LEVEL, &[])?;
    let mut source = HoldingSource {
        inner: source_of(rt, LONGER, &NINES, &[])?,
        calls: 0,
        waits: 7,
        gate,
    };
    let mut sink = HoldingSink {
        inner: whole_sink(rt, 1024)?,
        calls: 0,
        meeting: gate,
    };
    let status = status_of(rt, READINGS[2], &mut shelf, &mut source, &mut sink, &Open)?;
    Ok((status, sink.inner.taken().to_vec(rt.alloc())?))
}

/// Whether a replay that reads four pieces ahead reads on while it writes the report of a moment.
fn reads_on<R: Abort + Threads + Clock + Sync + AllocGlobal, C: Clock + Sync + Drop>(
    rt: &R,
    clock: C,
) -> Result<bool, Fail> {
    let meeting = Meeting::of(clock, 2);
    let found = status_held(rt, &meeting)?;
    expect(rt, &found, 0, ONE_TEXT);
    Ok(meeting.has_met())
}

/// As the reader's thread may not be had, the meeting is tried five times.
#[test]
fn the_read_behind_a_moment_and_its_report_meet(rt: HostRuntime) -> Result<(), Fail> {
    let mut met = false;
    for _ in 0..5 {
        if !met {
            met = reads_on(&rt, &rt)?;
        }
    }
    assert!(rt; met);
    Ok(())
}
