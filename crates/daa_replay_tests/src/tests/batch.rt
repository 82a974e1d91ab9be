//! Moments of one piece, which the workers decide side by side.

use super::{
    COVERED, ONE_LEVEL, Outside, PLAIN, expect_meeting, gives, gives_front, replay_by, replayed_at,
    shelf_with,
};
use daa_io::Gate;
use std::alloc::AllocError;
use std::array;
use std::process::Abort;
use std::sync::atomic::AtomicU64;
use std::sync::atomic::Ordering::SeqCst;
use std::test::Fail;
use std::thread::Threads;
use std::time::Clock;

/// So many moments with one aircraft, in each of which a line is refused.
pub(super) fn moments_of<R: AllocGlobal>(rt: &R, count: u32) -> Result<String, AllocError> {
    let mut input = String::new(rt.alloc());
    for time in 0..count {
        let head = format!(in rt.alloc(); "moment {time}\nown 0 0 1000 0 3600 0\n")?;
        input.push_str(head.as_str())?;
        input.push_str("traffic A 0 0 1000 0 3600 0\nx\nend\n")?;
    }
    Ok(input)
}

/// The report of so many moments that `moments_of` makes, whose aircraft is where the ownship is,
/// and of each of which the fourth of five lines is refused. The first moment's alert is as given.
pub(super) fn report_of<R: AllocGlobal>(
    rt: &R,
    count: u32,
    first: u32,
) -> Result<String, AllocError> {
    let mut report = String::new(rt.alloc());
    for time in 0..count {
        let refused = time.saturating_mul(5).saturating_add(4);
        let alert = if time == 0 { first } else { 0 };
        let text = format!(in rt.alloc();
            "refused {refused} 2\nmoment {time}\nnow A 1\nalert A 1 {alert}\n{COVERED}done {time}\n"
        )?;
        report.push_str(text.as_str())?;
    }
    Ok(report)
}

/// A replay by so many workers over this input ends with this status and this text.
fn gives_by<R: Abort + Threads + Clock + Sync + AllocGlobal>(
    rt: &R,
    workers: &str,
    input: &[u8],
    outside: Outside<'_>,
    status: u8,
    text: &[u8],
) -> Result<(), Fail> {
    let words = replay_by(workers);
    let by = Outside {
        words: &words,
        ..outside
    };
    gives(rt, input, by, status, text)
}

#[test]
fn two_lanes_run_at_once(rt: HostRuntime) -> Result<(), Fail> {
    let (input, text) = (moments_of(&rt, 300)?, report_of(&rt, 300, 0)?);
    let mut shelf = shelf_with(&rt, ONE_LEVEL, &[])?;
    let (input, text) = (input.as_bytes(), text.as_bytes());
    expect_meeting(&rt, &rt, &replay_by("2"), &mut shelf, input, 1, text)
}

/// A sink that fails within the texts of moments that were decided side by side took a beginning.
#[test]
fn a_sink_fails_within_a_batch(rt: HostRuntime) -> Result<(), Fail> {
    let (input, text) = (moments_of(&rt, 300)?, report_of(&rt, 300, 0)?);
    for room in [0, 1, 226, 1000, 20_000, 50_000] {
        gives_front(&rt, input.as_bytes(), PLAIN, text.as_bytes(), room)?;
    }
    Ok(())
}

/// By so many workers a sink that takes single bytes, and fails at the write behind so many of
/// them, took these bytes and no more.
fn writes_until<R: Abort + Threads + Clock + Sync + AllocGlobal>(
    rt: &R,
    workers: &str,
    input: &[u8],
    text: &[u8],
    fails: usize,
) -> Result<(), Fail> {
    let ones = vec![in rt.alloc(); 1usize; fails]?;
    let front = text.get(..fails).ok_or("a front of the text")?;
    let outside = Outside {
        room: text.len(),
        write_pieces: ones.as_slice(),
        write_fails: &[fails as u64],
        ..PLAIN
    };
    gives_by(rt, workers, input, outside, 5, front)
}

/// A write that fails is not tried again, though the sink would take further bytes.
#[test]
fn a_write_fails_within_a_batch(rt: HostRuntime) -> Result<(), Fail> {
    let (input, text) = (moments_of(&rt, 300)?, report_of(&rt, 300, 0)?);
    for workers in ["1", "3", "4", "16"] {
        for fails in [0, 1, 226, 20_000, 50_000] {
            writes_until(&rt, workers, input.as_bytes(), text.as_bytes(), fails)?;
        }
    }
    Ok(())
}

/// By so many workers a replay of pieces of this size, whose read of this number fails, writes this
/// text.
fn reads_until<R: Abort + Threads + Clock + Sync + AllocGlobal>(
    rt: &R,
    workers: &str,
    input: &[u8],
    size: usize,
    fails: u64,
    text: &[u8],
) -> Result<(), Fail> {
    let outside = Outside {
        read_pieces: &[size; 3],
        read_fails: &[fails],
        ..PLAIN
    };
    gives_by(rt, workers, input, outside, 4, text)
}

/// A read that fails behind a batch is not tried again, though the source would hand out further
/// moments. What was read before is reported: nothing, or the first piece's text.
#[test]
fn a_read_fails_behind_a_batch(rt: HostRuntime) -> Result<(), Fail> {
    let (front, text) = (moments_of(&rt, 100)?, report_of(&rt, 100, 0)?);
    let input = moments_of(&rt, 300)?;
    for workers in ["1", "3", "16"] {
        for (fails, text) in [(0, ""), (1, text.as_str())] {
            let size = front.len();
            reads_until(&rt, workers, input.as_bytes(), size, fails, text.as_bytes())?;
        }
    }
    Ok(())
}

/// One more than the number of the last line of 300 moments.
const LINES: usize = 1501;

/// A gate that counts who passes, for each line of the piece and for all other units.
#[derive(Drop)]
pub(super) struct Tally {
    passes: [AtomicU64; LINES],
    beyond: AtomicU64,
}

impl Tally {
    pub(super) fn new() -> Tally {
        Tally {
            passes: array::from_fn(|_| AtomicU64::new(0)),
            beyond: AtomicU64::new(0),
        }
    }

    /// How often the gate was passed for a line.
    fn passes(&self, line: usize) -> u64 {
        match self.passes.get(line) {
            Some(count) => count.load(SeqCst),
            None => 0,
        }
    }

    /// Each fifth line, which ends a moment, was passed for once, and no other unit.
    pub(super) fn has_passed_each_moment_once(&self) -> bool {
        self.passes(0) == 0
            && (1..LINES).all(|line| self.passes(line) == (line % 5 == 0) as u64)
            && self.beyond.load(SeqCst) == 0
    }
}

impl Gate for Tally {
    fn pass(&self, _worker: u32, unit: u32) {
        self.passes
            .get(unit as usize)
            .unwrap_or(&self.beyond)
            .fetch_add(1, SeqCst);
    }
}

/// So many workers pass the gate once for each moment of the input's batch.
fn passes_once<R: Abort + Threads + Clock + Sync + AllocGlobal>(
    rt: &R,
    workers: &str,
    input: &[u8],
) -> Result<(), Fail> {
    let tally = Tally::new();
    let (status, _text) = replayed_at(rt, &replay_by(workers), input, 100_000, &tally)?;
    assert!(rt; status == 1);
    assert!(rt; tally.has_passed_each_moment_once(), "with {workers}");
    Ok(())
}

/// The unit of a moment is the number of its last line.
#[test]
fn the_gate_is_passed_once_for_each_moment_of_a_batch(rt: HostRuntime) -> Result<(), Fail> {
    let input = moments_of(&rt, 300)?;
    for workers in ["2", "16"] {
        passes_once(&rt, workers, input.as_bytes())?;
    }
    Ok(())
}
