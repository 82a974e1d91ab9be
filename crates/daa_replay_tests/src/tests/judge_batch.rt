//! Moments of states, which the workers of a comparison decide side by side.

use super::batch::{Tally, moments_of, report_of};
use super::judge::{JUDGE, judges, shelf_of_both};
use super::{ALL, NEVER, Outside, expect, expect_meeting, status_at};
use daa_io::MemShelf;
use std::process::Abort;
use std::test::Fail;
use std::thread::Threads;
use std::time::Clock;

/// The words of a comparison by so many workers.
fn judge_by(workers: &str) -> [&str; 8] {
    [
        "daidalus",
        "judge",
        "--config",
        "c",
        "--states",
        "s",
        "--workers",
        workers,
    ]
}

/// By each number of workers a comparison with the report of 300 moments ends with this status and
/// this text. The first moment's alert in what is read is at this second: at second 0 it is that of
/// the states' report, which differs otherwise in its fourth line.
fn ends<R: Abort + Threads + Clock + Sync + AllocGlobal>(
    rt: &R,
    first: u32,
    outside: Outside<'_>,
    status: u8,
    text: &[u8],
) -> Result<(), Fail> {
    let (states, report) = (moments_of(rt, 300)?, report_of(rt, 300, first)?);
    for workers in ["1", "2", "3", "4", "16"] {
        let words = judge_by(workers);
        let by = Outside {
            words: &words,
            ..outside
        };
        judges(rt, states.as_bytes(), report.as_bytes(), by, status, text)?;
    }
    Ok(())
}

/// The second of the first alert, the read that fails, the most bytes that are read, the status and
/// the text. The report has 69158 bytes.
static ROWS: [(u32, u64, u64, u8, &[u8]); 9] = [
    (0, 0, ALL, 4, b""),
    (0, 1, ALL, 4, b""),
    (0, 2, ALL, 4, b""),
    (0, 9, ALL, 4, b""),
    // one worker meets its fourth line by the second read, several by the first
    (1, 2, ALL, 1, b"differs 4\n"),
    (0, NEVER, 1000, 8, b""),
    (0, NEVER, 69_157, 8, b""),
    (0, NEVER, 69_158, 0, b"same\n"),
    (1, NEVER, 1000, 1, b"differs 4\n"),
];

/// A fault or a limit ends a comparison, unless it differed before.
#[test]
fn a_fault_or_a_limit_ends_a_shared_comparison(rt: HostRuntime) -> Result<(), Fail> {
    for (first, fails, most, status, text) in &ROWS {
        let outside = Outside {
            read_fails: &[*fails],
            most: *most,
            ..JUDGE
        };
        ends(&rt, *first, outside, *status, text)?;
    }
    Ok(())
}

/// Two workers judge at once, and find that the report is that of the states.
#[test]
fn two_workers_judge_at_once(rt: HostRuntime) -> Result<(), Fail> {
    let (states, report) = (moments_of(&rt, 300)?, report_of(&rt, 300, 0)?);
    let mut shelf = shelf_of_both(&rt, states.as_bytes(), JUDGE)?;
    let report = report.as_bytes();
    expect_meeting(&rt, &rt, &judge_by("2"), &mut shelf, report, 0, b"same\n")
}

/// Two workers pass the gate once for each moment, and find that the report is that of the states.
fn two_pass_once<R: Abort + Threads + Clock + Sync + AllocGlobal>(
    rt: &R,
    shelf: &mut MemShelf,
    report: &[u8],
) -> Result<(), Fail> {
    let tally = Tally::new();
    let found = status_at(rt, &judge_by("2"), shelf, report, 100, &tally)?;
    expect(rt, &found, 0, b"same\n");
    assert!(rt; tally.has_passed_each_moment_once());
    Ok(())
}

/// The unit of a moment is the number of its last line, as in a replay.
#[test]
fn the_gate_is_passed_once_for_each_moment_of_a_judgement(rt: HostRuntime) -> Result<(), Fail> {
    let (states, report) = (moments_of(&rt, 300)?, report_of(&rt, 300, 0)?);
    let mut shelf = shelf_of_both(&rt, states.as_bytes(), JUDGE)?;
    two_pass_once(&rt, &mut shelf, report.as_bytes())
}
