//! Comparisons with the report of states on the shelf, that end by a fault or a limit.

use super::{
    ALL, NEVER, ONE, ONE_TEXT, ONES, Outside, PLAIN, Row, behaving, expect, status_over, strings,
    with_room_for,
};
use daa_io::MemShelf;
use std::alloc::AllocError;
use std::process::Abort;
use std::test::Fail;
use std::thread::Threads;
use std::time::Clock;

/// A comparison under one level; nothing fails, and pieces have any size.
pub(super) const JUDGE: Outside<'static> = Outside {
    words: &["daidalus", "judge", "--config", "c", "--states", "s"],
    ..PLAIN
};

/// A shelf that holds the configuration under the name `c` and the states under the name `s`.
pub(super) fn shelf_of_both<R: AllocGlobal>(
    rt: &R,
    states: &[u8],
    outside: Outside<'_>,
) -> Result<MemShelf, AllocError> {
    let alloc = rt.alloc();
    let mut texts = Vec::new(alloc);
    texts.push(outside.config.as_bytes().to_vec(alloc)?)?;
    texts.push(states.to_vec(alloc)?)?;
    let fails = outside.fetch_fails.to_vec(alloc)?;
    Ok(MemShelf::new(strings(rt, &["c", "s"])?, texts, fails))
}

/// A comparison of a report with that of the states, which lie under the name `s`, ends with this
/// status and this text.
pub(super) fn judges<R: Abort + Threads + Clock + Sync + AllocGlobal>(
    rt: &R,
    states: &[u8],
    report: &[u8],
    outside: Outside<'_>,
    status: u8,
    text: &[u8],
) -> Result<(), Fail> {
    let mut shelf = shelf_of_both(rt, states, outside)?;
    let found = status_over(rt, &mut shelf, report, with_room_for(outside, status, text))?;
    expect(rt, &found, status, text);
    Ok(())
}

/// The report with another third line.
const OTHER: &[u8] = b"moment 0
now A 1
alert A 1 1
track 0 270 1
";

/// The report with one more line end, 214 bytes.
const LONGER: &[u8] = b"moment 0
now A 1
alert A 1 0
track 0 270 1
gs 3600 3600 1
vs 0 0 1
alt 1000 1000 1
resolve track left none right none
resolve gs down none up none
resolve vs down none up none
resolve alt down none up none
done 0

";

/// Comparisons of these reports with that of `ONE`.
static ROWS: [Row; 12] = [
    (ONE_TEXT, &[], [0, NEVER, NEVER], ALL, 7, b""),
    (ONE_TEXT, &[], [1, NEVER, NEVER], ALL, 7, b""),
    (ONE_TEXT, &[], [2, NEVER, NEVER], ALL, 0, b"same\n"),
    (OTHER, &[], [NEVER, 1, NEVER], ALL, 1, b"differs 3\n"),
    (ONE_TEXT, &[], [NEVER, 0, NEVER], ALL, 4, b""),
    // the end is met once, and not asked for again
    (ONE_TEXT, &[], [NEVER, 2, NEVER], ALL, 0, b"same\n"),
    (b"", &[], [NEVER, 1, NEVER], ALL, 1, b"differs 1\n"),
    (ONE_TEXT, &[], [NEVER; 3], 212, 8, b""),
    (ONE_TEXT, &[], [NEVER; 3], 213, 0, b"same\n"),
    (LONGER, &[], [NEVER; 3], 213, 8, b""),
    (LONGER, &[], [NEVER; 3], 214, 1, b"differs 13\n"),
    (b"x", &[], [NEVER; 3], 1, 1, b"differs 1\n"),
];

#[test]
fn each_limit_and_each_fault_has_its_status(rt: HostRuntime) -> Result<(), Fail> {
    for row in &ROWS {
        judges(&rt, ONE, row.0, behaving(JUDGE.words, row), row.4, row.5)?;
    }
    Ok(())
}

/// A comparison of the report, byte by byte, whose read of this number fails.
fn judges_bytes<R: Abort + Threads + Clock + Sync + AllocGlobal>(
    rt: &R,
    fails: u64,
    status: u8,
    text: &[u8],
) -> Result<(), Fail> {
    let outside = Outside {
        read_pieces: &[1; 213],
        read_fails: &[fails],
        ..JUDGE
    };
    judges(rt, ONE, ONE_TEXT, outside, status, text)
}

#[test]
fn a_read_that_fails_ends_the_comparison(rt: HostRuntime) -> Result<(), Fail> {
    // one read for each byte of the report, and one that meets its end
    for fails in 0..214 {
        judges_bytes(&rt, fails, 4, b"")?;
    }
    judges_bytes(&rt, 214, 0, b"same\n")
}

/// A comparison whose sink takes single bytes, and fails after so many of this line.
fn writes_front<R: Abort + Threads + Clock + Sync + AllocGlobal>(
    rt: &R,
    report: &[u8],
    line: &[u8],
    fails: u64,
    taken: usize,
) -> Result<(), Fail> {
    let outside = Outside {
        write_pieces: &ONES,
        write_fails: &[fails],
        ..JUDGE
    };
    let front = line.get(..taken).ok_or("a front of the line")?;
    judges(rt, ONE, report, outside, 5, front)
}

/// Reports and the line that a comparison of each writes.
static TOLD: [(&[u8], &[u8]); 2] = [(ONE_TEXT, b"same\n"), (OTHER, b"differs 3\n")];

#[test]
fn a_line_that_is_not_written_is_a_write_fault(rt: HostRuntime) -> Result<(), Fail> {
    for (report, line) in &TOLD {
        for (fails, taken) in (0..line.len() as u64).zip(0..line.len()) {
            writes_front(&rt, report, line, fails, taken)?;
        }
    }
    let states = vec![in rt.alloc(); b'x'; 65537]?;
    let short = Outside { room: 8, ..JUDGE };
    judges(&rt, states.as_slice(), b"", short, 5, b"states l")
}
