//! Limits and faults of the shelf, the source and the sink.

use super::{
    ALL, NEVER, ONE, ONE_TEXT, ONES, Outside, PLAIN, REPLAY, Row, gives, gives_each, gives_front,
    shelf_with, status_of,
};
use daa_config::examples::ONE_LEVEL;
use daa_io::{MemSource, Open, Void};
use std::process::Abort;
use std::test::Fail;
use std::thread::Threads;
use std::time::Clock;

/// Limits, and faults of each object alone.
static ROWS: [Row; 10] = [
    (b"\n\n\n\n", &[], [NEVER; 3], 4, 0, b""),
    (b"\n\n\n\n\n", &[], [NEVER; 3], 4, 8, b""),
    (ONE, &[], [NEVER; 3], 62, 8, b""),
    (ONE, &[], [NEVER; 3], 63, 0, ONE_TEXT),
    (ONE, &ONES, [NEVER, 63, NEVER], ALL, 4, ONE_TEXT),
    // the end is met once, and not asked for again
    (ONE, &ONES, [NEVER, 64, NEVER], ALL, 0, ONE_TEXT),
    (ONE, &[], [0, NEVER, NEVER], ALL, 7, b""),
    (ONE, &[], [1, NEVER, NEVER], ALL, 0, ONE_TEXT),
    // an input that gives nothing writes nothing, not even a piece of no bytes
    (b"", &[], [NEVER, NEVER, 0], ALL, 0, b""),
    // the first write is that of the aircraft's lines
    (
        ONE,
        &[],
        [NEVER, NEVER, 1],
        ALL,
        5,
        b"moment 0\nnow A 1\nalert A 1 0\n",
    ),
];

#[test]
fn each_limit_and_each_fault_has_its_status(rt: HostRuntime) -> Result<(), Fail> {
    gives_each(&rt, REPLAY, &ROWS)
}

/// A replay that reads single bytes, and whose read of this number fails before the input's end.
fn reads_bytes<R: Abort + Threads + Clock + Sync + AllocGlobal>(
    rt: &R,
    fails: u64,
) -> Result<(), Fail> {
    let outside = Outside {
        read_pieces: &ONES,
        read_fails: &[fails],
        ..PLAIN
    };
    gives(rt, ONE, outside, 4, b"")
}

#[test]
fn a_read_that_fails_ends_the_run(rt: HostRuntime) -> Result<(), Fail> {
    for fails in 0..63 {
        reads_bytes(&rt, fails)?;
    }
    Ok(())
}

/// A replay whose sink takes single bytes, and fails after so many of them.
fn writes_until<R: Abort + Threads + Clock + Sync + AllocGlobal>(
    rt: &R,
    fails: u64,
    taken: usize,
) -> Result<(), Fail> {
    let outside = Outside {
        write_pieces: &[1; 213],
        write_fails: &[fails],
        ..PLAIN
    };
    let front = ONE_TEXT.get(..taken).ok_or("a front of the text")?;
    gives(rt, ONE, outside, 5, front)
}

#[test]
fn a_write_that_fails_ends_the_run(rt: HostRuntime) -> Result<(), Fail> {
    for (fails, taken) in (0..213u64).zip(0..213usize) {
        writes_until(&rt, fails, taken)?;
    }
    gives_front(&rt, ONE, PLAIN, ONE_TEXT, 212)
}

/// What is written where the words are not taken.
const USAGE: &[u8] =
    b"usage: daidalus replay --config FILE [--workers N] [--ahead N] | exercise --config FILE --seed N --moments M [--workers N] | judge --config FILE --states FILE [--workers N]\n";

const THREE_MOMENTS: [&str; 8] = [
    "daidalus",
    "exercise",
    "--config",
    "c",
    "--seed",
    "1",
    "--moments",
    "3",
];

/// The summary of three moments under one level, which another program found from the definitions.
const THREE: &[u8] = b"exercise 1 3
aircraft 7
alert 6 1
track 8 4
gs 2 1
vs 2 1
alt 2 1
done
";

/// Words, a configuration, the whole text of a run without faults, and how much of it a sink takes.
static FRONTS: [(&[&str], &str, &[u8], usize); 6] = [
    (&["daidalus"], ONE_LEVEL, USAGE, 0),
    (&["daidalus"], ONE_LEVEL, USAGE, 20),
    (REPLAY, "", b"config 4\n", 5),
    (&THREE_MOMENTS, ONE_LEVEL, THREE, 0),
    (&THREE_MOMENTS, ONE_LEVEL, THREE, 1),
    (&THREE_MOMENTS, ONE_LEVEL, THREE, 70),
];

/// Of the usage line, of a refused configuration's line and of a summary.
#[test]
fn a_sink_that_fails_has_taken_a_beginning(rt: HostRuntime) -> Result<(), Fail> {
    for (words, config, text, room) in &FRONTS {
        let outside = Outside {
            words,
            config,
            ..PLAIN
        };
        gives_front(&rt, ONE, outside, text, *room)?;
    }
    Ok(())
}

/// The source is not read, so that one that would fail does not matter; and a shelf that fails ends
/// it before.
#[test]
fn an_exercise_reads_nothing(rt: HostRuntime) -> Result<(), Fail> {
    let alloc = rt.alloc();
    for (fetch_fails, ends) in [(1, 0), (0, 7)] {
        let mut shelf = shelf_with(&rt, ONE_LEVEL, &[fetch_fails])?;
        let mut source = MemSource::new(Vec::new(alloc), Vec::new(alloc), [0].to_vec(alloc)?);
        let status = status_of(
            &rt,
            &THREE_MOMENTS,
            &mut shelf,
            &mut source,
            &mut Void,
            &Open,
        )?;
        assert!(rt; status == ends);
    }
    Ok(())
}
