//! Runs over a source, a sink, a shelf or a gate that no program has: it fails, it waits, or it
//! counts who passes. What a run writes for an input is in `tests/cases`.

mod ahead;
mod batch;
mod faults;
mod judge;
mod judge_batch;
mod workers;

use daa_config::examples::ONE_LEVEL;
use daa_io::{
    CalmShelf, CalmSource, Gate, Meeting, MemShelf, MemSink, MemSource, Open, Shelf, Sink, Source,
    Void,
};
use daa_replay::{Event, run, run_within};
use std::alloc::AllocError;
use std::process::Abort;
use std::test::Fail;
use std::thread::Threads;
use std::time::Clock;

/// The command words, what the shelf holds under the name `c`, how the shelf, the source and the
/// sink behave, and how many bytes may be read.
#[derive(Clone, Copy)]
struct Outside<'a> {
    words: &'a [&'a str],
    config: &'a str,
    fetch_fails: &'a [u64],
    read_pieces: &'a [usize],
    read_fails: &'a [u64],
    room: usize,
    write_pieces: &'a [usize],
    write_fails: &'a [u64],
    most: u64,
}

/// The words of a replay.
const REPLAY: &[&str] = &["daidalus", "replay", "--config", "c"];

/// The words of a replay by so many workers.
fn replay_by(workers: &str) -> [&str; 6] {
    ["daidalus", "replay", "--config", "c", "--workers", workers]
}

/// A replay under one level; nothing fails, and pieces have any size.
const PLAIN: Outside<'static> = Outside {
    words: REPLAY,
    config: ONE_LEVEL,
    fetch_fails: &[],
    read_pieces: &[],
    read_fails: &[],
    room: 8192,
    write_pieces: &[],
    write_fails: &[],
    most: 1 << 40,
};

/// The bands and answers of a moment under one level, where every candidate is covered.
const COVERED: &str = "track 0 270 1
gs 3600 3600 1
vs 0 0 1
alt 1000 1000 1
resolve track left none right none
resolve gs down none up none
resolve vs down none up none
resolve alt down none up none
";

/// An input, the pieces in which it is read, which call of the shelf, of the source and of the sink
/// fails, how many bytes may be read, the status and the text.
type Row = (
    &'static [u8],
    &'static [usize],
    [u64; 3],
    u64,
    u8,
    &'static [u8],
);

/// The number of a call that is not made, and a limit that is not reached.
const NEVER: u64 = 999;

const ALL: u64 = 1 << 40;

/// Pieces of one byte, and of seven, for inputs of at most 72 bytes and texts of at most 72 pieces.
const ONES: [usize; 72] = [1; 72];

const SEVENS: [usize; 72] = [7; 72];

/// One moment with one aircraft at the ownship's place, 63 bytes.
const ONE: &[u8] = b"moment 0\nown 0 0 1000 0 3600 0\ntraffic A 0 0 1000 0 3600 0\nend\n";

/// Its report, 213 bytes.
const ONE_TEXT: &[u8] = b"moment 0
now A 1
alert A 1 0
track 0 270 1
gs 3600 3600 1
vs 0 0 1
alt 1000 1000 1
resolve track left none right none
resolve gs down none up none
resolve vs down none up none
resolve alt down none up none
done 0
";

/// The words as strings.
fn strings<R: AllocGlobal>(rt: &R, words: &[&str]) -> Result<Vec<String>, AllocError> {
    let mut strings = Vec::new(rt.alloc());
    for word in words {
        strings.push(String::from_str(rt.alloc(), word)?)?;
    }
    Ok(strings)
}

/// A shelf that holds the configuration under the name `c`.
fn shelf_with<R: AllocGlobal>(rt: &R, config: &str, fails: &[u64]) -> Result<MemShelf, AllocError> {
    let alloc = rt.alloc();
    let mut texts = Vec::new(alloc);
    texts.push(config.as_bytes().to_vec(alloc)?)?;
    Ok(MemShelf::new(strings(rt, &["c"])?, texts, fails.to_vec(alloc)?))
}

/// A source of these bytes, in such pieces, which fails at these reads.
fn source_of<R: AllocGlobal>(
    rt: &R,
    bytes: &[u8],
    pieces: &[usize],
    fails: &[u64],
) -> Result<MemSource, AllocError> {
    let alloc = rt.alloc();
    Ok(MemSource::new(
        bytes.to_vec(alloc)?,
        pieces.to_vec(alloc)?,
        fails.to_vec(alloc)?,
    ))
}

/// A sink of this room, which takes such pieces and fails at these writes.
fn sink_of<R: AllocGlobal>(
    rt: &R,
    room: usize,
    pieces: &[usize],
    fails: &[u64],
) -> Result<MemSink, AllocError> {
    let alloc = rt.alloc();
    Ok(MemSink::over(
        vec![in alloc; 0; room]?,
        pieces.to_vec(alloc)?,
        fails.to_vec(alloc)?,
    ))
}

/// The status of a run over these objects that reads at most so many bytes. Like [`status_of`], it
/// promises nothing of them.
fn status_within<R: Threads + Clock + Sync + AllocGlobal>(
    rt: &R,
    words: &[&str],
    shelf: &mut MemShelf,
    source: &mut MemSource,
    sink: &mut MemSink,
    most: u64,
) -> Result<u8, Fail> {
    if most == 0 || most > 1 << 40 {
        return Err("a limit from 1 to 2^40".into());
    }
    let words = strings(rt, words)?;
    Ok(run_within(
        rt,
        rt.alloc(),
        words.as_slice(),
        shelf,
        source,
        sink,
        &Open,
        most,
    ))
}

/// The status of a run over this shelf and this input, and what the sink took.
fn status_over<R: Threads + Clock + Sync + AllocGlobal>(
    rt: &R,
    shelf: &mut MemShelf,
    input: &[u8],
    outside: Outside<'_>,
) -> Result<(u8, Vec<u8>), Fail> {
    let mut source = source_of(rt, input, outside.read_pieces, outside.read_fails)?;
    let mut sink = sink_of(rt, outside.room, outside.write_pieces, outside.write_fails)?;
    let status = status_within(
        rt,
        outside.words,
        shelf,
        &mut source,
        &mut sink,
        outside.most,
    )?;
    Ok((status, sink.taken().to_vec(rt.alloc())?))
}

/// The status of a run over this input, and what the sink took.
fn status_and_text<R: Threads + Clock + Sync + AllocGlobal>(
    rt: &R,
    input: &[u8],
    outside: Outside<'_>,
) -> Result<(u8, Vec<u8>), Fail> {
    let mut shelf = shelf_with(rt, outside.config, outside.fetch_fails)?;
    status_over(rt, &mut shelf, input, outside)
}

/// A run ended with this status, and the sink took this text.
fn expect(rt: &impl Abort, found: &(u8, Vec<u8>), status: u8, text: &[u8]) {
    let (ended, taken) = found;
    assert!(rt; *ended == status, "{ended}, not {status}");
    assert!(rt; taken.as_slice() == text, "{taken:?}");
}

/// The same with a sink that has room for this text and no more, unless the sink is to fail: then a
/// write that is not needed fails, also one of no bytes.
fn with_room_for<'a>(outside: Outside<'a>, status: u8, text: &[u8]) -> Outside<'a> {
    if status == 5 {
        return outside;
    }
    let room = text.len();
    Outside { room, ..outside }
}

/// A run over this input ends with this status and this text, for which the sink has just room.
fn gives<R: Abort + Threads + Clock + Sync + AllocGlobal>(
    rt: &R,
    input: &[u8],
    outside: Outside<'_>,
    status: u8,
    text: &[u8],
) -> Result<(), Fail> {
    let found = status_and_text(rt, input, with_room_for(outside, status, text))?;
    expect(rt, &found, status, text);
    Ok(())
}

/// A run of these words under one level, whose objects behave as the row says.
fn behaving<'a>(words: &'a [&'a str], row: &'a Row) -> Outside<'a> {
    let (_, read_pieces, fails, most, _, _) = row;
    Outside {
        words,
        read_pieces,
        fetch_fails: &fails[..1],
        read_fails: &fails[1..2],
        write_fails: &fails[2..],
        most: *most,
        ..PLAIN
    }
}

/// Each row's run of these words ends as the row says.
fn gives_each<'a, R: Abort + Threads + Clock + Sync + AllocGlobal>(
    rt: &R,
    words: &'a [&'a str],
    rows: &'a [Row],
) -> Result<(), Fail> {
    for row in rows {
        gives(rt, row.0, behaving(words, row), row.4, row.5)?;
    }
    Ok(())
}

/// The sink of a run over this input has room for so many bytes of the text alone, and the run ends
/// with a fault of the sink.
fn gives_front<R: Abort + Threads + Clock + Sync + AllocGlobal>(
    rt: &R,
    input: &[u8],
    outside: Outside<'_>,
    text: &[u8],
    room: usize,
) -> Result<(), Fail> {
    let front = text.get(..room).ok_or("a front of the text")?;
    gives(rt, input, Outside { room, ..outside }, 5, front)
}

/// The status of a run over these objects. It promises nothing of them, since no test needs it.
fn status_of<R, F: Shelf, S: Source + Send, K: Sink + Send, G: Gate>(
    rt: &R,
    words: &[&str],
    shelf: &mut F,
    source: &mut S,
    sink: &mut K,
    gate: &G,
) -> Result<u8, AllocError>
where
    R: Threads + Clock + Sync + AllocGlobal,
{
    let words = strings(rt, words)?;
    Ok(run(rt, rt.alloc(), words.as_slice(), shelf, source, sink, gate))
}

/// A source of these bytes, in pieces of any size, that does not fail.
fn whole_source<R: AllocGlobal>(rt: &R, bytes: &[u8]) -> Result<MemSource, AllocError> {
    source_of(rt, bytes, &[], &[])
}

/// A sink of this room that takes each piece whole.
fn whole_sink<R: AllocGlobal>(rt: &R, room: usize) -> Result<MemSink, AllocError> {
    sink_of(rt, room, &[], &[])
}

/// The status of a run of these words over this shelf and this input, whose workers pass this gate,
/// and what the sink took, which has so much room.
fn status_at<R: Threads + Clock + Sync + AllocGlobal, G: Gate>(
    rt: &R,
    words: &[&str],
    shelf: &mut MemShelf,
    input: &[u8],
    room: usize,
    gate: &G,
) -> Result<(u8, Vec<u8>), AllocError> {
    let mut source = whole_source(rt, input)?;
    let mut sink = whole_sink(rt, room)?;
    let status = status_of(rt, words, shelf, &mut source, &mut sink, gate)?;
    Ok((status, sink.taken().to_vec(rt.alloc())?))
}

/// The same over a shelf with one level.
fn replayed_at<R: Threads + Clock + Sync + AllocGlobal, G: Gate>(
    rt: &R,
    words: &[&str],
    input: &[u8],
    room: usize,
    gate: &G,
) -> Result<(u8, Vec<u8>), AllocError> {
    let mut shelf = shelf_with(rt, ONE_LEVEL, &[])?;
    status_at(rt, words, &mut shelf, input, room, gate)
}

/// Whether two workers of a run of these words over this shelf and this input come to the gate. The
/// run ends with this status and this text.
fn have_met<R: Abort + Threads + Clock + Sync + AllocGlobal, C: Clock + Sync + Drop>(
    rt: &R,
    clock: C,
    words: &[&str],
    shelf: &mut MemShelf,
    input: &[u8],
    status: u8,
    text: &[u8],
) -> Result<bool, Fail> {
    let meeting = Meeting::of(clock, 2);
    let found = status_at(rt, words, shelf, input, text.len(), &meeting)?;
    expect(rt, &found, status, text);
    Ok(meeting.has_met())
}

/// Two workers of such a run wait at a gate until both have come. As a thread may not be had, the
/// meeting is tried five times.
fn expect_meeting<R: Abort + Threads + Clock + Sync + AllocGlobal, C: Clock + Sync + Copy + Drop>(
    rt: &R,
    clock: C,
    words: &[&str],
    shelf: &mut MemShelf,
    input: &[u8],
    status: u8,
    text: &[u8],
) -> Result<(), Fail> {
    for _ in 0..5 {
        if have_met(rt, clock, words, shelf, input, status, text)? {
            return Ok(());
        }
    }
    Err("two workers that meet".into())
}

#[test]
fn a_run_reads_to_its_end(rt: HostRuntime) -> Result<(), Fail> {
    let found = replayed_at(&rt, REPLAY, ONE, 300, &Open)?;
    expect(&rt, &found, 0, ONE_TEXT);
    Ok(())
}

/// Over objects that never fail.
#[test]
fn a_run_without_faults_is_accepted(rt: HostRuntime) -> Result<(), Fail> {
    let alloc = rt.alloc();
    let mut shelf = CalmShelf::of(ONE_LEVEL.as_bytes().to_vec(alloc)?);
    let mut source = CalmSource::new(ONE.to_vec(alloc)?, Vec::new(alloc));
    let status = status_of(&rt, REPLAY, &mut shelf, &mut source, &mut Void, &Open)?;
    assert!(rt; status == 0);
    Ok(())
}

fn may_be_sent<T: Send>() {}

/// The check refuses a type that may not be sent between threads.
fn values_may_be_sent() {
    may_be_sent::<Event>();
}
