use super::*;
use crate::file_shelf::text_of;
use std::alloc::{AllocError, Global};
use std::error::Error;
use std::io::ErrorKind;
use std::process::Abort;
use std::test::Fail;
use std::thread::{Threads, join};
use std::time::{Clock, Duration};
use std::{fs, io};

// Each call goes through its trait.

fn read<S: Source>(source: &mut S, buf: &mut [u8]) -> Result<usize, Failed> {
    source.read(buf)
}

fn write<K: Sink>(sink: &mut K, piece: &[u8]) -> Result<usize, Failed> {
    sink.write(piece)
}

fn pass<G: Gate>(gate: &G) {
    gate.pass(0, 0);
}

/// How many bytes the text has, and its first one.
fn fetch<F: Shelf>(
    alloc: Global,
    shelf: &mut F,
    name: &str,
) -> Result<(usize, Option<u8>), FetchFault> {
    let text = shelf.fetch(alloc, name)?;
    Ok((text.len(), text.first().copied()))
}

/// Each read into a buffer of four bytes has this answer, and leaves these bytes there.
fn expect_reads<S: Source>(
    rt: &impl Abort,
    source: &mut S,
    reads: &[(Result<usize, Failed>, [u8; 4])],
) {
    let mut buf = [b'-'; 4];
    for (answer, handed) in reads {
        assert!(rt; read(source, &mut buf) == *answer, "before {handed:?}");
        assert!(rt; buf == *handed, "{buf:?}, not {handed:?}");
    }
}

/// Each write of a piece has this answer.
fn expect_writes<K: Sink>(rt: &impl Abort, sink: &mut K, writes: &[(&str, Result<usize, Failed>)]) {
    for (piece, answer) in writes {
        assert!(rt; write(sink, piece.as_bytes()) == *answer, "at {piece}");
    }
}

/// Each name has this answer.
fn expect_fetches<F: Shelf>(
    rt: &(impl AllocGlobal + Abort),
    shelf: &mut F,
    fetches: &[(&str, Result<(usize, Option<u8>), FetchFault>)],
) {
    for (name, answer) in fetches {
        assert!(rt; fetch(rt.alloc(), shelf, name) == *answer, "at {name}");
    }
}

static READS: [(Result<usize, Failed>, [u8; 4]); 5] = [
    (Ok(2), *b"ab--"),
    (Ok(1), *b"cb--"),
    (Err(Failed), *b"cb--"),
    (Ok(3), *b"def-"),
    (Ok(0), *b"def-"),
];

#[test]
fn a_source_hands_out_its_pieces_and_fails_at_the_named_call(rt: HostRuntime) -> Result<(), Fail> {
    let bytes = b"abcdef".to_vec(rt.alloc())?;
    let pieces = [2, 0].to_vec(rt.alloc())?;
    let fails = [2].to_vec(rt.alloc())?;
    let mut source = MemSource::new(bytes, pieces, fails);
    expect_reads(&rt, &mut source, &READS);
    Ok(())
}

static CALM_READS: [(Result<usize, Failed>, [u8; 4]); 4] = [
    (Ok(1), *b"a---"),
    (Ok(2), *b"bc--"),
    (Ok(3), *b"def-"),
    (Ok(0), *b"def-"),
];

#[test]
fn a_calm_source_hands_out_its_pieces(rt: HostRuntime) -> Result<(), Fail> {
    let bytes = b"abcdef".to_vec(rt.alloc())?;
    let pieces = [0, 2].to_vec(rt.alloc())?;
    let mut source = CalmSource::new(bytes, pieces);
    expect_reads(&rt, &mut source, &CALM_READS);
    Ok(())
}

static WRITES: [(&str, Result<usize, Failed>); 7] = [
    ("abc", Ok(2)),
    ("cd", Ok(1)),
    ("d", Err(Failed)),
    ("", Ok(0)),
    ("defg", Ok(2)),
    ("fg", Err(Failed)),
    ("", Err(Failed)),
];

#[test]
fn a_sink_takes_pieces_until_it_is_full(rt: HostRuntime) -> Result<(), Fail> {
    let room = [0; 5].to_vec(rt.alloc())?;
    let pieces = [2, 0].to_vec(rt.alloc())?;
    let fails = [2].to_vec(rt.alloc())?;
    let mut sink = MemSink::over(room, pieces, fails);
    expect_writes(&rt, &mut sink, &WRITES);
    assert!(rt; sink.taken() == b"abcde".as_slice());
    Ok(())
}

#[test]
fn a_void_takes_each_piece_whole(rt: HostRuntime) {
    expect_writes(&rt, &mut Void, &[("abc", Ok(3)), ("", Ok(0))]);
}

/// Texts under the names a, b, a and c, and a name without a text; the first call fails, and the
/// third.
fn some_shelf(rt: &HostRuntime) -> Result<MemShelf, AllocError> {
    let alloc = rt.alloc();
    let mut names = Vec::new(alloc);
    for name in ["a", "b", "a", "c", "d"] {
        names.push(String::from_str(alloc, name)?)?;
    }
    Ok(MemShelf::new(names, some_texts(alloc)?, [0, 2].to_vec(alloc)?))
}

fn some_texts(alloc: Global) -> Result<Vec<Vec<u8>>, AllocError> {
    let mut texts = Vec::new(alloc);
    for (byte, count) in [(b'1', 5), (b'2', 65537), (b'3', 5), (b'4', 65536)] {
        texts.push(vec![in alloc; byte; count]?)?;
    }
    Ok(texts)
}

static FETCHES: [(&str, Result<(usize, Option<u8>), FetchFault>); 7] = [
    ("a", Err(FetchFault::Failed)),
    ("a", Ok((5, Some(b'1')))),
    ("b", Err(FetchFault::Failed)),
    ("b", Err(FetchFault::TooLong)),
    ("c", Ok((65536, Some(b'4')))),
    ("d", Err(FetchFault::Failed)),
    ("e", Err(FetchFault::Failed)),
];

#[test]
fn a_shelf_gives_the_text_under_the_name(rt: HostRuntime) -> Result<(), Fail> {
    let mut shelf = some_shelf(&rt)?;
    expect_fetches(&rt, &mut shelf, &FETCHES);
    Ok(())
}

static CALM_FETCHES: [(&str, Result<(usize, Option<u8>), FetchFault>); 2] = [
    ("a", Ok((5, Some(b'x')))),
    ("", Ok((5, Some(b'x')))),
];

#[test]
fn a_calm_shelf_gives_its_text_under_every_name(rt: HostRuntime) -> Result<(), Fail> {
    let mut shelf = CalmShelf::of([b'x'; 5].to_vec(rt.alloc())?);
    expect_fetches(&rt, &mut shelf, &CALM_FETCHES);
    Ok(())
}

static PIPED: [(Result<usize, Failed>, [u8; 4]); 3] = [
    (Ok(4), *b"abcd"),
    (Ok(2), *b"efcd"),
    (Ok(0), *b"efcd"),
];

// Real bytes through the system, by a pipe in place of the standard streams.
#[test]
fn bytes_pass_from_a_real_sink_to_a_real_source(rt: HostRuntime) -> Result<(), Fail> {
    let (reader, writer) = io::pipe(&rt)?;
    let mut sink = StdSink::new(writer);
    expect_writes(&rt, &mut sink, &[("abcdef", Ok(6)), ("", Ok(0))]);
    drop(sink);
    let mut source = StdSource::new(reader);
    expect_reads(&rt, &mut source, &PIPED);
    Ok(())
}

#[test]
fn errors_of_the_system_are_faults(rt: HostRuntime) -> Result<(), Fail> {
    let mut folder = StdSource::new(fs::open(&rt, ".")?);
    assert!(rt; read(&mut folder, &mut [0; 4]).is_err());
    let mut read_only = StdSink::new(fs::open(&rt, ".")?);
    assert!(rt; write(&mut read_only, b"a").is_err());
    Ok(())
}

/// A reader and a writer whose call of this number fails, from 0, once. Every other call moves one
/// byte.
#[derive(Drop)]
struct FailsOnce {
    at: u32,
    calls: u32,
    kind: ErrorKind,
}

impl FailsOnce {
    fn at(at: u32, kind: ErrorKind) -> FailsOnce {
        FailsOnce { at, calls: 0, kind }
    }

    /// Counts a call.
    fn call(&mut self) -> io::Result<()> {
        let call = self.calls;
        self.calls = call.saturating_add(1);
        if call == self.at {
            return Err(io::Error::from(self.kind));
        }
        Ok(())
    }
}

impl io::Read for FailsOnce {
    fn read(&mut self, buf: &mut [u8]) -> io::Result<usize> {
        self.call()?;
        match buf.first_mut() {
            Some(byte) => {
                *byte = b'x';
                Ok(1)
            }
            None => Ok(0),
        }
    }
}

/// Each write and each flush is a call.
impl io::Write for FailsOnce {
    fn write(&mut self, buf: &[u8]) -> io::Result<usize> {
        self.call()?;
        Ok(buf.len().min(1))
    }

    fn flush(&mut self) -> io::Result<()> {
        self.call()
    }
}

/// One that another try might pass, and one that it might not.
static KINDS: [ErrorKind; 2] = [ErrorKind::Interrupted, ErrorKind::BrokenPipe];

static BYTE_BY_BYTE: [(Result<usize, Failed>, [u8; 4]); 3] = [
    (Ok(1), *b"x---"),
    (Err(Failed), *b"x---"),
    (Ok(1), *b"x---"),
];

/// The call that fails returns, and the next one is made when the caller makes it.
#[test]
fn a_read_that_fails_is_not_tried_again(rt: HostRuntime) {
    for kind in KINDS {
        let mut reader = FailsOnce::at(1, kind);
        let mut source = StdSource::new(&mut reader);
        expect_reads(&rt, &mut source, &BYTE_BY_BYTE);
        assert!(rt; reader.calls == 3, "at {kind:?}");
    }
}

static ONE_OF_TWO: [(&str, Result<usize, Failed>); 3] = [
    ("ab", Ok(1)),
    ("ab", Err(Failed)),
    ("ab", Ok(1)),
];

/// A write that is taken is two calls of the writer, the write and the flush.
#[test]
fn a_write_that_fails_is_not_tried_again(rt: HostRuntime) {
    for kind in KINDS {
        for (at, calls) in [(2, 5), (3, 6)] {
            let mut writer = FailsOnce::at(at, kind);
            let mut sink = StdSink::new(&mut writer);
            expect_writes(&rt, &mut sink, &ONE_OF_TWO);
            assert!(rt; writer.calls == calls, "at {at}, {kind:?}");
        }
    }
}

#[test]
fn a_write_of_no_bytes_is_a_fault(rt: HostRuntime) {
    let mut room = [0; 1];
    let mut full = StdSink::new(room.as_mut_slice());
    expect_writes(
        &rt,
        &mut full,
        &[("ab", Ok(1)), ("b", Err(Failed)), ("", Ok(0))],
    );
}

/// A writer that can be flushed this many times, and then fails; what was written waits for a
/// flush.
#[derive(Drop)]
struct Flushes {
    left: u32,
    waits: bool,
}

impl io::Write for Flushes {
    fn write(&mut self, buf: &[u8]) -> io::Result<usize> {
        self.waits = true;
        Ok(buf.len())
    }

    fn flush(&mut self) -> io::Result<()> {
        if self.left == 0 {
            return Err(io::Error::from(io::ErrorKind::BrokenPipe));
        }
        self.left -= 1;
        self.waits = false;
        Ok(())
    }
}

#[test]
fn each_write_is_flushed(rt: HostRuntime) {
    let mut writer = Flushes {
        left: 2,
        waits: false,
    };
    for (piece, left) in [("a", 1), ("b", 0)] {
        let mut sink = StdSink::new(&mut writer);
        expect_writes(&rt, &mut sink, &[(piece, Ok(1))]);
        assert!(rt; writer.left == left && !writer.waits, "after {piece}");
    }
    let mut sink = StdSink::new(&mut writer);
    expect_writes(&rt, &mut sink, &[("c", Err(Failed))]);
}

/// A file of so many letters x.
fn write_letters(rt: &HostRuntime, path: &str, count: usize) -> Result<(), Fail> {
    let text = vec![in rt.alloc(); b'x'; count]?;
    Ok(fs::write(rt, path, text)?)
}

/// A count of letters, and what a file of them gives.
static FILES: [(usize, Result<(usize, Option<u8>), FetchFault>); 4] = [
    (0, Ok((0, None))),
    (5, Ok((5, Some(b'x')))),
    (65536, Ok((65536, Some(b'x')))),
    (65537, Err(FetchFault::TooLong)),
];

static NO_FILES: [(&str, Result<(usize, Option<u8>), FetchFault>); 2] = [
    ("daa_io_a_text", Err(FetchFault::Failed)),
    (".", Err(FetchFault::Failed)),
];

#[test]
fn a_shelf_of_files_gives_a_files_bytes(rt: HostRuntime) -> Result<(), Fail> {
    const PATH: &str = "daa_io_a_text";
    let mut shelf = FileShelf::new(&rt);
    for (count, answer) in &FILES {
        write_letters(&rt, PATH, *count)?;
        expect_fetches(&rt, &mut shelf, &[(PATH, *answer)]);
    }
    fs::write(&rt, PATH, b"a\n\0\xff".to_vec(rt.alloc())?)?;
    let text = shelf.fetch(rt.alloc(), PATH).map_err(|_| "a text")?;
    assert!(rt; text.as_slice() == b"a\n\0\xff".as_slice());
    fs::remove_file(&rt, PATH)?;
    expect_fetches(&rt, &mut shelf, &NO_FILES);
    Ok(())
}

const BLANKS: &str = " daa outside blanks ";

const TRIMMED: &str = "daa outside blanks";

static ONE_FILE: [(&str, Result<(usize, Option<u8>), FetchFault>); 2] = [
    (BLANKS, Ok((2, Some(b'x')))),
    (TRIMMED, Err(FetchFault::Failed)),
];

static BOTH_FILES: [(&str, Result<(usize, Option<u8>), FetchFault>); 2] = [
    (BLANKS, Ok((2, Some(b'x')))),
    (TRIMMED, Ok((1, Some(b'x')))),
];

/// Blanks belong to the name: the file with them is another one than the file without.
#[test]
fn a_name_with_blanks_is_the_name_of_a_file(rt: HostRuntime) -> Result<(), Fail> {
    let mut shelf = FileShelf::new(&rt);
    write_letters(&rt, BLANKS, 2)?;
    expect_fetches(&rt, &mut shelf, &ONE_FILE);
    write_letters(&rt, TRIMMED, 1)?;
    expect_fetches(&rt, &mut shelf, &BOTH_FILES);
    fs::remove_file(&rt, BLANKS)?;
    fs::remove_file(&rt, TRIMMED)?;
    Ok(())
}

/// The answer for a file whose third read fails so.
fn fault_at(alloc: Global, kind: ErrorKind) -> Option<FetchFault> {
    text_of(alloc, FailsOnce::at(2, kind)).err()
}

#[test]
fn want_of_memory_while_a_file_is_read_is_told(rt: HostRuntime) {
    assert!(rt; fault_at(rt.alloc(), ErrorKind::OutOfMemory) == Some(FetchFault::NoMemory));
    assert!(rt; fault_at(rt.alloc(), ErrorKind::BrokenPipe) == Some(FetchFault::Failed));
}

/// A file without an end is read until it is too long.
#[test]
fn a_file_without_an_end_is_too_long(rt: HostRuntime) {
    let mut endless = FailsOnce::at(u32::MAX, ErrorKind::BrokenPipe);
    assert!(rt; text_of(rt.alloc(), &mut endless).err() == Some(FetchFault::TooLong));
    assert!(rt; endless.calls == 65537);
}

/// A clock by which nobody sleeps.
#[derive(Drop)]
struct Sleepless;

impl Clock for Sleepless {
    fn monotonic(&self) -> io::Result<Duration> {
        Ok(Duration::ZERO)
    }

    fn since_1970(&self) -> io::Result<Duration> {
        Ok(Duration::ZERO)
    }
}

#[test]
fn one_thread_meets_nobody(rt: HostRuntime) {
    let meeting = Meeting::of(Sleepless, 2);
    for (worker, unit) in [(0, 0), (0, 1), (1, 2), (2, 3), (16, 4)] {
        assert!(rt; !meeting.has_met());
        meeting.pass(worker, unit);
    }
    assert!(rt; !meeting.has_met());
}

#[test]
fn one_worker_alone_meets_itself(rt: HostRuntime) {
    let meeting = Meeting::of(Sleepless, 1);
    meeting.pass(16, 0);
    assert!(rt; !meeting.has_met());
    meeting.pass(15, 1);
    assert!(rt; meeting.has_met());
}

/// Two threads pass as these workers, and have met.
fn meets_as<R: Threads + Sync, C: Clock + Sync + Drop>(
    rt: &R,
    clock: C,
    one: u32,
    other: u32,
) -> bool {
    let meeting = Meeting::of(clock, 2);
    join(rt, || meeting.pass(one, 0), || meeting.pass(other, 1));
    meeting.has_met()
}

/// As a thread may start late, or not at all, the meeting is tried five times.
#[test]
fn two_threads_meet(rt: HostRuntime) {
    let mut met = false;
    for _ in 0..5 {
        met = met || meets_as(&rt, &rt, 0, 15);
    }
    assert!(rt; met);
    assert!(rt; !meets_as(&rt, Sleepless, 3, 3));
}

fn text_of_fault<E: Error>(alloc: Global, fault: E) -> Result<String, AllocError> {
    format!(in alloc; "{fault}")
}

static SENTENCES: [(FetchFault, &str); 3] = [
    (
        FetchFault::Failed,
        "the shelf failed, or holds no text under the name",
    ),
    (
        FetchFault::TooLong,
        "the text under the name has more than 65536 bytes",
    ),
    (FetchFault::NoMemory, "there was no memory for the text"),
];

#[test]
fn each_fault_has_a_sentence(rt: HostRuntime) -> Result<(), Fail> {
    let text = text_of_fault(rt.alloc(), Failed)?;
    assert!(rt; text.as_str() == "a call to the outside failed");
    for (fault, sentence) in SENTENCES {
        let text = text_of_fault(rt.alloc(), fault)?;
        assert!(rt; text.as_str() == sentence, "{text}");
    }
    Ok(())
}

fn may_be_sent<T: Send>() {}

fn may_be_shared<T: Sync>() {}

#[test]
fn each_type_may_be_sent_and_a_gate_shared(rt: HostRuntime) {
    may_be_sent::<MemSource>();
    may_be_sent::<MemSink>();
    may_be_sent::<MemShelf>();
    may_be_sent::<CalmSource>();
    may_be_sent::<CalmShelf>();
    may_be_sent::<Void>();
    may_be_sent::<StdSource<io::Stdin>>();
    may_be_sent::<StdSink<io::Stdout>>();
    may_be_sent::<FileShelf<HostRuntime>>();
    may_be_sent::<Failed>();
    may_be_sent::<FetchFault>();
    may_be_sent::<Open>();
    may_be_sent::<Meeting<HostRuntime>>();
    may_be_shared::<Open>();
    pass(&Open);
    assert!(rt; write(&mut StdSink::new(rt.stdout()), b"") == Ok(0));
}
