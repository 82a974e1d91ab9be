//! daa_ahead: what is handed out is taken, by turns or ahead; and a read and a piece meet in time.

ghost use Rattle.std.specs.Prelude.{◌≤◌};

use daa_ahead::examples::HoldingSource;
use daa_ahead::{Calls, Ended, Next, Taker, ahead, in_turn};
use daa_io::{Failed, Gate, Meeting, MemSource, Source};
use std::alloc::{AllocError, Global};
use std::sync::atomic::{AtomicU64, Ordering};
use std::test::Fail;
use std::thread;
use std::thread::Threads;
use std::time::{Clock, Duration};

/// Keeps the first 64 bytes that it takes, and wants no more once it has 64.
#[derive(Drop)]
struct Gather {
    bytes: [u8; 64],
    len: usize,
    most: usize,
}

impl Taker for Gather {
    ghost ready = { λ taker piece. Unit {0} };

    ghost takes = { λ taker piece answer after. Unit {0} };

    fn take(&mut self, piece: &[u8]) -> bool {
        for byte in piece {
            if self.len < 64 {
                self.bytes[self.len] = *byte;
                self.len += 1;
            }
        }
        self.len < self.most
    }
}

fn source(alloc: Global, fails: &[u64]) -> Result<MemSource, AllocError> {
    let bytes = b"abcdefgh".to_vec(alloc)?;
    let pieces = [3, 2, 1].to_vec(alloc)?;
    Ok(MemSource::new(bytes, pieces, fails.to_vec(alloc)?))
}

/// The most bytes that are read, how many the taker wants, the call that fails, how it ends, and
/// how many bytes are taken.
static CASES: [(u64, usize, u64, Ended, usize); 7] = [
    (100, 64, 99, Ended::End, 8),
    (8, 64, 99, Ended::End, 8),
    (7, 64, 99, Ended::Limit, 7),
    (1, 64, 99, Ended::Limit, 1),
    (100, 64, 2, Ended::Fault, 5),
    (100, 4, 99, Ended::Stopped, 5),
    (100, 4, 2, Ended::Stopped, 5),
];

#[test]
fn what_is_handed_out_is_taken(rt: HostRuntime) -> Result<(), Fail> {
    for (most, wanted, fails, ended, len) in CASES {
        for places in [0, 1, 4] {
            let mut source = source(rt.alloc(), &[fails])?;
            let mut taker = Gather {
                bytes: [0; 64],
                len: 0,
                most: wanted,
            };
            let mut buf = [0u8; 16];
            let answer = if places == 0 {
                in_turn(&mut source, most, &mut taker, &mut buf)
            } else {
                ahead(
                    &rt,
                    rt.alloc(),
                    &mut source,
                    places,
                    most,
                    &mut taker,
                    &mut buf,
                )
            };
            assert!(rt; answer == ended);
            // pieces that were read ahead may have been given with the one that it stopped at
            let later = ended == Ended::Stopped && places > 0 && len <= taker.len;
            assert!(rt; taker.len == len || later);
            assert!(rt; taker.bytes[..8].starts_with(&b"abcdefgh"[..taker.len.min(8)]));
        }
    }
    Ok(())
}

/// The number under which the taker comes to the meeting; the source comes as 0.
const PIECE: u32 = 1;

#[derive(Drop)]
struct HoldingTaker<'a, G> {
    calls: u8,
    meeting: &'a G,
}

impl<G: Gate> Taker for HoldingTaker<'_, G> {
    ghost ready = { λ taker piece. Unit {0} };

    ghost takes = { λ taker piece answer after. Unit {0} };

    fn take(&mut self, _piece: &[u8]) -> bool {
        if self.calls == 0 {
            self.meeting.pass(PIECE, 0);
        }
        self.calls = self.calls.saturating_add(1);
        true
    }
}

fn meets<R: Threads + Clock + Sync, C: Clock + Sync + Drop>(
    rt: &R,
    alloc: Global,
    clock: C,
) -> Result<bool, AllocError> {
    let meeting = Meeting::of(clock, 2);
    let mut source = HoldingSource {
        inner: source(alloc, &[])?,
        calls: 0,
        waits: 1,
        gate: &meeting,
    };
    let mut taker = HoldingTaker {
        calls: 0,
        meeting: &meeting,
    };
    let mut buf = [0u8; 16];
    let ended = ahead(rt, alloc, &mut source, 4, 100, &mut taker, &mut buf);
    Ok(ended == Ended::End && meeting.has_met())
}

/// As the reader's thread may not be had, the meeting is tried five times.
#[test]
fn the_second_read_and_the_first_piece_meet(rt: HostRuntime) -> Result<(), Fail> {
    let mut met = false;
    for _ in 0..5 {
        if !met {
            met = meets(&rt, rt.alloc(), &rt)?;
        }
    }
    assert!(rt; met);
    Ok(())
}

/// How many reads were made, and a clock to wait by.
#[derive(Drop)]
struct Reads<C> {
    clock: C,
    made: AtomicU64,
}

impl<C: Clock> Reads<C> {
    /// How many reads are beyond so many, once no more come; 0 if that takes a second.
    fn beyond(&self, taken: u64) -> u64 {
        let mut seen = 0;
        for _ in 0..20 {
            thread::sleep(&self.clock, Duration::from_millis(50));
            let made = self.made.load(Ordering::SeqCst);
            if made == seen {
                return made.saturating_sub(taken);
            }
            seen = made;
        }
        0
    }
}

/// A source that counts its reads.
#[derive(Drop)]
struct CountingSource<'a, C> {
    inner: MemSource,
    reads: &'a Reads<C>,
}

impl<C: Clock> Source for CountingSource<'_, C> {
    ghost use Rattle.std.specs.Prelude.{Some};

    ghost left = { λ s. Some s.inner.left };

    ghost faults = { λ s. s.inner.faults };

    fn read(&mut self, buf: &mut [u8]) -> Result<usize, Failed> {
        self.reads.made.fetch_add(1, Ordering::SeqCst);
        self.inner.read(buf)
    }
}

/// A taker that keeps its first pieces, of one byte each, until the reader is as far ahead as it
/// gets, and how many reads were made by then beyond those pieces.
#[derive(Drop)]
struct SlowTaker<'a, C> {
    reads: &'a Reads<C>,
    ahead: Option<u64>,
}

impl<C: Clock> Taker for SlowTaker<'_, C> {
    ghost ready = { λ taker piece. Unit {0} };

    ghost takes = { λ taker piece answer after. Unit {0} };

    fn take(&mut self, piece: &[u8]) -> bool {
        if self.ahead.is_none() {
            self.ahead = Some(self.reads.beyond(piece.len() as u64));
        }
        true
    }
}

/// How many reads of a source of 200 pieces are made while the taker keeps its first ones.
fn reads_ahead<R: Threads + Clock + Sync, C: Clock + Sync + Drop>(
    rt: &R,
    alloc: Global,
    clock: C,
    places: u32,
) -> Result<Option<u64>, AllocError>
    requires { (1 ≤ places) × (places ≤ 1024) }
{
    let reads = Reads {
        clock,
        made: AtomicU64::new(0),
    };
    let bytes = vec![in alloc; 7u8; 200]?;
    let pieces = vec![in alloc; 1; 200]?;
    let mut source = CountingSource {
        inner: MemSource::new(bytes, pieces, Vec::new(alloc)),
        reads: &reads,
    };
    let mut taker = SlowTaker {
        reads: &reads,
        ahead: None,
    };
    let mut buf = [0u8; 16];
    ahead(rt, alloc, &mut source, places, 1000, &mut taker, &mut buf);
    Ok(taker.ahead)
}

/// As many pieces as there are places, and one that finds none. The reader's thread may come late,
/// so each number of places is tried five times.
#[test]
fn as_many_pieces_are_read_ahead_as_there_are_places(rt: HostRuntime) -> Result<(), Fail> {
    for places in [1u32, 4, 16] {
        let mut found = None;
        for _ in 0..5 {
            if found != Some(u64::from(places) + 1) {
                found = reads_ahead(&rt, rt.alloc(), &rt, places)?;
            }
        }
        assert!(rt; found == Some(u64::from(places) + 1));
    }
    Ok(())
}

fn may_be_sent<T: Send>() {}

/// The check refuses a type that may not be sent between threads.
fn values_may_be_sent() {
    may_be_sent::<Calls<()>>();
    may_be_sent::<Ended>();
    may_be_sent::<Next>();
}
