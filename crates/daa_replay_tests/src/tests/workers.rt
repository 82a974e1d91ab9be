//! Several workers: whether they really work side by side.

use super::{expect, replay_by, replayed_at};
use daa_io::{Gate, Meeting, Open};
use std::process::Abort;
use std::sync::atomic::AtomicU64;
use std::sync::atomic::Ordering::SeqCst;
use std::test::Fail;
use std::thread::Threads;
use std::time::Clock;

/// A gate that counts who passes for each of the first four units, and for all others, and at which
/// worker 0 and the first other that comes wait for each other.
#[derive(Drop)]
struct Watched<C> {
    meeting: Meeting<C>,
    passes: [AtomicU64; 4],
    beyond: AtomicU64,
}

impl<C: Clock> Watched<C> {
    fn by(clock: C) -> Self {
        Watched {
            meeting: Meeting::of(clock, 2),
            passes: [
                AtomicU64::new(0),
                AtomicU64::new(0),
                AtomicU64::new(0),
                AtomicU64::new(0),
            ],
            beyond: AtomicU64::new(0),
        }
    }

    /// Each of the four units was passed for so often, and no other.
    fn was_passed(&self, times: u64) -> bool {
        self.passes.iter().all(|count| count.load(SeqCst) == times) && self.beyond.load(SeqCst) == 0
    }
}

impl<C: Clock + Sync> Gate for Watched<C> {
    fn pass(&self, worker: u32, unit: u32) {
        self.passes
            .get(unit as usize)
            .unwrap_or(&self.beyond)
            .fetch_add(1, SeqCst);
        self.meeting.pass(worker.min(1), unit);
    }
}

/// Four aircraft at the ownship's place, which flies with them: four units of work.
const FOUR: &[u8] =
    b"moment 0\nown 0 0 1000 0 3600 0\ntraffic A 0 0 1000 0 3600 0\ntraffic B 0 0 1000 0 3600 0\ntraffic C 0 0 1000 0 3600 0\ntraffic D 0 0 1000 0 3600 0\nend\n";

const FOUR_TEXT: &[u8] = b"moment 0
now A 1
alert A 1 0
now B 1
alert B 1 0
now C 1
alert C 1 0
now D 1
alert D 1 0
track 0 270 1
gs 3600 3600 1
vs 0 0 1
alt 1000 1000 1
resolve track left none right none
resolve gs down none up none
resolve vs down none up none
resolve alt down none up none
done 0
";

/// A replay of the four aircraft by so many workers writes their text.
fn expect_four<R: Abort + Threads + Clock + Sync + AllocGlobal, G: Gate>(
    rt: &R,
    workers: &str,
    gate: &G,
) -> Result<(), Fail> {
    let found = replayed_at(rt, &replay_by(workers), FOUR, 1024, gate)?;
    expect(rt, &found, 0, FOUR_TEXT);
    Ok(())
}

/// Whether worker 0 and another of four come to the gate, which is passed once for each unit.
fn two_meet<R: Abort + Threads + Clock + Sync + AllocGlobal, C: Clock + Sync + Drop>(
    rt: &R,
    clock: C,
) -> Result<bool, Fail> {
    let gate = Watched::by(clock);
    expect_four(rt, "4", &gate)?;
    assert!(rt; gate.was_passed(1));
    Ok(gate.meeting.has_met())
}

/// As a thread may not be had, the meeting is tried five times.
#[test]
fn two_workers_meet_at_the_gate(rt: HostRuntime) -> Result<(), Fail> {
    expect_four(&rt, "1", &Open)?;
    let mut met = false;
    for _ in 0..5 {
        if !met {
            met = two_meet(&rt, &rt)?;
        }
    }
    assert!(rt; met);
    Ok(())
}

/// One thread passes no gate.
#[test]
fn one_worker_meets_nobody(rt: HostRuntime) -> Result<(), Fail> {
    let gate = Watched::by(&rt);
    expect_four(&rt, "1", &gate)?;
    assert!(rt; gate.was_passed(0));
    Ok(())
}
