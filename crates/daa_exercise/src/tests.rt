//! Draws that another program found from the definitions, the gate, and a sink that fails.
//! Summaries are in `tests/cases`.

ghost use Rattle.std.specs.Prelude.{◌<◌, ◌≤◌};

use super::*;
use crate::sequence::{Sequence, empty_picture};
use daa_config::examples::ONE_LEVEL;
use daa_config::read;
use daa_engine::Engine;
use daa_io::{Gate, Meeting, MemSink, Open};
use daa_report::SinkFault;
use daa_state::{Id, Own, PairBounds, Picture, Traffic};
use std::alloc::Global;
use std::array;
use std::process::Abort;
use std::sync::atomic::AtomicU64;
use std::sync::atomic::Ordering::SeqCst;
use std::test::Fail;
use std::thread::Threads;

/// One level, three moments.
const THREE: &str = "exercise 1 3
aircraft 7
alert 6 1
track 8 4
gs 2 1
vs 2 1
alt 2 1
done
";

/// The aircraft of the first moment of the seed 7.
static FIRST: [(&str, [i32; 6]); 3] = [
    ("A1", [4580, 474, 1225, -2328, -127, -1150]),
    ("A2", [-5597, -3793, 2769, -4166, 3871, 1905]),
    ("A3", [-3555, 665, 878, -3236, -764, -1033]),
];

fn engine_of(rt: &(impl AllocGlobal + Abort), text: &str) -> Result<Engine, Fail> {
    let config = read(rt.alloc(), text.as_bytes())?;
    Ok(Engine::new(rt.alloc(), config, 1)?)
}

/// A sink with so much room, which takes pieces of these sizes and fails at these calls.
fn sink(alloc: Global, room: usize, pieces: &[usize], fails: &[u64]) -> Result<MemSink, Fail> {
    Ok(MemSink::over(
        vec![in alloc; 0; room]?,
        pieces.to_vec(alloc)?,
        fails.to_vec(alloc)?,
    ))
}

/// The numbers that the first moment of a seed draws, in their order.
#[test]
fn the_first_moment_of_a_seed(rt: HostRuntime) {
    let mut picture = empty_picture();
    Sequence::of(7).draw(&mut picture);
    let own = Own {
        x: 0,
        y: 0,
        alt: 1232,
        trk: 86,
        gs: 2732,
        vs: 1808,
    };
    assert!(rt; picture.time == 0 && picture.own == own);
    assert!(rt; picture.traffic.len() == FIRST.len());
    for (aircraft, (name, numbers)) in picture.traffic.as_slice().iter().zip(FIRST.iter()) {
        let [x, y, alt, vx, vy, vs] = *numbers;
        let id = Id::of(name.as_bytes()).expect(&rt, "an identifier");
        let expected = Traffic {
            id,
            x,
            y,
            alt,
            vx,
            vy,
            vs,
            age: 0,
            bounds: PairBounds::EXACT,
        };
        assert!(rt; *aircraft == expected, "{name}");
    }
}

/// The first moment has two aircraft, both in reach, each of which is one unit of work. One thread
/// passes no gate; of moments that are decided beside one another each is one unit.
#[test]
fn the_gate_is_passed_once_for_each_unit(rt: HostRuntime) -> Result<(), Fail> {
    for (workers, moments, passes) in [(1, 1, 0), (1, 3, 0), (2, 1, 2), (2, 3, 3)] {
        assert!(rt; 0 < workers && workers <= 16 && moments <= 10000);
        let config = read(rt.alloc(), ONE_LEVEL.as_bytes())?;
        let mut engine = Engine::new(rt.alloc(), config, workers)?;
        let mut out = sink(rt.alloc(), 512, &[], &[])?;
        let tally = Tally::new();
        let said = exercise(&mut engine, &rt, rt.alloc(), 1, moments, &mut out, &tally);
        assert_eq!(rt; said, Ok(()));
        assert!(rt; moments < 3 || out.taken() == THREE.as_bytes());
        assert!(rt; tally.has_passed_first(passes), "with {workers}");
    }
    Ok(())
}

/// How many moments are decided beside one another. They are work for five workers and more.
const MANY: u32 = 300;

/// Decides so many moments by these workers, who pass this gate.
fn exercise_many<R: Abort + Threads + Sync + AllocGlobal, G: Gate>(
    rt: &R,
    workers: u32,
    gate: &G,
) -> Result<(), Fail>
    requires workers { 0 < workers }
    requires few { workers ≤ 16 }
{
    let config = read(rt.alloc(), ONE_LEVEL.as_bytes())?;
    let mut engine = Engine::new(rt.alloc(), config, workers)?;
    let mut out = sink(rt.alloc(), 512, &[], &[])?;
    let said = exercise(&mut engine, rt, rt.alloc(), 1, MANY, &mut out, gate);
    assert_eq!(rt; said, Ok(()));
    Ok(())
}

/// A gate that counts who passes, for each of the moments and for all other units.
#[derive(Drop)]
struct Tally {
    passes: [AtomicU64; MANY as usize],
    beyond: AtomicU64,
}

impl Tally {
    fn new() -> Tally {
        Tally {
            passes: array::from_fn(|_| AtomicU64::new(0)),
            beyond: AtomicU64::new(0),
        }
    }

    /// Each of the first so many units was passed for once, and no other unit.
    fn has_passed_first(&self, units: usize) -> bool {
        let mut all = self.beyond.load(SeqCst) == 0;
        for (unit, count) in self.passes.iter().enumerate() {
            all = all && count.load(SeqCst) == (unit < units) as u64;
        }
        all
    }
}

impl Gate for Tally {
    fn pass(&self, _worker: u32, unit: u32) {
        self.passes
            .get(unit as usize)
            .unwrap_or(&self.beyond)
            .fetch_add(1, SeqCst);
    }
}

/// The unit of a moment that is decided beside others is its time.
#[test]
fn the_gate_is_passed_once_for_each_moment_of_a_batch(rt: HostRuntime) -> Result<(), Fail> {
    for workers in [2, 3, 16] {
        assert!(rt; 0 < workers && workers <= 16);
        let tally = Tally::new();
        exercise_many(&rt, workers, &tally)?;
        assert!(rt; tally.has_passed_first(MANY as usize), "with {workers}");
    }
    Ok(())
}

/// Both workers wait at the gate until the other has come. As a thread may not be had, the meeting
/// is tried five times.
#[test]
fn two_workers_decide_moments_at_once(rt: HostRuntime) -> Result<(), Fail> {
    let mut met = false;
    for _ in 0..5 {
        if !met {
            let meeting = Meeting::of(&rt, 2);
            exercise_many(&rt, 2, &meeting)?;
            met = meeting.has_met();
        }
    }
    assert!(rt; met);
    Ok(())
}

/// What a sink took before it failed is a beginning of the summary.
#[test]
fn a_sink_that_fails(rt: HostRuntime) -> Result<(), Fail> {
    let mut engine = engine_of(&rt, ONE_LEVEL)?;
    let mut out = sink(rt.alloc(), 512, &[7, 7], &[2])?;
    let said = exercise(&mut engine, &rt, rt.alloc(), 1, 3, &mut out, &Open);
    assert_eq!(rt; said, Err(SinkFault));
    assert_eq!(rt; out.taken(), &THREE.as_bytes()[..14]);
    Ok(())
}
