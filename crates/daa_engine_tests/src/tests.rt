//! What an engine answers when it is asked, sinks that fail, and workers. What it writes of a
//! moment is in `tests/cases`.

ghost use Rattle.std.specs.Prelude.{IfSome};
ghost use Rattle.daa_state.specs.InRange.{IsPictureInRange};

mod workers;

use daa_config::examples::ONE_LEVEL;
use daa_config::{Config, Kind, read};
use daa_engine::{Engine, Room};
use daa_io::{MemSink, Open};
use daa_recovery::Recovery;
use daa_state::examples::{ABEAM, NORTH};
use daa_state::{Moments, Picture, read_line};
use std::alloc::Global;
use std::process::Abort;
use std::test::Fail;
use std::thread::Threads;

/// Still, 0.4 miles to the right and 0.1 ahead.
const BESIDE: &str = "traffic A 400 100 1000 0 0 0 0";

/// Every candidate meets the aircraft, which violates the volume now.
const TOGETHER: &str = "moment 0
now A 1
alert A 1 0
track 0 270 1
gs 3600 3600 1
vs 0 0 1
alt 1000 1000 1
resolve track left none right none
resolve gs down none up none
resolve vs down none up none
resolve alt down none up none
done 0
";

/// The moment of these lines at time 0, each traffic line with its age.
fn picture_in(lines: &[&str]) -> Option<Picture>
    ensures { IfSome result IsPictureInRange }
{
    let mut moments = Moments::new();
    take_line(&mut moments, "format 2")?;
    take_line(&mut moments, "moment 0")?;
    for line in lines {
        take_line(&mut moments, line)?;
    }
    take_line(&mut moments, "end")?
}

/// A picture where the line ends a moment; nothing at all where it is refused.
fn take_line(moments: &mut Moments, line: &str) -> Option<Option<Picture>>
    ensures { IfSome result (λ picture. IfSome picture IsPictureInRange) }
{
    match read_line(line.as_bytes(), 2) {
        Ok(word) => moments.take(word).ok(),
        Err(_) => None,
    }
}

fn config_of(
    rt: &(impl AllocGlobal + Abort),
    text: &str,
    edits: &[(&str, &str)],
) -> Result<Config, Fail> {
    let mut edited = String::from_str(rt.alloc(), text)?;
    for (old, new) in edits {
        assert!(rt; edited.contains(*old), "the text has no {old}");
        edited = edited.replacen(rt.alloc(), *old, *new, 1)?;
    }
    Ok(read(rt.alloc(), edited.as_str().as_bytes())?)
}

/// An engine of one worker.
fn engine_of(
    rt: &(impl AllocGlobal + Abort),
    text: &str,
    edits: &[(&str, &str)],
) -> Result<Engine, Fail> {
    engine_of_workers(rt, text, edits, 1)
}

/// An engine of 1 to 16 workers.
fn engine_of_workers(
    rt: &(impl AllocGlobal + Abort),
    text: &str,
    edits: &[(&str, &str)],
    workers: u32,
) -> Result<Engine, Fail> {
    if workers < 1 || workers > 16 {
        return Err("a number of workers from 1 to 16".into());
    }
    Ok(Engine::new(rt.alloc(), config_of(rt, text, edits)?, workers)?)
}

/// A sink with so much room, which fails at these calls.
fn sink(alloc: Global, room: usize, fails: &[u64]) -> Result<MemSink, Fail> {
    Ok(MemSink::over(
        vec![in alloc; 0; room]?,
        Vec::new(alloc),
        fails.to_vec(alloc)?,
    ))
}

/// Whether the engine says all of the moment of these lines to a sink of this room that fails at
/// these calls, and what the sink then has. It promises nothing, since no test needs it.
fn said_by<R: Threads + Sync + AllocGlobal>(
    rt: &R,
    engine: &mut Engine,
    lines: &[&str],
    room: usize,
    fails: &[u64],
) -> Result<(bool, Vec<u8>), Fail> {
    let picture = picture_in(lines).ok_or("the lines of a moment")?;
    let mut out = sink(rt.alloc(), room, fails)?;
    let said = engine.report(rt, rt.alloc(), &picture, &mut out, &Open);
    Ok((said.is_ok(), out.taken().to_vec(rt.alloc())?))
}

/// An aircraft that is far away, and one that is touched in 10 seconds.
static FAR_AND_ABEAM: [&str; 3] = [NORTH, "traffic FAR 5162 0 1000 0 0 0 0", ABEAM];

/// Whether the aircraft at a place of the moment has this alert level and this first leg.
fn has_alert(engine: &Engine, lines: &[&str], place: usize, level: u8, first: Option<u32>) -> bool {
    let Some(picture) = picture_in(lines) else {
        return false;
    };
    if place >= picture.traffic.len() {
        return false;
    }
    let alert = engine.alert_of(&picture, place);
    alert.level == level && alert.first == first
}

#[test]
fn the_alert_of_an_aircraft(rt: HostRuntime) -> Result<(), Fail> {
    let engine = engine_of(&rt, ONE_LEVEL, &[("tthr = 35", "tthr = 0")])?;
    assert!(rt; has_alert(&engine, &FAR_AND_ABEAM, 0, 0, None));
    assert!(rt; has_alert(&engine, &FAR_AND_ABEAM, 1, 1, Some(9)));
    Ok(())
}

/// The aircraft is where the ownship is.
#[test]
fn the_level_of_a_candidate(rt: HostRuntime) -> Result<(), Fail> {
    let mut engine = engine_of(&rt, ONE_LEVEL, &[])?;
    let picture = picture_in(&[NORTH, "traffic A 0 0 1000 0 3600 0 0"]).ok_or("a moment")?;
    engine.decide(&rt, rt.alloc(), &picture, &Open);
    for index in 0..engine.config().total() {
        assert!(rt; engine.level_of(index) == 1, "at {index}");
    }
    Ok(())
}

/// Changes that ask for last times within a minute.
static WAITING: [(&str, &str); 3] = [
    ("tthr = 35", "tthr = 0"),
    ("lookahead = 10, alert = 10", "lookahead = 60, alert = 60"),
    ("track_step = 90", "track_step = 30\nlast_times = 1"),
];

/// A turn may wait for three seconds, and no other manoeuvre helps; and where every candidate is
/// met, each kind recovers.
#[test]
fn the_last_time_and_the_recovery_of_a_kind(rt: HostRuntime) -> Result<(), Fail> {
    let engine = engine_of(&rt, ONE_LEVEL, &WAITING)?;
    let picture = picture_in(&[NORTH, "traffic A 0 4000 1000 0 -3600 0 0"]).ok_or("a moment")?;
    assert!(rt; engine.last_time(&picture, Kind::Track) == Some(3));
    assert!(rt; engine.last_time(&picture, Kind::GroundSpeed) == None);
    let edits = [
        ("tthr = 35", "tthr = 0"),
        (
            "turn_rate",
            "recovery = { hdist = 300, vdist = 100 }\nturn_rate",
        ),
    ];
    let engine = engine_of(&rt, ONE_LEVEL, &edits)?;
    let picture = picture_in(&[NORTH, BESIDE]).ok_or("a moment")?;
    if engine.config().recovery().is_none() {
        return Err("a recovery".into());
    }
    for (kind, after, value) in [(Kind::Track, 6, 270), (Kind::GroundSpeed, 7, 3600)] {
        let wanted = Some(Recovery { after, value });
        assert!(rt; engine.recovery(&picture, kind) == wanted);
    }
    Ok(())
}

/// The room of a sink, the calls at which it fails, whether all is said, and how many bytes are.
static SINKS: [(usize, &[u64], bool, usize); 4] = [
    (4096, &[0], false, 0),
    (4096, &[1], false, 29),
    (212, &[], false, 212),
    (213, &[], true, 213),
];

/// The lines of the aircraft are written before those of the bands, and a sink that fails has taken
/// a beginning.
#[test]
fn sinks_that_fail(rt: HostRuntime) -> Result<(), Fail> {
    let mut engine = engine_of(&rt, ONE_LEVEL, &[])?;
    for (room, fails, all, taken) in &SINKS {
        let lines = [NORTH, "traffic A 0 0 1000 0 3600 0 0"];
        let (said, text) = said_by(&rt, &mut engine, &lines, *room, fails)?;
        let front = TOGETHER
            .as_bytes()
            .get(..*taken)
            .ok_or("a front of the text")?;
        assert!(rt; said == *all, "a room of {room}");
        assert!(rt; text.as_slice() == front, "a room of {room}: {text:?}");
    }
    Ok(())
}

fn may_be_sent<T: Send>() {}

// The check refuses a type that may not be sent between threads.
#[test]
fn values_may_be_sent() {
    may_be_sent::<Engine>();
    may_be_sent::<Room>();
}
