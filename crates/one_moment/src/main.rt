//! One moment from numbers: a caller's states, decided in the caller's own thread, and
//! the answers, printed in the words of the report.
#![tactic(auto)]

ghost use Rattle.std.specs.Prelude.{IfOk};
ghost use Rattle.daa_state.specs.InRange.{IsPictureInRange};

use daa_config::examples::THREE_LEVELS;
use daa_config::{Kind, Resolution, read};
use daa_engine::Engine;
use daa_resolve::Side;
use daa_state::{Id, Own, PairBounds, Picture, PictureFault, Traffic};
use std::{fmt, io};

/// An answer as the report writes it.
#[derive(Drop)]
struct Answer(Resolution);

impl fmt::Display for Answer {
    fn fmt<W: fmt::Write>(&self, f: &mut fmt::Formatter<W>) -> fmt::Result {
        match self.0 {
            Resolution::Keep => f.write_str("keep"),
            Resolution::To(value) => write!(f, "{}", value),
            Resolution::Nothing => f.write_str("none"),
        }
    }
}

/// The ownship: north at 360 knots, at 10000 feet.
const OWN: Own = Own {
    x: 0,
    y: 0,
    alt: 10000,
    trk: 0,
    gs: 3600,
    vs: 0,
};

/// AMBER from the right at 135 knots, and BRAVO on the left, sinking.
fn encounter(amber: Id, bravo: Id) -> Result<Picture, PictureFault>
    ensures { IfOk result IsPictureInRange }
{
    Picture::check(
        0,
        OWN,
        &[
            Traffic {
                id: amber,
                x: 3000,
                y: 8000,
                alt: 10000,
                vx: -1350,
                vy: 0,
                vs: 0,
                age: 0,
                bounds: PairBounds::EXACT,
            },
            Traffic {
                id: bravo,
                x: -1200,
                y: -300,
                alt: 10600,
                vx: 0,
                vy: 3600,
                vs: -600,
                age: 0,
                bounds: PairBounds::EXACT,
            },
        ],
    )
}

/// Decides one moment that is given by numbers, and prints its answers.
fn main(rt: HostRuntime) -> io::Result<()> {
    let Ok(config) = read(rt.alloc(), THREE_LEVELS.as_bytes()) else {
        return rt.println("the configuration is refused");
    };
    let Ok(mut engine) = Engine::new(rt.alloc(), config, 1) else {
        return rt.println("there is no memory");
    };
    let (Some(amber), Some(bravo)) = (Id::of(b"AMBER"), Id::of(b"BRAVO")) else {
        return rt.println("an identifier is none");
    };
    let picture = match encounter(amber, bravo) {
        Ok(picture) => picture,
        Err(fault) => return println!(rt; "{fault}"),
    };
    engine.decide_alone(&picture);
    for place in 0..picture.traffic.len() {
        let alert = engine.alert_of(&picture, place);
        let now = engine.now_of(&picture, place);
        println!(rt; "aircraft {place} now {now} alert {}", alert.level)?;
        if let Some(first) = alert.first {
            println!(rt; "aircraft {place} alerts in second {first}")?;
        }
    }
    for band in engine.bands(Kind::Track) {
        println!(rt; "track {} {} {}", band.from, band.upto, band.level)?;
    }
    let left = Answer(engine.resolution(&picture.own, Kind::Track, Side::Lower));
    let right = Answer(engine.resolution(&picture.own, Kind::Track, Side::Upper));
    println!(rt; "resolve track left {left} right {right}")
}
