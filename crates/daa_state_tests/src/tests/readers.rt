//! daa_config: what the readers return of the examples.

use daa_config::examples::{FOUR_LEVELS, LARGEST_VALUES, ONE_LEVEL, THREE_LEVELS};
use daa_config::{
    Candidate, Config, ConfigFault, ConfigNumbers, Kind, Level, Rates, Resolution, read,
    read_numbers,
};
use daa_taumod::{Model, Volume};
use std::alloc::Global;
use std::test::Fail;

/// How many candidates of each kind there are, and how many in all.
fn counts_of(config: &Config) -> [u32; 5] {
    [
        config.count(Kind::Track),
        config.count(Kind::GroundSpeed),
        config.count(Kind::VerticalSpeed),
        config.count(Kind::Altitude),
        config.total(),
    ]
}

static COUNTS: [(&str, [u32; 5]); 4] = [
    (THREE_LEVELS, [72, 66, 101, 101, 341]),
    (ONE_LEVEL, [4, 1, 1, 1, 8]),
    (LARGEST_VALUES, [360, 501, 501, 497, 1860]),
    (FOUR_LEVELS, [4, 1, 1, 1, 8]),
];

#[test]
fn counts(rt: HostRuntime) -> Result<(), Fail> {
    for (text, wanted) in &COUNTS {
        let config = read(rt.alloc(), text.as_bytes())?;
        assert!(rt; counts_of(&config) == *wanted, "{text}");
    }
    Ok(())
}

static CANDIDATES: [(u32, Candidate); 10] = [
    (0, Candidate::Hold),
    (1, Candidate::Track(0)),
    (2, Candidate::Track(5)),
    (72, Candidate::Track(355)),
    (73, Candidate::GroundSpeed(500)),
    (138, Candidate::GroundSpeed(7000)),
    (139, Candidate::VerticalSpeed(-5000)),
    (239, Candidate::VerticalSpeed(5000)),
    (240, Candidate::Altitude(0)),
    (340, Candidate::Altitude(50000)),
];

/// Whether the list has this candidate here.
fn has_candidate(config: &Config, index: u32, candidate: Candidate) -> bool {
    index < config.total() && config.candidate(index) == candidate
}

#[test]
fn candidates(rt: HostRuntime) -> Result<(), Fail> {
    let config = read(rt.alloc(), THREE_LEVELS.as_bytes())?;
    for (index, candidate) in &CANDIDATES {
        assert!(rt; has_candidate(&config, *index, *candidate), "at {index}");
    }
    Ok(())
}

/// Where each kind starts in the list, its least and its greatest value.
static KINDS: [(Kind, u32, i32, i32); 4] = [
    (Kind::Track, 1, 0, 355),
    (Kind::GroundSpeed, 73, 500, 7000),
    (Kind::VerticalSpeed, 139, -5000, 5000),
    (Kind::Altitude, 240, 0, 50000),
];

/// Whether the kind has this least and this greatest value.
fn has_ends(config: &Config, kind: Kind, least: i32, greatest: i32) -> bool {
    config.least(kind) == least && config.greatest(kind) == greatest
}

/// Whether the kind has this value here.
fn has_value(config: &Config, kind: Kind, place: u32, value: i32) -> bool {
    place < config.count(kind) && config.value(kind, place) == value
}

#[test]
fn values_of_kinds(rt: HostRuntime) -> Result<(), Fail> {
    let config = read(rt.alloc(), THREE_LEVELS.as_bytes())?;
    for (kind, start, least, greatest) in &KINDS {
        assert!(rt; config.start(*kind) == *start, "from {start}");
        assert!(rt; has_ends(&config, *kind, *least, *greatest), "from {start}");
    }
    assert!(rt; has_value(&config, Kind::GroundSpeed, 1, 600));
    assert!(rt; has_value(&config, Kind::GroundSpeed, 65, 7000));
    Ok(())
}

/// The configuration of `ONE_LEVEL` with a part of its text replaced.
fn edited(alloc: Global, old: &str, new: &str) -> Result<Config, Fail> {
    let text = ONE_LEVEL.replacen(alloc, old, new, 1)?;
    Ok(read(alloc, text.as_str().as_bytes())?)
}

/// A greatest value that the steps pass by is not listed.
#[test]
fn uneven_steps(rt: HostRuntime) -> Result<(), Fail> {
    let steps = "min = 1000, max = 1999, step = 250,";
    let config = edited(rt.alloc(), "min = 1000, max = 1000, step = 1,", steps)?;
    assert!(rt; config.count(Kind::Altitude) == 4);
    assert!(rt; has_ends(&config, Kind::Altitude, 1000, 1750));
    assert!(rt; has_ends(&config, Kind::Track, 0, 270));
    Ok(())
}

/// The rates of the kinds, asked for one by one.
fn rates_of(config: &Config) -> Rates {
    Rates {
        turn: config.turn_rate(),
        gs: config.gs_rate(),
        vs: config.vs_rate(),
        alt: config.alt_rate(),
    }
}

const RATES: Rates = Rates {
    turn: 3,
    gs: 20,
    vs: 500,
    alt: 2000,
};

#[test]
fn rates(rt: HostRuntime) -> Result<(), Fail> {
    let config = read(rt.alloc(), THREE_LEVELS.as_bytes())?;
    assert!(rt; config.rates() == RATES);
    assert!(rt; rates_of(&config) == RATES);
    Ok(())
}

/// The first and the third level.
static LEVELS: [(u32, Level); 2] = [
    (
        1,
        Level {
            volume: Volume {
                dthr: 23760,
                zthr: 42000,
                tthr: 35,
                tcoa: 0,
                model: Model::Taumod,
            },
            lookahead: 75,
            alert: 55,
        },
    ),
    (
        3,
        Level {
            volume: Volume {
                dthr: 23760,
                zthr: 27000,
                tthr: 35,
                tcoa: 0,
                model: Model::Taumod,
            },
            lookahead: 55,
            alert: 25,
        },
    ),
];

/// Whether the configuration has this level.
fn has_level(config: &Config, l: u32, level: &Level) -> bool {
    1 <= l && l <= config.levels() && config.level(l) == level
}

#[test]
fn levels(rt: HostRuntime) -> Result<(), Fail> {
    let config = read(rt.alloc(), THREE_LEVELS.as_bytes())?;
    assert!(rt; config.resolve() == 2);
    assert!(rt; config.levels() == 3);
    for (l, level) in &LEVELS {
        assert!(rt; has_level(&config, *l, level), "level {l}");
    }
    Ok(())
}

/// The configuration of kept numbers.
fn kept_config(kept: &ConfigNumbers) -> Result<Config, ConfigFault> {
    let levels = kept.levels.as_slice();
    Config::of(&kept.numbers, &kept.recovery, &kept.last_times, levels)
}

/// The numbers of a text, kept by a caller, are the text's configuration again.
#[test]
fn numbers_that_are_kept(rt: HostRuntime) -> Result<(), Fail> {
    let mut kept = read_numbers(rt.alloc(), THREE_LEVELS.as_bytes())?;
    assert!(rt; kept.numbers.resolve == 2);
    assert!(rt; kept.levels.as_slice().len() == 3);
    let config = kept_config(&kept)?;
    assert!(rt; config.total() == 341);
    assert!(rt; config.levels() == 3);
    kept.numbers.turn_rate = 31;
    assert!(rt; kept_config(&kept).is_err());
    Ok(())
}

#[test]
fn models(rt: HostRuntime) -> Result<(), Fail> {
    for (key, model) in [
        ("tcpa = 0, tcoa = 0", Model::Taumod),
        ("tcpa = 1, tcoa = 0", Model::Tcpa),
        ("tau = 1, tcoa = 0", Model::Tau),
        ("tep = 1, tcoa = 0", Model::Tep),
    ] {
        let config = edited(rt.alloc(), "tcoa = 0", key)?;
        assert!(rt; config.levels() == 1);
        assert!(rt; config.level(1).volume.model == model, "{key}");
    }
    Ok(())
}

/// A configuration may be sent to another thread and shared by several.
fn share<T: Send + Sync>(value: &T) -> &T {
    value
}

#[test]
fn is_shared(rt: HostRuntime) -> Result<(), Fail> {
    let config = read(rt.alloc(), ONE_LEVEL.as_bytes())?;
    assert!(rt; share(&config).total() == 8);
    Ok(())
}

fn may_be_sent<T: Send>() {}

/// The check refuses a type that may not be sent between threads.
fn values_may_be_sent() {
    may_be_sent::<Kind>();
    may_be_sent::<Resolution>();
    may_be_sent::<ConfigFault>();
    may_be_sent::<Candidate>();
    may_be_sent::<Rates>();
    may_be_sent::<Level>();
    may_be_sent::<ConfigNumbers>();
}

/// The cylinder of a recovery, in units.
const CYLINDER: Volume = Volume {
    dthr: 10800,
    zthr: 6000,
    tthr: 0,
    tcoa: 0,
    model: Model::Taumod,
};

/// There is none where the text asks for none.
#[test]
fn the_cylinder(rt: HostRuntime) -> Result<(), Fail> {
    let config = read(rt.alloc(), ONE_LEVEL.as_bytes())?;
    assert!(rt; config.recovery().is_none());
    let asking = "recovery = { hdist = 300, vdist = 100 }\nturn_rate";
    let config = edited(rt.alloc(), "turn_rate", asking)?;
    let Some(cylinder) = config.recovery() else {
        return Err("a cylinder".into());
    };
    assert!(rt; *cylinder == CYLINDER);
    Ok(())
}

/// What stands before a text's `turn_rate`, and whether the nearest value is asked for.
static ASKED: [(&str, bool); 4] = [
    ("turn_rate", false),
    ("recovery = { hdist = 1, vdist = 1 }\nturn_rate", false),
    (
        "recovery = { hdist = 1, vdist = 1, nearest = 0 }\nturn_rate",
        false,
    ),
    (
        "recovery = { hdist = 1, vdist = 1, nearest = 1 }\nturn_rate",
        true,
    ),
];

#[test]
fn what_is_asked(rt: HostRuntime) -> Result<(), Fail> {
    for (text, nearest) in &ASKED {
        let config = edited(rt.alloc(), "turn_rate", text)?;
        assert!(rt; config.nearest() == *nearest, "{text}");
    }
    Ok(())
}

#[test]
fn last_times_are_asked_for(rt: HostRuntime) -> Result<(), Fail> {
    for (text, asked) in [
        ("turn_rate", false),
        ("last_times = 0\nturn_rate", false),
        ("last_times = 1\nturn_rate", true),
    ] {
        let config = edited(rt.alloc(), "turn_rate", text)?;
        assert!(rt; config.last_times() == asked, "{text}");
    }
    Ok(())
}
