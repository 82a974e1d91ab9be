//! daa_state: identifiers, moments of lines, and the sentences of faults. Lines and their codes
//! are among the cases of `tests/cases`.

use daa_state::*;
use std::alloc::{AllocError, Global};
use std::error::Error;
use std::process::Abort;
use std::test::Fail;

const OWN: Own = Own {
    x: 5,
    y: 0,
    alt: 1000,
    trk: 0,
    gs: 3600,
    vs: 0,
};

static NO_IDENTIFIERS: [&[u8]; 5] = [b"", b"A_b-12345", b"A.B", b"A B", b"\xc3\xa4"];

#[test]
fn identifiers(rt: HostRuntime) -> Result<(), Fail> {
    let id = Id::of(b"A_b-1290").ok_or("no identifier")?;
    assert!(rt; id.bytes() == b"A_b-1290".as_slice());
    for bytes in &NO_IDENTIFIERS {
        assert!(rt; Id::of(bytes).is_none(), "at {bytes:?}");
    }
    assert!(rt; Id::of(b"ab") == Id::of(b"ab"));
    assert!(rt; Id::of(b"ab") != Id::of(b"aB"));
    assert!(rt; Id::of(b"ab") != Id::of(b"abc"));
    Ok(())
}

/// What the moments answer to a line in their format.
fn take(moments: &mut Moments, line: &[u8]) -> Result<Option<Picture>, LineFault> {
    let word = read_line(line, moments.format())?;
    moments.take(word)
}

/// The code of the line's fault, or 0.
fn code(moments: &mut Moments, line: &[u8]) -> u8 {
    match take(moments, line) {
        Ok(_) => 0,
        Err(fault) => fault.code(),
    }
}

/// Each line has this code.
fn expect_codes(rt: &impl Abort, moments: &mut Moments, lines: &[(&[u8], u8)]) {
    for (line, wanted) in lines {
        assert!(rt; code(moments, line) == *wanted, "at {line:?}");
    }
}

/// The picture with which the moment ends.
fn picture_at_end(moments: &mut Moments) -> Result<Picture, Fail> {
    match take(moments, b"end") {
        Ok(Some(picture)) => Ok(picture),
        _ => Err("no picture".into()),
    }
}

/// The code of the fault at the input's end, or 0.
fn code_at_finish(moments: &Moments) -> u8 {
    match moments.finish() {
        Ok(()) => 0,
        Err(fault) => fault.code(),
    }
}

/// Lines of a moment, and their codes.
static OF_A_MOMENT: [(&[u8], u8); 14] = [
    (b"own 0 0 1000 0 3600 0", 7),
    (b"traffic A 0 0 0 0 0 0", 7),
    (b"end", 7),
    (b"moment 7", 0),
    (b"end", 13),
    (b"own 5 0 1000 0 3600 0", 0),
    (b"own 1 1 1000 0 3600 0", 10),
    (b"traffic a 0 0 0 0 0 0", 0),
    (b"traffic A 1 0 0 0 3600 0", 0),
    (b"traffic a 2 0 0 0 0 0", 11),
    (b"moment 9", 8),
    (b"format 2", 8),
    (b"# skipped", 0),
    (b"own 1 2", 3),
];

/// The picture has the time 7, the ownship `OWN` and the aircraft a and A.
fn expect_picture(rt: &impl Abort, picture: &Picture) -> Result<(), Fail> {
    assert!(rt; picture.time == 7);
    assert!(rt; picture.own == OWN);
    let [first, second] = picture.traffic.as_slice() else {
        return Err("two aircraft".into());
    };
    assert!(rt; first.id.bytes() == b"a".as_slice());
    assert!(rt; second.id.bytes() == b"A".as_slice());
    assert!(rt; second.x == 1 && second.vy == 3600);
    Ok(())
}

#[test]
fn lines_of_moments(rt: HostRuntime) -> Result<(), Fail> {
    let mut moments = Moments::new();
    assert!(rt; code_at_finish(&moments) == 0);
    expect_codes(&rt, &mut moments, &OF_A_MOMENT);
    assert!(rt; code_at_finish(&moments) == 14);
    let picture = picture_at_end(&mut moments)?;
    expect_picture(&rt, &picture)?;
    assert!(rt; code_at_finish(&moments) == 0);
    Ok(())
}

/// The time at which the last moment ended, where the line's fault tells it.
fn last_by(moments: &mut Moments, line: &[u8]) -> Option<u32> {
    match take(moments, line) {
        Err(LineFault::NotLater(last)) => Some(last),
        _ => None,
    }
}

#[test]
fn a_moment_that_is_not_later_is_told_the_last(rt: HostRuntime) -> Result<(), Fail> {
    let mut moments = Moments::new();
    expect_codes(&rt, &mut moments, &OF_A_MOMENT);
    picture_at_end(&mut moments)?;
    assert!(rt; last_by(&mut moments, b"moment 7") == Some(7));
    assert!(rt; last_by(&mut moments, b"moment 0") == Some(7));
    Ok(())
}

/// Lines of a moment in format 3, an aircraft's before the ownship's.
static WITH_BOUNDS: [(&[u8], u8); 9] = [
    (b"format 4", 6),
    (b"format 3", 0),
    (b"moment 7", 0),
    (b"traffic a 0 0 0 0 0 0 5", 3),
    (b"traffic a 0 0 0 0 0 0 5 10 20 30 10001", 6),
    (b"traffic a 0 0 0 0 0 0 5 10 20 30 10000", 0),
    (b"own 5 0 1000 0 3600 0", 3),
    (b"own 5 0 1000 0 3600 0 1 -1 3 4", 6),
    (b"own 5 0 1000 0 3600 0 1 2 3 4", 0),
];

#[test]
fn the_bounds_of_both_reports_stand_at_the_aircraft(rt: HostRuntime) -> Result<(), Fail> {
    let mut moments = Moments::new();
    expect_codes(&rt, &mut moments, &WITH_BOUNDS);
    let picture = picture_at_end(&mut moments)?;
    assert!(rt; picture.own == OWN);
    let [aircraft] = picture.traffic.as_slice() else {
        return Err("one aircraft".into());
    };
    let own = ReportBounds {
        place: 1,
        height: 2,
        speed: 3,
        climb: 4,
    };
    let of_aircraft = ReportBounds {
        place: 10,
        height: 20,
        speed: 30,
        climb: 10_000,
    };
    assert!(rt; aircraft.age == 5);
    assert!(rt;
        aircraft.bounds
            == PairBounds {
                own,
                aircraft: of_aircraft
            }
    );
    Ok(())
}

#[test]
fn a_copy_has_the_same_aircraft(rt: HostRuntime) -> Result<(), Fail> {
    let mut moments = Moments::new();
    expect_codes(&rt, &mut moments, &OF_A_MOMENT);
    let picture = picture_at_end(&mut moments)?;
    let copy = picture.copy();
    expect_picture(&rt, &copy)
}

/// The sentence of an error, as a caller prints it.
fn sentence_of<E: Error>(alloc: Global, error: E) -> Result<String, AllocError> {
    format!(in alloc; "{error}")
}

static SENTENCES: [(LineFault, &str); 14] = [
    (
        LineFault::LongLine,
        "fault 1: the line has more than 255 bytes",
    ),
    (
        LineFault::BadWord,
        "fault 2: the first field is no word of a state line",
    ),
    (
        LineFault::FieldCount,
        "fault 3: the word takes another number of fields",
    ),
    (
        LineFault::BadNumber,
        "fault 4: a field is no number of 1 to 10 digits",
    ),
    (
        LineFault::BadId,
        "fault 5: the identifier is not 1 to 8 letters, digits, underscores or dashes",
    ),
    (
        LineFault::OutOfRange,
        "fault 6: a number is outside its range",
    ),
    (LineFault::NoMoment, "fault 7: no moment is open"),
    (LineFault::MomentOpen, "fault 8: a moment is open"),
    (
        LineFault::NotLater(4294967295),
        "fault 9: the time is not later than 4294967295 s, at which the last moment ended",
    ),
    (LineFault::OwnTwice, "fault 10: the moment has an ownship"),
    (
        LineFault::SameId,
        "fault 11: the moment has an aircraft of that identifier",
    ),
    (LineFault::Full, "fault 12: the moment has 64 aircraft"),
    (LineFault::NoOwn, "fault 13: the moment has no ownship"),
    (
        LineFault::Unfinished,
        "fault 14: the input ended while a moment is open",
    ),
];

#[test]
fn each_fault_has_a_sentence(rt: HostRuntime) -> Result<(), Fail> {
    for (fault, wanted) in SENTENCES {
        let sentence = sentence_of(rt.alloc(), fault)?;
        assert!(rt; sentence.as_str() == wanted, "{sentence}");
    }
    Ok(())
}

static NUMBER_SENTENCES: [(Field, &str); 9] = [
    (Field::East, "x (0.001 NM) is not -1 to 7"),
    (Field::North, "y (0.001 NM) is not -1 to 7"),
    (Field::Altitude, "alt (ft) is not -1 to 7"),
    (Field::Track, "trk (degrees) is not -1 to 7"),
    (Field::GroundSpeed, "gs (0.1 kt) is not -1 to 7"),
    (Field::VerticalSpeed, "vs (ft/min) is not -1 to 7"),
    (Field::SpeedEast, "vx (0.1 kt) is not -1 to 7"),
    (Field::SpeedNorth, "vy (0.1 kt) is not -1 to 7"),
    (Field::Age, "age (s) is not -1 to 7"),
];

/// Of a number that is not -1 to 7.
fn out_of_range(field: Field) -> OutOfRange {
    OutOfRange {
        field,
        least: -1,
        greatest: 7,
    }
}

#[test]
fn each_fault_of_a_number_has_a_sentence(rt: HostRuntime) -> Result<(), Fail> {
    for (field, wanted) in NUMBER_SENTENCES {
        let sentence = sentence_of(rt.alloc(), out_of_range(field))?;
        assert!(rt; sentence.as_str() == wanted, "{sentence}");
    }
    Ok(())
}

#[test]
fn each_fault_of_a_picture_has_a_sentence(rt: HostRuntime) -> Result<(), Fail> {
    let many = sentence_of(rt.alloc(), PictureFault::TooMany)?;
    assert_eq!(rt; many.as_str(), "there are more than 64 aircraft");
    let own = sentence_of(rt.alloc(), PictureFault::Own(out_of_range(Field::Altitude)))?;
    assert_eq!(rt; own.as_str(), "of the ownship, alt (ft) is not -1 to 7");
    let other = sentence_of(
        rt.alloc(),
        PictureFault::Traffic(63, out_of_range(Field::Age)),
    )?;
    assert_eq!(rt; other.as_str(), "of aircraft 63, age (s) is not -1 to 7");
    let twice = sentence_of(rt.alloc(), PictureFault::SameId(1))?;
    assert_eq!(rt;
        twice.as_str(),
        "aircraft 1 has an earlier one's identifier"
    );
    Ok(())
}

fn may_be_sent<T: Send>() {}

/// The check refuses a type that may not be sent between threads.
fn values_may_be_sent() {
    may_be_sent::<Moments>();
    may_be_sent::<Picture>();
    may_be_sent::<Word>();
    may_be_sent::<LineFault>();
    may_be_sent::<PictureFault>();
    may_be_sent::<OutOfRange>();
    may_be_sent::<Field>();
    may_be_sent::<Traffic>();
    may_be_sent::<Own>();
    may_be_sent::<Id>();
}
