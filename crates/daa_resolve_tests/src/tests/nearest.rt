//! daa_resolve: the answers if some candidates are open and the others covered.

use daa_bands::Board;
use daa_config::{Config, Kind, Resolution, read};
use daa_resolve::{Side, nearest};
use daa_state::Own;
use std::process::Abort;
use std::test::Fail;

/// Hold has the index 0, the tracks 0, 90, 180 and 270 have 1 to 4, the ground speeds 3000, 3300,
/// 3600 and 3900 have 5 to 8, the vertical speed 0 has 9 and the altitude 1000 has 10.
const QUARTERS: &str = "resolve = 1
turn_rate = 3
track_step = 90
gs = { min = 3000, max = 3900, step = 300, rate = 10 }
vs = { min = 0, max = 0, step = 1, rate = 100 }
alt = { min = 1000, max = 1000, step = 1, rate = 1000 }
level = [ { dthr = 660, zthr = 450, tthr = 35, tcoa = 0, lookahead = 10, alert = 10 } ]
";

/// The tracks 0, 60, .. and 300 have the indices 1 to 6.
const SIXTHS: &str = "resolve = 1
turn_rate = 3
track_step = 60
gs = { min = 3600, max = 3600, step = 1, rate = 10 }
vs = { min = 0, max = 0, step = 1, rate = 100 }
alt = { min = 1000, max = 1000, step = 1, rate = 1000 }
level = [ { dthr = 660, zthr = 450, tthr = 35, tcoa = 0, lookahead = 10, alert = 10 } ]
";

/// Three levels, of which the second and third count; the indices are as in the first text.
const LEVELS: &str = "resolve = 2
turn_rate = 3
track_step = 90
gs = { min = 3000, max = 3900, step = 300, rate = 10 }
vs = { min = 0, max = 0, step = 1, rate = 100 }
alt = { min = 1000, max = 1000, step = 1, rate = 1000 }
level = [ { dthr = 660, zthr = 450, tthr = 35, tcoa = 0, lookahead = 10, alert = 10 },
  { dthr = 660, zthr = 450, tthr = 35, tcoa = 0, lookahead = 10, alert = 10 },
  { dthr = 660, zthr = 450, tthr = 35, tcoa = 0, lookahead = 10, alert = 10 } ]
";

/// An ownship of this track and ground speed.
fn own(trk: i32, gs: i32) -> Own {
    Own {
        x: 0,
        y: 0,
        alt: 1000,
        trk,
        gs,
        vs: 0,
    }
}

/// A board on which all candidates but these are covered at level 1.
fn board_with_open(config: &Config, open: &[u32]) -> Board {
    let mut board = Board::new();
    for index in 0..config.total() {
        if !open.contains(&index) {
            board.mark(index, 1);
        }
    }
    board
}

/// The answers of a kind are these.
fn expect_answers(
    rt: &impl Abort,
    board: &Board,
    config: &Config,
    own: &Own,
    kind: Kind,
    wanted: (Resolution, Resolution),
) {
    assert_eq!(rt; nearest(board, config, own, kind, Side::Lower), wanted.0);
    assert_eq!(rt; nearest(board, config, own, kind, Side::Upper), wanted.1);
}

/// Track 45: 0 is 45 degrees to the left, 90 is 45 to the right, 180 is 135 to the right and 270 is
/// 135 to the left.
#[test]
fn angles_from_45(rt: HostRuntime) -> Result<(), Fail> {
    let config = read(rt.alloc(), QUARTERS.as_bytes())?;
    let own = own(45, 3600);
    let (to, none) = (|value| Resolution::To(value), Resolution::Nothing);
    let board = board_with_open(&config, &[1, 2, 3, 4]);
    expect_answers(&rt, &board, &config, &own, Kind::Track, (to(0), to(90)));
    let board = board_with_open(&config, &[3, 4]);
    expect_answers(&rt, &board, &config, &own, Kind::Track, (to(270), to(180)));
    let board = board_with_open(&config, &[1, 4]);
    expect_answers(&rt, &board, &config, &own, Kind::Track, (to(0), none));
    let board = board_with_open(&config, &[2, 3]);
    expect_answers(&rt, &board, &config, &own, Kind::Track, (none, to(90)));
    Ok(())
}

/// Track 0, and Hold and track 0 alone are covered: 300 is nearest to the left, 60 to the right.
#[test]
fn nearest_tracks(rt: HostRuntime) -> Result<(), Fail> {
    let config = read(rt.alloc(), SIXTHS.as_bytes())?;
    let board = board_with_open(&config, &[2, 3, 4, 5, 6, 7, 8, 9]);
    let wanted = (Resolution::To(300), Resolution::To(60));
    expect_answers(&rt, &board, &config, &own(0, 3600), Kind::Track, wanted);
    Ok(())
}

/// Ground speed 3600, and Hold and 3600 alone are covered: 3300 is nearest down, 3900 up.
#[test]
fn nearest_speeds(rt: HostRuntime) -> Result<(), Fail> {
    let config = read(rt.alloc(), QUARTERS.as_bytes())?;
    let board = board_with_open(&config, &[1, 2, 3, 4, 5, 6, 8, 9, 10]);
    let wanted = (Resolution::To(3300), Resolution::To(3900));
    expect_answers(
        &rt,
        &board,
        &config,
        &own(0, 3600),
        Kind::GroundSpeed,
        wanted,
    );
    let wanted = (Resolution::Nothing, Resolution::To(3000));
    expect_answers(
        &rt,
        &board,
        &config,
        &own(0, 2999),
        Kind::GroundSpeed,
        wanted,
    );
    Ok(())
}

/// A candidate of the present value is an answer of left or down.
#[test]
fn present_value(rt: HostRuntime) -> Result<(), Fail> {
    let config = read(rt.alloc(), QUARTERS.as_bytes())?;
    let board = board_with_open(&config, &[1, 7, 9, 10]);
    let own = own(0, 3600);
    let none = Resolution::Nothing;
    for (kind, value) in [
        (Kind::Track, 0),
        (Kind::GroundSpeed, 3600),
        (Kind::VerticalSpeed, 0),
        (Kind::Altitude, 1000),
    ] {
        expect_answers(
            &rt,
            &board,
            &config,
            &own,
            kind,
            (Resolution::To(value), none),
        );
    }
    Ok(())
}

/// Exactly half a turn is to the right.
#[test]
fn half_turns(rt: HostRuntime) -> Result<(), Fail> {
    let config = read(rt.alloc(), QUARTERS.as_bytes())?;
    for (track, index, value) in [(0, 3, 180), (90, 4, 270), (180, 1, 0), (270, 2, 90)] {
        let board = board_with_open(&config, &[index]);
        let wanted = (Resolution::Nothing, Resolution::To(value));
        expect_answers(&rt, &board, &config, &own(track, 3600), Kind::Track, wanted);
    }
    Ok(())
}

#[test]
fn hold_open_or_nothing_open(rt: HostRuntime) -> Result<(), Fail> {
    let config = read(rt.alloc(), QUARTERS.as_bytes())?;
    let kept = board_with_open(&config, &[0]);
    let lost = board_with_open(&config, &[]);
    let (keep, none) = (Resolution::Keep, Resolution::Nothing);
    for kind in [
        Kind::Track,
        Kind::GroundSpeed,
        Kind::VerticalSpeed,
        Kind::Altitude,
    ] {
        expect_answers(&rt, &kept, &config, &own(0, 3600), kind, (keep, keep));
        expect_answers(&rt, &lost, &config, &own(0, 3600), kind, (none, none));
    }
    Ok(())
}

/// Of three levels the second and third close a candidate; the first does not, nor does a fourth,
/// which is not there.
#[test]
fn corrective_levels(rt: HostRuntime) -> Result<(), Fail> {
    let config = read(rt.alloc(), LEVELS.as_bytes())?;
    let own = own(45, 3600);
    for (mask, wanted) in [
        (1, Resolution::Keep),
        (2, Resolution::To(90)),
        (4, Resolution::To(90)),
        (8, Resolution::Keep),
    ] {
        let mut board = Board::new();
        board.mark(0, mask);
        assert_eq!(rt;
            nearest(&board, &config, &own, Kind::Track, Side::Upper),
            wanted,
            "mask {mask}"
        );
    }
    let mut board = Board::new();
    board.mark(0, 6);
    board.mark(2, 4);
    let wanted = Resolution::To(180);
    assert_eq!(rt;
        nearest(&board, &config, &own, Kind::Track, Side::Upper),
        wanted
    );
    Ok(())
}

fn may_be_sent<T: Send>() {}

// The check refuses a type that may not be sent between threads.
#[test]
fn values_may_be_sent() {
    may_be_sent::<Side>();
}
