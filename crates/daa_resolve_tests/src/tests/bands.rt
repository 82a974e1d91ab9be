//! daa_bands: boards that are filled by hand, and the bands that they show.

use daa_bands::{Band, Board, Runs, runs};
use daa_config::{Config, Kind, read};
use std::process::Abort;
use std::test::Fail;

/// Hold has the index 0, the tracks 0, 90, 180 and 270 have 1 to 4, the ground speeds 3000, 3300,
/// 3600 and 3900 have 5 to 8, the vertical speed has 9 and the altitude 10.
const TEXT: &str = "resolve = 1
turn_rate = 3
track_step = 90
gs = { min = 3000, max = 3900, step = 300, rate = 10 }
vs = { min = -500, max = -500, step = 1, rate = 100 }
alt = { min = 1000, max = 1000, step = 1, rate = 1000 }
level = [ { dthr = 660, zthr = 450, tthr = 35, tcoa = 0, lookahead = 10, alert = 10 } ]
";

/// Adds a mask to each of these candidates.
fn mark_all(board: &mut Board, marks: &[(u32, u8)]) {
    for (index, mask) in marks {
        if *index < 2048 {
            board.mark(*index, *mask);
        }
    }
}

/// The bands of a kind are these, and then there are no more.
fn expect_bands(
    rt: &impl Abort,
    board: &Board,
    config: &Config,
    kind: Kind,
    wanted: &[(i32, i32, u8)],
) {
    let mut bands = runs(board, config, kind);
    for (from, upto, level) in wanted {
        let band = Band {
            from: *from,
            upto: *upto,
            level: *level,
        };
        assert_eq!(rt; bands.next(), Some(band));
    }
    assert_eq!(rt; bands.next(), None);
    assert_eq!(rt; bands.next(), None);
}

#[test]
fn nothing_covered(rt: HostRuntime) -> Result<(), Fail> {
    let config = read(rt.alloc(), TEXT.as_bytes())?;
    let board = Board::new();
    expect_bands(&rt, &board, &config, Kind::Track, &[(0, 270, 0)]);
    expect_bands(&rt, &board, &config, Kind::GroundSpeed, &[(3000, 3900, 0)]);
    expect_bands(
        &rt,
        &board,
        &config,
        Kind::VerticalSpeed,
        &[(-500, -500, 0)],
    );
    expect_bands(&rt, &board, &config, Kind::Altitude, &[(1000, 1000, 0)]);
    Ok(())
}

/// Equal levels are joined whatever the masks, level 0 is between others, and the tracks 270
/// and 0, which have the same level, are not joined over north.
#[test]
fn runs_of_all_kinds(rt: HostRuntime) -> Result<(), Fail> {
    let config = read(rt.alloc(), TEXT.as_bytes())?;
    let mut board = Board::new();
    let tracks = [(1, 1), (2, 2), (3, 3), (4, 1)];
    let others = [(5, 8), (7, 4), (8, 6), (9, 8), (11, 1)];
    mark_all(&mut board, &tracks);
    mark_all(&mut board, &others);
    let track = [(0, 0, 1), (90, 180, 2), (270, 270, 1)];
    let speed = [(3000, 3000, 4), (3300, 3300, 0), (3600, 3900, 3)];
    expect_bands(&rt, &board, &config, Kind::Track, &track);
    expect_bands(&rt, &board, &config, Kind::GroundSpeed, &speed);
    expect_bands(
        &rt,
        &board,
        &config,
        Kind::VerticalSpeed,
        &[(-500, -500, 4)],
    );
    expect_bands(&rt, &board, &config, Kind::Altitude, &[(1000, 1000, 0)]);
    Ok(())
}

static SHOWN: [(u8, u8); 8] = [
    (0, 0),
    (1, 1),
    (2, 2),
    (3, 2),
    (5, 3),
    (8, 4),
    (15, 4),
    (128, 8),
];

#[test]
fn shown_levels(rt: HostRuntime) {
    for (mask, level) in &SHOWN {
        let mut board = Board::new();
        board.mark(2047, *mask);
        assert_eq!(rt; board.shown(2047), *level, "mask {mask}");
        assert_eq!(rt; board.shown(2046), 0);
    }
}

/// Of twelve candidates the first has level 1, the second none, the fourth 2 and 4, and the last
/// all four.
const WORD: u64 = 0x0f80_0000_000a_8023;

/// A packed word adds what its masks add one by one, in the first group and in the last that a
/// board has room for.
#[test]
fn packed_word(rt: HostRuntime) {
    for (group, first) in [(0, 0), (1, 12), (169, 2028)] {
        let mut merged = Board::new();
        let mut marked = Board::new();
        mark_all(&mut merged, &[(first, 2), (first + 1, 4)]);
        merged.merge_word(group, WORD);
        let masks = [
            (first, 3),
            (first + 1, 4),
            (first + 3, 10),
            (first + 11, 15),
        ];
        mark_all(&mut marked, &masks);
        for index in 0..2048 {
            assert_eq!(rt;
                merged.mask(index),
                marked.mask(index),
                "group {group}, at {index}"
            );
        }
    }
}

#[test]
fn a_cleared_board_has_no_levels(rt: HostRuntime) {
    let mut board = Board::new();
    board.merge_word(0, WORD);
    board.mark(2047, 1);
    board.clear();
    for index in 0..2048 {
        assert_eq!(rt; board.mask(index), 0);
    }
}

/// A board may be sent to another thread and shared by several.
fn share<T: Send + Sync>(value: &T) -> &T {
    value
}

#[test]
fn is_shared(rt: HostRuntime) {
    let board = Board::new();
    assert_eq!(rt; share(&board).mask(0), 0);
}

fn may_be_sent<T: Send>() {}

// The check refuses a type that may not be sent between threads.
#[test]
fn values_may_be_sent() {
    may_be_sent::<Board>();
    may_be_sent::<Band>();
    may_be_sent::<Runs<'static>>();
}
