//! A plan: the ownship in the middle, north up, and the aircraft around it.

use daa_state::{Own, Picture, Traffic};
use std::alloc::{AllocError, Global};
use std::str;

/// The rows of a plan, and its columns. A column is half as wide as a row is high.
const ROWS: usize = 9;

const COLUMNS: usize = 17;

/// What is drawn, by rows.
type Grid = [[u8; COLUMNS]; ROWS];

/// How far an aircraft is east and north of the ownship, in thousandths of a nautical mile.
fn offset(own: &Own, traffic: &Traffic) -> (i64, i64) {
    (
        i64::from(traffic.x) - i64::from(own.x),
        i64::from(traffic.y) - i64::from(own.y),
    )
}

/// How far a plan reaches that has room for what is this far, in nautical miles.
fn reach_for(far: u64) -> i64 {
    match far {
        0..=1_000 => 1,
        ..=2_000 => 2,
        ..=5_000 => 5,
        ..=10_000 => 10,
        ..=20_000 => 20,
        ..=50_000 => 50,
        ..=100_000 => 100,
        ..=200_000 => 200,
        _ => 400,
    }
}

/// How far the farthest aircraft is, east or north.
fn farthest(picture: &Picture) -> u64 {
    let mut far = 0;
    for traffic in picture.traffic.iter() {
        let (east, north) = offset(&picture.own, traffic);
        far = far.max(east.unsigned_abs()).max(north.unsigned_abs());
    }
    far
}

/// The step from the middle of so many steps at which this distance is.
fn step(distance: i64, reach: i64, steps: i64) -> i64 {
    let steps = distance.saturating_mul(steps);
    steps.checked_div(reach.saturating_mul(1000)).unwrap_or(0)
}

/// Puts a mark, or `*` where something else is there.
fn put(grid: &mut Grid, east: i64, north: i64, mark: u8) {
    let row = usize::try_from(4i64.saturating_sub(north))
        .unwrap_or(0)
        .min(ROWS - 1);
    let column = usize::try_from(8i64.saturating_add(east))
        .unwrap_or(0)
        .min(COLUMNS - 1);
    let there = grid[row][column];
    grid[row][column] = if there == b' ' { mark } else { b'*' };
}

/// The mark of an aircraft: the first letter or digit of its identifier.
fn mark_of(traffic: &Traffic) -> u8 {
    for byte in traffic.id.bytes() {
        if byte.is_ascii_alphanumeric() {
            return *byte;
        }
    }
    b'+'
}

/// The plan of a picture.
fn grid_of(picture: &Picture, reach: i64) -> Grid {
    let mut grid = [[b' '; COLUMNS]; ROWS];
    put(&mut grid, 0, 0, b'^');
    for traffic in picture.traffic.iter() {
        let (east, north) = offset(&picture.own, traffic);
        put(
            &mut grid,
            step(east, reach, 8),
            step(north, reach, 4),
            mark_of(traffic),
        );
    }
    grid
}

/// Where an aircraft is: its identifier, how far east and north, and its altitude.
fn words_of(alloc: Global, own: &Own, traffic: &Traffic) -> Result<String, AllocError> {
    let (east, north) = offset(own, traffic);
    let id = str::from_utf8(traffic.id.bytes()).unwrap_or("?");
    let alt = traffic.alt;
    format!(in alloc; "{id}: {east} east, {north} north, altitude {alt}")
}

/// Adds the rows of a plan: the grid, and beside it the title and the first aircraft.
pub fn push_plan(
    alloc: Global,
    rows: &mut Vec<String>,
    title: &str,
    picture: &Picture,
) -> Result<(), AllocError> {
    let reach = reach_for(farthest(picture));
    let grid = grid_of(picture, reach);
    let aircraft = picture.traffic.len();
    let mut beside = Vec::new(alloc);
    beside.push(format!(in alloc;
        "{title}, {reach} nautical miles each way, {aircraft} aircraft"
    )?)?;
    for traffic in picture.traffic.iter() {
        beside.push(words_of(alloc, &picture.own, traffic)?)?;
    }
    for (place, cells) in grid.iter().enumerate() {
        let cells = str::from_utf8(cells).unwrap_or("");
        let words = beside.get(place).map_or("", |words| words.as_str());
        rows.push(format!(in alloc; "{cells} | {words}")?)?;
    }
    Ok(())
}
