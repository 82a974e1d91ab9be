//! Which aircraft are in reach: the last place that is, and the first that is not.

use super::{Settings, config_of, count_in_reach, is_in_reach, picture_in};
use daa_config::examples::ONE_LEVEL;
use daa_state::examples::{CLIMBING, NORTH};
use std::test::Fail;

/// What replaces parts of the configuration, the lines of an ownship and of an
/// aircraft, and whether it is in reach.
struct Row {
    shows: &'static str,
    edits: &'static [(&'static str, &'static str)],
    own: &'static str,
    aircraft: &'static str,
    in_reach: bool,
}

/// The greatest ground speed of a candidate is 700 knots.
const FAST: [(&str, &str); 1] = [(
    "gs = { min = 3600, max = 3600, step = 1,",
    "gs = { min = 3600, max = 7000, step = 3400,",
)];

/// The least vertical speed of a candidate is -2000 ft/min.
const DESCENDING: [(&str, &str); 1] = [(
    "vs = { min = 0, max = 0, step = 1,",
    "vs = { min = -2000, max = 0, step = 2000,",
)];

/// Twenty seconds to co-altitude count.
const LEVELLING: [(&str, &str); 1] = [("tcoa = 0", "tcoa = 20")];

// 23760 and 45 times 3601 units are 185805, which is 5161.25 times 36; 27000 and 10 times 1000 are
// 37000, 616.67 times 60. Where the aircraft flies east at 36 units a second, 23760 and 45 times
// 3637 are 187425, which is 5206.25 times 36. Where it climbs at 60 units a second, 27000 and 10
// times 1060 are 37600, which is 626.67 times 60. At 7000 units a second 23760 and 45 times 7001
// are 338805, which is 9411.25 times 36. With 3000 units a second up, or with thirty seconds at
// 1000, 27000 and 30000 are 950 times 60; with 2000, 27000 and 20000 are 783.33 times 60.
static ROWS: [Row; 22] = [
    Row {
        shows: "east",
        edits: &[],
        own: NORTH,
        aircraft: "traffic A 5161 0 1000 0 0 0 0",
        in_reach: true,
    },
    Row {
        shows: "east",
        edits: &[],
        own: NORTH,
        aircraft: "traffic A 5162 0 1000 0 0 0 0",
        in_reach: false,
    },
    Row {
        shows: "west",
        edits: &[],
        own: NORTH,
        aircraft: "traffic A -5161 0 1000 0 0 0 0",
        in_reach: true,
    },
    Row {
        shows: "west",
        edits: &[],
        own: NORTH,
        aircraft: "traffic A -5162 0 1000 0 0 0 0",
        in_reach: false,
    },
    Row {
        shows: "north",
        edits: &[],
        own: NORTH,
        aircraft: "traffic A 0 5161 1000 0 0 0 0",
        in_reach: true,
    },
    Row {
        shows: "north",
        edits: &[],
        own: NORTH,
        aircraft: "traffic A 0 5162 1000 0 0 0 0",
        in_reach: false,
    },
    Row {
        shows: "above",
        edits: &[],
        own: NORTH,
        aircraft: "traffic A 0 0 1616 0 0 0 0",
        in_reach: true,
    },
    Row {
        shows: "above",
        edits: &[],
        own: NORTH,
        aircraft: "traffic A 0 0 1617 0 0 0 0",
        in_reach: false,
    },
    Row {
        shows: "east, and flying on",
        edits: &[],
        own: NORTH,
        aircraft: "traffic A 5206 0 1000 36 0 0 0",
        in_reach: true,
    },
    Row {
        shows: "east, and flying on",
        edits: &[],
        own: NORTH,
        aircraft: "traffic A 5207 0 1000 36 0 0 0",
        in_reach: false,
    },
    Row {
        shows: "east, and flown on for a minute",
        edits: &[],
        own: NORTH,
        aircraft: "traffic A 5146 0 1000 36 0 0 60",
        in_reach: true,
    },
    Row {
        shows: "east, and flown on for a minute",
        edits: &[],
        own: NORTH,
        aircraft: "traffic A 5147 0 1000 36 0 0 60",
        in_reach: false,
    },
    Row {
        shows: "above and climbing at 60 ft/min for a minute",
        edits: &[],
        own: NORTH,
        aircraft: "traffic A 0 0 1566 0 0 60 60",
        in_reach: true,
    },
    Row {
        shows: "above and climbing at 60 ft/min for a minute",
        edits: &[],
        own: NORTH,
        aircraft: "traffic A 0 0 1567 0 0 60 60",
        in_reach: false,
    },
    Row {
        shows: "east, of a candidate faster than the ownship",
        edits: &FAST,
        own: NORTH,
        aircraft: "traffic A 9411 0 1000 0 0 0 0",
        in_reach: true,
    },
    Row {
        shows: "east, of a candidate faster than the ownship",
        edits: &FAST,
        own: NORTH,
        aircraft: "traffic A 9412 0 1000 0 0 0 0",
        in_reach: false,
    },
    Row {
        shows: "above an ownship that climbs faster than any candidate",
        edits: &[],
        own: CLIMBING,
        aircraft: "traffic A 0 0 1950 0 0 0 0",
        in_reach: true,
    },
    Row {
        shows: "above an ownship that climbs faster than any candidate",
        edits: &[],
        own: CLIMBING,
        aircraft: "traffic A 0 0 1951 0 0 0 0",
        in_reach: false,
    },
    Row {
        shows: "above, by the fastest descent of a candidate",
        edits: &DESCENDING,
        own: NORTH,
        aircraft: "traffic A 0 0 1783 0 0 0 0",
        in_reach: true,
    },
    Row {
        shows: "above, by the fastest descent of a candidate",
        edits: &DESCENDING,
        own: NORTH,
        aircraft: "traffic A 0 0 1784 0 0 0 0",
        in_reach: false,
    },
    Row {
        shows: "above, by the time to co-altitude",
        edits: &LEVELLING,
        own: NORTH,
        aircraft: "traffic A 0 0 1950 0 0 0 0",
        in_reach: true,
    },
    Row {
        shows: "above, by the time to co-altitude",
        edits: &LEVELLING,
        own: NORTH,
        aircraft: "traffic A 0 0 1951 0 0 0 0",
        in_reach: false,
    },
];

#[test]
fn the_last_place_in_reach(rt: HostRuntime) -> Result<(), Fail> {
    for row in &ROWS {
        let config = config_of(
            &rt,
            &Settings {
                text: ONE_LEVEL,
                edits: row.edits,
            },
        )?;
        let picture = picture_in(&["moment 0", row.own, row.aircraft, "end"]).expect(
            &rt,
            "the lines of a moment",
        );
        assert!(rt; picture.traffic.len() == 1, "{}", row.shows);
        let in_reach = is_in_reach(&config, &picture);
        let count = count_in_reach(&config, &picture);
        assert!(rt; in_reach == row.in_reach, "{}: {}", row.shows, row.aircraft);
        assert!(rt;
            count == u32::from(row.in_reach),
            "{}: {}",
            row.shows,
            row.aircraft
        );
    }
    Ok(())
}
