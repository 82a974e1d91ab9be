//! The units of a moment and their words.

use super::{Settings, config_of, count_in_reach, masks_of, picture_in, words_of};
use daa_config::examples::ONE_LEVEL;
use std::test::Fail;

/// An aircraft abeam in 10 seconds, one far away, and one at the ownship's place with its velocity.
const LINES: [&str; 6] = [
    "moment 0",
    "own 0 0 1000 0 3600 0",
    "traffic A 660 1000 1000 0 0 0 0",
    "traffic B 100000 0 1000 0 0 0 0",
    "traffic C 0 0 1000 0 3600 0 0",
    "end",
];

// Of the eight candidates all but the fifth meet A, and all meet C: five bits are 3 where one is
// met, else 1, so that the words are the sums of 3 or 1 times 32 to the candidate's place.
const ONE_GROUP: [u64; 2] = [
    0b00011_00011_00011_00001_00011_00011_00011_00011,
    0b00011_00011_00011_00011_00011_00011_00011_00011,
];

#[test]
fn words_of_one_group(rt: HostRuntime) -> Result<(), Fail> {
    let config = config_of(
        &rt,
        &Settings {
            text: ONE_LEVEL,
            edits: &[("tthr = 35", "tthr = 0")],
        },
    )?;
    let picture = picture_in(&LINES).expect(&rt, "the lines of a moment");
    assert!(rt; count_in_reach(&config, &picture) == 2);
    let words = words_of(rt.alloc(), &config, &picture)?;
    assert!(rt; words.as_slice() == ONE_GROUP.as_slice());
    Ok(())
}

// Sixteen candidates are a group of twelve and one of four. All meet C.
const TWO_GROUPS: [u64; 2] = [
    0b00011_00011_00011_00011_00011_00011_00011_00011_00011_00011_00011_00011,
    0b00011_00011_00011_00011,
];

/// The word of a group, by the masks of its at most twelve candidates.
fn word_of_masks(masks: &[u8]) -> u64 {
    let mut word = 0;
    for mask in masks.iter().rev() {
        word = word << 5 | (1 + 2 * u64::from(*mask));
    }
    word
}

#[test]
fn words_of_two_groups(rt: HostRuntime) -> Result<(), Fail> {
    let config = config_of(
        &rt,
        &Settings {
            text: ONE_LEVEL,
            edits: &[
                ("track_step = 90", "track_step = 30"),
                ("tthr = 35", "tthr = 0"),
            ],
        },
    )?;
    let picture = picture_in(&LINES).expect(&rt, "the lines of a moment");
    assert!(rt; picture.traffic.len() == 3);
    let words = words_of(rt.alloc(), &config, &picture)?;
    let masks = masks_of(rt.alloc(), &config, &picture, 0)?;
    let (first, second) = masks.as_slice().split_at_checked(12).ok_or("two groups")?;
    let [of_first, of_second, rest @ ..] = words.as_slice() else {
        return Err("words of two groups".into());
    };
    assert!(rt; *of_first == word_of_masks(first));
    assert!(rt; *of_second == word_of_masks(second));
    assert!(rt; rest == TWO_GROUPS.as_slice());
    Ok(())
}

/// A moment whose one aircraft is far away, and one without an aircraft.
static NOBODY_NEAR: [&[&str]; 2] = [
    &[
        "moment 0",
        "own 0 0 1000 0 3600 0",
        "traffic B 100000 0 1000 0 0 0 0",
        "end",
    ],
    &["moment 0", "own 0 0 1000 0 3600 0", "end"],
];

#[test]
fn no_units_where_none_is_in_reach(rt: HostRuntime) -> Result<(), Fail> {
    let config = config_of(
        &rt,
        &Settings {
            text: ONE_LEVEL,
            edits: &[],
        },
    )?;
    for lines in &NOBODY_NEAR {
        let picture = picture_in(lines).expect(&rt, "the lines of a moment");
        assert!(rt; count_in_reach(&config, &picture) == 0);
        assert!(rt; words_of(rt.alloc(), &config, &picture)?.is_empty());
    }
    Ok(())
}
