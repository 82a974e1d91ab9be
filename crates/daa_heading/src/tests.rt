//! Worked headings.

use super::*;
use std::test::Fail;

#[test]
fn velocities_of_headings(rt: HostRuntime) -> Result<(), Fail> {
    for (gs, deg, east, north) in [
        (3600, 30, 1800, 3117),
        (3600, 225, -2545, -2545),
        (10000, 180, 0, -10000),
        (1, 45, 0, 0),
    ] {
        let flown = velocity(gs, deg);
        assert_eq!(rt; flown.east, east, "east of {gs} at {deg}");
        assert_eq!(rt; flown.north, north, "north of {gs} at {deg}");
    }
    Ok(())
}

// East is at 90 degrees, south at 180, west at 270; a degree left of north is the mirror of one
// right of it.
#[test]
fn sines_and_cosines(rt: HostRuntime) -> Result<(), Fail> {
    for (deg, sine, cosine) in [
        (0, 0, 10000),
        (1, 175, 9998),
        (90, 10000, 0),
        (120, 8660, -5000),
        (180, 0, -10000),
        (181, -175, -9998),
        (270, -10000, 0),
        (359, -175, 9998),
    ] {
        let found = unit(deg);
        assert_eq!(rt; found.0, sine, "sine of {deg}");
        assert_eq!(rt; found.1, cosine, "cosine of {deg}");
    }
    sines_are_near_circle();
    Ok(())
}
