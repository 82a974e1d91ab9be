//! Worked places and velocities. Distances, azimuths and the convergence of the meridians are those
//! of the geodesic of WGS 84 (Vincenty's formulas), tracks and speeds from tangent and root.

use super::*;
use std::test::Fail;

/// Latitude, longitude, east and north; track, speed and turn; x, y, east and north.
struct Worked {
    own: [i32; 4],
    aircraft: [i32; 4],
    course: [i32; 3],
    seen: [i32; 4],
}

fn place(numbers: &[i32; 4]) -> Place {
    Place {
        lat: numbers[0],
        lon: numbers[1],
        vx: numbers[2],
        vy: numbers[3],
    }
}

// A minute of latitude at the equator; the Netherlands; across 180 degrees; Greenland; east of New
// Zealand, to the left; Svalbard.
static WORKED: [Worked; 6] = [
    Worked {
        own: [0, 0, 0, 3600],
        aircraft: [166_667, 0, 0, 0],
        course: [0, 3600, 0],
        seen: [0, 995, 0, 0],
    },
    Worked {
        own: [520_000_000, 40_000_000, 1234, 3456],
        aircraft: [522_500_000, 43_500_000, -2800, 1500],
        course: [20, 3670, -3504],
        seen: [12_998, 14_972, -2798, 1504],
    },
    Worked {
        own: [-170_000_000, 1_799_000_000, -2500, 100],
        aircraft: [-168_000_000, -1_799_500_000, 3000, -40],
        course: [272, 2502, 2906],
        seen: [8573, 11_992, 3000, -27],
    },
    Worked {
        own: [700_000_000, -500_000_000, -4000, -2345],
        aircraft: [693_000_000, -475_000_000, 100, 4800],
        course: [240, 4637, -3810],
        seen: [52_985, -41_428, -64, 4801],
    },
    Worked {
        own: [-450_000_000, 1_700_000_000, 5, -4800],
        aircraft: [-445_000_000, 1_690_000_000, -4400, -1000],
        course: [180, 4800, -597],
        seen: [-42_911, 29_782, -4388, -1049],
    },
    Worked {
        own: [790_000_000, 100_000_000, 3000, 4000],
        aircraft: [795_000_000, 170_000_000, -2000, 5000],
        course: [37, 5000, -1301],
        seen: [76_821, 34_580, -2574, 4730],
    },
];

#[test]
fn places_in_the_plane(rt: HostRuntime) -> Result<(), Fail> {
    for row in &WORKED {
        let seen = seen_from(&place(&row.own), &place(&row.aircraft))?;
        assert!(rt; [seen.x, seen.y, seen.vx, seen.vy] == row.seen);
    }
    Ok(())
}

#[test]
fn courses_of_ownships(rt: HostRuntime) -> Result<(), Fail> {
    for row in &WORKED {
        let course = course_of(&place(&row.own))?;
        assert!(rt; [course.trk, course.gs, course.turn] == row.course);
    }
    Ok(())
}

#[test]
fn calls_fill_in_or_answer_a_code(rt: HostRuntime) -> Result<(), Fail> {
    let own = place(&WORKED[1].own);
    let aircraft = place(&WORKED[1].aircraft);
    let mut course = course_of(&place(&WORKED[0].own))?;
    let mut seen = seen_from(&own, &own)?;
    assert!(rt; plane_own(&own, &mut course) == 0);
    assert!(rt; [course.trk, course.gs, course.turn] == WORKED[1].course);
    assert!(rt; plane(&own, &aircraft, &mut seen) == 0);
    assert!(rt; [seen.x, seen.y, seen.vx, seen.vy] == WORKED[1].seen);
    assert!(rt; plane(&own, &place(&WORKED[2].aircraft), &mut seen) == 37);
    assert!(rt; plane(&own, &place(&[0, 0, 10_001, 0]), &mut seen) == 17);
    assert!(rt; plane_own(&place(&[800_000_001, 0, 0, 0]), &mut course) == 16);
    Ok(())
}
