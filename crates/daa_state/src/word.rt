//! What state lines say.

use crate::id::Id;
use arrayvec::ArrayVec;

/// The ownship: its position east and north in thousandths of a nautical mile (-200000 to 200000),
/// altitude in feet (-2000 to 60000), track in degrees clockwise from north (0 to 359), ground
/// speed in tenths of a knot (0 to 10000) and vertical speed in feet per minute (-10000 to 10000).
/// The layout is that of C.
#[repr(C)]
#[derive(Clone, Copy, Debug, PartialEq, Eq)]
pub struct Own {
    pub x: i32,
    pub y: i32,
    pub alt: i32,
    pub trk: i32,
    pub gs: i32,
    pub vs: i32,
}

/// How far one report may be from the truth, each from 0 to 10000. A report whose four bounds are 0
/// is taken as the truth. The layout is that of C.
#[repr(C)]
#[derive(Clone, Copy, Debug, PartialEq, Eq, Default)]
pub struct ReportBounds {
    /// The distance over ground between true and reported place, in thousandths of a nautical mile.
    pub place: u32,
    /// The error of the altitude, in feet.
    pub height: u32,
    /// The error of the velocity over ground, in tenths of a knot.
    pub speed: u32,
    /// The error of the vertical speed, in feet per minute.
    pub climb: u32,
}

/// The bounds of what the ownship and one aircraft report.
#[derive(Clone, Copy, Debug, PartialEq, Eq, Default)]
pub struct PairBounds {
    /// Those of the ownship's report, which is of the moment.
    pub own: ReportBounds,
    /// Those of the aircraft's, which hold at the time of its report.
    pub aircraft: ReportBounds,
}

impl PairBounds {
    /// Both reports are taken as the truth.
    pub const EXACT: PairBounds = PairBounds {
        own: ReportBounds::EXACT,
        aircraft: ReportBounds::EXACT,
    };
}

impl ReportBounds {
    /// The report is taken as the truth.
    pub const EXACT: ReportBounds = ReportBounds {
        place: 0,
        height: 0,
        speed: 0,
        climb: 0,
    };
}

/// An aircraft: its identifier, its position east and north in thousandths of a nautical mile
/// (-200000 to 200000), altitude in feet (-2000 to 60000), speed east and north in tenths of a knot
/// (-10000 to 10000), vertical speed in feet per minute (-10000 to 10000), the age of its report in
/// seconds (0 to 60), and what its report and the ownship's may err by.
#[derive(Clone, Copy, Debug, PartialEq, Eq, Default)]
pub struct Traffic {
    pub id: Id,
    pub x: i32,
    pub y: i32,
    pub alt: i32,
    pub vx: i32,
    pub vy: i32,
    pub vs: i32,
    pub age: u32,
    pub bounds: PairBounds,
}

/// The most aircraft of a moment.
pub const MOST_AIRCRAFT: usize = 64;

/// An ended moment: its time in seconds, its ownship, and its aircraft in the order of their lines.
#[derive(Debug, Drop)]
pub struct Picture {
    pub time: u32,
    pub own: Own,
    pub traffic: ArrayVec<Traffic, MOST_AIRCRAFT>,
}

/// The word that a line says.
#[derive(Clone, Copy, Debug, PartialEq, Eq)]
pub enum Word {
    /// A moment of this time, in seconds, begins.
    Moment(u32),
    /// The ownship of the open moment, and what its report may err by.
    Own(Own, ReportBounds),
    /// One more aircraft of the open moment. What the ownship's report may err by is put beside its
    /// own bounds when the moment ends.
    Traffic(Traffic),
    /// The lines that follow are in this format, 1 to 3.
    Format(u32),
    /// The open moment ends.
    End,
    /// A line without a field, or a comment.
    Skip,
}
