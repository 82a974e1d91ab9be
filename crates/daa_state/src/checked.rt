//! States from numbers: the value, all of whose ranges contracts then know, or which of a caller's
//! numbers is out of its range.

ghost use Rattle.std.specs.Prelude.{◌≡◌, ◌<◌, length, true, false, slice_get};
ghost use Rattle.std.specs.Prelude.{Some, None, IfOk, IfErr, OnOk, pos};
ghost use Rattle.daa_state.specs.Checked.{bounds_of, is_within, out_of_range, first_out_of_range};
ghost use Rattle.daa_state.specs.Checked.{number_of, own_numbers, traffic_numbers};
ghost use Rattle.daa_state.specs.Checked.{IsTakenAt, AreTaken, fault_at, picture_fault_of};
ghost use Rattle.daa_state.specs.InRange.{IsOwnInRange, IsTrafficInRange, IsPictureInRange};
ghost use Rattle.daa_state.specs.MomentStep.{has_id};
ghost use Rattle.daa_state.specs.Picture.{aircraft_of};
ghost use Rattle.daa_state.specs.declared.word.Traffic.{Traffic};

use crate::id::Id;
use crate::word::{MOST_AIRCRAFT, Own, Picture, Traffic};
use arrayvec::ArrayVec;
use std::error::Error;
use std::fmt;

/// What a number of a state is.
#[derive(Clone, Copy, Debug, PartialEq, Eq)]
pub enum Field {
    /// The place east, `x`, in thousandths of a nautical mile.
    East,
    /// The place north, `y`, in thousandths of a nautical mile.
    North,
    /// `alt`, in feet.
    Altitude,
    /// `trk`, in degrees clockwise from north.
    Track,
    /// `gs`, in tenths of a knot.
    GroundSpeed,
    /// `vs`, in feet per minute.
    VerticalSpeed,
    /// An aircraft's speed east, `vx`, in tenths of a knot.
    SpeedEast,
    /// An aircraft's speed north, `vy`, in tenths of a knot.
    SpeedNorth,
    /// How many seconds old an aircraft's report is, `age`.
    Age,
    /// How far a reported place may be from the true one, in thousandths of a nautical mile.
    PlaceBound,
    /// How far a reported altitude may be from the true one, in feet.
    HeightBound,
    /// How far a reported velocity over ground may be from the true one, in tenths of a knot.
    SpeedBound,
    /// How far a reported vertical speed may be from the true one, in feet per minute.
    ClimbBound,
}

/// A number of a state is out of its range: what it is, and the least and the greatest that it may
/// be. Of several numbers it is the first, in the order of the fields.
#[derive(Clone, Copy, Debug, PartialEq, Eq)]
pub struct OutOfRange {
    pub field: Field,
    pub least: i32,
    pub greatest: i32,
}

/// Why an ownship and aircraft are no picture: the first of the faults that are there, in the order
/// that [`Picture::check`] tells. Places are counted from 0.
#[derive(Clone, Copy, Debug, PartialEq, Eq)]
pub enum PictureFault {
    /// There are more than 64 aircraft.
    TooMany,
    /// A number of the ownship is out of its range.
    Own(OutOfRange),
    /// A number of the aircraft at this place is out of its range.
    Traffic(usize, OutOfRange),
    /// The aircraft at this place has the identifier of an earlier one.
    SameId(usize),
}

impl Field {
    /// The least number that it may be.
    fn least(self) -> i32
        ensures { result ≡ (bounds_of self).low }
    {
        match self {
            Field::East | Field::North => -200_000,
            Field::Altitude => -2_000,
            Field::Track | Field::GroundSpeed | Field::Age => 0,
            Field::PlaceBound | Field::HeightBound | Field::SpeedBound | Field::ClimbBound => 0,
            Field::VerticalSpeed | Field::SpeedEast | Field::SpeedNorth => -10_000,
        }
    }

    /// The greatest number that it may be.
    fn greatest(self) -> i32
        ensures { result ≡ (bounds_of self).high }
    {
        match self {
            Field::East | Field::North => 200_000,
            Field::Altitude => 60_000,
            Field::Track => 359,
            Field::GroundSpeed | Field::VerticalSpeed | Field::SpeedEast | Field::SpeedNorth =>
                10_000,
            Field::Age => 60,
            Field::PlaceBound | Field::HeightBound | Field::SpeedBound | Field::ClimbBound =>
                10_000,
        }
    }

    /// The name of the number, and its unit in brackets.
    fn name(self) -> &'static str {
        match self {
            Field::East => "x (0.001 NM)",
            Field::North => "y (0.001 NM)",
            Field::Altitude => "alt (ft)",
            Field::Track => "trk (degrees)",
            Field::GroundSpeed => "gs (0.1 kt)",
            Field::VerticalSpeed => "vs (ft/min)",
            Field::SpeedEast => "vx (0.1 kt)",
            Field::SpeedNorth => "vy (0.1 kt)",
            Field::Age => "age (s)",
            Field::PlaceBound => "a bound of the place (0.001 NM)",
            Field::HeightBound => "a bound of the altitude (ft)",
            Field::SpeedBound => "a bound of the velocity (0.1 kt)",
            Field::ClimbBound => "a bound of the vertical speed (ft/min)",
        }
    }
}

/// A number, and what it is.
#[derive(Clone, Copy)]
struct Number {
    field: Field,
    number: i64,
}

/// Whether a number is in the range of its field.
fn test(number: &Number) -> Result<(), OutOfRange>
    ensures within { OnOk result (is_within (bounds_of number.now.field) number.now.number ≡ true) }
    ensures beyond { IfErr result
        (λ fault. (is_within (bounds_of number.now.field) number.now.number ≡ false)
        × (fault ≡ out_of_range number.now.field)) }
{
    let least = number.field.least();
    let greatest = number.field.greatest();
    if i64::from(least) <= number.number && number.number <= i64::from(greatest) {
        Ok(())
    } else {
        Err(OutOfRange {
            field: number.field,
            least,
            greatest,
        })
    }
}

/// Whether each number is in the range of its field.
#[tactic(auto, unfolding(crate::specs::Checked::first_out_of_range))]
fn test_all(numbers: &[Number]) -> Result<(), OutOfRange>
    ensures within { OnOk result (first_out_of_range numbers.now ≡ None) }
    ensures refused { IfErr result (λ fault. first_out_of_range numbers.now ≡ Some fault) }
{
    for number in numbers {
        test(number)?;
    }
    Ok(())
}

/// A number, and what it is.
fn number_of(field: Field, number: i32) -> Number
    ensures { result ≡ number_of field number }
{
    Number {
        field,
        number: i64::from(number),
    }
}

/// The numbers of an ownship.
fn own_numbers(own: &Own) -> [Number; 6]
    ensures { result ≡ own_numbers own.now }
{
    [
        number_of(Field::East, own.x),
        number_of(Field::North, own.y),
        number_of(Field::Altitude, own.alt),
        number_of(Field::Track, own.trk),
        number_of(Field::GroundSpeed, own.gs),
        number_of(Field::VerticalSpeed, own.vs),
    ]
}

/// A number that is never negative, and what it is.
fn count_of(field: Field, count: u32) -> Number
    ensures { result ≡ number_of field (pos count) }
{
    Number {
        field,
        number: i64::from(count),
    }
}

/// The numbers of an aircraft. Its bounds come last, those of the ownship's report first.
fn traffic_numbers(aircraft: &Traffic) -> [Number; 15]
    ensures { result ≡ traffic_numbers aircraft.now }
{
    [
        number_of(Field::East, aircraft.x),
        number_of(Field::North, aircraft.y),
        number_of(Field::Altitude, aircraft.alt),
        number_of(Field::SpeedEast, aircraft.vx),
        number_of(Field::SpeedNorth, aircraft.vy),
        number_of(Field::VerticalSpeed, aircraft.vs),
        count_of(Field::Age, aircraft.age),
        count_of(Field::PlaceBound, aircraft.bounds.own.place),
        count_of(Field::HeightBound, aircraft.bounds.own.height),
        count_of(Field::SpeedBound, aircraft.bounds.own.speed),
        count_of(Field::ClimbBound, aircraft.bounds.own.climb),
        count_of(Field::PlaceBound, aircraft.bounds.aircraft.place),
        count_of(Field::HeightBound, aircraft.bounds.aircraft.height),
        count_of(Field::SpeedBound, aircraft.bounds.aircraft.speed),
        count_of(Field::ClimbBound, aircraft.bounds.aircraft.climb),
    ]
}

impl Own {
    /// This ownship, if each of its numbers is in its range; else the first number, in the order
    /// of the fields, that is out of its range.
    #[tactic(auto, using(crate::proofs::TakenLemmas::own_range))]
    pub fn check(self) -> Result<Own, OutOfRange>
        ensures value { IfOk result (λ own. own ≡ self) }
        ensures range { IfOk result IsOwnInRange }
        ensures sound { IfOk result (λ own. first_out_of_range (own_numbers self) ≡ None) }
        ensures refused { IfErr result
            (λ fault. first_out_of_range (own_numbers self) ≡ Some fault) }
    {
        test_all(&own_numbers(&self))?;
        Ok(self)
    }
}

impl Traffic {
    /// This aircraft, if each of its numbers is in its range; else the first number, in the order
    /// of the fields, that is out of its range.
    #[tactic(auto, using(crate::proofs::TakenLemmas::traffic_range))]
    pub fn check(self) -> Result<Traffic, OutOfRange>
        ensures value { IfOk result (λ aircraft. aircraft ≡ self) }
        ensures range { IfOk result IsTrafficInRange }
        ensures sound { IfOk result (λ aircraft. first_out_of_range (traffic_numbers self) ≡ None) }
        ensures refused { IfErr result
            (λ fault. first_out_of_range (traffic_numbers self) ≡ Some fault) }
    {
        // ensures that they are an identifier's
        let _bytes = self.id.bytes();
        test_all(&traffic_numbers(&self))?;
        Ok(self)
    }
}

/// Whether an aircraft has this identifier.
fn is_among(traffic: &[Traffic], id: &Id) -> bool
    ensures { result ≡ has_id id.now traffic.now }
{
    traffic.iter().any(|aircraft| aircraft.id == *id)
}

/// Whether the aircraft at a place is in range, and no aircraft before it has its identifier. The
/// fault is the first of its numbers that is out of its range, or else that an earlier aircraft has
/// the identifier.
fn test_aircraft(traffic: &[Traffic], place: usize) -> Result<(), PictureFault>
    requires { place < length traffic.now }
    ensures taken { OnOk result ((t : Traffic) → slice_get traffic.now place ≡ Some t
        → IsTakenAt traffic.now place t) }
    ensures sound { OnOk result ((t : Traffic) → slice_get traffic.now place ≡ Some t
        → fault_at traffic.now place t ≡ None) }
    ensures refused { IfErr result (λ fault. (t : Traffic) → slice_get traffic.now place ≡ Some t
        → fault_at traffic.now place t ≡ Some fault) }
{
    let aircraft = traffic[place];
    match aircraft.check() {
        Err(fault) => Err(PictureFault::Traffic(place, fault)),
        Ok(aircraft) => {
            if is_among(&traffic[..place], &aircraft.id) {
                Err(PictureFault::SameId(place))
            } else {
                Ok(())
            }
        }
    }
}

impl Picture {
    /// The picture of this time in seconds, this ownship and these aircraft, if each of their
    /// numbers is in its range and there are at most 64 aircraft of different identifiers; else why
    /// there is none. Of several faults it is the first: too many aircraft, then the ownship's
    /// first number, then the aircraft by their places, of each its first number before its
    /// identifier.
    pub fn check(time: u32, own: Own, traffic: &[Traffic]) -> Result<Picture, PictureFault>
        ensures time { IfOk result (λ picture. picture.time ≡ time) }
        ensures own { IfOk result (λ picture. picture.own ≡ own) }
        ensures traffic { IfOk result (λ picture. aircraft_of picture ≡ traffic.now) }
        ensures range { IfOk result IsPictureInRange }
        ensures different { IfOk result (λ picture. AreTaken (aircraft_of picture)) }
        ensures sound { IfOk result (λ picture. picture_fault_of own traffic.now ≡ None) }
        ensures refused { IfErr result
            (λ fault. picture_fault_of own traffic.now ≡ Some fault) }
    {
        if traffic.len() > MOST_AIRCRAFT {
            return Err(PictureFault::TooMany);
        }
        let own = match own.check() {
            Ok(own) => own,
            Err(fault) => return Err(PictureFault::Own(fault)),
        };
        let mut all = ArrayVec::new();
        for place in 0..traffic.len() {
            test_aircraft(traffic, place)?;
            all.push(traffic[place]);
        }
        Ok(Picture {
            time,
            own,
            traffic: all,
        })
    }
}

impl fmt::Display for OutOfRange {
    fn fmt<W: fmt::Write>(&self, f: &mut fmt::Formatter<W>) -> fmt::Result {
        write!(
            f,
            "{} is not {} to {}",
            self.field.name(),
            self.least,
            self.greatest
        )
    }
}

impl Error for OutOfRange {}

impl fmt::Display for PictureFault {
    fn fmt<W: fmt::Write>(&self, f: &mut fmt::Formatter<W>) -> fmt::Result {
        match self {
            PictureFault::TooMany => f.write_str("there are more than 64 aircraft"),
            PictureFault::Own(fault) => write!(f, "of the ownship, {}", fault),
            PictureFault::Traffic(place, fault) => write!(f, "of aircraft {}, {}", place, fault),
            PictureFault::SameId(place) => write!(
                f,
                "aircraft {} has an earlier one's identifier",
                place
            ),
        }
    }
}

impl Error for PictureFault {}
