//! What is wrong with states.

ghost use Rattle.std.specs.Prelude.{◌≡◌, pos};
ghost use Rattle.daa_numbers.specs.Faults.{plain_fault, ranged_fault, fault_by};
ghost use Rattle.daa_numbers.specs.Faults.{number_of_field, IsFaultOf};

use crate::refusal::{Refusal, code};
use crate::states::{DaaTraffic, picture};
use daa_state::{Field, OutOfRange, Own, PictureFault};

/// What is wrong with states: the code, the number that is out of range (1 to 9), the least and the
/// greatest that it may be, and the place of the aircraft. What does not apply is 0.
#[repr(C)]
#[derive(Clone, Copy)]
pub struct DaaFault {
    pub code: i32,
    pub field: i32,
    pub least: i32,
    pub greatest: i32,
    pub place: u64,
}

/// The number of a field of a state.
fn field_number(field: Field) -> i32
    ensures { result ≡ number_of_field field }
{
    match field {
        Field::East => 1,
        Field::North => 2,
        Field::Altitude => 3,
        Field::Track => 4,
        Field::GroundSpeed => 5,
        Field::VerticalSpeed => 6,
        Field::SpeedEast => 7,
        Field::SpeedNorth => 8,
        Field::Age => 9,
        Field::PlaceBound => 10,
        Field::HeightBound => 11,
        Field::SpeedBound => 12,
        Field::ClimbBound => 13,
    }
}

/// A fault with no number.
fn bare_fault(code: i32, place: usize) -> DaaFault
    ensures { result ≡ plain_fault code place }
{
    DaaFault {
        code,
        field: 0,
        least: 0,
        greatest: 0,
        place: place as u64,
    }
}

/// A fault of a number.
fn range_fault(code: i32, place: usize, fault: &OutOfRange) -> DaaFault
    ensures { result ≡ ranged_fault code place fault.now }
{
    DaaFault {
        code,
        field: field_number(fault.field),
        least: fault.least,
        greatest: fault.greatest,
        place: place as u64,
    }
}

/// The report of a refusal.
fn fault_numbers(refusal: Refusal) -> DaaFault
    ensures { result ≡ fault_by refusal }
{
    match refusal {
        Refusal::Config(_) => bare_fault(code(refusal), 0),
        Refusal::BadId(place) => bare_fault(21, place),
        Refusal::Picture(PictureFault::TooMany) => bare_fault(18, 0),
        Refusal::Picture(PictureFault::Own(fault)) => range_fault(16, 0, &fault),
        Refusal::Picture(PictureFault::Traffic(place, fault)) => range_fault(17, place, &fault),
        Refusal::Picture(PictureFault::SameId(place)) => bare_fault(22, place),
    }
}

/// What is wrong with an ownship and aircraft, or that nothing is.
fn fault_of(own: &Own, traffic: &[DaaTraffic]) -> DaaFault
    ensures { IsFaultOf own.now traffic.now result }
{
    match picture(0, own, traffic) {
        Ok(_) => bare_fault(0, 0),
        Err(refusal) => fault_numbers(refusal),
    }
}

/// Fills in what is wrong with an ownship and aircraft, or that nothing is. Returns 0.
pub fn fault(own: &Own, traffic: &[DaaTraffic], out: &mut DaaFault) -> i32
    ensures answer { result ≡ pos 0 }
    ensures filled { IsFaultOf own.now traffic.now out.new }
{
    *out = fault_of(own, traffic);
    0
}
