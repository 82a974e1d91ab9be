//! States as C has them.

ghost use Rattle.std.specs.Prelude.{◌≡◌, ◌≤◌, length, map, take, Some, None};
ghost use Rattle.std.specs.Prelude.{IsTrue, IfOk, IfErr, OnOk};
ghost use Rattle.std.specs.Option.{SomeIff};
ghost use Rattle.daa_state.specs.Id.{is_id};
ghost use Rattle.daa_state.specs.InRange.{IsOwnInRange, IsTrafficInRange};
ghost use Rattle.daa_numbers.specs.Asked.{IsTaken};
ghost use Rattle.daa_numbers.specs.Refusal.{bad_id_from, own_refusal};
ghost use Rattle.daa_numbers.specs.Refusal.{traffic_refusal, states_refusal};
ghost use Rattle.daa_numbers.specs.States.{text_of, traffic_of, picture_of};

use crate::refusal::Refusal;
use arrayvec::ArrayVec;
use daa_state::{Id, MOST_AIRCRAFT, Own, PairBounds, Picture, PictureFault, Traffic};

/// An aircraft: its identifier, which ends before the first byte 0, or with the eighth, and the
/// numbers of [`Traffic`], in the same units and ranges.
#[repr(C)]
#[derive(Clone, Copy)]
pub struct DaaTraffic {
    pub id: [u8; 8],
    pub x: i32,
    pub y: i32,
    pub alt: i32,
    pub vx: i32,
    pub vy: i32,
    pub vs: i32,
    pub age: u32,
}

/// The number of bytes before the first 0.
pub(crate) fn text_end(bytes: &[u8]) -> usize
    ensures within { result ≤ length bytes.now }
    ensures text { take result bytes.now ≡ text_of bytes.now }
{
    let mut end = 0;
    while end < bytes.len() && bytes[end] != 0 {
        end += 1;
    }
    end
}

/// The aircraft of these numbers, if its identifier is allowed. Its report and the ownship's are
/// taken as the truth.
fn aircraft(traffic: &DaaTraffic) -> Option<Traffic>
    ensures { SomeIff result (IsTrue (is_id (text_of traffic.now.id))) (traffic_of traffic.now) }
{
    let id = Id::of(&traffic.id[..text_end(&traffic.id)])?;
    Some(Traffic {
        id,
        x: traffic.x,
        y: traffic.y,
        alt: traffic.alt,
        vx: traffic.vx,
        vy: traffic.vy,
        vs: traffic.vs,
        age: traffic.age,
        bounds: PairBounds::EXACT,
    })
}

/// Whether each number of an ownship is in its range; else why the ownship is refused.
pub(crate) fn test_own(own: &Own) -> Result<(), Refusal>
    ensures range { OnOk result (IsOwnInRange own.now) }
    ensures sound { OnOk result (own_refusal own.now ≡ None) }
    ensures refused { IfErr result (λ refusal. own_refusal own.now ≡ Some refusal) }
{
    match own.check() {
        Ok(_) => Ok(()),
        Err(fault) => Err(Refusal::Picture(PictureFault::Own(fault))),
    }
}

/// The aircraft of these numbers, if its identifier is allowed, which is looked at first, and they
/// are in range.
pub(crate) fn checked_traffic(traffic: &DaaTraffic) -> Result<Traffic, Refusal>
    ensures value { IfOk result (λ t. t ≡ traffic_of traffic.now) }
    ensures range { IfOk result IsTrafficInRange }
    ensures sound { OnOk result (traffic_refusal traffic.now ≡ None) }
    ensures refused { IfErr result (λ refusal. traffic_refusal traffic.now ≡ Some refusal) }
{
    let Some(one) = aircraft(traffic) else {
        return Err(Refusal::BadId(0));
    };
    match one.check() {
        Ok(one) => Ok(one),
        Err(fault) => Err(Refusal::Picture(PictureFault::Traffic(0, fault))),
    }
}

/// The aircraft of these numbers, where their identifiers are allowed; else the place of the first
/// one whose identifier is not.
fn all_aircraft(traffic: &[DaaTraffic]) -> Result<ArrayVec<Traffic, MOST_AIRCRAFT>, usize>
    requires { length traffic.now ≤ 64 }
    ensures value { IfOk result (λ all. all.items ≡ map traffic_of traffic.now) }
    ensures sound { OnOk result (bad_id_from 0 traffic.now ≡ None) }
    ensures refused { IfErr result (λ place. bad_id_from 0 traffic.now ≡ Some place) }
{
    let mut all = ArrayVec::new();
    for place in 0..traffic.len() {
        let Some(one) = aircraft(&traffic[place]) else {
            return Err(place);
        };
        all.push(one);
    }
    Ok(all)
}

/// The picture of these numbers, if the engine takes it. Else the first of these causes: too many
/// aircraft, an identifier that is not allowed, why the states are no picture.
pub(crate) fn picture(time: u32, own: &Own, traffic: &[DaaTraffic]) -> Result<Picture, Refusal>
    ensures value { IfOk result (λ p. p ≡ picture_of time own.now traffic.now) }
    ensures taken { IfOk result IsTaken }
    ensures sound { OnOk result (states_refusal own.now traffic.now ≡ None) }
    ensures refused { IfErr result (λ refusal. states_refusal own.now traffic.now ≡ Some refusal) }
{
    if traffic.len() > MOST_AIRCRAFT {
        return Err(Refusal::Picture(PictureFault::TooMany));
    }
    let all = match all_aircraft(traffic) {
        Ok(all) => all,
        Err(place) => return Err(Refusal::BadId(place)),
    };
    match Picture::check(time, *own, all.as_slice()) {
        Ok(picture) => Ok(picture),
        Err(fault) => Err(Refusal::Picture(fault)),
    }
}
