//! The side of an answer, made steady: it is not left within some seconds, unless it has none.

ghost use Rattle.std.specs.Prelude.{◌≡◌, ◌≢◌, ◌<◌, pos};
ghost use Rattle.daa_steady.specs.Sides.{what_of, open_side, side_after, shown_of, until_after};
ghost use Rattle.daa_steady.specs.Sides.{IsNoSide, IsNotLaterSide, IsSideAfter, IsKeptSide};

use crate::codes::{BAD_SIDE, NOT_LATER};

/// What is kept of a kind's side from one moment to the next; all zeros, nothing. The side: 1 for
/// the lower one, 2 for the upper one, or 0 for none; the first second at which another one may
/// take its place; and the first second that is taken.
#[repr(C)]
#[derive(Clone, Copy)]
pub struct DaaSide {
    pub side: u32,
    pub until: u64,
    pub next: u64,
}

/// What the answer on a side is; 2, nothing, where there is no side.
fn what_of(lower: i32, upper: i32, side: u32) -> i32
    ensures { result ≡ what_of lower upper side }
{
    if side == 1 {
        return lower;
    }
    if side == 2 {
        return upper;
    }
    2
}

/// The side to go to: the preferred one if it has a value, else the other one if that has, or none.
fn open_side(lower: i32, upper: i32, preferred: u32) -> u32
    requires { preferred < 3 }
    ensures { result ≡ open_side lower upper preferred }
{
    if what_of(lower, upper, preferred) == 1 {
        return preferred;
    }
    if what_of(lower, upper, 3 - preferred) == 1 {
        return 3 - preferred;
    }
    0
}

/// The side in a moment, after the one before it.
fn side_after(time: u32, lower: i32, upper: i32, preferred: u32, state: &DaaSide) -> u32
    requires { preferred < 3 }
    ensures { result ≡ side_after lower upper time preferred state.now }
{
    if u64::from(time) < state.until && what_of(lower, upper, state.side) != 2 {
        state.side
    } else {
        open_side(lower, upper, preferred)
    }
}

/// The number of a side that is shown: -1 where it has no value.
fn shown_of(lower: i32, upper: i32, side: u32) -> i32
    ensures { result ≡ shown_of lower upper side }
{
    if what_of(lower, upper, side) != 1 {
        return -1;
    }
    if side == 1 { 0 } else { 1 }
}

/// When another side may take the place of this one.
fn until_after(seconds: u32, time: u32, side: u32, state: &DaaSide) -> u64
    ensures { result ≡ until_after seconds time side state.now }
{
    if side == state.side {
        state.until
    } else {
        u64::from(time) + u64::from(seconds)
    }
}

/// Takes a moment.
fn take(
    seconds: u32,
    time: u32,
    lower: i32,
    upper: i32,
    preferred: u32,
    state: &mut DaaSide,
    shown: &mut i32,
)
    requires { preferred < 3 }
    ensures { IsSideAfter seconds time lower upper preferred state.old state.new shown.new }
{
    let side = side_after(time, lower, upper, preferred, state);
    *state = DaaSide {
        side,
        until: until_after(seconds, time, side, state),
        next: u64::from(time) + 1,
    };
    *shown = shown_of(lower, upper, side);
}

/// Takes what the answers on the two sides of a kind are in a moment (the `what` of each: 1 for a
/// value, 2 for nothing), and which side is preferred; and fills in the side whose value is to be
/// shown, or -1. A side that was taken stays for `seconds`, unless its answer is nothing. Returns
/// 0, or the code of why nothing was taken.
pub fn steady_side(
    seconds: u32,
    time: u32,
    lower: i32,
    upper: i32,
    preferred: i32,
    state: &mut DaaSide,
    shown: &mut i32,
) -> i32
    ensures steadied { result ≡ pos 0
        → IsKeptSide seconds time lower upper preferred state.old state.new shown.new }
    ensures kept { result ≢ pos 0 → (state.new ≡ state.old) × (shown.new ≡ shown.old) }
    ensures bad_side { result ≡ pos 24 → IsNoSide preferred }
    ensures not_later { result ≡ pos 35 → IsNotLaterSide time preferred state.old }
    ensures codes { result ≢ pos 0 → result ≢ pos 24 → result ≡ pos 35 }
{
    if preferred < 0 || preferred > 1 {
        return BAD_SIDE;
    }
    if u64::from(time) < state.next {
        return NOT_LATER;
    }
    take(
        seconds,
        time,
        lower,
        upper,
        preferred as u32 + 1,
        state,
        shown,
    );
    0
}
