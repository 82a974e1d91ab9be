//! Calls on what stays from one moment to the next.

ghost use Rattle.std.specs.Prelude.{◌≡◌, ◌≢◌, pos};
ghost use Rattle.daa_steady.specs.Alerts.{IsSteadied, IsNoRule, IsNoLevel, IsNotLater};
ghost use Rattle.daa_steady.specs.Sides.{IsKeptSide, IsNoSide, IsNotLaterSide};

use daa_numbers::{DaaSide, DaaSteady, DaaSteadyRule};

/// Takes the alert level of an aircraft in a moment, or that the moment has not the aircraft, -1;
/// and fills in the level to be shown. Returns 0, or the code of why nothing was taken.
#[unsafe(no_mangle)]
pub extern "C" fn daa_steady(
    rule: &DaaSteadyRule,
    time: u32,
    level: i32,
    state: &mut DaaSteady,
    shown: &mut u32,
) -> i32
    ensures steadied { result ≡ pos 0
        → IsSteadied rule.now time level state.old state.new shown.new }
    ensures kept { result ≢ pos 0 → (state.new ≡ state.old) × (shown.new ≡ shown.old) }
    ensures bad_rule { result ≡ pos 33 → IsNoRule rule.now }
    ensures bad_level { result ≡ pos 34 → IsNoLevel rule.now level }
    ensures not_later { result ≡ pos 35 → IsNotLater rule.now time level state.old }
    ensures codes { result ≢ pos 0 → result ≢ pos 33 → result ≢ pos 34 → result ≡ pos 35 }
{
    daa_numbers::steady(rule, time, level, state, shown)
}

/// Takes what the answers on the two sides of a kind are in a moment (the `what` of each: 1 for a
/// value, 2 for nothing), and which side is preferred; and fills in the side whose value is to be
/// shown, or -1. A side that was taken stays for `seconds`, unless its answer is nothing. Returns
/// 0, or the code of why nothing was taken.
#[unsafe(no_mangle)]
pub extern "C" fn daa_steady_side(
    seconds: u32,
    time: u32,
    lower: i32,
    upper: i32,
    preferred: i32,
    state: &mut DaaSide,
    shown: &mut i32,
) -> i32
    ensures steadied { result ≡ pos 0
        → IsKeptSide seconds time lower upper preferred state.old state.new shown.new }
    ensures kept { result ≢ pos 0 → (state.new ≡ state.old) × (shown.new ≡ shown.old) }
    ensures bad_side { result ≡ pos 24 → IsNoSide preferred }
    ensures not_later { result ≡ pos 35 → IsNotLaterSide time preferred state.old }
    ensures codes { result ≢ pos 0 → result ≢ pos 24 → result ≡ pos 35 }
{
    daa_numbers::steady_side(seconds, time, lower, upper, preferred, state, shown)
}
