//! Alerts that come and go, made steady: M of N, and a hold.

ghost use Rattle.std.specs.Prelude.{◌≡◌, ◌≢◌, ◌≤◌, ◌<◌, ◌∷◌, ◌-◌, ◌+◌, ℕ, pos, take};
ghost use Rattle.std.specs.Prelude.{slice_index, true, false, if◌then◌else◌};
ghost use Rattle.daa_fixed.specs.Mask.{IsGreatestLevel};
ghost use Rattle.daa_steady.specs.Alerts.{is_had, ends_after, IsRule, IsNoRule, IsNoLevel};
ghost use Rattle.daa_steady.specs.Alerts.{IsNotLater, IsAdded, IsMissed, IsSteadied};

use crate::codes::{BAD_LEVEL, BAD_RULE, NOT_LATER};

/// How many levels are kept.
const MOST: usize = 16;

/// When a level is shown: if at least `m` of the last `n` moments with the aircraft had it or a
/// greater one, and for `hold` seconds after. `m` is 1 to `n`, and `n` at most 16.
#[repr(C)]
#[derive(Clone, Copy)]
pub struct DaaSteadyRule {
    pub m: u32,
    pub n: u32,
    pub hold: u32,
}

/// What is kept of an aircraft from one moment to the next; all zeros, nothing. Its last levels,
/// the latest first; for each level from 1 on the first second at which it is no longer shown; the
/// first second at which the aircraft is forgotten where it is absent; and the first second that is
/// taken.
#[repr(C)]
#[derive(Clone, Copy)]
pub struct DaaSteady {
    pub recent: [u8; MOST],
    pub ends: [u64; 4],
    pub gone: u64,
    pub next: u64,
}

/// Whether a rule is one.
fn is_rule(rule: &DaaSteadyRule) -> bool
    ensures yes { result ≡ true → IsRule rule.now }
    ensures no { result ≡ false → IsNoRule rule.now }
{
    rule.m >= 1 && rule.m <= rule.n && rule.n <= 16
}

/// Puts a level before the others, of which the last one goes.
fn put(level: u8, recent: &mut [u8; MOST])
    ensures { recent.new ≡ level ∷ take 15 recent.old }
{
    recent.copy_within(0..MOST - 1, 1);
    recent[0] = level;
}

/// Whether at least m of the last n levels are l or greater.
fn is_had(rule: &DaaSteadyRule, recent: &[u8; MOST], l: u8) -> bool
    requires { rule.now.n ≤ 16 }
    ensures { result ≡ is_had rule.now recent.now l }
{
    let last = &recent[..rule.n as usize];
    last.iter().filter(|level| **level >= l).count() >= rule.m as usize
}

/// Shows up to a second each level that counts.
fn keep(rule: &DaaSteadyRule, recent: &[u8; MOST], end: u64, ends: &mut [u64; 4])
    requires { rule.now.n ≤ 16 }
    ensures { (place : ℕ) → place < 4 → slice_index ends.new place
        ≡ ends_after rule.now recent.now end ends.old place }
{
    for place in 0..4 {
        if is_had(rule, recent, place as u8 + 1) {
            ends[place] = end;
        }
    }
}

/// Adds the level of a moment.
fn add(rule: &DaaSteadyRule, time: u32, level: u8, state: &mut DaaSteady)
    requires { rule.now.n ≤ 16 }
    ensures { IsAdded rule.now time level state.old state.new }
{
    let end = u64::from(time) + u64::from(rule.hold) + 1;
    put(level, &mut state.recent);
    keep(rule, &state.recent, end, &mut state.ends);
    state.gone = end;
    state.next = u64::from(time) + 1;
}

/// Takes a moment that has not the aircraft.
fn miss(time: u32, state: &mut DaaSteady)
    ensures { IsMissed time state.old state.new }
{
    if u64::from(time) >= state.gone {
        *state = DaaSteady {
            recent: [0; MOST],
            ends: [0; 4],
            gone: 0,
            next: 0,
        };
    }
    state.next = u64::from(time) + 1;
}

/// The greatest level that is shown at a time, or 0.
fn shown_at(time: u32, ends: &[u64; 4]) -> u32
    ensures { IsGreatestLevel (λ l. time < slice_index ends.now (l - 1)) 4 result }
{
    let mut level = 0;
    for place in 0..4 {
        if u64::from(time) < ends[place] {
            level = place as u32 + 1;
        }
    }
    level
}

/// Takes the alert level of an aircraft in a moment, or that the moment has not the aircraft, -1;
/// and fills in the level to be shown. Returns 0, or the code of why nothing was taken.
pub fn steady(
    rule: &DaaSteadyRule,
    time: u32,
    level: i32,
    state: &mut DaaSteady,
    shown: &mut u32,
) -> i32
    ensures steadied { result ≡ pos 0
        → IsSteadied rule.now time level state.old state.new shown.new }
    ensures kept { result ≢ pos 0 → (state.new ≡ state.old) × (shown.new ≡ shown.old) }
    ensures bad_rule { result ≡ pos 33 → IsNoRule rule.now }
    ensures bad_level { result ≡ pos 34 → IsNoLevel rule.now level }
    ensures not_later { result ≡ pos 35 → IsNotLater rule.now time level state.old }
    ensures codes { result ≢ pos 0 → result ≢ pos 33 → result ≢ pos 34 → result ≡ pos 35 }
{
    if !is_rule(rule) {
        return BAD_RULE;
    }
    if level < -1 || level > 4 {
        return BAD_LEVEL;
    }
    if u64::from(time) < state.next {
        return NOT_LATER;
    }
    if level < 0 {
        miss(time, state);
    } else {
        add(rule, time, level as u8, state);
    }
    *shown = shown_at(time, &state.ends);
    0
}
