//! Calls on flights to any value.

ghost use Rattle.std.specs.Prelude.{◌≡◌, ◌≢◌, pos};
ghost use Rattle.daa_numbers.specs.Closing.{AreClosersUnder, IsValueLevelUnder};
ghost use Rattle.daa_numbers.specs.Closing.{HasNoFlight, HasNoLevels};
ghost use Rattle.daa_numbers.specs.Refusal.{refusal_of, IsCodeOf};
ghost use Rattle.daa_numbers.specs.States.{picture_of};

use daa_numbers::{DaaConfig, DaaTraffic, Own};

/// Fills in the set of the aircraft, bit p for the one at place p, that the flight to a value of a
/// kind meets at some level from `least` up to `greatest`. The value may be any that the kind can
/// have; kind and value are 0 for the present flight. Returns 0, or the code of why nothing was
/// filled in.
#[unsafe(no_mangle)]
pub extern "C" fn daa_closers(
    config: &DaaConfig,
    own: &Own,
    traffic: &[DaaTraffic],
    kind: i32,
    value: i32,
    least: u32,
    greatest: u32,
    places: &mut u64,
) -> i32
    ensures filled { result ≡ pos 0 → AreClosersUnder
        config.now (picture_of 0 own.now traffic.now) kind value least greatest places.new }
    ensures kept { result ≢ pos 0 → places.new ≡ places.old }
    ensures no_flight { result ≡ pos 36
        → HasNoFlight (refusal_of config.now own.now traffic.now) kind value }
    ensures no_levels { result ≡ pos 34 → HasNoLevels
        config.now (refusal_of config.now own.now traffic.now) kind value least greatest }
    ensures refused { result ≢ pos 0 → result ≢ pos 34 → result ≢ pos 36
        → IsCodeOf (refusal_of config.now own.now traffic.now) result }
{
    daa_numbers::closers(config, own, traffic, kind, value, least, greatest, places)
}

/// Fills in the level of the flight to a value of a kind, as `daa_levels` fills in that of a
/// candidate: the greatest at which it meets some aircraft, or 0. The value may be any that the
/// kind can have; kind and value are 0 for the present flight. Returns 0, or the code of why
/// nothing was filled in.
#[unsafe(no_mangle)]
pub extern "C" fn daa_value_level(
    config: &DaaConfig,
    own: &Own,
    traffic: &[DaaTraffic],
    kind: i32,
    value: i32,
    level: &mut u32,
) -> i32
    ensures filled { result ≡ pos 0 → IsValueLevelUnder
        config.now (picture_of 0 own.now traffic.now) kind value level.new }
    ensures kept { result ≢ pos 0 → level.new ≡ level.old }
    ensures no_flight { result ≡ pos 36
        → HasNoFlight (refusal_of config.now own.now traffic.now) kind value }
    ensures refused { result ≢ pos 0 → result ≢ pos 36
        → IsCodeOf (refusal_of config.now own.now traffic.now) result }
{
    daa_numbers::value_level(config, own, traffic, kind, value, level)
}
