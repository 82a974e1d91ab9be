//! Calls on states alone.

ghost use Rattle.std.specs.Prelude.{◌≡◌, ◌≤◌, pos, ◌≢◌, negsuc, true, false, None};
ghost use Rattle.daa_numbers.specs.Faults.{IsFaultOf};
ghost use Rattle.daa_numbers.specs.Flown.{IsAhead, IsTooOld, IsFlown, IsOwnFlown, IsSoundBut};
ghost use Rattle.daa_numbers.specs.Lines.{IsLineTaken, IsLineRefused, KeepsMoment};
ghost use Rattle.daa_numbers.specs.Refusal.{own_refusal, traffic_refusal, IsCodeOf};

use daa_numbers::{DaaFault, DaaLines, DaaTraffic, Own};

/// Takes the next state line, in format 1 or 2. Format 3, in which reports have bounds, is refused
/// with 6, as a number that is out of its range. Returns 0; or -1 if the line ended the moment,
/// whose numbers stay until the next one begins; or the number of the line's fault, 1 to 13, and
/// then nothing has changed. Where at most 64 aircraft were counted, at most 64 are then.
#[unsafe(no_mangle)]
pub extern "C" fn daa_line(line: &[u8], lines: &mut DaaLines) -> i32
    ensures taken { result ≡ pos 0 → IsLineTaken lines.old line.now false lines.new }
    ensures ended { result ≡ negsuc 0 → IsLineTaken lines.old line.now true lines.new }
    ensures refused { result ≢ pos 0 → result ≢ negsuc 0 → IsLineRefused lines.old line.now result }
    ensures kept { result ≢ pos 0 → result ≢ negsuc 0 → lines.new ≡ lines.old }
    ensures stays { lines.new.opened ≡ 0 → KeepsMoment lines.old lines.new }
    ensures few { lines.old.count ≤ 64 → lines.new.count ≤ 64 }
{
    daa_numbers::line(line, lines)
}

/// Fills in what is wrong with an ownship and aircraft, or that nothing is. Returns 0.
#[unsafe(no_mangle)]
pub extern "C" fn daa_fault(own: &Own, traffic: &[DaaTraffic], out: &mut DaaFault) -> i32
    ensures answer { result ≡ pos 0 }
    ensures filled { IsFaultOf own.now traffic.now out.new }
{
    daa_numbers::fault(own, traffic, out)
}

/// Fills in an aircraft as it is at a time, from its report of another time, both in milliseconds:
/// its age in whole seconds, over which the engine flies it, and its numbers flown straight on over
/// what is left. A report of up to a second ahead is flown back. The age of the report itself is
/// not read. Returns 0, or the code of why nothing was filled in.
#[unsafe(no_mangle)]
pub extern "C" fn daa_fly(
    traffic: &DaaTraffic,
    at: u64,
    now: u64,
    most: u32,
    out: &mut DaaTraffic,
) -> i32
    ensures sound { result ≡ pos 0 → traffic_refusal (record traffic.now { age = 0 }) ≡ None }
    ensures flown { result ≡ pos 0 → IsFlown at now most traffic.now out.new }
    ensures kept { result ≢ pos 0 → out.new ≡ out.old }
    ensures too_old { result ≡ pos 31
        → IsSoundBut (traffic_refusal (record traffic.now { age = 0 })) (IsTooOld at now most) }
    ensures ahead { result ≡ pos 32
        → IsSoundBut (traffic_refusal (record traffic.now { age = 0 })) (IsAhead at now) }
    ensures refused { result ≢ pos 0 → result ≢ pos 31 → result ≢ pos 32
        → IsCodeOf (traffic_refusal (record traffic.now { age = 0 })) result }
{
    daa_numbers::fly(traffic, at, now, most, out)
}

/// Fills in the ownship as it is at a time, from its report of another time, both in milliseconds:
/// flown straight on over all of its age, since the engine takes it as it is. A report of up to a
/// second ahead is flown back. Returns 0, or the code of why nothing was filled in.
#[unsafe(no_mangle)]
pub extern "C" fn daa_fly_own(own: &Own, at: u64, now: u64, most: u32, out: &mut Own) -> i32
    ensures sound { result ≡ pos 0 → own_refusal own.now ≡ None }
    ensures flown { result ≡ pos 0 → IsOwnFlown at now most own.now out.new }
    ensures kept { result ≢ pos 0 → out.new ≡ out.old }
    ensures too_old { result ≡ pos 31
        → IsSoundBut (own_refusal own.now) (IsTooOld at now most) }
    ensures ahead { result ≡ pos 32 → IsSoundBut (own_refusal own.now) (IsAhead at now) }
    ensures refused { result ≢ pos 0 → result ≢ pos 31 → result ≢ pos 32
        → IsCodeOf (own_refusal own.now) result }
{
    daa_numbers::fly_own(own, at, now, most, out)
}
