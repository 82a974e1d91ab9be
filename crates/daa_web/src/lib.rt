//! The calls of a web page: functions of daa_numbers, to be built as a module of WebAssembly.
#![tactic(auto)]

ghost use Rattle.std.specs.Prelude.{◌≡◌, ◌≢◌, ◌≤◌, pos, drop, negsuc, true, false, length, take};
ghost use Rattle.daa_numbers.specs.Asked.{IsReported, HasLongerText};
ghost use Rattle.daa_numbers.specs.Codes.{answer_of};
ghost use Rattle.daa_numbers.specs.Faults.{IsFaultOf};
ghost use Rattle.daa_numbers.specs.Lines.{IsLineTaken, IsLineRefused, KeepsMoment};
ghost use Rattle.daa_numbers.specs.Numbers.{settings_by};
ghost use Rattle.daa_numbers.specs.Refusal.{refusal_of, IsCodeOf};
ghost use Rattle.daa_numbers.specs.States.{picture_of};

use daa_numbers::{DaaConfig, DaaFault, DaaLines, DaaTraffic, Own};

/// Returns 0 if a configuration is accepted, else its fault, 6 to 8.
#[unsafe(no_mangle)]
pub extern "C" fn daa_check(config: &DaaConfig) -> i32
    ensures { result ≡ answer_of (settings_by config.now) }
{
    daa_numbers::check(config)
}

/// Takes the next state line. Returns 0; or -1 if the line ended the moment, whose numbers stay
/// until the next one begins; or the number of the line's fault, 1 to 13, and then nothing has
/// changed. Where at most 64 aircraft were counted, at most 64 are then.
#[unsafe(no_mangle)]
pub extern "C" fn daa_line(line: &[u8], lines: &mut DaaLines) -> i32
    ensures taken { result ≡ pos 0 → IsLineTaken lines.old line.now false lines.new }
    ensures ended { result ≡ negsuc 0 → IsLineTaken lines.old line.now true lines.new }
    ensures refused { result ≢ pos 0 → result ≢ negsuc 0 → IsLineRefused lines.old line.now result }
    ensures kept { result ≢ pos 0 → result ≢ negsuc 0 → lines.new ≡ lines.old }
    ensures stays { lines.new.opened ≡ 0 → KeepsMoment lines.old lines.new }
    ensures few { lines.old.count ≤ 64 → lines.new.count ≤ 64 }
{
    daa_numbers::line(line, lines)
}

/// Fills in what is wrong with an ownship and aircraft, or that nothing is. Returns 0.
#[unsafe(no_mangle)]
pub extern "C" fn daa_fault(own: &Own, traffic: &[DaaTraffic], out: &mut DaaFault) -> i32
    ensures answer { result ≡ pos 0 }
    ensures filled { IsFaultOf own.now traffic.now out.new }
{
    daa_numbers::fault(own, traffic, out)
}

/// Fills in the text of a moment, and how many bytes the text has. Returns 0, or the code of why
/// nothing was filled in.
#[unsafe(no_mangle)]
pub extern "C" fn daa_report(
    config: &DaaConfig,
    time: u32,
    own: &Own,
    traffic: &[DaaTraffic],
    text: &mut [u8],
    count: &mut usize,
) -> i32
    ensures said { result ≡ pos 0 → IsReported
        config.now (picture_of time own.now traffic.now) (take count.new text.new) }
    ensures fits { result ≡ pos 0 → count.new ≤ length text.new }
    ensures past_kept { result ≡ pos 0 → drop count.new text.new ≡ drop count.new text.old }
    ensures kept { result ≢ pos 0 → (text.new ≡ text.old) × (count.new ≡ count.old) }
    ensures short { result ≡ pos 19 → HasLongerText
        config.now (picture_of time own.now traffic.now) (length text.old) }
    ensures refused { result ≢ pos 0 → result ≢ pos 19
        → IsCodeOf (refusal_of config.now own.now traffic.now) result }
{
    daa_numbers::report(config, time, own, traffic, text, count)
}
