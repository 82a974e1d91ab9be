//! The text of a summary. All of it is known before the first byte is written.

ghost use Rattle.std.specs.Prelude.{◌≡◌, ◌≤◌, ◌+◌, ◌++◌, take, length};
ghost use Rattle.arrayvec.specs.ArrayVec.{array_vec_len};
ghost use Rattle.daa_report.specs.Lines.{kind_word, numbers_line};
ghost use Rattle.daa_exercise.specs.Inside.Counting.{written};

use crate::counting::Counts;
use crate::tally::Tally;
use arrayvec::ArrayVec;
use daa_config::Kind;
use daa_report::{Line, kind_word};

/// The summary of a seed and a number of moments, with the counts of the levels up to the top one,
/// which is at most 4.
#[tactic(auto, unfolding(crate::specs::Inside::Counting::summary_text))]
pub(crate) fn summary(seed: u32, moments: u32, top: u32, counts: &Counts) -> ArrayVec<u8, 512>
    requires { top ≤ 4 }
    ensures { result.items ≡ written seed moments top counts.now }
{
    let mut text = ArrayVec::new();
    add(&mut text, &Line::numbers("exercise", &[seed, moments]));
    add(&mut text, &Line::numbers("aircraft", &[counts.aircraft]));
    add(&mut text, &Line::numbers("alert", counts.alerts.upto(top)));
    add_kind(&mut text, Kind::Track, &counts.track, top);
    add_kind(&mut text, Kind::GroundSpeed, &counts.speed, top);
    add_kind(&mut text, Kind::VerticalSpeed, &counts.climb, top);
    add_kind(&mut text, Kind::Altitude, &counts.height, top);
    add(&mut text, &Line::numbers("done", &[]));
    text
}

/// Adds the line of a kind.
fn add_kind(text: &mut ArrayVec<u8, 512>, kind: Kind, tally: &Tally, top: u32)
    requires room { array_vec_len text.old + 64 ≤ 512 }
    requires top { top ≤ 4 }
    ensures items { text.new.items ≡ text.old.items ++ numbers_line (kind_word kind)
        (take (top + 1) tally.now) }
    ensures len { array_vec_len text.new ≤ array_vec_len text.old + 64 }
{
    add(text, &Line::numbers(kind_word(kind), tally.upto(top)));
}

/// Adds a line.
fn add(text: &mut ArrayVec<u8, 512>, line: &Line)
    requires { array_vec_len text.old + 64 ≤ 512 }
    ensures items { text.new.items ≡ text.old.items ++ line.now }
    ensures len { array_vec_len text.new ≤ array_vec_len text.old + 64 }
{
    let _ = text.try_extend_from_slice(line.as_bytes());
}
