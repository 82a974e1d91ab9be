//! Writes pieces and lines to a sink.

ghost use Rattle.std.specs.Prelude.{◌≤◌, ◌≡◌, ◌++◌, [], ◌∷◌, length, drop, codes};
ghost use Rattle.daa_report.specs.Lines.{alert_line, band_line, last_line, numbers_line};
ghost use Rattle.daa_report.specs.Lines.{recover_line, resolve_line};
ghost use Rattle.daa_report.specs.Says.{Says};

use crate::line::Line;
use daa_config::{Kind, Resolution};
use daa_io::{Failed, Sink};
use daa_state::Id;
use thiserror::Error;

/// The sink failed: its count of faults rose in the call, and it took no more than a beginning of
/// the text.
#[derive(Clone, Copy, Debug, PartialEq, Eq, Error)]
#[error("the sink failed before it took the whole text")]
pub struct SinkFault;

/// Writes the whole piece, by as many writes as the sink needs. `SinkFault` comes only where the
/// sink failed; then it took a beginning of the piece.
pub fn put<K: Sink>(sink: &mut K, piece: &[u8]) -> Result<(), SinkFault>
    ensures { Says (K.taken sink.old) (K.taken sink.new) (K.faults sink.old)
        (K.faults sink.new) piece.now result }
{
    let mut at = 0;
    while at < piece.len() {
        match sink.write(rest_from(piece, at)) {
            Ok(n) => at += n,
            Err(Failed) => return Err(SinkFault),
        }
    }
    Ok(())
}

/// The bytes from a place on.
fn rest_from(bytes: &[u8], at: usize) -> &[u8]
    requires { at ≤ length bytes.now }
    ensures { result.now ≡ drop at bytes.now }
{
    &bytes[at..]
}

/// Writes that the line of this number, from 1 on, was refused with this code. A call for other
/// programs: `daidalus` makes the line, and writes it with `put`.
pub fn write_refused<K: Sink>(sink: &mut K, number: u64, code: u8) -> Result<(), SinkFault>
    ensures { Says (K.taken sink.old) (K.taken sink.new) (K.faults sink.old) (K.faults sink.new)
        (numbers_line (codes "refused") (number ∷ code ∷ [])) result }
{
    put(sink, Line::refused(number, code).as_bytes())
}

/// Writes that the moment of this time, in seconds, begins. A call for other programs: `daidalus`
/// holds the line back.
pub fn write_moment<K: Sink>(sink: &mut K, time: u32) -> Result<(), SinkFault>
    ensures { Says (K.taken sink.old) (K.taken sink.new) (K.faults sink.old) (K.faults sink.new)
        (numbers_line (codes "moment") (time ∷ [])) result }
{
    put(sink, Line::moment(time).as_bytes())
}

/// Writes the level of an aircraft now, 0 where none is violated. A call for other programs:
/// `daidalus` holds the line back.
pub fn write_now<K: Sink>(sink: &mut K, id: &Id, level: u8) -> Result<(), SinkFault>
    ensures { Says (K.taken sink.old) (K.taken sink.new) (K.faults sink.old) (K.faults sink.new)
        (numbers_line (codes "now " ++ id.now) (level ∷ [])) result }
{
    put(sink, Line::now(id, level).as_bytes())
}

/// Writes the alert level of an aircraft, and from which leg on: the second, from 0. A call for
/// other programs: `daidalus` holds the line back.
pub fn write_alert<K: Sink>(
    sink: &mut K,
    id: &Id,
    level: u8,
    first: Option<u32>,
) -> Result<(), SinkFault>
    ensures { Says (K.taken sink.old) (K.taken sink.new) (K.faults sink.old) (K.faults sink.new)
        (alert_line id.now level first) result }
{
    put(sink, Line::alert(id, level, first).as_bytes())
}

/// Writes that the values of a kind from one up to another, in degrees, 0.1 kt, ft/min or ft, show
/// this level. A call for other programs: `daidalus` holds the line back.
pub fn write_band<K: Sink>(
    sink: &mut K,
    kind: Kind,
    from: i32,
    upto: i32,
    level: u8,
) -> Result<(), SinkFault>
    ensures { Says (K.taken sink.old) (K.taken sink.new) (K.faults sink.old) (K.faults sink.new)
        (band_line kind from upto level) result }
{
    put(sink, Line::band(kind, from, upto, level).as_bytes())
}

/// Writes the answers on the lower side of a kind, left or down, and on the upper, right or up. A
/// call for other programs: `daidalus` holds the line back.
pub fn write_resolve<K: Sink>(
    sink: &mut K,
    kind: Kind,
    lower: Resolution,
    upper: Resolution,
) -> Result<(), SinkFault>
    ensures { Says (K.taken sink.old) (K.taken sink.new) (K.faults sink.old) (K.faults sink.new)
        (resolve_line kind lower upper) result }
{
    put(sink, Line::resolve(kind, lower, upper).as_bytes())
}

/// Writes the last time of a kind: for how many seconds the present flight may be kept until a
/// manoeuvre of the kind comes too late; or that each comes too late now. A call for other
/// programs: `daidalus` holds the line back.
pub fn write_last<K: Sink>(sink: &mut K, kind: Kind, seconds: Option<u32>) -> Result<(), SinkFault>
    ensures { Says (K.taken sink.old) (K.taken sink.new) (K.faults sink.old) (K.faults sink.new)
        (last_line kind seconds) result }
{
    put(sink, Line::last(kind, seconds).as_bytes())
}

/// Writes the recovery of a kind: after how many seconds a candidate is clear and the value that it
/// goes to, in degrees, 0.1 kt, ft/min or ft; or that none is. A call for other programs:
/// `daidalus` holds the line back.
pub fn write_recover<K: Sink>(
    sink: &mut K,
    kind: Kind,
    found: Option<(u32, i32)>,
) -> Result<(), SinkFault>
    ensures { Says (K.taken sink.old) (K.taken sink.new) (K.faults sink.old) (K.faults sink.new)
        (recover_line kind found) result }
{
    put(sink, Line::recover(kind, found).as_bytes())
}

/// Writes that the moment of this time, in seconds, ends. A call for other programs: `daidalus`
/// holds the line back.
pub fn write_done<K: Sink>(sink: &mut K, time: u32) -> Result<(), SinkFault>
    ensures { Says (K.taken sink.old) (K.taken sink.new) (K.faults sink.old) (K.faults sink.new)
        (numbers_line (codes "done") (time ∷ [])) result }
{
    put(sink, Line::done(time).as_bytes())
}

/// Writes that the configuration was refused with this code.
pub fn write_config<K: Sink>(sink: &mut K, code: u8) -> Result<(), SinkFault>
    ensures { Says (K.taken sink.old) (K.taken sink.new) (K.faults sink.old) (K.faults sink.new)
        (numbers_line (codes "config") (code ∷ [])) result }
{
    put(sink, Line::config(code).as_bytes())
}

/// Writes that a report is the right one.
pub fn write_same<K: Sink>(sink: &mut K) -> Result<(), SinkFault>
    ensures { Says (K.taken sink.old) (K.taken sink.new) (K.faults sink.old)
        (K.faults sink.new) (codes "same\n") result }
{
    put(sink, Line::same().as_bytes())
}

/// Writes that a report differs from the right one, and that the line of this number, from 1 on, is
/// the first that does.
pub fn write_differs<K: Sink>(sink: &mut K, line: u64) -> Result<(), SinkFault>
    ensures { Says (K.taken sink.old) (K.taken sink.new) (K.faults sink.old) (K.faults sink.new)
        (numbers_line (codes "differs") (line ∷ [])) result }
{
    put(sink, Line::differs(line).as_bytes())
}
