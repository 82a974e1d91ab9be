//! The word of a line.

ghost use Rattle.std.specs.Prelude.{◌≡◌, ◌==◌, ◌∷◌, true, IfOk, Ok, Err, slice_index};
ghost use Rattle.std.specs.Prelude.{if◌then◌else◌};
ghost use Rattle.std.specs.Str.Lines.{strip_carriage_return};
ghost use Rattle.daa_state.specs.Inside.Texts.{texts};
ghost use Rattle.daa_state.specs.Id.{is_id};
ghost use Rattle.daa_state.specs.InRange.{IsFormat, IsWordInRange, IsOwnInRange, IsTrafficInRange};
ghost use Rattle.daa_state.specs.InRange.{AreReportBoundsInRange};
ghost use Rattle.daa_state.specs.Ranges.{formats, times};
ghost use Rattle.daa_state.specs.WordOf.{word_of, word_of_fields, number_word};
ghost use Rattle.daa_state.specs.WordOf.{own_of, bounded_own_of, ownship, report_bounds};
ghost use Rattle.daa_state.specs.WordOf.{traffic_of, aged_traffic_of, bounded_traffic_of};
ghost use Rattle.daa_state.specs.WordOf.{aircraft, end_of};

use crate::fault::LineFault;
use crate::fields::fields;
use crate::id::Id;
use crate::number::{
    age, altitude, error_bound, ground_speed, line_format, position, seconds, speed, track,
    vertical_speed,
};
use crate::word::{Own, PairBounds, ReportBounds, Traffic, Word};

/// The most bytes of a line that is read.
const MOST_LINE_BYTES: usize = 255;

/// The word that the line says in this format, 1 to 3, or the first fault that applies, of codes 1
/// to 6. The answer depends on the line and the format alone. Fields are separated by spaces and
/// tabs, and one carriage return at the line's end is dropped.
///
/// | Line | Fields after the first |
/// |---|---|
/// | `moment T` | the time |
/// | `own X Y ALT TRK GS VS` | six numbers; in format 3 four bounds after them |
/// | `traffic ID X Y ALT VX VY VS` | an identifier and six numbers; in formats 2 and 3 an age |
/// | | after them, and in format 3 four bounds after the age |
/// | `format N` | the format, 1 to 3 |
/// | `end` | none |
///
/// A line of at most 255 bytes with no field, or whose first field begins with `#`, is `Skip`; a
/// longer one is `LongLine`, also a comment. A number is an optional sign and 1 to 10 digits. The
/// ranges are those of `Own`, `Traffic` and `ReportBounds`; a time is below 2 ^ 32 seconds. In
/// format 1 every age is 0. In formats 1 and 2 each report is taken as the truth. In format 3 the
/// four bounds say how far it may be from it: its place, its altitude, its velocity over ground and
/// its vertical speed. Those of the ownship are not yet among the bounds of an aircraft.
#[tactic(auto, unfolding(crate::specs::WordOf::word_of))]
pub fn read_line(line: &[u8], format: u32) -> Result<Word, LineFault>
    requires { IsFormat format }
    ensures value { result ≡ word_of line.now format }
    ensures range { IfOk result IsWordInRange }
{
    if line.len() > MOST_LINE_BYTES {
        return Err(LineFault::LongLine);
    }
    word(format, fields(without_return(line)).as_slice())
}

/// The line without one carriage return at its end.
fn without_return(line: &[u8]) -> &[u8]
    ensures { result.now ≡ strip_carriage_return line.now }
{
    match line {
        [rest @ .., b'\r'] => rest,
        _ => line,
    }
}

/// The word of the fields.
#[tactic(auto, unfolding(crate::specs::WordOf::word_of_fields))]
fn word(format: u32, fields: &[&[u8]]) -> Result<Word, LineFault>
    ensures value { result ≡ word_of_fields format (texts fields.now) }
    ensures range { IfOk result IsWordInRange }
{
    match fields {
        [] => Ok(Word::Skip),
        [name, rest @ ..] => word_of_name(format, name, rest),
    }
}

/// The first field names the word of the others.
#[tactic(auto, unfolding(crate::specs::WordOf::word_of_fields))]
fn word_of_name(format: u32, name: &[u8], fields: &[&[u8]]) -> Result<Word, LineFault>
    ensures value { result ≡ word_of_fields format (name.now ∷ texts fields.now) }
    ensures range { IfOk result IsWordInRange }
{
    if is_comment(name) {
        Ok(Word::Skip)
    } else if name == b"moment".as_slice() {
        moment(fields)
    } else if name == b"own".as_slice() {
        if format == 3 {
            bounded_own(fields)
        } else {
            own(fields)
        }
    } else if name == b"traffic".as_slice() {
        if format == 3 {
            bounded_traffic(fields)
        } else if format == 2 {
            aged_traffic(fields)
        } else {
            traffic(fields)
        }
    } else if name == b"format".as_slice() {
        format_word(fields)
    } else if name == b"end".as_slice() {
        end(fields)
    } else {
        Err(LineFault::BadWord)
    }
}

/// Whether the first field begins a comment.
fn is_comment(name: &[u8]) -> bool
    ensures { result ≡ (slice_index name.now 0 == 35) }
{
    matches!(name, [b'#', ..])
}

/// `moment T`
#[tactic(auto, unfolding(crate::specs::WordOf::number_word))]
fn moment(fields: &[&[u8]]) -> Result<Word, LineFault>
    ensures value { result ≡ number_word times Word.Moment (texts fields.now) }
    ensures range { IfOk result IsWordInRange }
{
    match fields {
        [time] => Ok(Word::Moment(seconds(time)?)),
        _ => Err(LineFault::FieldCount),
    }
}

/// `own X Y ALT TRK GS VS`
#[tactic(auto, unfolding(crate::specs::WordOf::own_of))]
fn own(fields: &[&[u8]]) -> Result<Word, LineFault>
    ensures value { result ≡ own_of (texts fields.now) }
    ensures range { IfOk result IsWordInRange }
{
    match fields {
        [x, y, alt, trk, gs, vs] => {
            let own = ownship(x, y, alt, trk, gs, vs)?;
            Ok(Word::Own(own, ReportBounds::EXACT))
        }
        _ => Err(LineFault::FieldCount),
    }
}

/// `own X Y ALT TRK GS VS P V S W`
#[tactic(auto, unfolding(crate::specs::WordOf::bounded_own_of))]
fn bounded_own(fields: &[&[u8]]) -> Result<Word, LineFault>
    ensures value { result ≡ bounded_own_of (texts fields.now) }
    ensures range { IfOk result IsWordInRange }
{
    match fields {
        [x, y, alt, trk, gs, vs, place, height, speed, climb] => {
            let own = ownship(x, y, alt, trk, gs, vs)?;
            let bounds = report_bounds(place, height, speed, climb)?;
            Ok(Word::Own(own, bounds))
        }
        _ => Err(LineFault::FieldCount),
    }
}

/// What a report may err by, of four fields, or the fault of the first field that is wrong.
#[tactic(auto, unfolding(crate::specs::WordOf::report_bounds))]
fn report_bounds(
    place: &[u8],
    height: &[u8],
    speed: &[u8],
    climb: &[u8],
) -> Result<ReportBounds, LineFault>
    ensures value { result ≡ report_bounds place.now height.now speed.now climb.now }
    ensures range { IfOk result AreReportBoundsInRange }
{
    Ok(ReportBounds {
        place: error_bound(place)?,
        height: error_bound(height)?,
        speed: error_bound(speed)?,
        climb: error_bound(climb)?,
    })
}

/// The ownship of six fields, or the fault of the first field that is wrong.
#[tactic(auto, unfolding(crate::specs::WordOf::ownship))]
fn ownship(
    x: &[u8],
    y: &[u8],
    alt: &[u8],
    trk: &[u8],
    gs: &[u8],
    vs: &[u8],
) -> Result<Own, LineFault>
    ensures value { result ≡ ownship x.now y.now alt.now trk.now gs.now vs.now }
    ensures range { IfOk result IsOwnInRange }
{
    Ok(Own {
        x: position(x)?,
        y: position(y)?,
        alt: altitude(alt)?,
        trk: track(trk)?,
        gs: ground_speed(gs)?,
        vs: vertical_speed(vs)?,
    })
}

/// `traffic ID X Y ALT VX VY VS`
#[tactic(auto, unfolding(crate::specs::WordOf::traffic_of))]
fn traffic(fields: &[&[u8]]) -> Result<Word, LineFault>
    ensures value { result ≡ traffic_of (texts fields.now) }
    ensures range { IfOk result IsWordInRange }
{
    match fields {
        [id, x, y, alt, vx, vy, vs] => Ok(Word::Traffic(aircraft(id, x, y, alt, vx, vy, vs)?)),
        _ => Err(LineFault::FieldCount),
    }
}

/// `traffic ID X Y ALT VX VY VS AGE`
#[tactic(auto, unfolding(crate::specs::WordOf::aged_traffic_of))]
fn aged_traffic(fields: &[&[u8]]) -> Result<Word, LineFault>
    ensures value { result ≡ aged_traffic_of (texts fields.now) }
    ensures range { IfOk result IsWordInRange }
{
    match fields {
        [id, x, y, alt, vx, vy, vs, seconds] => {
            let mut traffic = aircraft(id, x, y, alt, vx, vy, vs)?;
            let age = age(seconds)?;
            traffic.age = age;
            Ok(Word::Traffic(traffic))
        }
        _ => Err(LineFault::FieldCount),
    }
}

/// `traffic ID X Y ALT VX VY VS AGE P V S W`
#[tactic(auto, unfolding(crate::specs::WordOf::bounded_traffic_of))]
fn bounded_traffic(fields: &[&[u8]]) -> Result<Word, LineFault>
    ensures value { result ≡ bounded_traffic_of (texts fields.now) }
    ensures range { IfOk result IsWordInRange }
{
    match fields {
        [
            id,
            x,
            y,
            alt,
            vx,
            vy,
            vs,
            seconds,
            place,
            height,
            speed,
            climb,
        ] => {
            let mut traffic = aircraft(id, x, y, alt, vx, vy, vs)?;
            let age = age(seconds)?;
            let bounds = report_bounds(place, height, speed, climb)?;
            traffic.age = age;
            traffic.bounds = PairBounds {
                own: ReportBounds::EXACT,
                aircraft: bounds,
            };
            Ok(Word::Traffic(traffic))
        }
        _ => Err(LineFault::FieldCount),
    }
}

/// The aircraft of seven fields, whose report has age 0 and, as the ownship's, is taken as the
/// truth; or the fault of the first field that is wrong.
#[tactic(auto, unfolding(crate::specs::WordOf::aircraft))]
fn aircraft(
    id: &[u8],
    x: &[u8],
    y: &[u8],
    alt: &[u8],
    vx: &[u8],
    vy: &[u8],
    vs: &[u8],
) -> Result<Traffic, LineFault>
    ensures value { result ≡ aircraft id.now x.now y.now alt.now vx.now vy.now vs.now }
    ensures range { IfOk result IsTrafficInRange }
{
    Ok(Traffic {
        id: identifier(id)?,
        x: position(x)?,
        y: position(y)?,
        alt: altitude(alt)?,
        vx: speed(vx)?,
        vy: speed(vy)?,
        vs: vertical_speed(vs)?,
        age: 0,
        bounds: PairBounds::EXACT,
    })
}

/// The identifier that a field spells, or `BadId`.
fn identifier(field: &[u8]) -> Result<Id, LineFault>
    ensures value { result ≡ (if is_id field.now then Ok field.now else Err LineFault.BadId) }
    ensures range { IfOk result (λ id. is_id id ≡ true) }
{
    Id::of(field).ok_or(LineFault::BadId)
}

/// `format N`
#[tactic(auto, unfolding(crate::specs::WordOf::number_word))]
fn format_word(fields: &[&[u8]]) -> Result<Word, LineFault>
    ensures value { result ≡ number_word formats Word.Format (texts fields.now) }
    ensures range { IfOk result IsWordInRange }
{
    match fields {
        [number] => Ok(Word::Format(line_format(number)?)),
        _ => Err(LineFault::FieldCount),
    }
}

/// `end`
#[tactic(auto, unfolding(crate::specs::WordOf::end_of))]
fn end(fields: &[&[u8]]) -> Result<Word, LineFault>
    ensures value { result ≡ end_of (texts fields.now) }
    ensures range { IfOk result IsWordInRange }
{
    if fields.is_empty() {
        Ok(Word::End)
    } else {
        Err(LineFault::FieldCount)
    }
}
