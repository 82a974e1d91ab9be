//! Writes what was found of a moment. To say a line is to hold it back until there is no room for
//! one more, or the text ends.

ghost use Rattle.std.specs.Prelude.{◌≡◌, ◌++◌, [], ◌∷◌, length, codes};
ghost use Rattle.daa_state.specs.Picture.{aircraft_of};
ghost use Rattle.daa_report.specs.Says.{Says};
ghost use Rattle.daa_report.specs.Held.{SaysOrHolds};
ghost use Rattle.daa_report.specs.Lines.{numbers_line, alert_line, resolve_line};
ghost use Rattle.daa_engine.specs.Inside.Written.{aircraft_text, alerts_text, line_of, bands_text};
ghost use Rattle.daa_engine.specs.Inside.Written.{last_text, recovery_text, kind_text};
ghost use Rattle.daa_engine.specs.Inside.Written.{kinds_text, written};

use crate::alerts::AircraftAlert;
use crate::findings::{Finding, Findings};
use daa_bands::{Band, Board, runs};
use daa_config::{Config, Kind};
use daa_io::Sink;
use daa_report::{HeldLines, Line, SinkFault};
use daa_state::{Picture, Traffic};

/// Says the level of an aircraft now.
fn say_now<K: Sink>(
    held: &mut HeldLines,
    sink: &mut K,
    aircraft: &Traffic,
    found: &AircraftAlert,
) -> Result<(), SinkFault>
    ensures { SaysOrHolds (K.taken sink.old) (K.taken sink.new) held.old held.new
        (K.faults sink.old) (K.faults sink.new)
        (numbers_line (codes "now " ++ aircraft.now.id) (found.now.level_now ∷ [])) result }
{
    held.say(sink, &Line::now(&aircraft.id, found.level_now))
}

/// Says the alert of an aircraft.
fn say_alert<K: Sink>(
    held: &mut HeldLines,
    sink: &mut K,
    aircraft: &Traffic,
    found: &AircraftAlert,
) -> Result<(), SinkFault>
    ensures { SaysOrHolds (K.taken sink.old) (K.taken sink.new) held.old held.new
        (K.faults sink.old) (K.faults sink.new)
        (alert_line aircraft.now.id found.now.alert.level found.now.alert.first) result }
{
    let alert = found.alert;
    held.say(sink, &Line::alert(&aircraft.id, alert.level, alert.first))
}

/// Says the two lines of an aircraft.
fn say_aircraft<K: Sink>(
    held: &mut HeldLines,
    sink: &mut K,
    aircraft: &Traffic,
    found: &AircraftAlert,
) -> Result<(), SinkFault>
    ensures { SaysOrHolds (K.taken sink.old) (K.taken sink.new) held.old held.new
        (K.faults sink.old) (K.faults sink.new) (aircraft_text (aircraft.now, found.now)) result }
{
    say_now(held, sink, aircraft, found)?;
    say_alert(held, sink, aircraft, found)
}

/// Says the lines of all aircraft.
fn say_alerts<K: Sink>(
    held: &mut HeldLines,
    sink: &mut K,
    traffic: &[Traffic],
    alerts: &[AircraftAlert],
) -> Result<(), SinkFault>
    requires { length alerts.now ≡ length traffic.now }
    ensures { SaysOrHolds (K.taken sink.old) (K.taken sink.new) held.old held.new
        (K.faults sink.old) (K.faults sink.new) (alerts_text traffic.now alerts.now) result }
{
    for place in 0..traffic.len() {
        say_aircraft(held, sink, &traffic[place], &alerts[place])?;
    }
    Ok(())
}

/// Says the line of a band.
fn say_band<K: Sink>(
    held: &mut HeldLines,
    sink: &mut K,
    kind: Kind,
    band: &Band,
) -> Result<(), SinkFault>
    ensures { SaysOrHolds (K.taken sink.old) (K.taken sink.new) held.old held.new
        (K.faults sink.old) (K.faults sink.new) (line_of kind band.now) result }
{
    held.say(sink, &Line::band(kind, band.from, band.upto, band.level))
}

/// Says the lines of a kind's bands.
fn say_bands<K: Sink>(
    held: &mut HeldLines,
    sink: &mut K,
    board: &Board,
    config: &Config,
    kind: Kind,
) -> Result<(), SinkFault>
    ensures { SaysOrHolds (K.taken sink.old) (K.taken sink.new) held.old held.new
        (K.faults sink.old) (K.faults sink.new) (bands_text config.now board.now kind) result }
{
    for band in runs(board, config, kind) {
        say_band(held, sink, kind, &band)?;
    }
    Ok(())
}

/// Says the line of the answers on the sides of a kind.
fn say_sides<K: Sink>(
    held: &mut HeldLines,
    sink: &mut K,
    kind: Kind,
    finding: &Finding,
) -> Result<(), SinkFault>
    ensures { SaysOrHolds (K.taken sink.old) (K.taken sink.new) held.old held.new
        (K.faults sink.old) (K.faults sink.new)
        (resolve_line kind finding.now.lower finding.now.upper) result }
{
    held.say(sink, &Line::resolve(kind, finding.lower, finding.upper))
}

/// Says the line of the last time of a kind, where it has one.
fn say_last<K: Sink>(
    held: &mut HeldLines,
    sink: &mut K,
    kind: Kind,
    last: Option<Option<u32>>,
) -> Result<(), SinkFault>
    ensures { SaysOrHolds (K.taken sink.old) (K.taken sink.new) held.old held.new
        (K.faults sink.old) (K.faults sink.new) (last_text kind last) result }
{
    match last {
        None => Ok(()),
        Some(found) => held.say(sink, &Line::last(kind, found)),
    }
}

/// Says the line of the recovery of a kind, where it has one.
fn say_recovery<K: Sink>(
    held: &mut HeldLines,
    sink: &mut K,
    kind: Kind,
    recovery: Option<Option<(u32, i32)>>,
) -> Result<(), SinkFault>
    ensures { SaysOrHolds (K.taken sink.old) (K.taken sink.new) held.old held.new
        (K.faults sink.old) (K.faults sink.new) (recovery_text kind recovery) result }
{
    match recovery {
        None => Ok(()),
        Some(found) => held.say(sink, &Line::recover(kind, found)),
    }
}

/// A part of the report that has lines of each kind.
#[derive(Clone, Copy)]
enum Section {
    Bands,
    Resolutions,
    LastTimes,
    Recoveries,
}

/// Says the lines of a part for a kind.
fn say_kind<K: Sink>(
    held: &mut HeldLines,
    sink: &mut K,
    config: &Config,
    board: &Board,
    part: Section,
    kind: Kind,
    finding: &Finding,
) -> Result<(), SinkFault>
    ensures { SaysOrHolds (K.taken sink.old) (K.taken sink.new) held.old held.new
        (K.faults sink.old) (K.faults sink.new)
        (kind_text config.now board.now part kind finding.now) result }
{
    match part {
        Section::Bands => say_bands(held, sink, board, config, kind),
        Section::Resolutions => say_sides(held, sink, kind, finding),
        Section::LastTimes => say_last(held, sink, kind, finding.last),
        Section::Recoveries => say_recovery(held, sink, kind, finding.recovery),
    }
}

/// Says the lines of a part for all kinds.
fn say_kinds<K: Sink>(
    held: &mut HeldLines,
    sink: &mut K,
    config: &Config,
    board: &Board,
    part: Section,
    findings: &Findings,
) -> Result<(), SinkFault>
    ensures { SaysOrHolds (K.taken sink.old) (K.taken sink.new) held.old held.new
        (K.faults sink.old) (K.faults sink.new)
        (kinds_text config.now board.now part findings.now) result }
{
    say_kind(
        held,
        sink,
        config,
        board,
        part,
        Kind::Track,
        &findings.track,
    )?;
    say_kind(
        held,
        sink,
        config,
        board,
        part,
        Kind::GroundSpeed,
        &findings.speed,
    )?;
    say_kind(
        held,
        sink,
        config,
        board,
        part,
        Kind::VerticalSpeed,
        &findings.climb,
    )?;
    say_kind(
        held,
        sink,
        config,
        board,
        part,
        Kind::Altitude,
        &findings.height,
    )
}

/// Says the line that begins a moment.
fn say_head<K: Sink>(held: &mut HeldLines, sink: &mut K, picture: &Picture) -> Result<(), SinkFault>
    ensures { SaysOrHolds (K.taken sink.old) (K.taken sink.new) held.old held.new
        (K.faults sink.old) (K.faults sink.new)
        (numbers_line (codes "moment") (picture.now.time ∷ [])) result }
{
    held.say(sink, &Line::moment(picture.time))
}

/// Says the line that ends a moment.
fn say_foot<K: Sink>(held: &mut HeldLines, sink: &mut K, picture: &Picture) -> Result<(), SinkFault>
    ensures { SaysOrHolds (K.taken sink.old) (K.taken sink.new) held.old held.new
        (K.faults sink.old) (K.faults sink.new)
        (numbers_line (codes "done") (picture.now.time ∷ [])) result }
{
    held.say(sink, &Line::done(picture.time))
}

/// Says the lines of a picture's aircraft.
fn say_traffic<K: Sink>(
    held: &mut HeldLines,
    sink: &mut K,
    picture: &Picture,
    alerts: &[AircraftAlert],
) -> Result<(), SinkFault>
    requires { length alerts.now ≡ length (aircraft_of picture.now) }
    ensures { SaysOrHolds (K.taken sink.old) (K.taken sink.new) held.old held.new
        (K.faults sink.old) (K.faults sink.new)
        (alerts_text (aircraft_of picture.now) alerts.now) result }
{
    say_alerts(held, sink, picture.traffic.as_slice(), alerts)
}

/// Says the lines of a moment. The lines of the aircraft are written before the other lines are
/// said.
fn say_parts<K: Sink>(
    held: &mut HeldLines,
    sink: &mut K,
    config: &Config,
    picture: &Picture,
    board: &Board,
    alerts: &[AircraftAlert],
    findings: &Findings,
) -> Result<(), SinkFault>
    requires { length alerts.now ≡ length (aircraft_of picture.now) }
    ensures { SaysOrHolds (K.taken sink.old) (K.taken sink.new) held.old held.new
        (K.faults sink.old) (K.faults sink.new)
        (written config.now picture.now board.now alerts.now findings.now) result }
{
    say_head(held, sink, picture)?;
    say_traffic(held, sink, picture, alerts)?;
    held.flush(sink)?;
    say_kinds(held, sink, config, board, Section::Bands, findings)?;
    say_kinds(held, sink, config, board, Section::Resolutions, findings)?;
    say_kinds(held, sink, config, board, Section::LastTimes, findings)?;
    say_kinds(held, sink, config, board, Section::Recoveries, findings)?;
    say_foot(held, sink, picture)
}

/// Writes the lines of a moment. Nothing is held back when it returns.
pub(crate) fn say<K: Sink>(
    sink: &mut K,
    config: &Config,
    picture: &Picture,
    board: &Board,
    alerts: &[AircraftAlert],
    findings: &Findings,
) -> Result<(), SinkFault>
    requires { length alerts.now ≡ length (aircraft_of picture.now) }
    ensures { Says (K.taken sink.old) (K.taken sink.new) (K.faults sink.old) (K.faults sink.new)
        (written config.now picture.now board.now alerts.now findings.now) result }
{
    let mut held = HeldLines::new();
    say_parts(&mut held, sink, config, picture, board, alerts, findings)?;
    held.flush(sink)
}
