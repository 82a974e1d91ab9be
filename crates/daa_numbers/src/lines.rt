//! State lines, taken one after the other into a caller's numbers.

ghost use Rattle.std.specs.Prelude.{◌≡◌, ◌≢◌, ◌≤◌, pos, negsuc, true, false, OnOk, OnErr, IfOk, IfErr};
ghost use Rattle.std.specs.List.{list_any};
ghost use Rattle.std.specs.Str.{bytes_eq};
ghost use Rattle.daa_state.specs.Bounds.{no_error};
ghost use Rattle.daa_state.specs.Sure.{IsSure, IsSureWord};
ghost use Rattle.daa_state.specs.Fault.{code_of};
ghost use Rattle.daa_state.specs.InRange.{IsFormat, IsWordInRange};
ghost use Rattle.daa_state.specs.MomentStep.{has_id};
ghost use Rattle.daa_numbers.specs.Lines.{format_by, aircraft_by, IsLineTaken, IsLineRefused};
ghost use Rattle.daa_numbers.specs.Lines.{KeepsMoment, asks_for_bounds, early_word_of};
ghost use Rattle.daa_numbers.specs.Inside.Lines.{IsStep, IsNoStep, IsOfEarlyFormat};
ghost use Rattle.daa_numbers.specs.States.{text_of, traffic_of};

use crate::codes::MOMENT_ENDED;
use crate::states::{DaaTraffic, text_end};
use daa_state::{Id, LineFault, MOST_AIRCRAFT, Own, Traffic, Word, read_line};

/// The lines so far. All zeros: none. `opened` is not 0 while a moment is open, and then `time` is
/// its time, `own` its ownship if `owned` is not 0, and `traffic` has its aircraft in the first
/// `count` places. `last` is the time of the last ended moment if `ended` is not 0. The lines that
/// come are in format 2 if `format` is 2, else in format 1.
#[repr(C)]
#[derive(Clone, Copy)]
pub struct DaaLines {
    pub format: u32,
    pub ended: u32,
    pub last: u32,
    pub opened: u32,
    pub time: u32,
    pub owned: u32,
    pub own: Own,
    pub count: u64,
    pub traffic: [DaaTraffic; MOST_AIRCRAFT],
}

/// The format of the lines that come.
fn format(lines: &DaaLines) -> u32
    ensures value { result ≡ format_by lines.now.format }
    ensures range { IsFormat result }
    ensures early { result ≤ 2 }
{
    if lines.format == 2 { 2 } else { 1 }
}

/// The bytes of an identifier, and zeros after them.
fn id_bytes(id: &Id) -> [u8; 8]
    ensures { text_of result ≡ id.now }
{
    let mut bytes = [0; 8];
    let text = id.bytes();
    bytes[..text.len()].copy_from_slice(text);
    bytes
}

/// The numbers of an aircraft.
fn traffic_numbers(traffic: &Traffic) -> DaaTraffic
    requires { IsSure traffic.now }
    ensures { traffic_of result ≡ traffic.now }
{
    DaaTraffic {
        id: id_bytes(&traffic.id),
        x: traffic.x,
        y: traffic.y,
        alt: traffic.alt,
        vx: traffic.vx,
        vy: traffic.vy,
        vs: traffic.vs,
        age: traffic.age,
    }
}

/// Begins a moment, or says why it is refused.
#[tactic(auto, unfolding(daa_state::specs::MomentStep::step, daa_state::specs::MomentStep::begun_moment))]
fn begin(lines: &mut DaaLines, time: u32) -> Result<(), LineFault>
    ensures taken { OnOk result (IsStep lines.old (Word.Moment time) false lines.new) }
    ensures refused { IfErr result (IsNoStep lines.old (Word.Moment time)) }
    ensures kept { OnErr result (lines.new ≡ lines.old) }
    ensures stays { lines.new.opened ≡ 0 → KeepsMoment lines.old lines.new }
    ensures few { lines.old.count ≤ 64 → lines.new.count ≤ 64 }
{
    if lines.opened != 0 {
        return Err(LineFault::MomentOpen);
    }
    if lines.ended != 0 && time <= lines.last {
        return Err(LineFault::NotLater(lines.last));
    }
    lines.opened = 1;
    lines.time = time;
    lines.owned = 0;
    lines.count = 0;
    Ok(())
}

/// Adds the ownship to the open moment, or says why it is refused.
#[tactic(auto, unfolding(daa_state::specs::MomentStep::step, daa_state::specs::MomentStep::with_own))]
fn add_own(lines: &mut DaaLines, own: &Own) -> Result<(), LineFault>
    ensures taken { OnOk result (IsStep lines.old (Word.Own own.now no_error) false lines.new) }
    ensures refused { IfErr result (IsNoStep lines.old (Word.Own own.now no_error)) }
    ensures kept { OnErr result (lines.new ≡ lines.old) }
    ensures stays { lines.new.opened ≡ 0 → KeepsMoment lines.old lines.new }
    ensures few { lines.old.count ≤ 64 → lines.new.count ≤ 64 }
{
    if lines.opened == 0 {
        return Err(LineFault::NoMoment);
    }
    if lines.owned != 0 {
        return Err(LineFault::OwnTwice);
    }
    lines.owned = 1;
    lines.own = *own;
    Ok(())
}

/// Whether the numbers of an aircraft have this identifier.
fn is_named(traffic: &DaaTraffic, id: &Id) -> bool
    ensures { result ≡ bytes_eq (text_of traffic.now.id) id.now }
{
    &traffic.id[..text_end(&traffic.id)] == id.bytes()
}

/// Whether one of these aircraft has the identifier.
fn one_is_named(traffic: &[DaaTraffic], id: &Id) -> bool
    ensures { result ≡ list_any (λ one. bytes_eq (text_of one.id) id.now) traffic.now }
{
    traffic.iter().any(|one| is_named(one, id))
}

/// Whether an aircraft of the open moment has the identifier.
fn has_id(lines: &DaaLines, id: &Id) -> bool
    ensures { result ≡ has_id id.now (aircraft_by lines.now) }
{
    let count = (lines.count as usize).min(MOST_AIRCRAFT);
    one_is_named(&lines.traffic[..count], id)
}

/// Adds an aircraft to the open moment, or says why it is refused.
#[tactic(auto, unfolding(daa_state::specs::MomentStep::step, daa_state::specs::MomentStep::with_traffic))]
fn add_traffic(lines: &mut DaaLines, traffic: &Traffic) -> Result<(), LineFault>
    requires { IsSure traffic.now }
    ensures taken { OnOk result (IsStep lines.old (Word.Traffic traffic.now) false lines.new) }
    ensures refused { IfErr result (IsNoStep lines.old (Word.Traffic traffic.now)) }
    ensures kept { OnErr result (lines.new ≡ lines.old) }
    ensures stays { lines.new.opened ≡ 0 → KeepsMoment lines.old lines.new }
    ensures few { lines.old.count ≤ 64 → lines.new.count ≤ 64 }
{
    if lines.opened == 0 {
        return Err(LineFault::NoMoment);
    }
    if has_id(lines, &traffic.id) {
        return Err(LineFault::SameId);
    }
    if lines.count >= MOST_AIRCRAFT as u64 {
        return Err(LineFault::Full);
    }
    lines.traffic[lines.count as usize] = traffic_numbers(traffic);
    lines.count += 1;
    Ok(())
}

/// Sets the format of the lines that come, or says why it is refused.
#[tactic(auto, unfolding(daa_state::specs::MomentStep::step))]
fn set_format(lines: &mut DaaLines, format: u32) -> Result<(), LineFault>
    requires range { IsFormat format }
    requires early { format ≤ 2 }
    ensures taken { OnOk result (IsStep lines.old (Word.Format format) false lines.new) }
    ensures refused { IfErr result (IsNoStep lines.old (Word.Format format)) }
    ensures kept { OnErr result (lines.new ≡ lines.old) }
    ensures stays { lines.new.opened ≡ 0 → KeepsMoment lines.old lines.new }
    ensures few { lines.old.count ≤ 64 → lines.new.count ≤ 64 }
{
    if lines.opened != 0 {
        return Err(LineFault::MomentOpen);
    }
    lines.format = format;
    Ok(())
}

/// Ends the open moment, or says why that is refused.
#[tactic(auto, unfolding(daa_state::specs::MomentStep::step, daa_state::specs::MomentStep::ended_picture))]
fn end(lines: &mut DaaLines) -> Result<(), LineFault>
    ensures taken { OnOk result (IsStep lines.old Word.End true lines.new) }
    ensures refused { IfErr result (IsNoStep lines.old Word.End) }
    ensures kept { OnErr result (lines.new ≡ lines.old) }
    ensures stays { lines.new.opened ≡ 0 → KeepsMoment lines.old lines.new }
    ensures few { lines.old.count ≤ 64 → lines.new.count ≤ 64 }
{
    if lines.opened == 0 {
        return Err(LineFault::NoMoment);
    }
    if lines.owned == 0 {
        return Err(LineFault::NoOwn);
    }
    lines.opened = 0;
    lines.ended = 1;
    lines.last = lines.time;
    Ok(())
}

/// Takes a word: whether it ended the moment, or why it is refused.
#[tactic(auto, unfolding(daa_state::specs::MomentStep::step))]
fn take(lines: &mut DaaLines, word: &Word) -> Result<bool, LineFault>
    requires range { IsWordInRange word.now }
    requires sure { IsSureWord word.now }
    requires early { IsOfEarlyFormat word.now }
    ensures taken { IfOk result (λ ended. IsStep lines.old word.now ended lines.new) }
    ensures refused { IfErr result (IsNoStep lines.old word.now) }
    ensures kept { OnErr result (lines.new ≡ lines.old) }
    ensures stays { lines.new.opened ≡ 0 → KeepsMoment lines.old lines.new }
    ensures few { lines.old.count ≤ 64 → lines.new.count ≤ 64 }
{
    match word {
        Word::Moment(time) => begin(lines, *time)?,
        Word::Own(own, _) => add_own(lines, own)?,
        Word::Traffic(traffic) => add_traffic(lines, traffic)?,
        Word::Format(format) => set_format(lines, *format)?,
        Word::Skip => {}
        Word::End => {
            end(lines)?;
            return Ok(true);
        }
    }
    Ok(false)
}

/// The number of a line's fault.
fn fault_number(fault: LineFault) -> i32
    ensures { result ≡ pos (code_of fault) }
{
    i32::from(fault.code())
}

/// The word of a line in format 1 or 2, or the line's fault. Format 3, in which reports have
/// bounds, is refused.
fn early_word(line: &[u8], format: u32) -> Result<Word, LineFault>
    requires range { IsFormat format }
    requires early { format ≤ 2 }
    ensures value { result ≡ early_word_of line.now format }
    ensures range { IfOk result IsWordInRange }
    ensures sure { IfOk result IsSureWord }
    ensures early { IfOk result IsOfEarlyFormat }
{
    let word = read_line(line, format)?;
    if asks_for_bounds(&word) {
        return Err(LineFault::OutOfRange);
    }
    Ok(word)
}

/// Whether the lines that follow have bounds.
fn asks_for_bounds(word: &Word) -> bool
    ensures { result ≡ asks_for_bounds word.now }
{
    matches!(word, Word::Format(3))
}

/// Takes the next state line, in format 1 or 2. Format 3, in which reports have bounds, is refused
/// with 6, as a number that is out of its range. Returns 0; or -1 if the line ended the moment,
/// whose numbers stay until the next one begins; or the number of the line's fault, 1 to 13, and
/// then nothing has changed. Where at most 64 aircraft were counted, at most 64 are then.
pub fn line(line: &[u8], lines: &mut DaaLines) -> i32
    ensures taken { result ≡ pos 0 → IsLineTaken lines.old line.now false lines.new }
    ensures ended { result ≡ negsuc 0 → IsLineTaken lines.old line.now true lines.new }
    ensures refused { result ≢ pos 0 → result ≢ negsuc 0 → IsLineRefused lines.old line.now result }
    ensures kept { result ≢ pos 0 → result ≢ negsuc 0 → lines.new ≡ lines.old }
    ensures stays { lines.new.opened ≡ 0 → KeepsMoment lines.old lines.new }
    ensures few { lines.old.count ≤ 64 → lines.new.count ≤ 64 }
{
    let word = match early_word(line, format(lines)) {
        Ok(word) => word,
        Err(fault) => return fault_number(fault),
    };
    match take(lines, &word) {
        Ok(false) => 0,
        Ok(true) => MOMENT_ENDED,
        Err(fault) => fault_number(fault),
    }
}
