//! The events of an input, one after the other, as its bytes come in pieces. A replay writes their
//! texts, and a comparison compares them.

ghost use Rattle.std.specs.Prelude.{◌≡◌, ◌<◌, ◌≤◌, ◌+◌, ◌-◌, ◌++◌, ◌||◌, List, [], true, false, IfSome, length, take};
ghost use Rattle.daa_lines.specs.LinesOf.{Bytes};
ghost use Rattle.daa_replay.specs.declared.lines.Event.{Event};
ghost use Rattle.daa_replay.specs.Lines.{IsEventInRange, events_of, is_refusal};
ghost use Rattle.daa_replay.specs.Inside.Lines.{Follows, given_with};
ghost use Rattle.daa_replay.specs.Inside.Checkpoint.{HasLast};
ghost use Rattle.daa_replay.specs.Inside.Events.{CanGive, HasEnd, HasLines, IsAfter, IsAt, IsBetween, IsGiven, IsMore, events_at_end};

use crate::lines::{Event, take_any, take_end, takes_addition};
use daa_lines::Lines;
use daa_state::Moments;

/// What of an input may still give an event.
#[derive(Clone, Copy, Debug, PartialEq, Eq)]
pub(crate) enum Left {
    /// Its lines, and then its end.
    Lines,
    /// Its end.
    End,
    /// Nothing: all events were given.
    Nothing,
}

/// How far an input was read: the line in hand, the moments, what is left, and whether some line
/// was refused.
#[derive(Drop)]
pub(crate) struct Progress {
    pub(crate) lines: Lines,
    pub(crate) moments: Moments,
    pub(crate) left: Left,
    pub(crate) any_refused: bool,
}

/// Whether some event was a refusal, with this one more.
pub(crate) fn any_refusal(before: bool, event: &Event) -> bool
    ensures { result ≡ (before || is_refusal event.now) }
{
    before || matches!(event, Event::Refused(_, _))
}

/// Whether one of them holds. As a call it is one step of a loop that is proved, where `||` is two.
pub(crate) fn either(before: bool, now: bool) -> bool
    ensures { result ≡ (before || now) }
{
    before || now
}

/// Nothing was read.
pub(crate) fn begin() -> Progress
    ensures between { IsBetween result }
    ensures fed { result.lines.fed ≡ 0 }
    ensures given { IsGiven [] [] result }
    ensures refused { result.any_refused ≡ false }
{
    Progress {
        lines: Lines::new(),
        moments: Moments::new(),
        left: Left::Lines,
        any_refused: false,
    }
}

/// Feeds bytes of a piece, of which the first `done` are fed, up to a line that does more than
/// begin a moment or add to it, and returns its event, if it has one. The lines before it are taken
/// on the way, without room for an event.
#[inline(always)]
pub(crate) fn next_of_lines(
    lines: &mut Lines,
    moments: &mut Moments,
    piece: &[u8],
    done: &mut usize,
) -> Option<Event>
    requires within { done.old ≤ length piece.now }
    requires lines { HasLines (length piece.now - done.old) lines.old }
    ensures within { done.new ≤ length piece.now }
    ensures lines { HasLines (length piece.now - done.new) lines.new }
    ensures kept { (bytes : Bytes) (given : List Event)
        → Follows (bytes ++ take done.old piece.now) given lines.old moments.old
        → Follows (bytes ++ take done.new piece.now) (given_with given result) lines.new
        moments.new }
    ensures last { IfSome result (λ event. HasLast event moments.new) }
    ensures further { done.old < length piece.now → done.old < done.new }
    ensures range { IfSome result IsEventInRange }
{
    while *done < piece.len() {
        *done += lines.feed(&piece[*done..]);
        if !takes_addition(lines, moments) {
            return take_any(lines, moments);
        }
    }
    None
}

/// The input is over: the event of its last line, which needs no line feed.
fn last_line(progress: &mut Progress) -> Option<Event>
    requires lines { HasLines 0 progress.old.lines }
    ensures left { progress.new.left ≡ Left.End }
    ensures end { HasEnd progress.new.lines }
    ensures same { progress.new.any_refused ≡ progress.old.any_refused }
    ensures kept { (bytes : Bytes) (given : List Event)
        → Follows bytes given progress.old.lines progress.old.moments
        → Follows bytes (given_with given result) progress.new.lines progress.new.moments }
    ensures range { IfSome result IsEventInRange }
{
    progress.lines.end();
    progress.left = Left::End;
    take_any(&mut progress.lines, &mut progress.moments)
}

/// The event of the end of the input. Nothing is left.
fn last_event(progress: &mut Progress) -> Option<Event>
    requires end { HasEnd progress.old.lines }
    ensures left { progress.new.left ≡ Left.Nothing }
    ensures same { progress.new.any_refused ≡ progress.old.any_refused }
    ensures whole { (bytes : Bytes) (given : List Event)
        → Follows bytes given progress.old.lines progress.old.moments
        → given_with given result ≡ events_of bytes true }
    ensures range { IfSome result IsEventInRange }
{
    progress.left = Left::Nothing;
    take_end(&progress.lines, &progress.moments)
}

/// Once all bytes are fed: the event of the last line, or of the end, if it has one.
fn next_of_end(progress: &mut Progress) -> Option<Event>
    requires can { CanGive progress.old.left true 0 progress.old.lines }
    ensures can { CanGive progress.new.left true 0 progress.new.lines }
    ensures same { progress.new.any_refused ≡ progress.old.any_refused }
    ensures kept { (bytes : Bytes) (given : List Event) → IsGiven bytes given progress.old
        → IsGiven bytes (given_with given result) progress.new }
    ensures further { 0 < events_at_end progress.old.left
        → events_at_end progress.new.left < events_at_end progress.old.left }
    ensures range { IfSome result IsEventInRange }
{
    match progress.left {
        Left::Lines => last_line(progress),
        Left::End => last_event(progress),
        Left::Nothing => None,
    }
}

/// Whether a piece, of which the first `done` bytes are fed, may still give an event. The last one
/// may also give that of a line without a line feed, and that of the end.
pub(crate) fn has_more(progress: &Progress, piece: &[u8], done: usize, last: bool) -> bool
    requires at { IsAt (length piece.now) done last progress.now }
    ensures more { result ≡ true → IsMore (length piece.now) done last progress.now.left }
    ensures all { result ≡ false → (done ≡ length piece.now) × IsAfter last progress.now }
{
    if done < piece.len() {
        return true;
    }
    match progress.left {
        Left::Lines => last,
        Left::End => true,
        Left::Nothing => false,
    }
}

/// Goes on in a piece that has more, of which the first `done` bytes are fed, by a line or by the
/// end of the input, and returns its event, if it has one.
#[inline(always)]
pub(crate) fn next_event(
    progress: &mut Progress,
    piece: &[u8],
    done: &mut usize,
    last: bool,
) -> Option<Event>
    requires at { IsAt (length piece.now) done.old last progress.old }
    requires more { IsMore (length piece.now) done.old last progress.old.left }
    ensures at { IsAt (length piece.now) done.new last progress.new }
    ensures same { progress.new.any_refused ≡ progress.old.any_refused }
    ensures kept { (bytes : Bytes) (given : List Event)
        → IsGiven (bytes ++ take done.old piece.now) given progress.old
        → IsGiven (bytes ++ take done.new piece.now) (given_with given result) progress.new }
    ensures further { (length piece.now - done.new) + events_at_end progress.new.left
        < (length piece.now - done.old) + events_at_end progress.old.left }
    ensures range { IfSome result IsEventInRange }
{
    match progress.left {
        Left::Lines if *done < piece.len() => {
            next_of_lines(&mut progress.lines, &mut progress.moments, piece, done)
        }
        Left::Lines => next_of_end(progress),
        Left::End => next_of_end(progress),
        Left::Nothing => next_of_end(progress),
    }
}
