//! Checkpoints of a piece between two moments, from which the rest of the input can be read.

ghost use Rattle.std.specs.Prelude.{◌≡◌, ◌≤◌, ◌<◌, ◌^◌, List, true, false, IfSome, Some};
ghost use Rattle.daa_lines.specs.LinesOf.{Bytes};
ghost use Rattle.daa_lines.specs.LinesState.{is_standing};
ghost use Rattle.daa_state.specs.InRange.{IsFormat, IsWordInRange};
ghost use Rattle.daa_state.specs.MomentStep.{step};
ghost use Rattle.daa_replay.specs.declared.lines.Event.{Event};
ghost use Rattle.daa_replay.specs.Lines.{next_state};
ghost use Rattle.daa_replay.specs.Inside.Lines.{Follows};
ghost use Rattle.daa_replay.specs.Inside.Checkpoint.{HasLast, IsCheckpoint, lines_at, moments_at, reading, reading_at};

use crate::lines::{Event, step};
use daa_lines::Lines;
use daa_state::{Moments, Own, ReportBounds, Word};

/// No place has so many bytes before it, in a piece or in an input.
const MOST_BYTES: u64 = 1 << 62;

/// A place of a piece between two moments: how many bytes of the piece are before it; and of the
/// input up to it how many bytes and lines there are, the time of the last ended moment, if there
/// was one, and the format of the lines that follow.
#[derive(Clone, Copy, Debug)]
pub(crate) struct Checkpoint {
    pub(crate) done: usize,
    pub(crate) fed: u64,
    pub(crate) number: u64,
    pub(crate) last: Option<u32>,
    pub(crate) format: u32,
}

/// Takes a word, and leaves its event.
#[inline(never)]
fn take_in(moments: &mut Moments, word: Word)
    requires { IsWordInRange word }
    ensures { moments.new ≡ next_state moments.old (step moments.old word) }
{
    match step(moments, 0, Ok(word)) {
        Some(_) => (),
        None => (),
    }
}

impl Checkpoint {
    /// The lines at the place.
    pub(crate) fn lines(&self) -> Lines
        requires { self.now.number ≤ self.now.fed }
        ensures { result ≡ lines_at self.now }
    {
        Lines::resume(self.fed, self.number)
    }

    /// The moments at the place: those behind some moment of the last time.
    pub(crate) fn moments(&self) -> Moments
        requires { IsFormat self.now.format }
        ensures { result ≡ moments_at self.now }
    {
        let mut moments = Moments::new();
        take_in(&mut moments, Word::Format(self.format));
        match self.last {
            None => moments,
            Some(time) => {
                let own = Own {
                    x: 0,
                    y: 0,
                    alt: 0,
                    trk: 0,
                    gs: 0,
                    vs: 0,
                };
                take_in(&mut moments, Word::Moment(time));
                take_in(&mut moments, Word::Own(own, ReportBounds::EXACT));
                take_in(&mut moments, Word::End);
                moments
            }
        }
    }

    /// Whether the rest of the piece can be read from here on.
    pub(crate) fn is_in(&self, piece: &[u8]) -> bool
        ensures { result ≡ true → IsCheckpoint piece.now self.now }
    {
        self.done <= piece.len()
            && piece.len() as u64 <= MOST_BYTES
            && self.fed < MOST_BYTES
            && self.number <= self.fed
            && 1 <= self.format
            && self.format <= 3
    }

    /// Whether it is this place.
    pub(crate) fn is(&self, other: &Checkpoint) -> bool
        ensures { result ≡ true → self.now ≡ other.now }
    {
        self.done == other.done
            && self.fed == other.fed
            && self.number == other.number
            && self.last == other.last
            && self.format == other.format
    }
}

/// The place at the end of a moment of this time, where so many bytes of a piece are fed.
pub(crate) fn place_after(
    lines: &Lines,
    moments: &Moments,
    time: u32,
    done: usize,
) -> Option<Checkpoint>
    requires last { moments.now.last ≡ Some time }
    requires going { lines.now.ended ≡ false }
    ensures stands { IfSome result
        (λ place. reading done lines.now moments.now ≡ reading_at place) }
    ensures counted { IfSome result (λ place. place.number ≤ place.fed) }
    ensures format { IfSome result (λ place. IsFormat place.format) }
{
    if !lines.is_between() {
        return None;
    }
    match moments.finish() {
        Err(_) => None,
        Ok(()) => Some(Checkpoint {
            done,
            fed: lines.fed(),
            number: lines.number(),
            last: Some(time),
            format: moments.format(),
        }),
    }
}

/// The place at the front of an input, if nothing of it is fed.
pub(crate) fn place_in_front(lines: &mut Lines, moments: &mut Moments) -> Option<Checkpoint>
    requires free { is_standing lines.old.stage ≡ false }
    requires going { lines.old.ended ≡ false }
    ensures kept { (bytes : Bytes) (given : List Event) → Follows bytes given lines.old moments.old
        → Follows bytes given lines.new moments.new }
    ensures stands { IfSome result
        (λ place. reading 0 lines.new moments.new ≡ reading_at place) }
    ensures counted { IfSome result (λ place. place.number ≤ place.fed) }
    ensures format { IfSome result (λ place. IsFormat place.format) }
    ensures free { is_standing lines.new.stage ≡ false }
    ensures going { lines.new.ended ≡ false }
    ensures fed { lines.new.fed ≡ lines.old.fed }
{
    if lines.fed() > 0 || lines.number() > 0 {
        return None;
    }
    *lines = Lines::new();
    *moments = Moments::new();
    Some(Checkpoint {
        done: 0,
        fed: 0,
        number: 0,
        last: None,
        format: 1,
    })
}

/// The place behind an event, if it is an ended moment.
pub(crate) fn place_behind(
    lines: &Lines,
    moments: &Moments,
    event: &Event,
    done: usize,
) -> Option<Checkpoint>
    requires last { HasLast event.now moments.now }
    requires going { lines.now.ended ≡ false }
    ensures stands { IfSome result
        (λ place. reading done lines.now moments.now ≡ reading_at place) }
    ensures counted { IfSome result (λ place. place.number ≤ place.fed) }
    ensures format { IfSome result (λ place. IsFormat place.format) }
{
    match event {
        Event::Ended(picture) => place_after(lines, moments, picture.time, done),
        Event::Refused(_, _) => None,
    }
}
