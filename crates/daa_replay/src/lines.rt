//! The events of lines: each line is a refusal, an ended moment, or nothing.

ghost use Rattle.std.specs.Prelude.{◌≡◌, ◌<◌, ◌^◌, ◌↔◌, ◌++◌, ◌+◌, List, true, false, IsSome, IfSome, IfOk, Ok, ◌∷◌, []};
ghost use Rattle.daa_lines.specs.LinesOf.{Bytes};
ghost use Rattle.daa_lines.specs.LinesState.{is_standing};
ghost use Rattle.daa_lines.specs.ComesFrom.{ComesFrom, standing};
ghost use Rattle.daa_lines.specs.Taking.{after_taking};
ghost use Rattle.daa_state.specs.WordOf.{word_of};
ghost use Rattle.daa_state.specs.InRange.{IsFormat, IsWordInRange};
ghost use Rattle.daa_replay.specs.declared.lines.Event.{Event};
ghost use Rattle.daa_replay.specs.Inside.Lines.{Follows, given_with, word_step};
ghost use Rattle.daa_replay.specs.Inside.Checkpoint.{HasLast};
ghost use Rattle.daa_replay.specs.Lines.{IsEventInRange, events_of, line_event, next_state};

use daa_lines::{InputLine, Lines, Stage};
use daa_state::{LineFault, Moments, Picture, Word, read_line};

/// A line was refused, under its number, or a moment was ended.
#[derive(Debug, Drop)]
pub enum Event {
    Refused(u64, LineFault),
    Ended(Picture),
}

/// The word of the line that is ready, read in this format; the line is taken.
fn take_word(lines: &mut Lines, format: u32) -> Option<Result<Word, LineFault>>
    requires { IsFormat format }
    ensures stood { IsSome result ↔ (is_standing lines.old.stage ≡ true) }
    ensures word { IfSome result (λ word. word ≡ word_of lines.old.line format) }
    ensures range { IfSome result (λ word. IfOk word IsWordInRange) }
    ensures after { lines.new ≡ after_taking lines.old }
    ensures kept { (bytes : Bytes) (taken : List Bytes) → ComesFrom bytes taken lines.old
        → ComesFrom bytes (taken ++ standing lines.old.stage lines.old.line) lines.new }
{
    match lines.take_line() {
        InputLine::Whole(bytes) => Some(read_line(bytes, format)),
        InputLine::Long => Some(Err(LineFault::LongLine)),
        InputLine::NotYet => None,
    }
}

/// The event of a word, if it has one; the word changes the moments.
#[inline(always)]
pub(crate) fn step(
    moments: &mut Moments,
    number: u64,
    word: Result<Word, LineFault>,
) -> Option<Event>
    requires range { IfOk word IsWordInRange }
    ensures given { given_with [] result ≡ line_event number (word_step moments.old word) }
    ensures moments { moments.new ≡ next_state moments.old (word_step moments.old word) }
    ensures last { IfSome result (λ event. HasLast event moments.new) }
    ensures range { IfSome result IsEventInRange }
{
    match word {
        Err(fault) => Some(Event::Refused(number, fault)),
        Ok(Word::End) if moments.can_end() => Some(Event::Ended(moments.end())),
        Ok(word) => match moments.take(word) {
            Ok(None) => None,
            Ok(Some(picture)) => Some(Event::Ended(picture)),
            Err(fault) => Some(Event::Refused(number, fault)),
        },
    }
}

/// The word of the line that is ready, where that is one of fewer than 256 bytes and is accepted,
/// read in this format; the line is not taken.
fn standing_word(lines: &Lines, format: u32) -> Option<Word>
    requires { IsFormat format }
    ensures word { IfSome result (λ word. (lines.now.stage ≡ Stage.Whole)
        × (word_of lines.now.line format ≡ Ok word)) }
    ensures range { IfSome result IsWordInRange }
{
    let bytes = lines.standing_line()?;
    match read_line(bytes, format) {
        Ok(word) => Some(word),
        Err(_) => None,
    }
}

/// Passes over the line that is ready.
fn pass_line(lines: &mut Lines)
    ensures after { lines.new ≡ after_taking lines.old }
    ensures kept { (bytes : Bytes) (taken : List Bytes) → ComesFrom bytes taken lines.old
        → ComesFrom bytes (taken ++ standing lines.old.stage lines.old.line) lines.new }
{
    match lines.take_line() {
        InputLine::Whole(_) => (),
        InputLine::Long => (),
        InputLine::NotYet => (),
    }
}

/// Takes the line that is ready where it begins a moment or adds to it, as most lines do, and else
/// changes nothing. It has no event then, and no room for one is made ready.
#[inline(never)]
pub(crate) fn takes_addition(lines: &mut Lines, moments: &mut Moments) -> bool
    ensures free { result ≡ true → is_standing lines.new.stage ≡ false }
    ensures ended { lines.new.ended ≡ lines.old.ended }
    ensures fed { lines.new.fed ≡ lines.old.fed }
    ensures kept { result ≡ true → (bytes : Bytes) (given : List Event)
        → Follows bytes given lines.old moments.old → Follows bytes given lines.new moments.new }
    ensures unchanged { result ≡ false → (lines.new ≡ lines.old) × (moments.new ≡ moments.old) }
{
    let Some(word) = standing_word(lines, moments.format()) else {
        return false;
    };
    if !moments.adds(&word) {
        return false;
    }
    pass_line(lines);
    true
}

/// Takes the line that is ready, if there is one, and returns its event, if it has one. This call
/// has room for a moment, which only a line that ends one needs.
#[inline(never)]
pub(crate) fn take_any(lines: &mut Lines, moments: &mut Moments) -> Option<Event>
    ensures free { is_standing lines.new.stage ≡ false }
    ensures ended { lines.new.ended ≡ lines.old.ended }
    ensures fed { lines.new.fed ≡ lines.old.fed }
    ensures kept { (bytes : Bytes) (given : List Event) → Follows bytes given lines.old moments.old
        → Follows bytes (given_with given result) lines.new moments.new }
    ensures last { IfSome result (λ event. HasLast event moments.new) }
    ensures range { IfSome result IsEventInRange }
{
    let word = take_word(lines, moments.format())?;
    step(moments, lines.number(), word)
}

/// The event of the end of the input, if it has one.
pub(crate) fn take_end(lines: &Lines, moments: &Moments) -> Option<Event>
    requires ended { lines.now.ended ≡ true }
    requires free { is_standing lines.now.stage ≡ false }
    requires room { lines.now.fed < 2 ^ 63 }
    ensures whole { (bytes : Bytes) (given : List Event) → Follows bytes given lines.now moments.now
        → given_with given result ≡ events_of bytes true }
    ensures range { IfSome result IsEventInRange }
{
    match moments.finish() {
        Err(fault) => Some(Event::Refused(lines.number() + 1, fault)),
        Ok(()) => None,
    }
}
