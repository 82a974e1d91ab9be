//! Where moments seem to end in a piece: guesses, by which the workers divide it among themselves.

use crate::checkpoint::Checkpoint;
use daa_state::{Word, read_line};

/// A line without blanks in front.
fn from_word(line: &[u8]) -> &[u8] {
    match line.iter().position(|byte| *byte != b' ' && *byte != b'\t') {
        Some(at) => rest_of(line, at),
        None => &[],
    }
}

/// Whether more than one moment seems to end in a piece: two of its lines begin with `end`.
pub(crate) fn has_two_ends(piece: &[u8]) -> bool {
    let mut found = false;
    for line in piece.split(|byte| *byte == b'\n') {
        if matches!(from_word(line), [b'e', b'n', b'd', ..]) {
            if found {
                return true;
            }
            found = true;
        }
    }
    false
}

/// The format that a line sets, and else this one.
fn format_by(line: &[u8], format: u32) -> u32 {
    match read_line(line, 1) {
        Ok(Word::Format(format)) => format,
        _ => format,
    }
}

/// The time of the moment that a line begins, if it is later than this one, and else this one.
fn time_by(line: &[u8], last: Option<u32>) -> Option<u32> {
    match (read_line(line, 1), last) {
        (Ok(Word::Moment(time)), Some(last)) => Some(time.max(last)),
        (Ok(Word::Moment(time)), None) => Some(time),
        _ => last,
    }
}

/// Guesses places between moments: the given one, and behind it one each so many bytes or more. It
/// looks at the first letters of most lines alone, and no clause says that it is right: where it is
/// not, the texts that the workers make from a place on are not used.
pub(crate) fn guess_places(
    places: &mut Vec<Checkpoint>,
    piece: &[u8],
    from: Checkpoint,
    size: usize,
) {
    places.clear();
    let mut place = from;
    let mut begin = from.done;
    let mut moment: &[u8] = &[];
    let mut is_open = false;
    push_place(places, place);
    for line in rest_of(piece, from.done).split(|byte| *byte == b'\n') {
        let length = line.len().saturating_add(1);
        place.done = place.done.saturating_add(length);
        place.fed = place.fed.saturating_add(length as u64);
        place.number = place.number.saturating_add(1);
        if piece.len() < place.done || places.capacity() <= places.len() {
            return;
        }
        match from_word(line) {
            [b'm', ..] => {
                moment = line;
                is_open = true;
            }
            [b'f', ..] if !is_open => place.format = format_by(line, place.format),
            [b'e', b'n', b'd', ..] => {
                is_open = false;
                if size <= place.done.saturating_sub(begin) {
                    place.last = time_by(moment, place.last);
                    push_place(places, place);
                    begin = place.done;
                }
            }
            _ => (),
        }
    }
}

/// Adds a place, if there is room.
fn push_place(places: &mut Vec<Checkpoint>, place: Checkpoint) {
    if places.len() < places.capacity() {
        places.push_reserved(place);
    }
}

/// The bytes of a piece from one on.
fn rest_of(piece: &[u8], done: usize) -> &[u8] {
    piece.get(done..).unwrap_or(&[])
}
