//! daa_lines: worked inputs, fed in several pieces. Lines are shown by their numbers and their
//! bytes in brackets.

ghost use Rattle.std.specs.Prelude.{◌≡◌, ◌<◌, false};

use daa_lines::{InputLine, Lines, Stage};
use std::alloc::{AllocError, Global};
use std::process::Abort;
use std::test::Fail;

/// Takes the line that is ready, if there is one, and adds it to the text.
fn put_line(rt: &impl Abort, lines: &mut Lines, text: &mut Vec<u8>) -> Result<(), AllocError>
    ensures { lines.new.ended ≡ lines.old.ended }
{
    let before = lines.number();
    assert!(rt; before < 9);
    let number = b'1' + before as u8;
    match lines.take_line() {
        InputLine::Whole(bytes) => {
            text.push(number)?;
            text.push(b'[')?;
            text.extend_from_slice(bytes)?;
            text.push(b']')?;
        }
        InputLine::Long => {
            text.push(number)?;
            text.extend_from_slice(b"<long>")?;
        }
        InputLine::NotYet => return Ok(()),
    }
    assert_eq!(rt; lines.number(), before + 1);
    Ok(())
}

/// Feeds the piece, and adds each line that is ready to the text.
fn put_piece(
    rt: &impl Abort,
    lines: &mut Lines,
    piece: &[u8],
    text: &mut Vec<u8>,
) -> Result<(), AllocError>
    requires { lines.old.ended ≡ false }
    ensures { lines.new.ended ≡ false }
{
    let mut rest = piece;
    'rest: while !rest.is_empty() {
        assert!(rt; lines.fed() < 10_000 && rest.len() < 10_000);
        let count = lines.feed(rest);
        assert!(rt; count > 0);
        rest = &rest[count..];
        put_line(rt, lines, text)?;
    }
    Ok(())
}

/// The lines of the input, fed in pieces of `size` bytes. `end` is called twice.
fn text_of(rt: &impl Abort, alloc: Global, input: &[u8], size: usize) -> Result<Vec<u8>, AllocError>
    requires { 0 < size }
{
    let mut lines = Lines::new();
    let mut text = Vec::new(alloc);
    for piece in input.chunks(size) {
        put_piece(rt, &mut lines, piece, &mut text)?;
    }
    assert_eq!(rt; lines.fed(), input.len() as u64);
    lines.end();
    put_line(rt, &mut lines, &mut text)?;
    lines.end();
    put_line(rt, &mut lines, &mut text)?;
    assert_eq!(rt; lines.fed(), input.len() as u64);
    Ok(text)
}

fn assert_text(
    rt: &impl Abort,
    alloc: Global,
    input: &[u8],
    wanted: &[u8],
) -> Result<(), AllocError> {
    for size in [1, 7, 1000] {
        let text = text_of(rt, alloc, input, size)?;
        assert_eq!(rt; text.as_slice(), wanted, "in pieces of {size}");
    }
    Ok(())
}

#[test]
fn short_inputs_give_their_lines(rt: HostRuntime) -> Result<(), Fail> {
    let alloc = rt.alloc();
    assert_text(&rt, alloc, b"", b"")?;
    assert_text(&rt, alloc, b"\n", b"1[]")?;
    assert_text(&rt, alloc, b"\n\n", b"1[]2[]")?;
    assert_text(&rt, alloc, b"a", b"1[a]")?;
    assert_text(&rt, alloc, b"a\n", b"1[a]")?;
    assert_text(&rt, alloc, b"a\nb", b"1[a]2[b]")?;
    assert_text(&rt, alloc, b"\r\n", b"1[\r]")?;
    assert_text(&rt, alloc, b"a\rb\r\n\n c\r", b"1[a\rb\r]2[]3[ c\r]")?;
    assert_text(&rt, alloc, b"\0\xff\n", b"1[\0\xff]")?;
    Ok(())
}

/// So many letters, and then the tail.
fn letters(alloc: Global, count: usize, tail: &[u8]) -> Result<Vec<u8>, AllocError> {
    let mut bytes = vec![in alloc; b'a'; count]?;
    bytes.extend_from_slice(tail)?;
    Ok(bytes)
}

#[test]
fn up_to_255_bytes_make_a_whole_line(rt: HostRuntime) -> Result<(), Fail> {
    let alloc = rt.alloc();
    let rows: [(usize, &[u8], &[u8]); 5] = [
        (254, b"\r\n", b"\r]"),
        (255, b"", b"]"),
        (255, b"\n", b"]"),
        (255, b"\nb", b"]2[b]"),
        (255, b"\n\r\n", b"]2[\r]"),
    ];
    for (count, tail, after) in rows {
        let mut wanted = b"1[".to_vec(alloc)?;
        wanted.extend_from_slice(letters(alloc, count, after)?.as_slice())?;
        assert_text(
            &rt,
            alloc,
            letters(alloc, count, tail)?.as_slice(),
            wanted.as_slice(),
        )?;
    }
    Ok(())
}

#[test]
fn from_256_bytes_on_a_line_is_long(rt: HostRuntime) -> Result<(), Fail> {
    let alloc = rt.alloc();
    let rows: [(usize, &[u8], &[u8]); 10] = [
        (255, b"\r\n", b"1<long>"),
        (256, b"", b"1<long>"),
        (256, b"\n", b"1<long>"),
        (256, b"\nb", b"1<long>2[b]"),
        (257, b"", b"1<long>"),
        (257, b"\n\n", b"1<long>2[]"),
        (300, b"", b"1<long>"),
        (300, b"\n", b"1<long>"),
        (300, b"\r\nb\n", b"1<long>2[b]"),
        (600, b"\nb", b"1<long>2[b]"),
    ];
    for (count, tail, wanted) in rows {
        assert_text(&rt, alloc, letters(alloc, count, tail)?.as_slice(), wanted)?;
    }
    Ok(())
}

fn is_whole(line: InputLine<'_>, wanted: &[u8]) -> bool {
    match line {
        InputLine::Whole(bytes) => bytes == wanted,
        InputLine::Long | InputLine::NotYet => false,
    }
}

#[test]
fn feed_stops_after_a_line_feed(rt: HostRuntime) {
    let mut lines = Lines::new();
    assert_eq!(rt; (lines.fed(), lines.number()), (0, 0));
    assert_eq!(rt; lines.feed(b""), 0);
    assert_eq!(rt; lines.feed(b"ab"), 2);
    assert!(rt; matches!(lines.take_line(), InputLine::NotYet));
    assert_eq!(rt; lines.feed(b"c\nd\n"), 2);
    assert_eq!(rt; lines.feed(b"d\n"), 0);
    assert_eq!(rt; (lines.fed(), lines.number()), (4, 0));
    assert!(rt; is_whole(lines.take_line(), b"abc"));
    assert!(rt; matches!(lines.take_line(), InputLine::NotYet));
    assert_eq!(rt; (lines.fed(), lines.number()), (4, 1));
}

#[test]
fn feed_stops_at_256_bytes_and_after_a_long_line(rt: HostRuntime) {
    let mut lines = Lines::new();
    let letters = [b'a'; 300];
    assert_eq!(rt; lines.feed(&letters), 256);
    assert_eq!(rt; lines.feed(&letters), 0);
    assert!(rt; matches!(lines.take_line(), InputLine::Long));
    assert_eq!(rt; lines.feed(&letters), 300);
    assert!(rt; matches!(lines.take_line(), InputLine::NotYet));
    assert_eq!(rt; lines.feed(b"ab\nc\n"), 3);
    assert!(rt; matches!(lines.take_line(), InputLine::NotYet));
    assert_eq!(rt; lines.feed(b"c\n"), 2);
    assert!(rt; is_whole(lines.take_line(), b"c"));
    assert_eq!(rt; (lines.fed(), lines.number()), (561, 2));
}

#[test]
fn a_second_end_makes_no_line(rt: HostRuntime) {
    let mut lines = Lines::new();
    assert_eq!(rt; lines.feed(b"a"), 1);
    lines.end();
    lines.end();
    assert!(rt; is_whole(lines.take_line(), b"a"));
    lines.end();
    assert!(rt; matches!(lines.take_line(), InputLine::NotYet));
    assert_eq!(rt; (lines.fed(), lines.number()), (1, 1));
}

#[test]
fn the_rest_of_a_long_line_makes_no_line(rt: HostRuntime) {
    let mut lines = Lines::new();
    let letters = [b'a'; 300];
    assert_eq!(rt; lines.feed(&letters), 256);
    assert!(rt; matches!(lines.take_line(), InputLine::Long));
    assert_eq!(rt; lines.feed(&letters[256..]), 44);
    lines.end();
    assert!(rt; matches!(lines.take_line(), InputLine::NotYet));
    lines.end();
    assert!(rt; matches!(lines.take_line(), InputLine::NotYet));
    assert_eq!(rt; (lines.fed(), lines.number()), (300, 1));
}

#[test]
fn a_line_that_stands_at_the_end_stands_on(rt: HostRuntime) {
    let mut lines = Lines::new();
    assert_eq!(rt; lines.feed(b"a\nb"), 2);
    lines.end();
    assert!(rt; is_whole(lines.take_line(), b"a"));
    assert!(rt; matches!(lines.take_line(), InputLine::NotYet));
}

fn may_be_sent<T: Send>() {}

// The check refuses a type that may not be sent between threads.
#[test]
fn values_may_be_sent() {
    may_be_sent::<Lines>();
    may_be_sent::<InputLine<'static>>();
    may_be_sent::<Stage>();
}

/// Where no line is in hand, the rest of an input gives the same lines by a `Lines` of its own.
#[test]
fn lines_are_read_on_from_between_two(rt: HostRuntime) {
    let mut lines = Lines::new();
    assert!(rt; lines.is_between());
    assert_eq!(rt; lines.feed(b"ab\ncd"), 3);
    assert!(rt; !lines.is_between());
    assert!(rt; is_whole(lines.take_line(), b"ab"));
    assert!(rt; lines.is_between());
    let mut others = Lines::resume(lines.fed(), lines.number());
    assert!(rt; others.is_between());
    assert_eq!(rt; others.feed(b"cd"), 2);
    assert!(rt; !others.is_between());
    others.end();
    assert!(rt; is_whole(others.take_line(), b"cd"));
    assert_eq!(rt; (others.fed(), others.number()), (5, 2));
}

/// It is shown as often as it is asked for, until it is taken.
#[test]
fn a_line_that_stands_is_shown_until_it_is_taken(rt: HostRuntime) {
    let mut lines = Lines::new();
    assert!(rt; lines.standing_line().is_none());
    assert!(rt; lines.feed(b"ab\nc") == 3);
    for _ in 0..2 {
        assert!(rt; lines.standing_line() == Some(b"ab".as_slice()));
    }
    assert!(rt; matches!(lines.take_line(), InputLine::Whole(_)));
    assert!(rt; lines.standing_line().is_none());
}
