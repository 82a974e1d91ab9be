//! One read of a source, under a limit.

ghost use Rattle.std.specs.Prelude.{◌<◌, ◌≤◌, ◌≡◌, [], length};
ghost use Rattle.daa_ahead.specs.Bytes.{stream_state};
ghost use Rattle.daa_ahead.specs.Next.{NextIs, ReadsLast};

use crate::ended::Ended;
use daa_io::{Failed, Source};

/// What a read gives: a number of bytes, or the end of reading.
#[derive(Clone, Copy, Debug, PartialEq, Eq)]
pub enum Next {
    /// This number of bytes, at least 1.
    Piece(usize),
    /// No more.
    Over(Ended),
}

/// Reads at most `most` bytes into the buffer. If `most` is 0, it finds out whether there is one
/// byte more.
pub fn read_next<S: Source>(source: &mut S, buf: &mut [u8], most: u64) -> Next
    requires { 0 < length buf.old }
    ensures is { NextIs result most buf.new (stream_state (S.left source.old) (S.faults source.old))
        (stream_state (S.left source.new) (S.faults source.new)) }
    ensures never_falls { S.faults source.old ≤ S.faults source.new }
    ensures same_size { length buf.new ≡ length buf.old }
{
    if most == 0 {
        return Next::Over(read_past(source, &mut buf[..1]));
    }
    let want = most.min(buf.len() as u64) as usize;
    match source.read(&mut buf[..want]) {
        Err(Failed) => Next::Over(Ended::Fault),
        Ok(0) => Next::Over(Ended::End),
        Ok(count) => Next::Piece(count),
    }
}

/// Whether there is one byte more.
fn read_past<S: Source>(source: &mut S, buf: &mut [u8]) -> Ended
    requires { length buf.old ≡ 1 }
    ensures is { ReadsLast result 0 (stream_state (S.left source.old) (S.faults source.old))
        (stream_state (S.left source.new) (S.faults source.new)) [] }
    ensures never_falls { S.faults source.old ≤ S.faults source.new }
{
    match source.read(buf) {
        Err(Failed) => Ended::Fault,
        Ok(0) => Ended::End,
        Ok(_) => Ended::Limit,
    }
}
