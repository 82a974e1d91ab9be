//! Compares texts, one after the other, with what a source hands out.

ghost use Rattle.std.specs.Prelude.{◌≡◌, ◌≤◌, ◌<◌, ◌^◌, [], ℕ, drop, length};
ghost use Rattle.daa_ahead.specs.Bytes.{Bytes, StreamState, stream_state};
ghost use Rattle.daa_ahead.specs.Next.{ReadsMore};
ghost use Rattle.daa_judge.specs.Found.{Finds};
ghost use Rattle.daa_judge.specs.Matching.{Compares, HasRoom, IsMatched};
ghost use Rattle.daa_judge.specs.Inside.Stepping.{Steps, found_at, longest_read};

use crate::found::Found;
use crate::pieces::{common, line_feeds};
use daa_ahead::{BUFFER, Ended, Next, read_next};
use daa_io::Source;

/// The state of a comparison: how many bytes may still be read, and the number of the line, from 1
/// on, that the next byte is in.
#[derive(Debug, Drop)]
pub struct Matching {
    pub(crate) left: u64,
    pub(crate) line: u64,
}

/// What one read gives: a number of bytes matched, or comparing is over.
#[derive(Clone, Copy, Debug, PartialEq, Eq)]
enum Step {
    Took(usize),
    Stop(Found),
}

/// What is found if reading is over while more of the report was still to come.
fn stop_at(ended: Ended, line: u64) -> Found
    ensures { result ≡ found_at ended line }
{
    match ended {
        Ended::End => Found::Differs(line),
        Ended::Limit => Found::Limit,
        Ended::Fault | Ended::Stopped => Found::Fault,
    }
}

/// The bytes from an index on.
fn rest_from(bytes: &[u8], at: usize) -> &[u8]
    requires { at ≤ length bytes.now }
    ensures { result.now ≡ drop at bytes.now }
{
    &bytes[at..]
}

impl Matching {
    /// The state before the first text: nothing was compared, and at most `most` bytes may be read.
    pub fn new(most: u64) -> Matching
        requires { most < 2 ^ 62 }
        ensures room { HasRoom result }
        ensures matched { (first : StreamState) → IsMatched most first [] result first }
    {
        Matching {
            left: most,
            line: 1,
        }
    }

    /// Compares bytes that were read with the front of a text.
    fn match_piece(&mut self, piece: &[u8], text: &[u8]) -> Step
        requires some { 0 < length piece.now }
        requires within { length piece.now ≤ length text.now }
        requires one_read { length piece.now ≤ longest_read }
        requires bound { length piece.now ≤ self.old.left }
        requires room { HasRoom self.old }
        ensures steps { (source_old source_new : StreamState) (buf : Bytes)
            → ReadsMore (length piece.now) self.old.left piece.now source_old source_new
            → Steps result text.now self.old self.new source_old source_new }
        ensures room { HasRoom self.new }
    {
        let same = common(piece, text);
        let line = self.line + line_feeds(&piece[..same]);
        if same < piece.len() {
            return Step::Stop(Found::Differs(line));
        }
        self.line = line;
        self.left -= piece.len() as u64;
        Step::Took(same)
    }

    /// Reads once, and compares what is read with the front of a text.
    fn step<S: Source>(&mut self, source: &mut S, buf: &mut [u8], text: &[u8]) -> Step
        requires some { 0 < length text.now }
        requires buffer { (0 < length buf.old) × (length buf.old ≤ longest_read) }
        requires room { HasRoom self.old }
        ensures steps { Steps result text.now self.old self.new
            (stream_state (S.left source.old) (S.faults source.old))
            (stream_state (S.left source.new) (S.faults source.new)) }
        ensures room { HasRoom self.new }
        ensures never_falls { S.faults source.old ≤ S.faults source.new }
        ensures same_size { length buf.new ≡ length buf.old }
    {
        let want = text.len().min(buf.len());
        match read_next(source, &mut buf[..want], self.left) {
            Next::Piece(count) => self.match_piece(&buf[..count], text),
            Next::Over(ended) => Step::Stop(stop_at(ended, self.line)),
        }
    }

    /// Compares a text with what the source hands out. At `Alike` the source handed out exactly
    /// this text. At every other answer comparing is over, and the answer is right for each report
    /// that begins with all that was compared before and then this text.
    pub fn compare<S: Source>(&mut self, source: &mut S, text: &[u8]) -> Found
        requires room { HasRoom self.old }
        ensures compares { (most : ℕ) (first : StreamState) (before : Bytes)
            → IsMatched most first before self.old
            (stream_state (S.left source.old) (S.faults source.old))
            → Compares result most first before text.now self.new
            (stream_state (S.left source.new) (S.faults source.new)) }
        ensures room { HasRoom self.new }
        ensures never_falls { S.faults source.old ≤ S.faults source.new }
    {
        let mut buf = [0u8; BUFFER];
        let mut done = 0;
        while done < text.len() {
            match self.step(source, &mut buf, rest_from(text, done)) {
                Step::Took(count) => done += count,
                Step::Stop(found) => return found,
            }
        }
        Found::Alike
    }

    /// Ends the comparison, once the whole report was compared: `Alike` if the source ends here,
    /// `Differs` if it hands out one more byte, `Limit` if that byte is past the limit, `Fault` if
    /// it fails.
    pub fn end<S: Source>(&self, source: &mut S) -> Found
        ensures finds { (most : ℕ) (first : StreamState) (report : Bytes)
            → IsMatched most first report self.now
            (stream_state (S.left source.old) (S.faults source.old))
            → Finds report most result first
            (stream_state (S.left source.new) (S.faults source.new)) }
        ensures never_falls { S.faults source.old ≤ S.faults source.new }
    {
        let mut buf = [0u8; 1];
        match read_next(source, &mut buf, self.left) {
            Next::Piece(_) => Found::Differs(self.line),
            Next::Over(Ended::End) => Found::Alike,
            Next::Over(Ended::Limit) => Found::Limit,
            Next::Over(_) => Found::Fault,
        }
    }
}
