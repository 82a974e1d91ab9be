//! The lines of a stream, one at a time: bytes are fed until a line is ready, and then it is taken.
//! A line ends at a line feed or with the input. One of 256 bytes or more is long: it is ready as
//! soon as 256 bytes of it were fed, and the rest of it is skipped.

ghost use Rattle.std.specs.Prelude.{◌≡◌, ◌<◌, ◌≤◌, ◌+◌, ◌^◌, ◌↔◌, ◌⊎◌, ◌++◌, []};
ghost use Rattle.std.specs.Prelude.{◌∷◌, List, ℕ, IfSome, IfNone, length, take, drop};
ghost use Rattle.std.specs.Prelude.{false, true, slice_get, slice_index, ◌==◌, ◌≢◌};
ghost use Rattle.daa_lines.specs.LinesOf.{lines_of};
ghost use Rattle.daa_lines.specs.LinesState.{is_standing};
ghost use Rattle.daa_lines.specs.Inside.LinesState.{IsSized};
ghost use Rattle.daa_lines.specs.ComesFrom.{ComesFrom, standing};
ghost use Rattle.daa_lines.specs.Feeding.{bytes_taken};
ghost use Rattle.daa_lines.specs.Ending.{after_end};
ghost use Rattle.daa_lines.specs.Inside.Pushing.{after_byte, is_last};

use arrayvec::ArrayVec;
use std::marker::Model;

/// How far the line in hand is.
#[derive(Clone, Copy, Debug, PartialEq, Eq)]
pub enum Stage {
    /// The line is still being read, and has fewer than 256 bytes.
    Open,
    /// The line ended with fewer than 256 bytes, and is not taken yet.
    Whole,
    /// 256 bytes of the line came with no line feed, and it is not taken yet.
    Long,
    /// The line was long and is taken; the rest of its bytes is passed over.
    Skipping,
}

/// What [`Lines::take_line`] hands out: a line, that it is too long, or that none is ready.
#[derive(Clone, Copy, Debug)]
pub enum InputLine<'a> {
    /// A line of at most 255 bytes, without its line feed. A carriage return at its end is kept.
    Whole(&'a [u8]),
    /// A line of 256 bytes or more.
    Long,
    /// No line is ready.
    NotYet,
}

/// Cuts a stream of bytes into lines.
#[derive(Drop)]
pub struct Lines {
    line: ArrayVec<u8, 256>,
    // The bytes in `line` are of a line that was taken: it may still be borrowed then, so the next
    // byte clears it.
    stale: bool,
    stage: Stage,
    ended: bool,
    fed: u64,
    number: u64,
}

impl Model for Lines {
    ghost use Rattle.std.specs.Prelude.{◌≤◌, ◌≡◌, ◌+◌, true, false};
    ghost use Rattle.daa_lines.specs.LinesState.{LinesState, held, is_standing};
    ghost use Rattle.daa_lines.specs.Inside.LinesState.{IsSized, owed};

    ghost Value = { LinesState };

    ghost view = { λ s. record {
      line = held s.stale s.line.items;
      stage = s.stage;
      ended = s.ended;
      fed = s.fed;
      number = s.number;
    } };

    ghost invariant = { λ s. IsSized s.stage (held s.stale s.line.items)
        × (is_standing s.stage ≡ true → s.stale ≡ false)
        × (s.number + owed s.stage (held s.stale s.line.items) ≤ s.fed) };
}

impl Lines {
    ghost use Rattle.daa_lines.specs.Taking.{LeavesTaken, IsHanded, IsLineOf, after_taking};
    ghost use Rattle.std.specs.Borrow.{sem};

    /// The lines of an input of which nothing was fed yet.
    pub fn new() -> Self
        ensures value { result ≡ record {
          line = [];
          stage = Stage.Open;
          ended = false;
          fed = 0;
          number = 0;
        } }
        ensures comes_from { ComesFrom [] [] result }
        ensures free { is_standing result.stage ≡ false }
        ensures going { result.ended ≡ false }
    {
        Lines {
            line: ArrayVec::new(),
            stale: false,
            stage: Stage::Open,
            ended: false,
            fed: 0,
            number: 0,
        }
    }

    /// The lines of the rest of an input, where so many bytes were fed and lines taken before it,
    /// and the last of these lines ended with them. There is no such input where bytes were fed and
    /// no line was taken: no clause says what lines come then.
    pub fn resume(fed: u64, number: u64) -> Self
        requires { number ≤ fed }
        ensures { result ≡ record {
          line = [];
          stage = Stage.Open;
          ended = false;
          fed = fed;
          number = number;
        } }
    {
        Lines {
            line: ArrayVec::new(),
            stale: false,
            stage: Stage::Open,
            ended: false,
            fed,
            number,
        }
    }

    /// Takes one byte. True when a line is ready or a line feed was taken: then `feed` stops.
    #[tactic(auto, unfolding(crate::specs::Inside::Pushing::after_byte))]
    fn push(&mut self, byte: u8) -> bool
        requires free { is_standing self.old.stage ≡ false }
        requires going { self.old.ended ≡ false }
        requires room { self.old.fed < 2 ^ 63 }
        ensures value { self.new ≡ after_byte self.old byte }
        ensures last { result ≡ is_last self.old byte }
        ensures sized { IsSized self.old.stage self.old.line }
    {
        if self.stale {
            self.line.clear();
            self.stale = false;
        }
        if self.stage == Stage::Skipping {
            if byte == b'\n' {
                self.stage = Stage::Open;
            }
        } else if byte == b'\n' {
            self.stage = Stage::Whole;
        } else {
            self.line.push(byte);
            if self.line.is_full() {
                self.stage = Stage::Long;
            }
        }
        self.fed += 1;
        byte == b'\n' || self.has_line()
    }

    /// Takes the bytes at the front of the piece that make an open line longer and do not end it,
    /// all together: the bytes before the next line feed, as long as the line stays shorter than
    /// 256 bytes. Returns how many they are.
    fn grow(&mut self, piece: &[u8]) -> usize
        requires free { is_standing self.old.stage ≡ false }
        requires going { self.old.ended ≡ false }
        requires room { self.old.fed + length piece.now < 2 ^ 63 }
        ensures within { result ≤ length piece.now }
        ensures free { is_standing self.new.stage ≡ false }
        ensures going { self.new.ended ≡ false }
        ensures fed { self.new.fed ≡ self.old.fed + result }
        ensures number { self.new.number ≡ self.old.number }
        ensures taken { bytes_taken self.old.stage self.old.line piece.now
            ≡ result + bytes_taken self.new.stage self.new.line (drop result piece.now) }
        ensures kept { (bytes : List ℕ) (taken : List (List ℕ)) → ComesFrom bytes taken self.old
            → ComesFrom (bytes ++ take result piece.now) taken self.new }
    {
        if self.stage != Stage::Open {
            return 0;
        }
        let count = growth(piece, 255 - self.line_length());
        self.append(&piece[..count]);
        count
    }

    /// How long the line in hand is.
    fn line_length(&self) -> usize
        requires { self.now.stage ≡ Stage.Open }
        ensures length { result ≡ length self.now.line }
        ensures short { result < 256 }
    {
        if self.stale { 0 } else { self.line.len() }
    }

    /// Makes an open line longer.
    fn append(&mut self, bytes: &[u8])
        requires open { self.old.stage ≡ Stage.Open }
        requires room { self.old.fed + length bytes.now < 2 ^ 63 }
        requires short { length self.old.line + length bytes.now < 256 }
        ensures { self.new ≡ record self.old {
          line = self.old.line ++ bytes.now;
          fed = self.old.fed + length bytes.now;
        } }
    {
        if self.stale {
            self.line.clear();
            self.stale = false;
        }
        let _fits = self.line.try_extend_from_slice(bytes);
        self.fed += bytes.len() as u64;
    }

    /// Whether a line is ready that is not taken yet.
    fn has_line(&self) -> bool
        ensures { result ≡ is_standing self.now.stage }
    {
        matches!(self.stage, Stage::Whole | Stage::Long)
    }

    /// Whether no line is in hand: none is ready, none is begun, and of none is a rest passed over.
    pub fn is_between(&self) -> bool
        ensures { (result ≡ true) ↔ ((self.now.stage ≡ Stage.Open) × (self.now.line ≡ [])) }
    {
        self.stage == Stage::Open && self.line_length() == 0
    }

    /// Takes bytes from the front of the piece, and returns how many: up to and with the next line
    /// feed, but no more than the first 256 bytes of a line, and none while a ready line is not
    /// taken yet. Once a long line is taken, the rest of it is passed over, up to and with its line
    /// feed. `end` must not have been called before, and fewer than 2^63 bytes may be fed in all.
    #[tactic(auto, unfolding(crate::specs::Inside::Pushing::after_byte))]
    pub fn feed(&mut self, piece: &[u8]) -> usize
        requires going { self.old.ended ≡ false }
        requires room { self.old.fed + length piece.now < 2 ^ 63 }
        ensures taken { result ≡ bytes_taken self.old.stage self.old.line piece.now }
        ensures nothing { (result ≡ 0) ↔ ((is_standing self.old.stage ≡ true) ⊎ (piece.now ≡ [])) }
        ensures moved { is_standing self.old.stage ≡ false → 0 < length piece.now → 0 < result }
        ensures within { result ≤ length piece.now }

        ensures kept { (bytes : List ℕ) (taken : List (List ℕ)) → ComesFrom bytes taken self.old
            → ComesFrom (bytes ++ take result piece.now) taken self.new }
        ensures fed { self.new.fed ≡ self.old.fed + result }
        ensures number { self.new.number ≡ self.old.number }
        ensures going { self.new.ended ≡ false }
    {
        if self.has_line() {
            return 0;
        }
        let grown = self.grow(piece);
        for i in grown..piece.len() {
            if self.push(piece[i]) {
                return i + 1;
            }
        }
        piece.len()
    }

    /// The bytes of the line that is ready, if there is one of fewer than 256 bytes. It is not
    /// taken.
    pub fn standing_line(&self) -> Option<&[u8]>
        ensures stands { IfSome result (λ bytes. (self.now.stage ≡ Stage.Whole)
            × (bytes.now ≡ self.now.line)) }
        ensures none { IfNone result (self.now.stage ≢ Stage.Whole) }
    {
        match self.stage {
            Stage::Whole => Some(self.line.as_slice()),
            _ => None,
        }
    }

    /// Takes the line that is ready, if there is one. It returns `NotYet` exactly if there is none,
    /// and `Long` exactly if the line has 256 bytes or more.
    pub fn take_line(&mut self) -> InputLine<'_>
        ensures* after { sem 𝓛 (LeavesTaken self.entry) }
        ensures handed { IsHanded self.old result }
        ensures long { (result ≡ InputLine.Long) ↔ (self.old.stage ≡ Stage.Long) }
        ensures not_yet { (result ≡ InputLine.NotYet) ↔ (is_standing self.old.stage ≡ false) }
        ensures line { (bytes : List ℕ) (taken : List (List ℕ)) → ComesFrom bytes taken self.old
            → IsLineOf (slice_get (lines_of bytes self.old.ended) (length taken)) result }
        ensures kept { (bytes : List ℕ) (taken : List (List ℕ)) → ComesFrom bytes taken self.old
            → ComesFrom bytes (taken ++ standing self.old.stage self.old.line)
            (after_taking self.old) }
    {
        match self.stage {
            Stage::Whole => {
                self.stage = Stage::Open;
                self.stale = true;
                self.number += 1;
                InputLine::Whole(self.line.as_slice())
            }
            Stage::Long => {
                self.stage = Stage::Skipping;
                self.stale = true;
                self.number += 1;
                InputLine::Long
            }
            Stage::Open | Stage::Skipping => InputLine::NotYet,
        }
    }

    /// Ends the input.
    fn finish(&mut self)
        ensures value { self.new ≡ after_end self.old }
        ensures sized { IsSized self.old.stage self.old.line }
    {
        if self.ended {
            return;
        }
        if self.stage == Stage::Open && !self.stale && !self.line.is_empty() {
            self.stage = Stage::Whole;
        }
        self.ended = true;
    }

    /// The input is over: a rest that is not empty becomes a whole line. The rest of a long line
    /// that was taken is no line, and a second call changes nothing.
    pub fn end(&mut self)
        ensures value { self.new ≡ after_end self.old }
        ensures kept { (bytes : List ℕ) (taken : List (List ℕ)) → ComesFrom bytes taken self.old
            → ComesFrom bytes taken self.new }
        ensures ended { self.new.ended ≡ true }
        ensures fed { self.new.fed ≡ self.old.fed }
        ensures number { self.new.number ≡ self.old.number }
    {
        self.finish();
    }

    /// How many bytes `feed` took so far.
    pub fn fed(&self) -> u64
        ensures { result ≡ self.now.fed }
    {
        self.fed
    }

    /// The number of the line last taken, 0 before the first. Numbers count from 1.
    pub fn number(&self) -> u64
        ensures value { result ≡ self.now.number }
        ensures within { result ≤ self.now.fed }
    {
        self.number
    }
}

/// How many bytes there are before the first line feed, but at most `most`.
fn growth(piece: &[u8], most: usize) -> usize
    ensures within { result ≤ length piece.now }
    ensures few { result ≤ most }
    ensures none { (j : ℕ) → j < result → (slice_index piece.now j == 10) ≡ false }
{
    let mut count = 0;
    while count < most && count < piece.len() && piece[count] != b'\n' {
        count += 1;
    }
    count
}
