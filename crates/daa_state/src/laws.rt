//! Laws of the definitions, for callers above, and lines and steps at which their values are known.

ghost use Rattle.std.specs.Prelude.{◌≡◌, ◌∷◌, [], pos, negsuc, codes, replicate, None};
ghost use Rattle.daa_state.specs.WordOf.{word_of};
ghost use Rattle.daa_state.specs.Bounds.{no_error, exact};
ghost use Rattle.daa_state.specs.MomentStep.{step, empty_moment};
ghost use Rattle.daa_state.specs.Laws.{First256BytesDecide, LongFrom256Bytes};
ghost use Rattle.daa_state.specs.Laws.{OnlyFormatLinesSayFormats};
ghost use Rattle.daa_state.specs.Laws.{ReadsAsFourWords, OtherWordsLeaveTheFormat};
ghost use Rattle.daa_state.specs.Laws.{Format1SaysNoAges, NoAgesLeaveNoAges};
ghost use Rattle.daa_state.specs.Laws.{Formats1And2SayNoBounds, NoBoundsLeaveNoBounds};

use crate::fault::LineFault;
use crate::word::Word;

/// The first 256 bytes of a line decide its word, and a line of 256 bytes or more is `LongLine`.
pub fn first_256_bytes_decide()
    ensures same { First256BytesDecide }
    ensures long { LongFrom256Bytes }
{}

/// If no line's first field is `format`, the format stays 1: such a line gives no format word, and
/// in format 1 it is read as if there were only the words `moment`, `own`, `traffic` and
/// `end`.
pub fn without_format_lines_four_words_are_read()
    ensures none { OnlyFormatLinesSayFormats }
    ensures same { ReadsAsFourWords }
{}

/// A word other than `Format` does not change the format.
pub fn other_words_leave_the_format()
    ensures { OtherWordsLeaveTheFormat }
{}

/// In format 1 every age is 0. If every word of a moment has age 0, so has every aircraft of the
/// moment and of its picture.
pub fn format_1_has_no_ages()
    ensures words { Format1SaysNoAges }
    ensures steps { NoAgesLeaveNoAges }
{}

/// In formats 1 and 2 each report is taken as the truth. If each report of the words of a moment
/// is, so is each of the moment and of its picture.
pub fn formats_1_and_2_have_no_bounds()
    ensures words { Formats1And2SayNoBounds }
    ensures steps { NoBoundsLeaveNoBounds }
{}

/// Lines and steps whose answers are known: the word of each line, and what each word makes of the
/// state before it.
pub fn worked_examples()
    ensures signs_and_zeros { word_of (codes "own +5 -0 0000001000 0 3600 0") 1
        ≡ Ok (Word.Own (record {
          x = pos 5;
          y = pos 0;
          alt = pos 1000;
          trk = pos 0;
          gs = pos 3600;
          vs = pos 0;
        }) no_error) }
    ensures blanks_and_age { word_of (codes " traffic\ta-1  0 -1000 1000 0 3600 0 10\r") 2
        ≡ Ok (Word.Traffic (record {
          id = codes "a-1";
          x = pos 0;
          y = negsuc 999;
          alt = pos 1000;
          vx = pos 0;
          vy = pos 3600;
          vs = pos 0;
          age = 10;
          bounds = exact;
        })) }
    ensures bounds { word_of (codes "own 0 0 1000 0 3600 0 50 0 20 10000") 3
        ≡ Ok (Word.Own (record {
          x = pos 0;
          y = pos 0;
          alt = pos 1000;
          trk = pos 0;
          gs = pos 3600;
          vs = pos 0;
        }) (record { place = 50; height = 0; speed = 20; climb = 10000 })) }
    ensures age_and_bounds { word_of (codes "traffic A 0 0 1000 0 0 0 60 1 2 3 4") 3
        ≡ Ok (Word.Traffic (record {
          id = codes "A";
          x = pos 0;
          y = pos 0;
          alt = pos 1000;
          vx = pos 0;
          vy = pos 0;
          vs = pos 0;
          age = 60;
          bounds = record {
            own = no_error;
            aircraft = record { place = 1; height = 2; speed = 3; climb = 4 };
          };
        })) }
    ensures bounds_of_format_2 { word_of (codes "own 0 0 1000 0 3600 0 50 0 20 10000") 2
        ≡ Err LineFault.FieldCount }
    ensures longest_comment { word_of (replicate 255 35) 1 ≡ Ok Word.Skip }
    ensures long_comment { word_of (replicate 256 35) 1 ≡ Err LineFault.LongLine }
    ensures capital { word_of (codes "Own") 1 ≡ Err LineFault.BadWord }
    ensures two_returns { word_of (codes "\r\r") 1 ≡ Err LineFault.BadWord }
    ensures two_fields { word_of (codes "own 1 2") 1 ≡ Err LineFault.FieldCount }
    ensures spelling_first { word_of (codes "own 0 0 1000 x 360 0") 1 ≡ Err LineFault.BadNumber }
    ensures nine_bytes { word_of (codes "traffic A_B-12345 0 0 0 0 0 0") 1 ≡ Err LineFault.BadId }
    ensures range_first { word_of (codes "own 0 0 1000 360 x 0") 1 ≡ Err LineFault.OutOfRange }
    ensures open_first { step (record {
      moment = Some (empty_moment 5);
      last = Some 9;
      format = 1;
    }) (Word.Moment 3)
        ≡ Err LineFault.MomentOpen }
    ensures not_later { step (record { moment = None; last = Some 7; format = 1 }) (Word.Moment 7)
        ≡ Err (LineFault.NotLater 7) }
{}
