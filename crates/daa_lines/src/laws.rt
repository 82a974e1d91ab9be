//! What holds of the lines of every input, and inputs whose lines are known.

ghost use Rattle.std.specs.Prelude.{◌≡◌, List, true, false, [], ◌∷◌, ◌++◌, All, codes, replicate};
ghost use Rattle.std.specs.List.{join_with_byte};
ghost use Rattle.daa_lines.specs.LinesOf.{Bytes, line_feed, stretches_of, lines_of, shown};
ghost use Rattle.daa_lines.specs.LinesState.{LinesState};
ghost use Rattle.daa_lines.specs.ComesFrom.{ComesFrom, standing};
ghost use Rattle.daa_lines.specs.Joined.{HasNoFeed};
ghost use Rattle.daa_lines.specs.Feeding.{bytes_taken};

use crate::lines::Stage;

/// The stretches of some bytes, joined with line feeds, are the bytes again, and no stretch has a
/// line feed in it. Only the stretches of the bytes are so.
pub fn stretches_are_the_bytes()
    ensures joined { (bytes : Bytes) → join_with_byte line_feed (stretches_of bytes) ≡ bytes }
    ensures without_feeds { (bytes : Bytes) → All HasNoFeed (stretches_of bytes) }
    ensures only { (first : Bytes) (others : List Bytes) → All HasNoFeed (first ∷ others)
        → stretches_of (join_with_byte line_feed (first ∷ others)) ≡ first ∷ others }
{}

/// The lines of an input stay the first lines if the input goes on, and also if it ends. A long
/// line may yet grow, so it is compared by its first 256 bytes.
pub fn lines_only_grow()
    ensures longer { (bytes more : Bytes) → (lines : List Bytes)
        × (shown (lines_of (bytes ++ more) false) ≡ shown (lines_of bytes false) ++ lines) }
    ensures whole { (bytes : Bytes) → (lines : List Bytes)
        × (shown (lines_of bytes true) ≡ shown (lines_of bytes false) ++ lines) }
{}

/// If the same bytes were fed, in any pieces, the same lines were taken, counting the one that is
/// ready.
pub fn pieces_do_not_matter()
    ensures { (bytes : Bytes) (taken taken' : List Bytes) (lines lines' : LinesState)
        → lines.ended ≡ lines'.ended
        → ComesFrom bytes taken lines → ComesFrom bytes taken' lines'
        → taken ++ standing lines.stage lines.line ≡ taken' ++ standing lines'.stage lines'.line }
{}

/// Examples: the lines of some bytes, and how many bytes of a piece are taken after other bytes.
pub fn worked_examples()
    ensures kept_return { lines_of (codes "a\r\n\nb") false ≡ codes "a\r" ∷ [] ∷ [] }
    ensures rest_at_end { lines_of (codes "a\n\nb") true ≡ codes "a" ∷ [] ∷ codes "b" ∷ [] }
    ensures no_empty_rest { lines_of (codes "a\n") true ≡ codes "a" ∷ [] }
    ensures rest_of_255 { lines_of (replicate 255 97) false ≡ [] }
    ensures rest_of_256 { lines_of (replicate 256 97) false ≡ replicate 256 97 ∷ [] }
    ensures to_line_feed { bytes_taken Stage.Open (codes "a") (codes "b\nc\n") ≡ 2 }
    ensures to_256 { bytes_taken Stage.Open (codes "a") (replicate 300 97) ≡ 255 }
    ensures line_feed_after_255 { bytes_taken Stage.Open (replicate 255 97) (codes "\na") ≡ 1 }
    ensures skips_all { bytes_taken Stage.Skipping [] (replicate 300 97 ++ codes "\n\n") ≡ 301 }
    ensures none_while_standing { bytes_taken Stage.Long (replicate 256 97) (codes "a") ≡ 0 }
{}
