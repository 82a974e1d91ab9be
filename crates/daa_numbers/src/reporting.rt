//! The text of a moment.

ghost use Rattle.std.specs.Prelude.{◌≡◌, ◌≢◌, ◌<◌, ◌≤◌, [], ℕ, List, pos, drop};
ghost use Rattle.std.specs.Prelude.{length, take, IfSome, IfNone};
ghost use Rattle.daa_bands.specs.Board.{IsBoardOf};
ghost use Rattle.daa_engine.specs.Covered.{CoveredAt};
ghost use Rattle.daa_engine.specs.MomentText.{IsMomentText};
ghost use Rattle.daa_state.specs.InRange.{IsPictureInRange};
ghost use Rattle.daa_numbers.specs.Asked.{IsReported, HasLongerText};
ghost use Rattle.daa_numbers.specs.Refusal.{refusal_of, IsCodeOf};
ghost use Rattle.daa_numbers.specs.States.{picture_of};

use crate::asking::config_and_picture;
use crate::codes::SHORT;
use crate::deciding::fill_board;
use crate::setting::DaaConfig;
use crate::sheet::ArraySheet;
use crate::states::DaaTraffic;
use daa_bands::Board;
use daa_config::Config;
use daa_engine::say_moment;
use daa_state::{Own, Picture};

/// Writes the text of a decided moment on an empty sheet, which has room for it.
fn write(config: &Config, picture: &Picture, board: &Board, sheet: &mut ArraySheet)
    requires picture { IsPictureInRange picture.now }
    requires board { IsBoardOf (CoveredAt config.now picture.now) config.now board.now }
    requires empty { sheet.old.text.items ≡ [] }
    ensures { IsMomentText config.now picture.now sheet.new.text.items }
{
    let _fits = say_moment(config, picture, board, sheet);
}

/// Fills in the text of a decided moment, and returns how many bytes it has, unless it is longer
/// than the buffer. The sheet is not on the stack while a moment is decided.
#[inline(never)]
fn fill(config: &Config, picture: &Picture, board: &Board, text: &mut [u8]) -> Option<usize>
    requires picture { IsPictureInRange picture.now }
    requires board { IsBoardOf (CoveredAt config.now picture.now) config.now board.now }
    ensures said { IfSome result
        (λ count. IsMomentText config.now picture.now (take count text.new)) }
    ensures fits { IfSome result (λ count. count ≤ length text.new) }
    ensures past_kept { IfSome result (λ count. drop count text.new ≡ drop count text.old) }
    ensures short { IfNone result ((said : List ℕ)
        × IsMomentText config.now picture.now said × (length text.old < length said)) }
    ensures kept { IfNone result (text.new ≡ text.old) }
{
    let mut sheet = ArraySheet::new();
    write(config, picture, board, &mut sheet);
    let said = sheet.text.as_slice();
    if text.len() < said.len() {
        return None;
    }
    text[..said.len()].copy_from_slice(said);
    Some(said.len())
}

/// Fills in the text of a moment, and how many bytes the text has. Returns 0, or the code of why
/// nothing was filled in.
pub fn report(
    config: &DaaConfig,
    time: u32,
    own: &Own,
    traffic: &[DaaTraffic],
    text: &mut [u8],
    count: &mut usize,
) -> i32
    ensures said { result ≡ pos 0 → IsReported
        config.now (picture_of time own.now traffic.now) (take count.new text.new) }
    ensures fits { result ≡ pos 0 → count.new ≤ length text.new }
    ensures past_kept { result ≡ pos 0 → drop count.new text.new ≡ drop count.new text.old }
    ensures kept { result ≢ pos 0 → (text.new ≡ text.old) × (count.new ≡ count.old) }
    ensures short { result ≡ pos 19 → HasLongerText
        config.now (picture_of time own.now traffic.now) (length text.old) }
    ensures refused { result ≢ pos 0 → result ≢ pos 19
        → IsCodeOf (refusal_of config.now own.now traffic.now) result }
{
    let (config, picture) = match config_and_picture(config, time, own, traffic) {
        Ok(found) => found,
        Err(code) => return code,
    };
    let mut board = Board::new();
    fill_board(&config, &picture, &mut board);
    match fill(&config, &picture, &board, text) {
        Some(length) => {
            *count = length;
            0
        }
        None => SHORT,
    }
}
