//! What a kind and its two sides are called.

ghost use Rattle.std.specs.Prelude.{◌≡◌, ◌≤◌, length};
ghost use Rattle.daa_report.specs.Lines as lines;

use daa_config::Kind;

/// The word that the lines have for a kind: `track`, `gs`, `vs` or `alt`.
pub fn kind_word(kind: Kind) -> &'static str
    ensures value { result.now ≡ lines.kind_word kind }
    ensures short { length result.now ≤ 5 }
{
    match kind {
        Kind::Track => "track",
        Kind::GroundSpeed => "gs",
        Kind::VerticalSpeed => "vs",
        Kind::Altitude => "alt",
    }
}

/// The word that the lines have for a kind's lower side: `left` or `down`.
pub(crate) fn lower_word(kind: Kind) -> &'static str
    ensures value { result.now ≡ (lines.side_words kind).0 }
    ensures short { length result.now ≤ 5 }
{
    match kind {
        Kind::Track => "left",
        Kind::GroundSpeed => "down",
        Kind::VerticalSpeed => "down",
        Kind::Altitude => "down",
    }
}

/// The word that the lines have for a kind's upper side: `right` or `up`.
pub(crate) fn upper_word(kind: Kind) -> &'static str
    ensures value { result.now ≡ (lines.side_words kind).1 }
    ensures short { length result.now ≤ 5 }
{
    match kind {
        Kind::Track => "right",
        Kind::GroundSpeed => "up",
        Kind::VerticalSpeed => "up",
        Kind::Altitude => "up",
    }
}
