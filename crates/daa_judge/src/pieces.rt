//! Two pieces of bytes beside each other.

ghost use Rattle.std.specs.Prelude.{◌≡◌, ◌≢◌, ◌<◌, ◌≤◌, ◌∷◌, [], length, take, slice_index};
ghost use Rattle.daa_judge.specs.Matching as spec;

/// How many bytes at their fronts two pieces have in common.
pub(crate) fn common(piece: &[u8], other: &[u8]) -> usize
    ensures within { result ≤ length piece.now }
    ensures other { result ≤ length other.now }
    ensures same { take result piece.now ≡ take result other.now }
    ensures apart { result < length piece.now → result < length other.now
        → slice_index piece.now result ≢ slice_index other.now result }
{
    let mut at = 0;
    while at < piece.len() && at < other.len() && piece[at] == other[at] {
        at += 1;
    }
    at
}

/// How many lines end with this byte.
fn line_feed(byte: u8) -> u64
    ensures feeds { result ≡ spec.line_feeds (byte ∷ []) }
    ensures few { result ≤ 1 }
{
    if byte == b'\n' { 1 } else { 0 }
}

/// How many lines end in these bytes.
pub(crate) fn line_feeds(bytes: &[u8]) -> u64
    ensures { result ≡ spec.line_feeds bytes.now }
{
    let mut count = 0;
    for byte in bytes {
        count += line_feed(*byte);
    }
    count
}
