//! How many bytes a call of an object in memory moves.

ghost use Rattle.std.specs.Prelude.{◌≡◌, ◌≤◌, ◌+◌, ◌++◌, length, take, drop, min};
ghost use Rattle.daa_io.specs.Pieces.{moved_by};

/// How many of `count` bytes the call moves: at most its size in the list, where 0 counts as 1.
/// Past the end of the list there is no bound.
pub(crate) fn moved_count(pieces: &[usize], call: u64, count: usize) -> usize
    ensures { result ≡ moved_by pieces.now call count }
{
    match pieces.get(call as usize) {
        None => count,
        Some(size) => count.min((*size).max(1)),
    }
}

/// Copies the bytes from an index on to the front of the buffer, as many as the call moves.
pub(crate) fn hand_out(
    bytes: &[u8],
    at: usize,
    pieces: &[usize],
    call: u64,
    buf: &mut [u8],
) -> usize
    requires { at ≤ length bytes.now }
    ensures count { result ≡ moved_by pieces.now call
        (min (length buf.old) (length (drop at bytes.now))) }
    ensures within { at + result ≤ length bytes.now }
    ensures fits { result ≤ length buf.old }
    ensures next { drop at bytes.now ≡ take result buf.new ++ drop (at + result) bytes.now }
    ensures rest { drop result buf.new ≡ drop result buf.old }
{
    let (_, rest) = bytes.split_at(at);
    let n = moved_count(pieces, call, buf.len().min(rest.len()));
    copy_front(buf, &rest[..n]);
    n
}

/// Copies the piece to the front of the buffer.
fn copy_front(buf: &mut [u8], piece: &[u8])
    requires { length piece.now ≤ length buf.old }
    ensures front { take (length piece.now) buf.new ≡ piece.now }
    ensures rest { drop (length piece.now) buf.new ≡ drop (length piece.now) buf.old }
{
    buf[..piece.len()].copy_from_slice(piece);
}
