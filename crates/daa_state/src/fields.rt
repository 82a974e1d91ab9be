//! The fields of a line.

ghost use Rattle.std.specs.Prelude.{◌≡◌, ◌||◌, ◌==◌, take, map};
ghost use Rattle.daa_state.specs.Fields.{fields_of};
ghost use Rattle.daa_state.specs.Inside.Texts.{texts};

use arrayvec::ArrayVec;

/// Enough places to see that a line has more fields than any word takes, its name counted.
pub(crate) const MOST_FIELDS: usize = 14;

/// The first fields of a line.
pub(crate) fn fields(line: &[u8]) -> ArrayVec<&[u8], MOST_FIELDS>
    ensures { texts result.items ≡ take 14 (fields_of line.now) }
{
    let mut fields = ArrayVec::new();
    for field in line.split(|b| is_blank(*b)) {
        if !field.is_empty() && !fields.is_full() {
            fields.push(field);
        }
    }
    fields
}

/// Whether a byte is a space or a tab.
fn is_blank(byte: u8) -> bool
    ensures { result ≡ (byte == 32 || byte == 9) }
{
    byte == b' ' || byte == b'\t'
}
