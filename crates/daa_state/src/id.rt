//! Identifiers of aircraft.

ghost use Rattle.std.specs.Prelude.{◌≡◌, ◌∷◌, [], IsTrue};
ghost use Rattle.std.specs.Option.{SomeIff};
ghost use Rattle.std.specs.List.{list_all};
ghost use Rattle.daa_state.specs.Id.{is_id, is_id_byte};

use std::marker::Model;

/// The most bytes that an identifier has.
const MOST_ID_BYTES: usize = 8;

/// The identifier of an aircraft: 1 to 8 bytes, each an ASCII letter, a digit, an underscore or a
/// dash. Letters of different case differ. Contracts see it as the list of its bytes.
#[derive(Clone, Copy, Debug)]
pub struct Id {
    // The bytes, and zeros after them.
    cells: [u8; MOST_ID_BYTES],
    len: usize,
}

impl Model for Id {
    ghost use Rattle.std.specs.Prelude.{ℕ, List, ◌≡◌, ◌≤◌, ◌-◌, ◌++◌};
    ghost use Rattle.std.specs.Prelude.{length, take, drop, replicate, true};
    ghost use Rattle.daa_state.specs.Id.{is_id};
    ghost use Rattle.daa_state.specs.Inside.IdCells.{padded_is, length_is};

    ghost Value = { List ℕ };

    ghost view = { λ s. take s.len s.cells };

    ghost invariant = { λ s. (s.len ≤ 8) × (length s.cells ≡ 8)
        × (is_id (take s.len s.cells) ≡ true) × (drop s.len s.cells ≡ replicate (8 - s.len) 0) };

    ghost inverse = { λ bytes. record {
      cells = bytes ++ replicate (8 - length bytes) 0;
      len = length bytes;
    } };

    ghost inverse_ok = { λ s h i. record {
      cells = padded_is s.len s.cells h.0 h.1 h.3 i;
      len = length_is s.len s.cells h.0 h.1 i;
    } };
}

impl Id {
    /// The identifier of these bytes; `None` exactly if they are no identifier.
    pub fn of(bytes: &[u8]) -> Option<Id>
        ensures { SomeIff result (IsTrue (is_id bytes.now)) bytes.now }
    {
        if !is_id(bytes) {
            return None;
        }
        let mut cells = [0; MOST_ID_BYTES];
        cells[..bytes.len()].copy_from_slice(bytes);
        Some(Id {
            cells,
            len: bytes.len(),
        })
    }

    /// The bytes of the identifier, 1 to 8.
    pub fn bytes(&self) -> &[u8]
        ensures value { result.now ≡ self.now }
        ensures identifier { IsTrue (is_id self.now) }
    {
        &self.cells[..self.len]
    }
}

/// Two identifiers are equal exactly if their bytes are.
impl PartialEq for Id {
    ghost use Rattle.std.specs.Str.{bytes_eq};
    ghost use Rattle.std.specs.Cmp.Rules.{comparing};
    ghost use Rattle.std.proofs.Common.{rules};

    ghost eq = { bytes_eq };

    ghost laws = { Prim.search (comparing, rules) };

    fn eq(&self, other: &Id) -> bool {
        self.bytes() == other.bytes()
    }
}

impl Eq for Id {
    ghost use Rattle.std.specs.Cmp.Rules.{comparing};
    ghost use Rattle.std.proofs.Common.{rules};

    ghost laws = { Prim.search (comparing, rules) };
}

/// The identifier `-`, which fills the unused places of a list of aircraft.
impl Default for Id {
    fn default() -> Id
        ensures { result ≡ 45 ∷ [] }
    {
        Id {
            cells: [b'-', 0, 0, 0, 0, 0, 0, 0],
            len: 1,
        }
    }
}

/// Whether these bytes are an identifier: 1 to 8 of its bytes.
fn is_id(bytes: &[u8]) -> bool
    ensures { result ≡ is_id bytes.now }
{
    !bytes.is_empty() && bytes.len() <= MOST_ID_BYTES && are_id_bytes(bytes)
}

/// Whether each byte is allowed in an identifier.
fn are_id_bytes(bytes: &[u8]) -> bool
    ensures { result ≡ list_all is_id_byte bytes.now }
{
    bytes.iter().all(|b| is_id_byte(*b))
}

/// Whether a byte is a letter, a digit, an underscore or a dash.
fn is_id_byte(byte: u8) -> bool
    ensures { result ≡ is_id_byte byte }
{
    byte.is_ascii_alphanumeric() || byte == b'_' || byte == b'-'
}
