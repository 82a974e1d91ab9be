//! Texts by name.

ghost use Rattle.std.specs.Prelude.{◌≡◌, ◌≢◌, ◌≤◌, ◌<◌, ◌⊎◌, ◌↔◌, ℕ, Option};
ghost use Rattle.std.specs.Prelude.{length, IfOk, IfSome, IfNone, IsSomeAnd};
ghost use Rattle.daa_io.specs.Faults.{HasRisen};
ghost use Rattle.daa_io.specs.Shelf.{Texts, longest_text};

use std::alloc::Global;
use thiserror::Error;

/// The most bytes that a fetched text has.
pub(crate) const LONGEST_TEXT: usize = 65536;

/// Why a text was not fetched.
#[derive(Clone, Copy, Debug, PartialEq, Eq, Error)]
pub enum FetchFault {
    /// The shelf failed, or holds nothing under the name: its fault counter rose.
    #[error("the shelf failed, or holds no text under the name")]
    Failed,
    /// The text under the name has more than 65536 bytes.
    #[error("the text under the name has more than 65536 bytes")]
    TooLong,
    /// There was no memory for the text.
    #[error("there was no memory for the text")]
    NoMemory,
}

/// Something that holds texts by name.
pub trait Shelf {
    // The texts that it holds, if it shows them.
    ghost texts: { Self → Option Texts };

    // The fault counter: it rises in a call that fails, and does not change in any
    // other.
    ghost faults: { Self → ℕ };

    /// A copy of the text under the name, which has at most 65536 bytes. A longer text is `TooLong`
    /// or `Failed`, and a missing name is `Failed`. The copy may find no memory.
    fn fetch(&mut self, alloc: Global, name: &str) -> Result<Vec<u8>, FetchFault>
        ensures held { IfOk result
            (λ text. IfSome (texts self.old) (λ held. held name.now ≡ Some text.items)) }
        ensures short { IfOk result (λ text. length text.items ≤ longest_text) }

        ensures too_long { result ≡ Err FetchFault.TooLong → IfSome (texts self.old) (λ held.
            IsSomeAnd (held name.now) (λ text. longest_text < length text)) }
        ensures long { IfSome (texts self.old)
            (λ held. IfSome (held name.now) (λ text. longest_text < length text →
            (result ≡ Err FetchFault.TooLong) ⊎ (result ≡ Err FetchFault.Failed))) }
        ensures absent { IfSome (texts self.old)
            (λ held. IfNone (held name.now) (result ≡ Err FetchFault.Failed)) }

        ensures risen { result ≡ Err FetchFault.Failed
            → HasRisen (faults self.old) (faults self.new) }
        ensures never_falls { faults self.old ≤ faults self.new }
        ensures no_fault { result ≢ Err FetchFault.Failed → faults self.new ≡ faults self.old }
        ensures kept { texts self.new ≡ texts self.old };
}

/// A copy of a text that is not too long.
pub(crate) fn copy_of(alloc: Global, text: &[u8]) -> Result<Vec<u8>, FetchFault>
    ensures ok { IfOk result (λ copy. copy.items ≡ text.now) }
    ensures too_long { (result ≡ Err FetchFault.TooLong) ↔ (longest_text < length text.now) }
    ensures never_fails { result ≢ Err FetchFault.Failed }
{
    if text.len() > LONGEST_TEXT {
        return Err(FetchFault::TooLong);
    }
    Vec::from_slice(alloc, text).map_err(|_| FetchFault::NoMemory)
}
