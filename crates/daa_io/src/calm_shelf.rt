//! A shelf in memory that never fails.

ghost use Rattle.std.specs.Prelude.{◌≡◌};

use crate::shelf::{FetchFault, Shelf, copy_of};
use std::alloc::Global;
use std::marker::Model;

/// One text, held under every name. No call fails.
#[derive(Drop)]
pub struct CalmShelf {
    text: Vec<u8>,
}

impl Model for CalmShelf {
    ghost use Rattle.std.specs.Prelude.{ℕ, List};

    ghost Value = { List ℕ };

    ghost view = { λ s. s.text.items };
}

impl CalmShelf {
    /// The shelf that holds this text under every name.
    pub fn of(text: Vec<u8>) -> Self
        ensures { result ≡ text.items }
    {
        CalmShelf { text }
    }
}

impl Shelf for CalmShelf {
    ghost use Rattle.std.specs.Prelude.{◌≡◌, ◌≢◌, ◌≤◌, ◌<◌, ◌↔◌, ◌⊎◌, Some, length, IfOk};
    ghost use Rattle.daa_io.specs.Faults.{HasRisen};
    ghost use Rattle.daa_io.specs.Shelf.{longest_text};

    ghost texts = { λ text. Some (λ _. Some text) };

    ghost faults = { λ _. 0 };

    fn fetch(&mut self, alloc: Global, _name: &str) -> Result<Vec<u8>, FetchFault>
        ensures held { IfOk result (λ text. text.items ≡ self.old) }
        ensures too_long { (result ≡ Err FetchFault.TooLong) ↔ (longest_text < length self.old) }
        ensures never_fails { result ≢ Err FetchFault.Failed }
        ensures kept { self.new ≡ self.old }
    {
        copy_of(alloc, &self.text)
    }
}
