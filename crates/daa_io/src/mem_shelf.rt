//! A shelf over texts in memory.

ghost use Rattle.std.specs.Prelude.{◌≡◌, map, position, string_bytes};
ghost use Rattle.std.specs.Prelude.{vec_items, None, Some, MatchOption};
ghost use Rattle.std.specs.Str.{bytes_eq};
ghost use Rattle.daa_io.specs.MemShelf.{text_under};

use crate::calls::CallCounts;
use crate::shelf::{FetchFault, Shelf, copy_of};
use std::alloc::Global;
use std::marker::Model;

/// Texts in memory, each under the name at its place, with faults at given calls.
#[derive(Drop)]
pub struct MemShelf {
    names: Vec<String>,
    texts: Vec<Vec<u8>>,
    calls: CallCounts,
}

impl Model for MemShelf {
    ghost use Rattle.std.specs.Prelude.{map, string_bytes, vec_items};
    ghost use Rattle.daa_io.specs.MemShelf.{MemShelfState};

    ghost Value = { MemShelfState };

    ghost view = { λ s. record {
      names = map string_bytes s.names.items;
      texts = map vec_items s.texts.items;
      fails = s.calls.fails.items;
      calls = s.calls.made;
      faults = s.calls.faults;
    } };
}

impl MemShelf {
    /// A shelf that holds each text under the name at its index; of a name that occurs twice, the
    /// first index counts. The calls in `fails` fail; they are numbered from 0.
    pub fn new(names: Vec<String>, texts: Vec<Vec<u8>>, fails: Vec<u64>) -> Self
        ensures { result ≡ record {
          names = map string_bytes names.items;
          texts = map vec_items texts.items;
          fails = fails.items;
          calls = 0;
          faults = 0;
        } }
    {
        MemShelf {
            names,
            texts,
            calls: CallCounts::new(fails),
        }
    }
}

impl Shelf for MemShelf {
    ghost use Rattle.std.specs.Prelude.{◌≡◌, ◌≢◌, ◌≤◌, ◌<◌, ◌↔◌, ◌⊎◌, Some, length};
    ghost use Rattle.std.specs.Prelude.{Contains, IsNone, IsSomeAnd, IfOk, IfSome, IfNone};
    ghost use Rattle.daa_io.specs.Faults.{HasRisen, one_more};
    ghost use Rattle.daa_io.specs.Shelf.{longest_text};
    ghost use Rattle.daa_io.specs.MemShelf.{text_under};

    ghost texts = { λ s. Some (text_under s.names s.texts) };

    ghost faults = { λ s. s.faults };

    fn fetch(&mut self, alloc: Global, name: &str) -> Result<Vec<u8>, FetchFault>
        ensures held { IfOk result
            (λ text. text_under self.old.names self.old.texts name.now ≡ Some text.items) }
        ensures short { IfOk result (λ text. length text.items ≤ longest_text) }

        ensures too_long { result ≡ Err FetchFault.TooLong →
            IsSomeAnd (text_under self.old.names self.old.texts name.now)
            (λ text. longest_text < length text) }
        ensures long { IfSome (text_under self.old.names self.old.texts name.now)
            (λ text. longest_text < length text →
            (result ≡ Err FetchFault.TooLong) ⊎ (result ≡ Err FetchFault.Failed)) }
        ensures absent { IfNone (text_under self.old.names self.old.texts name.now)
            (result ≡ Err FetchFault.Failed) }

        ensures risen { result ≡ Err FetchFault.Failed → HasRisen self.old.faults self.new.faults }
        ensures never_falls { self.old.faults ≤ self.new.faults }
        ensures kept { Some (text_under self.new.names self.new.texts) ≡ Some
            (text_under self.old.names self.old.texts) }

        ensures fails { (result ≡ Err FetchFault.Failed) ↔ (Contains self.old.fails self.old.calls
            ⊎ IsNone (text_under self.old.names self.old.texts name.now)) }
        ensures no_fault { result ≢ Err FetchFault.Failed → self.new.faults ≡ self.old.faults }
        ensures one_fault { result ≡ Err FetchFault.Failed
            → self.new.faults ≡ one_more self.old.faults }
        ensures counted { self.new.calls ≡ one_more self.old.calls }
        ensures same_names { self.new.names ≡ self.old.names }
        ensures same_texts { self.new.texts ≡ self.old.texts }
        ensures same_fails { self.new.fails ≡ self.old.fails }
    {
        let Some(text) = find_text(&self.names, &self.texts, name) else {
            self.calls.fail();
            return Err(FetchFault::Failed);
        };
        if self.calls.begin().is_err() {
            return Err(FetchFault::Failed);
        }
        copy_of(alloc, text)
    }
}

/// The text at the first index of the name, if there is one.
fn find_text<'a>(names: &[String], texts: &'a [Vec<u8>], name: &str) -> Option<&'a Vec<u8>>
    ensures { let held = text_under (map string_bytes names.now)
        (map vec_items texts.now) name.now in
        MatchOption result (held ≡ None) (λ text. held ≡ Some text.now.items) }
{
    match find_place(names, name) {
        None => None,
        Some(place) => texts.get(place),
    }
}

/// The first index at which a list has the name.
fn find_place(names: &[String], name: &str) -> Option<usize>
    ensures { result ≡ position (λ held. bytes_eq (string_bytes held) name.now) names.now }
{
    names.iter().position(|held| held.as_str() == name)
}
