//! Words into an order, by clap's parse.

ghost use Rattle.std.specs.Prelude.{◌≡◌, ◌≢◌, IfOk, IsErrOf, Some, None, [], map};
ghost use Rattle.std.specs.Prelude.{option_and_then, option_map, string_bytes};
ghost use Rattle.clap.specs.Words.{fault_of, kind_of, subcommand_of, subcommand_rows_of};
ghost use Rattle.daa_words.specs.Command.{daidalus};
ghost use Rattle.daa_words.specs.Order as spec;

use crate::command::daidalus;
use crate::fault::WordsFault;
use crate::order::{Order, order_by};
use clap::error::ErrorKind;
use clap::{ArgMatches, Error};
use std::alloc::Global;

/// What an error of the parse says: every error but one of memory is a fault of the words.
fn fault_by(error: &Error) -> WordsFault
    ensures { result ≡ WordsFault.NotTaken → ¬ (kind_of error.now ≡ ErrorKind.OutOfMemory) }
{
    if error.kind() == ErrorKind::OutOfMemory {
        WordsFault::NoMemory
    } else {
        WordsFault::NotTaken
    }
}

/// The matches of the words, where clap finds no fault in them.
fn matches_of<'a>(alloc: Global, words: &'a [String]) -> Result<ArgMatches<'a>, WordsFault>
    ensures taken { IfOk result (λ m. (fault_of daidalus (map string_bytes words.entry.now) ≡ [])
        × (subcommand_rows_of m ≡ subcommand_of daidalus (map string_bytes words.entry.now))) }
    ensures refused { IsErrOf result WordsFault.NotTaken
        → fault_of daidalus (map string_bytes words.entry.now) ≢ [] }
{
    let command = daidalus(alloc)?;
    match command.try_get_matches_from(words) {
        Ok(matches) => Ok(matches),
        Err(error) => Err(fault_by(&error)),
    }
}

/// What the subcommand of the matches asks for.
fn order_in<'a>(matches: &ArgMatches<'a>) -> Option<Order<'a>>
    ensures { option_map spec.meaning result ≡ option_and_then spec.asked_by
        (subcommand_rows_of matches.now) }
{
    let (name, inner) = matches.subcommand()?;
    order_by(name, inner)
}

/// What the words of a command line ask for, the program's name first. An empty list of words asks
/// for nothing.
///
/// The fault is `NotTaken` only if the command line does not take the words: clap's own definition
/// finds a fault in them. A request for help or for a version is such a case. The fault is
/// `NoMemory` if memory ran out. The numbers of an order are the ones at the options, and are in
/// their ranges: 1 to 16 workers, of a replay 0 to 1024 pieces that are read ahead, and of an
/// exercise any `u32` as its seed and 1 to 10000 moments.
#[tactic(auto, unfolding(crate::specs::Order::order_of), using(crate::proofs::WordsLemmas::no_order))]
pub fn read_words<'a>(alloc: Global, words: &'a [String]) -> Result<Order<'a>, WordsFault>
    ensures taken { IfOk result
        (λ o. spec.order_of (map string_bytes words.entry.now) ≡ Some (spec.meaning o)) }
    ensures refused { IsErrOf result WordsFault.NotTaken
        → spec.order_of (map string_bytes words.entry.now) ≡ None }
    ensures in_range { IfOk result (λ o. spec.IsInRange (spec.meaning o)) }
{
    let matches = matches_of(alloc, words)?;
    match order_in(&matches) {
        Some(order) => Ok(order),
        None => Err(WordsFault::NotTaken),
    }
}
