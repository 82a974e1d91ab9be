//! Compares a report, which comes text by text, with what a source hands out; and a sheet on which
//! such a text is written first.
#![tactic(auto)]

mod found;
mod matching;
mod pieces;
mod sheet;

pub use found::Found;
pub use matching::Matching;
pub use sheet::{NoMemory, Sheet};
