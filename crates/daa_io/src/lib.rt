//! The outside of the program, as traits: where bytes come from, where they go, texts by name, and
//! the gate that a worker passes. Each has implementations in memory, and a thin adapter.
#![tactic(auto)]

mod calls;
mod calm_shelf;
mod calm_source;
mod faults;
mod file_shelf;
mod gate;
mod meeting;
mod mem_shelf;
mod mem_sink;
mod mem_source;
mod pieces;
mod shelf;
mod sink;
mod source;
mod std_sink;
mod std_source;
mod void;

pub use calm_shelf::CalmShelf;
pub use calm_source::CalmSource;
pub use faults::Failed;
pub use file_shelf::FileShelf;
pub use gate::{Gate, Open};
pub use meeting::Meeting;
pub use mem_shelf::MemShelf;
pub use mem_sink::MemSink;
pub use mem_source::MemSource;
pub use shelf::{FetchFault, Shelf};
pub use sink::Sink;
pub use source::Source;
pub use std_sink::StdSink;
pub use std_source::StdSource;
pub use void::Void;

#[cfg(test)]
mod tests;
