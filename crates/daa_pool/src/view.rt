//! What a seat knows of its pool. No value of these types is made: they exist in the proofs.

use daa_range::Range;
use daa_schedule::Step;
use std::collections::LinkedList;

/// A word that was found in the range of a worker.
pub struct Look {
    pub worker: u64,
    pub word: u64,
    /// How many steps of the core the seat that looked had made by then.
    pub moves: u64,
}

/// What one worker did and saw.
pub struct Part {
    /// The number of the worker.
    pub number: u64,
    /// The steps of the core that it made, in order.
    pub moves: LinkedList<Step>,
    /// The words that it found where it looked.
    pub looks: LinkedList<Look>,
}

/// What a seat knows.
pub struct View {
    /// False of a view that was joined to another.
    pub live: bool,
    /// The number of its worker.
    pub number: u64,
    /// The number of workers of its pool.
    pub workers: u64,
    /// The answers of its pool, in order of units.
    pub answers: LinkedList<u64>,
    /// The own range begins where this range begins, and ends no later.
    pub bound: Range,
    /// The units in the hand.
    pub hand: Range,
    /// The units that the seat has settled.
    pub settled: LinkedList<u64>,
    /// The words that it found where it looked.
    pub looks: LinkedList<Look>,
    /// The steps of the core that it made.
    pub moves: LinkedList<Step>,
    /// Whether its worker has ended.
    pub over: bool,
    /// What the seats did and saw that were joined to this one.
    pub joined: LinkedList<Part>,
    /// Whether the view has the count of seats made.
    pub carries: bool,
    /// The count of seats made, if the view has it.
    pub made: u64,
}
