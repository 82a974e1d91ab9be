//! The core: for each worker a range, a hand and whether it has ended, and for each unit the word
//! on the board.

ghost use Rattle.std.specs.Prelude.{◌≡◌, ℕ, ◌+◌, ◌<◌, ◌≤◌, ◌^◌, IfOk, None, length, slice_index};
ghost use Rattle.daa_range.specs.Range.{range_len};
ghost use Rattle.daa_schedule.specs.Answers.{AreAnswers};
ghost use Rattle.daa_schedule.specs.CoreState.{worker_count, unit_count, opened};
ghost use Rattle.daa_schedule.specs.CoreState.{range_at, hand_at, has_ended, word_on};
ghost use Rattle.daa_schedule.specs.Step.{fault_of, is_stranger, moved};

use crate::{NoMemory, Step};
use daa_range::Range;
use std::alloc::Global;
use std::marker::Model;

/// Which worker has which units, and what has been answered. Contracts see it as a `CoreState`. A
/// type for other programs, with all its calls: the pool of `daidalus` makes none, since its seats
/// keep their parts themselves.
#[derive(Drop)]
pub struct Core {
    answers: Vec<u64>,
    ranges: Vec<Range>,
    hands: Vec<Range>,
    ended: Vec<bool>,
    board: Vec<u64>,
}

impl Model for Core {
    ghost use Rattle.daa_schedule.specs.CoreState.{CoreState};

    ghost Value = { CoreState };

    ghost use Rattle.daa_schedule.specs.Core.{state_of};
    ghost use Rattle.daa_schedule.specs.Inside.Core.{IsGood};

    ghost view = { state_of };

    ghost invariant = { IsGood };
}

// What a core shows.
impl Core {
    /// Worker 0 has the range of all units, every other range and every hand is empty, and nothing
    /// is on the board. There are 1 to 16 workers and at least one unit, and no answer is 0.
    /// `NoMemory` says that there was none for one of the core's lists.
    pub fn open(alloc: Global, answers: &[u64], workers: u32) -> Result<Core, NoMemory>
        requires workers { (0 < workers) × (workers ≤ 16) }
        requires units { (0 < length answers.now) × (length answers.now < 2 ^ 32) }
        requires answers { AreAnswers answers.now }
        ensures { IfOk result (λ core. core ≡ opened answers.now workers) }
    {
        let count = workers as usize;
        let mut ranges = vec![in alloc; Range::new(0, 0); count]?;
        ranges[0] = Range::new(0, answers.len() as u32);
        Ok(Core {
            answers: answers.to_vec(alloc)?,
            ranges,
            hands: vec![in alloc; Range::new(0, 0); count]?,
            ended: vec![in alloc; false; count]?,
            board: vec![in alloc; 0; answers.len()]?,
        })
    }

    /// The units that a worker, one of the core, has not taken to its hand yet.
    pub fn range(&self, worker: u32) -> Range
        requires { worker < worker_count self.now }
        ensures range { result ≡ range_at self.now worker }
        ensures units { 0 < range_len result → result.upto ≤ unit_count self.now }
    {
        self.ranges[worker as usize]
    }

    /// The units in the hand of a worker of the core.
    pub fn hand(&self, worker: u32) -> Range
        requires { worker < worker_count self.now }
        ensures hand { result ≡ hand_at self.now worker }
        ensures units { 0 < range_len result → result.upto ≤ unit_count self.now }
    {
        self.hands[worker as usize]
    }

    /// Whether a worker of the core has ended.
    pub fn ended(&self, worker: u32) -> bool
        requires { worker < worker_count self.now }
        ensures { result ≡ has_ended self.now worker }
    {
        self.ended[worker as usize]
    }

    /// The word on the board for a unit of the core, 0 if there is none.
    pub fn board(&self, unit: u32) -> u64
        requires { unit < unit_count self.now }
        ensures { result ≡ word_on self.now unit }
    {
        self.board[unit as usize]
    }

    /// The answer of a unit.
    pub(crate) fn answer(&self, unit: u32) -> u64
        requires { unit < unit_count self.now }
        ensures { result ≡ slice_index self.now.answers unit }
    {
        self.answers[unit as usize]
    }

    /// Whether no worker has this number.
    pub(crate) fn is_stranger(&self, worker: u32) -> bool
        ensures { result ≡ is_stranger self.now worker }
    {
        self.ranges.len() <= worker as usize
    }
}

// What each step does if nothing refuses it.
impl Core {
    /// The worker takes the first unit of its range into its hand.
    pub(crate) fn claim(&mut self, by: u32)
        requires { fault_of self.old (Step.Claim by) ≡ None }
        ensures { self.new ≡ moved self.old (Step.Claim by) }
    {
        let worker = by as usize;
        let range = self.ranges[worker];
        self.ranges[worker] = range.rest();
        self.hands[worker] = range.first_unit();
    }

    /// The worker takes the upper half of the other's range into its hand.
    pub(crate) fn steal(&mut self, by: u32, other: u32)
        requires { fault_of self.old (Step.Steal by other) ≡ None }
        ensures { self.new ≡ moved self.old (Step.Steal by other) }
    {
        let range = self.ranges[other as usize];
        self.ranges[other as usize] = range.lower_half();
        self.hands[by as usize] = range.upper_half();
    }

    /// The worker keeps the first unit in hand, and the rest becomes its range.
    pub(crate) fn keep(&mut self, by: u32)
        requires { fault_of self.old (Step.Keep by) ≡ None }
        ensures { self.new ≡ moved self.old (Step.Keep by) }
    {
        let worker = by as usize;
        let hand = self.hands[worker];
        self.ranges[worker] = hand.rest();
        self.hands[worker] = hand.first_unit();
    }

    /// The word goes onto the board for the unit in the worker's hand.
    pub(crate) fn settle(&mut self, by: u32, word: u64)
        requires { fault_of self.old (Step.Settle by word) ≡ None }
        ensures { self.new ≡ moved self.old (Step.Settle by word) }
    {
        let hand = self.hands[by as usize];
        self.hands[by as usize] = Range::new(0, 0);
        self.board[hand.first as usize] = word;
    }

    /// The worker is marked as ended.
    pub(crate) fn end(&mut self, by: u32)
        requires { fault_of self.old (Step.End by) ≡ None }
        ensures { self.new ≡ moved self.old (Step.End by) }
    {
        self.ended[by as usize] = true;
    }
}
