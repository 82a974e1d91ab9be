//! A gate at which workers wait for each other. It is for tests: it shows that threads run in
//! parallel.

use crate::gate::Gate;
use std::sync::atomic::AtomicU64;
use std::sync::atomic::Ordering::SeqCst;
use std::time::{Clock, Duration};
use std::{array, thread};

/// How often a held worker looks at most, with a millisecond of sleep after each look.
const LOOKS: u32 = 2000;

/// A gate that holds each of the workers 0 to 15 at its first pass until a given number have come,
/// or for two seconds and more. A held worker sleeps, so that a busy machine runs the others.
#[derive(Drop)]
pub struct Meeting<C> {
    clock: C,
    wanted: u64,
    calls: [AtomicU64; 16],
    came: AtomicU64,
    in_vain: AtomicU64,
}

impl<C: Clock> Meeting<C> {
    /// A gate at which this number of workers are to meet; `clock` is what they sleep by.
    pub fn of(clock: C, wanted: u64) -> Self {
        Meeting {
            clock,
            wanted,
            calls: array::from_fn(|_| AtomicU64::new(0)),
            came: AtomicU64::new(0),
            in_vain: AtomicU64::new(0),
        }
    }

    /// As many workers as were wanted have come, and none was released before. One thread that does
    /// the work of all is held at its first call, and is released alone.
    pub fn has_met(&self) -> bool {
        self.is_full() && self.in_vain.load(SeqCst) == 0
    }

    /// Whether as many workers as were wanted have come.
    fn is_full(&self) -> bool {
        self.came.load(SeqCst) >= self.wanted
    }

    /// Waits for the others, and says whether they came.
    fn wait(&self) -> bool {
        for _ in 0..LOOKS {
            if self.is_full() {
                return true;
            }
            thread::sleep(&self.clock, Duration::from_millis(1));
        }
        false
    }
}

impl<C: Clock + Sync> Gate for Meeting<C> {
    fn pass(&self, worker: u32, _unit: u32) {
        let is_first = self
            .calls
            .get(worker as usize)
            .is_some_and(|calls| calls.fetch_add(1, SeqCst) == 0);
        if is_first {
            self.came.fetch_add(1, SeqCst);
            if !self.wait() {
                self.in_vain.fetch_add(1, SeqCst);
            }
        }
    }
}
