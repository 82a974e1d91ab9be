//! Numbers that threads draw, so that each takes the next work that nobody has taken.

use std::sync::atomic::AtomicUsize;
use std::sync::atomic::Ordering::SeqCst;

/// Hands out the numbers 0, 1, 2 and so on to whichever thread draws next. No clause says which: so
/// nothing that is proved may rest on who has drawn what.
#[derive(Drop)]
pub struct Tickets {
    next: AtomicUsize,
}

impl Tickets {
    /// Tickets of which none is drawn: the first draw gives 0.
    pub fn new() -> Tickets {
        Tickets {
            next: AtomicUsize::new(0),
        }
    }

    /// Draws the next number.
    pub fn draw(&self) -> usize {
        self.next.fetch_add(1, SeqCst)
    }
}
