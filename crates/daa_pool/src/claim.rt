//! Claiming a unit: from the own range, or from the upper half of another.

ghost use Rattle.std.specs.Prelude.{◌≡◌, ◌≢◌, ℕ, ◌+◌, ◌<◌, ◌≤◌, IfSome, IfNone, MatchOption};
ghost use Rattle.daa_pool.specs.Seat.{view, workers_of, IsSeatOf, IsFree};
ghost use Rattle.daa_pool.specs.Claim.{Claims, FindsNothing};
ghost use Rattle.daa_pool.specs.Inside.Tour.{IsSeeking, SeeksInVain, SeeksWell, TakesFrom, Toured};

use crate::pool::Pool;
use crate::seat::{Piece, Seat};
use daa_range::{pack, unpack};

impl Pool {
    /// A unit to answer, for a seat of this pool that holds no piece and is not over. It looks at
    /// its own range once, and again only by an exchange that failed and showed a shorter range. If
    /// its own range is empty, it looks at the others from the next number round. With `None` the
    /// seat is over, after one more look at its own range: it was empty, and each other worker's
    /// range had fewer than two units, or changed, at a look of this call.
    pub fn claim(&self, seat: &mut Seat) -> Option<Piece>
        requires pool { IsSeatOf self.now seat.old }
        requires free { IsFree (view seat.old) }
        ensures pool { IsSeatOf self.now seat.new }
        ensures some { IfSome result (λ unit. Claims (view seat.old) (view seat.new) unit) }
        ensures none { IfNone result (FindsNothing (view seat.old) (view seat.new)) }
    {
        let mut own = unpack(self.look_home(seat));
        while !own.is_empty() {
            let found = self.try_claim(seat, own);
            if found == pack(own) {
                return Some(Piece { unit: own.first });
            }
            own = unpack(found);
        }
        self.seek(seat)
    }

    // Goes through the other workers, from the next number round, once the own range was empty.
    fn seek(&self, seat: &mut Seat) -> Option<Piece>
        requires pool { IsSeatOf self.now seat.old }
        requires bare { IsSeeking (view seat.old) }
        ensures pool { IsSeatOf self.now seat.new }
        ensures claim { MatchOption result (SeeksInVain (view seat.old) (view seat.new))
            (λ unit. SeeksWell (view seat.old) (view seat.new) unit) }
    {
        let number = seat.number;
        if let Some(piece) = self.tour(seat, number + 1, self.workers) {
            return Some(piece);
        }
        if let Some(piece) = self.tour(seat, 0, number) {
            return Some(piece);
        }
        self.end(seat);
        None
    }

    // Visits the workers from `first` on, below `upto`, until one has something to take.
    fn tour(&self, seat: &mut Seat, first: u32, upto: u32) -> Option<Piece>
        requires pool { IsSeatOf self.now seat.old }
        requires bare { IsSeeking (view seat.old) }
        requires range { (first ≤ upto) × (upto ≤ workers_of self.now) }
        requires others { (worker : ℕ) → first ≤ worker → worker < upto
            → worker ≢ (view seat.old).number }
        ensures pool { IsSeatOf self.now seat.new }
        ensures claim { MatchOption result (Toured (view seat.old) (view seat.new) first upto)
            (λ unit. TakesFrom (view seat.old) (view seat.new) first upto unit) }
    {
        for other in first..upto {
            if let Some(piece) = self.visit(seat, other) {
                return Some(piece);
            }
        }
        None
    }

    // Looks once at the other range, and makes one try where it has two units or more.
    fn visit(&self, seat: &mut Seat, other: u32) -> Option<Piece>
        requires pool { IsSeatOf self.now seat.old }
        requires bare { IsSeeking (view seat.old) }
        requires other { (other < workers_of self.now) × (other ≢ (view seat.old).number) }
        ensures pool { IsSeatOf self.now seat.new }
        ensures claim { MatchOption result
            (Toured (view seat.old) (view seat.new) other (other + 1))
            (λ unit. TakesFrom (view seat.old) (view seat.new) other (other + 1) unit) }
    {
        let range = unpack(self.look_away(seat, other));
        if range.len() < 2 {
            return None;
        }
        if self.try_steal(seat, other, range) != pack(range) {
            return None;
        }
        let hand = range.upper_half();
        if hand.len() > 1 {
            self.keep(seat, hand);
        }
        Some(Piece { unit: hand.first })
    }
}
