//! Gathering the answers, once all seats are over.

ghost use Rattle.std.specs.Prelude.{◌≡◌, ℕ, List, length};
ghost use Rattle.std.specs.List.{All, sum_by};
ghost use Rattle.daa_schedule.specs.CoreState.{once_below};
ghost use Rattle.daa_pool.specs.View.{times};
ghost use Rattle.daa_pool.specs.Inside.View.{gathered};
ghost use Rattle.daa_pool.specs.History.{IsOneHistory};
ghost use Rattle.daa_pool.specs.Seat.{view, workers_of, units_of, IsDone};
ghost use Rattle.daa_pool.specs.Pool.{AreAll, HaveAnswers, HasPartOf};

use crate::pool::Pool;
use crate::rule::JoinSeat;
use crate::seat::Seat;

impl Pool {
    /// Fills the words with the answers in order of units. It takes all seats of this pool, each
    /// of them over, and a word for each unit. Over all seats each unit was settled once,
    /// and the steps that the seats made are one history of the core, none of them refused, from
    /// the opening until all workers have ended; each look of a seat was true at a point of this
    /// history.
    pub fn gather(self, mut seats: Vec<Seat>, words: &mut [u64])
        requires seats { All (λ seat. IsDone self seat) seats.items }
        requires all { AreAll (workers_of self) seats.items }
        requires words { length words.old ≡ units_of self }
        ensures words { (answers : List ℕ) → HaveAnswers answers seats.items → words.new ≡ answers }
        ensures once { (unit : ℕ)
            → sum_by (λ seat. times unit (view seat).settled) seats.items ≡ once_below unit
            (units_of self) }
        ensures history { (answers : List ℕ) → HaveAnswers answers seats.items
            → IsOneHistory answers (workers_of self) (HasPartOf seats.items) }
    {
        let Some(mut seat) = seats.pop() else {
            unreachable!()
        };
        while let Some(other) = seats.pop() {
            self.join(&mut seat, other);
        }
        for unit in 0..words.len() {
            words[unit] = self.read(&mut seat, unit);
        }
    }

    /// Joins another worker's seat, which is over, to this one.
    fn join(&self, seat: &mut Seat, other: Seat)
        requires seat { IsDone self.now seat.old }
        requires other { IsDone self.now other }
        ensures done { IsDone self.now seat.new }
        ensures view { view seat.new ≡ gathered (view seat.old) (view other) }
    {
        let Seat {
            seat: taken,
            number: _,
            over: _,
        } = other;
        self.table
            .shared
            .join_seat::<JoinSeat>(&mut seat.seat, taken);
    }
}
