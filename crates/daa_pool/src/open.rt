//! Opening a pool: its words, and a seat for each worker.

ghost use Rattle.std.specs.Prelude.{◌≡◌, ◌<◌, ◌≤◌, ◌^◌, IfOk, [], true, length};
ghost use Rattle.daa_pool.specs.Inside.View.{blank, opener, left_behind, next_seat};
ghost use Rattle.daa_pool.specs.Seat.{view, workers_of, units_of, IsSeatOf};
ghost use Rattle.daa_pool.specs.Pool.{AreOpening};
ghost use Rattle.daa_pool.specs.Inside.Dealing.{IsLast};

use crate::pool::{Pool, Size};
use crate::rule::{Begin, Briefing, PoolRule, SplitSeat};
use crate::seat::Seat;
use crate::view::View;
use atomic_table::{Shared, Table};
use daa_range::{Range, pack};
use daa_schedule::{Answers, NoMemory};
use std::alloc::{AllocError, Global};
use std::marker::Brand;

impl Pool {
    /// A pool for 1 to 16 workers and at least one unit, and one seat for each worker, numbered
    /// from 0. Worker 0 has the range of all units, every other range and every hand is empty, and
    /// nothing is settled. `NoMemory` says that there was none for the words, the table
    /// or the seats.
    pub fn open<A: Answers>(
        alloc: Global,
        answers: &A,
        workers: u32,
    ) -> Result<(Pool, Vec<Seat>), NoMemory>
        requires workers { (0 < workers) × (workers ≤ 16) }
        requires units { 0 < length (A.answers answers.now) }
        ensures pool { IfOk result (λ opened. (workers_of opened.0 ≡ workers)
            × (units_of opened.0 ≡ length (A.answers answers.now))) }
        ensures seats { IfOk result
            (λ opened. AreOpening opened.0 opened.1.items workers (A.answers answers.now)) }
    {
        let units = answers.units();
        let mut words = vec![in alloc; 0u64; workers as usize + units as usize]?;
        words[0] = pack(Range::new(0, units));
        let size = Size { workers, units };
        let (table, mut seat) = Table::of_words(alloc, words.as_slice(), &size)?;
        brief(&table.shared, &mut seat, answers, workers);
        let pool = Pool { table, workers };
        let first = Seat {
            seat,
            number: 0,
            over: false,
        };
        let seats = pool.deal(alloc, first)?;
        Ok((pool, seats))
    }

    // The first seat is cut until there are as many as workers.
    fn deal(&self, alloc: Global, first: Seat) -> Result<Vec<Seat>, AllocError>
        requires pool { IsSeatOf self.now first }
        requires first { IsLast (view first) 0 (workers_of self.now) (view first).answers }
        ensures { IfOk result
            (λ seats. AreOpening self.now seats.items (workers_of self.now) (view first).answers) }
    {
        let mut seats = Vec::with_capacity(alloc, self.workers as usize)?;
        let mut last = first;
        for number in 1..self.workers {
            let next = self.split(&mut last, number);
            seats.push(last)?;
            last = next;
        }
        seats.push(last)?;
        Ok(seats)
    }

    // The new seat has the next number, and the count of seats made goes with it.
    fn split(&self, seat: &mut Seat, number: u32) -> Seat
        requires pool { IsSeatOf self.now seat.old }
        requires next { ((view seat.old).carries ≡ true) × ((view seat.old).made ≡ number)
            × (number < workers_of self.now) }
        ensures pool { IsSeatOf self.now seat.new × IsSeatOf self.now result }
        ensures left { view seat.new ≡ left_behind (view seat.old) }
        ensures right { view result ≡ next_seat (view seat.old) }
    {
        let seat = self.table.shared.split_seat::<SplitSeat>(&mut seat.seat);
        Seat {
            seat,
            number,
            over: false,
        }
    }
}

/// Gives the first seat the answers and the number of workers.
fn brief<A: Answers>(
    shared: &Shared<(), View, Size, PoolRule>,
    seat: &mut atomic_table::Seat<(), View>,
    answers: &A,
    workers: u32,
)
    requires table { (seat.old.table_id ≡ shared.now.table_id) × (0 < shared.now.table_id.words) }
    requires size { (shared.now.key.workers ≡ workers) × (0 < workers)
        × (shared.now.key.units ≡ length (A.answers answers.now))
        × (length (A.answers answers.now) < 2 ^ 32) }
    requires blank { seat.old.me ≡ (blank, []) }
    ensures { (seat.new.table_id ≡ seat.old.table_id)
        × (seat.new.me ≡ (opener workers (A.answers answers.now), [])) }
{
    begin::<Brand, A>(shared, seat, answers, workers);
}

/// Gives the first seat the answers and the number of workers, which `J` names.
fn begin<J: Briefing, A: Answers>(
    shared: &Shared<(), View, Size, PoolRule>,
    seat: &mut atomic_table::Seat<(), View>,
    answers: &A,
    workers: u32,
)
    requires picked { (J.answers ≡ A.answers answers.now) × (J.workers ≡ workers) }
    requires table { (seat.old.table_id ≡ shared.now.table_id) × (0 < shared.now.table_id.words) }
    requires size { (shared.now.key.workers ≡ workers) × (0 < workers)
        × (shared.now.key.units ≡ length (A.answers answers.now))
        × (length (A.answers answers.now) < 2 ^ 32) }
    requires blank { seat.old.me ≡ (blank, []) }
    ensures { (seat.new.table_id ≡ seat.old.table_id)
        × (seat.new.me ≡ (opener workers (A.answers answers.now), [])) }
{
    shared.load::<Begin<J>>(seat, 0);
}
