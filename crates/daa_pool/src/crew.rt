//! All workers of a pool, each on a thread of its own, from its opening to the gathering.

ghost use Rattle.std.specs.Prelude.{◌≡◌, ◌<◌, ◌≤◌, OnErr, OnOk, length};
ghost use Rattle.std.specs.Thread.{IsSync};
ghost use Rattle.daa_pool.specs.Seat.{IsReady};
ghost use Rattle.daa_pool.specs.Inside.Pool.{AllReady, AllWorked, IsWorked};

use crate::pool::Pool;
use crate::seat::Seat;
use daa_io::Gate;
use daa_schedule::{Answers, NoMemory};
use std::alloc::Global;
use std::thread;
use std::thread::Threads;

/// Fills the words with the answers in order of units, found by 1 to 16 workers, each on a thread
/// of its own; a worker whose thread can't be started is run by the caller. There is at least one
/// unit, and a word for each. The gate is passed before each unit is answered. `NoMemory` says that
/// there was no memory for the pool; then the words are unchanged.
pub fn answer_all<R: Threads + Sync, A: Answers + Sync, G: Gate>(
    rt: &R,
    alloc: Global,
    answers: &A,
    gate: &G,
    workers: u32,
    words: &mut [u64],
) -> Result<(), NoMemory>
    requires workers { (0 < workers) × (workers ≤ 16) }
    requires units { (0 < length (A.answers answers.now))
        × (length words.old ≡ length (A.answers answers.now)) }
    ensures answered { OnOk result (words.new ≡ A.answers answers.now) }
    ensures kept { OnErr result (words.new ≡ words.old) }
{
    let (pool, mut seats) = Pool::open(alloc, answers, workers)?;
    work_all(rt, &pool, seats.as_mut_slice(), answers, gate);
    pool.gather(seats, words);
    Ok(())
}

/// Each seat works on a thread of its own.
fn work_all<R: Threads + Sync, A: Answers + Sync, G: Gate>(
    rt: &R,
    pool: &Pool,
    seats: &mut [Seat],
    answers: &A,
    gate: &G,
)
    requires some { 0 < length seats.old }
    requires ready { AllReady pool.now seats.old (A.answers answers.now) }
    ensures { AllWorked pool.now seats.old seats.new }
{
    let count = seats.len();
    thread::for_each_mut(
        rt,
        seats,
        count,
        &|_number: usize, seat: &mut Seat|
            requires { IsReady pool.now seat.old (A.answers answers.now) × IsSync A.row
                × IsSync G.row }
            ensures { IsWorked pool.entry.now seat.entry.now seat.exit.now }
        { pool.work(seat, answers, gate) },
    );
}
