ghost use Rattle.std.specs.Prelude.{◌≡◌, ℕ, ◌<◌, ◌≤◌, IfOk, OnOk, length};
ghost use Rattle.std.specs.Thread.{IsSync};
ghost use Rattle.daa_pool.specs.Inside.Numbers.{numbers};
ghost use Rattle.daa_pool.specs.Seat.{view, workers_of, units_of, IsSeatOf};
ghost use Rattle.daa_pool.specs.Seat.{IsSameSeat, IsFree, HasPiece, IsReady, IsDone};
ghost use Rattle.daa_pool.specs.Inside.Pool.{AllReady, AllWorked, IsWorked};

use crate::{Look, NoMemory, Part, Piece, Pool, Seat, View, answer_all, unit};
use daa_io::{Gate, Meeting, Open};
use daa_schedule::Answers;
use std::alloc::{AllocError, Global};
use std::process::Abort;
use std::sync::atomic::AtomicU64;
use std::sync::atomic::Ordering::SeqCst;
use std::test::Fail;
use std::thread;
use std::thread::Threads;

// The answer of unit u is 11 + u. It counts the calls of `word`.
#[derive(Drop)]
struct Numbers {
    units: u32,
    calls: AtomicU64,
}

impl Numbers {
    fn new(units: u32) -> Numbers
        ensures { result.units ≡ units }
    {
        Numbers {
            units,
            calls: AtomicU64::new(0),
        }
    }

    fn calls(&self) -> u64 {
        self.calls.load(SeqCst)
    }
}

impl Answers for Numbers {
    ghost use Rattle.daa_pool.specs.Inside.Numbers.{numbers, AreAnswers-numbers};

    ghost answers = { λ given. numbers given.units };

    fn units(&self) -> u32 {
        self.units
    }

    fn word(&self, unit: u32) -> u64 {
        self.calls.fetch_add(1, SeqCst);
        11 + u64::from(unit)
    }

    ghost real = { λ given. AreAnswers-numbers given.units };
}

// Answers for five units, beside a gate. It counts who passes for each unit, and which units are
// answered before their gate is passed.
#[derive(Drop)]
struct Watch {
    passes: [AtomicU64; 5],
    early: AtomicU64,
}

impl Watch {
    fn new() -> Watch {
        Watch {
            passes: [
                AtomicU64::new(0),
                AtomicU64::new(0),
                AtomicU64::new(0),
                AtomicU64::new(0),
                AtomicU64::new(0),
            ],
            early: AtomicU64::new(0),
        }
    }

    // How often the gate was passed for a unit.
    fn passes(&self, unit: u32) -> u64 {
        match self.passes.get(unit as usize) {
            Some(count) => count.load(SeqCst),
            None => 0,
        }
    }

    fn has_passed_each_unit_once_in_time(&self) -> bool {
        (0..5).all(|unit| self.passes(unit) == 1) && self.early.load(SeqCst) == 0
    }
}

impl Answers for Watch {
    ghost use Rattle.daa_pool.specs.Inside.Numbers.{numbers, AreAnswers-numbers};

    ghost answers = { λ given. numbers 5 };

    fn units(&self) -> u32 {
        5
    }

    fn word(&self, unit: u32) -> u64 {
        if self.passes(unit) == 0 {
            self.early.fetch_add(1, SeqCst);
        }
        11 + u64::from(unit)
    }

    ghost real = { λ given. AreAnswers-numbers 5 };
}

impl Gate for Watch {
    fn pass(&self, _worker: u32, unit: u32) {
        self.passes
            .get(unit as usize)
            .unwrap_or(&self.early)
            .fetch_add(1, SeqCst);
    }
}

// The seat claims a unit, and it is the one of this number.
fn claim_unit(rt: &impl Abort, pool: &Pool, seat: &mut Seat, wanted: u32) -> Piece
    requires pool { IsSeatOf pool.now seat.old }
    requires free { IsFree (view seat.old) }
    ensures pool { IsSeatOf pool.now seat.new }
    ensures piece { HasPiece (view seat.new) result }
    ensures same_seat { IsSameSeat (view seat.old) (view seat.new) }
{
    let Some(piece) = pool.claim(seat) else {
        panic!(rt; "no unit was claimed")
    };
    assert!(rt; unit(&piece) == wanted);
    piece
}

fn answer_unit(pool: &Pool, seat: &mut Seat, given: &Numbers, piece: Piece)
    requires pool { IsSeatOf pool.now seat.old }
    requires piece { HasPiece (view seat.old) piece }
    requires answers { (view seat.old).answers ≡ numbers given.now.units }
    ensures pool { IsSeatOf pool.now seat.new }
    ensures free { IsFree (view seat.new) }
    ensures same_seat { IsSameSeat (view seat.old) (view seat.new) }
{
    let word = given.word(unit(&piece));
    pool.settle(seat, piece, word);
}

fn answer_the_rest(pool: &Pool, seat: &mut Seat, given: &Numbers)
    requires { IsReady pool.now seat.old (numbers given.now.units) }
    ensures done { IsDone pool.now seat.new }
    ensures same_seat { IsSameSeat (view seat.old) (view seat.new) }
{
    pool.work(seat, given, &Open);
}

fn gather_two(alloc: Global, pool: Pool, zero: Seat, one: Seat) -> Result<[u64; 5], AllocError>
    requires pool { (workers_of pool ≡ 2) × (units_of pool ≡ 5) }
    requires zero { IsDone pool zero × ((view zero).number ≡ 0) }
    requires one { IsDone pool one × ((view one).number ≡ 1) }
{
    let mut seats = Vec::new(alloc);
    seats.push(zero)?;
    seats.push(one)?;
    let mut words = [0; 5];
    pool.gather(seats, &mut words);
    Ok(words)
}

#[test]
fn two_seats_share_five_units(rt: HostRuntime) -> Result<(), Fail> {
    let given = Numbers::new(5);
    let (pool, mut seats) = Pool::open(rt.alloc(), &given, 2)?;
    assert!(rt; given.calls() == 0);
    let Some(mut one) = seats.pop() else {
        panic!(rt; "a seat is missing")
    };
    let Some(mut zero) = seats.pop() else {
        panic!(rt; "a seat is missing")
    };
    let three = claim_unit(&rt, &pool, &mut one, 3);
    let first = claim_unit(&rt, &pool, &mut zero, 0);
    answer_unit(&pool, &mut one, &given, three);
    answer_unit(&pool, &mut zero, &given, first);
    let four = claim_unit(&rt, &pool, &mut one, 4);
    answer_unit(&pool, &mut one, &given, four);
    assert!(rt; !pool.is_over(&zero) && !pool.is_over(&one));
    answer_the_rest(&pool, &mut zero, &given);
    answer_the_rest(&pool, &mut one, &given);
    assert!(rt; pool.is_over(&zero) && pool.is_over(&one));
    assert!(rt; given.calls() == 5);
    let words = gather_two(rt.alloc(), pool, zero, one)?;
    assert!(rt; words == [11, 12, 13, 14, 15]);
    assert!(rt; given.calls() == 5);
    Ok(())
}

#[test]
fn threads_gather_the_answers(rt: HostRuntime) {
    for workers in [1, 2, 3, 4, 16] {
        assert!(rt; 0 < workers && workers <= 16);
        let given = Numbers::new(300);
        let mut words = [0; 300];
        let done = answer_all(&rt, rt.alloc(), &given, &Open, workers, &mut words);
        assert!(rt; done.is_ok());
        for (unit, word) in words.iter().enumerate() {
            assert!(rt; *word == 11 + unit as u64, "at {unit} with {workers}");
        }
        assert!(rt; given.calls() == 300, "with {workers}");
    }
}

#[test]
fn the_gate_is_passed_once_before_each_answer(rt: HostRuntime) {
    for workers in [1, 4] {
        assert!(rt; 0 < workers && workers <= 16);
        let watch = Watch::new();
        let mut words = [0; 5];
        let done = answer_all(&rt, rt.alloc(), &watch, &watch, workers, &mut words);
        assert!(rt; done.is_ok());
        assert!(rt; watch.has_passed_each_unit_once_in_time(), "with {workers}");
    }
}

// Each of four workers waits at its first unit until all have come, worker 0 too, which fewer
// threads can't. As a thread may not be had, the meeting is tried five times.
#[test]
fn four_workers_meet_at_the_gate(rt: HostRuntime) {
    let mut met = false;
    for _ in 0..5 {
        if !met {
            let given = Numbers::new(300);
            let meeting = Meeting::of(&rt, 4);
            let mut words = [0; 300];
            let done = answer_all(&rt, rt.alloc(), &given, &meeting, 4, &mut words);
            assert!(rt; done.is_ok());
            met = meeting.has_met();
        }
    }
    assert!(rt; met);
}

fn may_be_sent<T: Send>() {}

fn may_be_shared<T: Sync>() {}

// The check refuses a type that may not be sent between threads, and a pool that may not be shared.
#[test]
fn values_may_be_sent() {
    may_be_shared::<Pool>();
    may_be_sent::<Pool>();
    may_be_sent::<Seat>();
    may_be_sent::<Piece>();
    may_be_sent::<View>();
    may_be_sent::<Look>();
    may_be_sent::<Part>();
}
