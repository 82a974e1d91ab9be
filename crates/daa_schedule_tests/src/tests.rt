ghost use Rattle.std.specs.Prelude.{◌≡◌, ◌*◌, ◌^◌, ◌<◌, ◌≤◌};
ghost use Rattle.daa_schedule.specs.CoreState.{worker_count, unit_count};

use daa_range::Range;
use daa_schedule::{Core, NoMemory, Step, StepFault};
use std::alloc::{AllocError, Global};
use std::error::Error;
use std::process::Abort;
use std::test::Fail;

// The answer of unit u is 11 + u.
const FIVE: [u64; 5] = [11, 12, 13, 14, 15];

// How many steps may still be accepted, at most: 3 for each unit in a range, 1 for a hand of one
// unit, and 3m - 1 for one of m units.
fn units_left(core: &Core) -> u64
    requires { worker_count core.now ≡ 2 }
{
    let in_ranges = u64::from(core.range(0).len()) + u64::from(core.range(1).len());
    3 * in_ranges + units_left_in(core.hand(0)) + units_left_in(core.hand(1))
}

fn units_left_in(hand: Range) -> u64
    ensures { result ≤ 3 * 2 ^ 32 }
{
    match u64::from(hand.len()) {
        0 => 0,
        1 => 1,
        units => 3 * units - 1,
    }
}

// The number of the fault that refuses the step, and 0 where nothing does.
fn code_at(core: &mut Core, step: Step) -> u8
    ensures workers { worker_count core.new ≡ worker_count core.old }
    ensures units { unit_count core.new ≡ unit_count core.old }
{
    match core.apply(step) {
        Ok(()) => 0,
        Err(fault) => fault.code(),
    }
}

// A worker claims this unit and settles it.
fn claim_and_settle(rt: &impl Abort, core: &mut Core, by: u32, unit: u32)
    requires { unit < unit_count core.old }
    ensures workers { worker_count core.new ≡ worker_count core.old }
    ensures units { unit_count core.new ≡ unit_count core.old }
{
    assert!(rt; code_at(core, Step::Claim { by }) == 0 && core.board(unit) == 0);
    let word = 11 + u64::from(unit);
    assert!(rt; code_at(core, Step::Settle { by, word }) == 0 && core.board(unit) == word);
}

#[test]
fn a_core_opens_with_all_units_at_worker_0(rt: HostRuntime) -> Result<(), Fail> {
    let core = Core::open(rt.alloc(), &FIVE, 2)?;
    assert!(rt; core.range(0) == Range::new(0, 5) && core.range(1).is_empty());
    assert!(rt; core.hand(0).is_empty() && core.hand(1).is_empty());
    assert!(rt; !core.ended(0) && !core.ended(1));
    assert!(rt; core.board(0) == 0 && core.board(4) == 0);
    assert!(rt; units_left(&core) == 15);
    Ok(())
}

#[test]
fn two_workers_share_five_units(rt: HostRuntime) -> Result<(), Fail> {
    let mut core = Core::open(rt.alloc(), &FIVE, 2)?;
    let steal = Step::Steal { by: 1, from: 0 };
    let settle = Step::Settle { by: 1, word: 14 };
    assert!(rt; code_at(&mut core, steal) == 0);
    assert!(rt; core.range(0) == Range::new(0, 3) && core.hand(1) == Range::new(3, 5));
    assert!(rt; units_left(&core) == 14);
    assert!(rt; code_at(&mut core, steal) == 2);
    assert!(rt; code_at(&mut core, settle) == 9);
    assert!(rt; units_left(&core) == 14);
    assert!(rt; code_at(&mut core, Step::Keep { by: 1 }) == 0);
    assert!(rt; core.hand(1) == Range::new(3, 4) && core.range(1) == Range::new(4, 5));
    assert!(rt; units_left(&core) == 13);
    assert!(rt; code_at(&mut core, Step::End { by: 1 }) == 2);
    assert!(rt; units_left(&core) == 13);
    assert!(rt; code_at(&mut core, settle) == 0);
    assert!(rt; units_left(&core) == 12);
    rest_is_settled(&rt, core);
    Ok(())
}

// What two workers do from then on: unit 3 is on the board, and unit 4 is worker 1's.
fn rest_is_settled(rt: &impl Abort, mut core: Core)
    requires workers { worker_count core ≡ 2 }
    requires units { unit_count core ≡ 5 }
{
    claim_and_settle(rt, &mut core, 1, 4);
    claim_and_settle(rt, &mut core, 0, 0);
    claim_and_settle(rt, &mut core, 0, 1);
    claim_and_settle(rt, &mut core, 0, 2);
    assert!(rt; code_at(&mut core, Step::End { by: 0 }) == 0);
    assert!(rt; code_at(&mut core, Step::End { by: 1 }) == 0);
    assert!(rt; core.ended(0) && core.ended(1) && units_left(&core) == 0);
    let board = [
        core.board(0),
        core.board(1),
        core.board(2),
        core.board(3),
        core.board(4),
    ];
    assert!(rt; board == FIVE);
}

#[test]
fn each_step_is_refused_by_the_first_rule_that_applies(rt: HostRuntime) -> Result<(), Fail> {
    let mut core = Core::open(rt.alloc(), &[5, 5], 2)?;
    for (step, code) in [
        (Step::Claim { by: 2 }, 1),
        (Step::Steal { by: 0, from: 2 }, 1),
        (Step::Steal { by: 0, from: 0 }, 6),
        (Step::Steal { by: 0, from: 1 }, 10),
        (Step::Steal { by: 1, from: 1 }, 6),
        (Step::Claim { by: 1 }, 4),
        (Step::Keep { by: 0 }, 3),
        (Step::Settle { by: 0, word: 5 }, 3),
        (Step::End { by: 0 }, 10),
        (Step::Claim { by: 0 }, 0),
        (Step::Claim { by: 0 }, 2),
        (Step::Keep { by: 0 }, 5),
        (Step::Settle { by: 0, word: 4 }, 7),
        (Step::Steal { by: 1, from: 0 }, 5),
        (Step::End { by: 1 }, 0),
        (Step::Claim { by: 1 }, 8),
        (Step::Steal { by: 1, from: 1 }, 8),
        (Step::End { by: 1 }, 8),
    ] {
        assert!(rt; code_at(&mut core, step) == code, "at {step:?}");
    }
    let fault = core.apply(Step::Settle { by: 0, word: 4 });
    assert!(rt; fault == Err(StepFault::NotAnswer { word: 4, answer: 5 }));
    Ok(())
}

#[test]
fn a_worker_does_not_end_while_its_range_is_not_empty(rt: HostRuntime) -> Result<(), Fail> {
    let mut core = Core::open(rt.alloc(), &FIVE, 2)?;
    for (step, code) in [
        (Step::Steal { by: 1, from: 0 }, 0),
        (Step::Keep { by: 1 }, 0),
        (Step::Settle { by: 1, word: 14 }, 0),
        (Step::End { by: 1 }, 10),
    ] {
        assert!(rt; code_at(&mut core, step) == code, "at {step:?}");
    }
    Ok(())
}

#[test]
fn the_faults_are_numbered_from_1(rt: HostRuntime) {
    for (fault, code) in [
        (StepFault::NoSuchWorker, 1),
        (StepFault::HandFull, 2),
        (StepFault::HandEmpty, 3),
        (StepFault::RangeEmpty, 4),
        (StepFault::TooShort, 5),
        (StepFault::Own, 6),
        (StepFault::NotAnswer { word: 4, answer: 5 }, 7),
        (StepFault::Ended, 8),
        (StepFault::Stolen, 9),
        (StepFault::RangeLeft, 10),
    ] {
        assert!(rt; fault.code() == code, "of {fault:?}");
    }
}

/// The sentence of an error, as a caller prints it.
fn sentence_of<E: Error>(alloc: Global, error: E) -> Result<String, AllocError> {
    format!(in alloc; "{error}")
}

static SENTENCES: [(StepFault, &str); 10] = [
    (
        StepFault::NoSuchWorker,
        "fault 1: the number is not below the number of workers",
    ),
    (StepFault::HandFull, "fault 2: the hand is not empty"),
    (StepFault::HandEmpty, "fault 3: the hand is empty"),
    (StepFault::RangeEmpty, "fault 4: the own range is empty"),
    (
        StepFault::TooShort,
        "fault 5: the range or the hand has fewer than two units",
    ),
    (
        StepFault::Own,
        "fault 6: a worker does not steal from itself",
    ),
    (
        StepFault::NotAnswer {
            word: 0,
            answer: u64::MAX,
        },
        "fault 7: the word 0 is not the unit's answer 18446744073709551615",
    ),
    (StepFault::Ended, "fault 8: the worker has ended"),
    (
        StepFault::Stolen,
        "fault 9: the hand has more than one unit",
    ),
    (StepFault::RangeLeft, "fault 10: the own range is not empty"),
];

#[test]
fn each_fault_has_a_sentence(rt: HostRuntime) -> Result<(), Fail> {
    for (fault, wanted) in SENTENCES {
        let sentence = sentence_of(rt.alloc(), fault)?;
        assert_eq!(rt; sentence.as_str(), wanted);
    }
    let sentence = sentence_of(rt.alloc(), NoMemory)?;
    assert_eq!(rt; sentence.as_str(), "there was no memory");
    Ok(())
}

fn may_be_sent<T: Send>() {}

// The check refuses a type that may not be sent between threads.
#[test]
fn values_may_be_sent() {
    may_be_sent::<Core>();
    may_be_sent::<Step>();
    may_be_sent::<StepFault>();
    may_be_sent::<NoMemory>();
}
