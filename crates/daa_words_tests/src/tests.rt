//! What words ask for. Words that are not taken are in `tests/cases`.

use daa_words::{Order, Task, WordsFault, daidalus, read_words};
use std::alloc::{AllocError, Global};
use std::error::Error;
use std::test::Fail;

/// The words as a program is given them.
fn words_of(alloc: Global, words: &[&str]) -> Result<Vec<String>, AllocError> {
    let mut list = Vec::new(alloc);
    for word in words {
        list.push(String::from_str(alloc, word)?)?;
    }
    Ok(list)
}

/// Words, the name of the configuration in them, the number of workers, and how many pieces are
/// read ahead.
static REPLAYS: [(&[&str], &str, u32, u32); 14] = [
    (&["daidalus", "replay", "--config", "f"], "f", 4, 0),
    (&["daidalus", "replay", "--config=f"], "f", 4, 0),
    (&["daidalus", "replay", "--config", "f", "--"], "f", 4, 0),
    (&["daidalus", "replay", "--config", ""], "", 4, 0),
    (&["daidalus", "replay", "--config="], "", 4, 0),
    (&["daidalus", "replay", "--config=a=b"], "a=b", 4, 0),
    (&["/bin/other", "replay", "--config", "a b"], "a b", 4, 0),
    (
        &["daidalus", "replay", "--config", "f", "--workers", "1"],
        "f",
        1,
        0,
    ),
    (
        &["daidalus", "replay", "--workers", "16", "--config", "f"],
        "f",
        16,
        0,
    ),
    (
        &["daidalus", "replay", "--config=f", "--workers=+4"],
        "f",
        4,
        0,
    ),
    (
        &["daidalus", "replay", "--config=f", "--workers=007"],
        "f",
        7,
        0,
    ),
    (
        &["daidalus", "replay", "--config=f", "--workers=2", "--"],
        "f",
        2,
        0,
    ),
    (
        &["daidalus", "replay", "--config=f", "--ahead", "1024"],
        "f",
        4,
        1024,
    ),
    (
        &["daidalus", "replay", "--ahead=1", "--config=f"],
        "f",
        4,
        1,
    ),
];

#[test]
fn words_that_ask_for_a_replay(rt: HostRuntime) -> Result<(), Fail> {
    for (words, config, workers, ahead) in &REPLAYS {
        let words = words_of(rt.alloc(), words)?;
        let order = read_words(rt.alloc(), words.as_slice()).map_err(|_| "not taken")?;
        assert!(rt; order.config == *config, "{config}");
        assert_eq!(rt; order.task, Task::Replay { ahead: *ahead });
        assert_eq!(rt; order.workers, *workers);
    }
    Ok(())
}

#[test]
fn words_that_ask_for_an_exercise(rt: HostRuntime) -> Result<(), Fail> {
    let words = words_of(
        rt.alloc(),
        &[
            "daidalus",
            "exercise",
            "--config",
            "f",
            "--seed=1",
            "--moments=2",
            "--workers=3",
        ],
    )?;
    let order = read_words(rt.alloc(), words.as_slice()).map_err(|_| "not taken")?;
    let task = Task::Exercise {
        seed: 1,
        moments: 2,
    };
    assert!(rt; order.config == "f");
    assert_eq!(rt; order.task, task);
    assert_eq!(rt; order.workers, 3);
    Ok(())
}

#[test]
fn words_that_ask_for_a_comparison(rt: HostRuntime) -> Result<(), Fail> {
    let words = words_of(
        rt.alloc(),
        &["daidalus", "judge", "--states", "s", "--config=f"],
    )?;
    let order = read_words(rt.alloc(), words.as_slice()).map_err(|_| "not taken")?;
    assert_eq!(rt; order.task, Task::Judge { states: "s" });
    assert!(rt; order.config == "f");
    assert_eq!(rt; order.workers, 4);
    Ok(())
}

/// Not even the program's name.
#[test]
fn no_words_are_not_taken(rt: HostRuntime) {
    assert!(rt; matches!(read_words(rt.alloc(), &[]), Err(WordsFault::NotTaken)));
}

#[test]
fn the_command_has_the_programs_name(rt: HostRuntime) -> Result<(), Fail> {
    let command = daidalus(rt.alloc())?;
    assert_eq!(rt; command.get_name(), "daidalus");
    Ok(())
}

/// The sentence of an error, as a caller prints it.
fn sentence_of<E: Error>(alloc: Global, error: E) -> Result<String, AllocError> {
    format!(in alloc; "{error}")
}

static SENTENCES: [(WordsFault, &str); 2] = [
    (
        WordsFault::NotTaken,
        "the command line does not take the words",
    ),
    (
        WordsFault::NoMemory,
        "there was no memory for the command line",
    ),
];

#[test]
fn each_fault_has_a_sentence(rt: HostRuntime) -> Result<(), Fail> {
    for (fault, wanted) in SENTENCES {
        let sentence = sentence_of(rt.alloc(), fault)?;
        assert_eq!(rt; sentence.as_str(), wanted);
    }
    Ok(())
}

fn may_be_sent<T: Send>() {}

// The check refuses a type that may not be sent between threads.
#[test]
fn values_may_be_sent() {
    may_be_sent::<Task<'static>>();
    may_be_sent::<Order<'static>>();
    may_be_sent::<WordsFault>();
}
