//! What words ask for, read from the matches of a subcommand.

ghost use Rattle.std.specs.Prelude.{◌≡◌, codes, option_and_then, option_map};
ghost use Rattle.clap.specs.Words.{first_of, found_of, rows_of};
ghost use Rattle.daa_words.specs.Order as spec;
ghost use Rattle.daa_words.specs.Task.{Exercise, Judge, Replay};

use clap::ArgMatches;

/// The task of a run under a configuration.
#[derive(Clone, Copy, Debug, PartialEq, Eq)]
pub enum Task<'a> {
    /// Moments are read, and each is decided.
    Replay {
        /// How many pieces may be read ahead, 0 to 1024.
        ahead: u32,
    },
    /// Moments are made, and each is decided.
    Exercise {
        /// The seed of the moments: any `u32`.
        seed: u32,
        /// How many moments there are, 1 to 10000.
        moments: u32,
    },
    /// A report is compared with that of given states.
    Judge {
        /// The name of the states; it may be empty.
        states: &'a str,
    },
}

/// What the words ask for.
#[derive(Clone, Copy, Debug)]
pub struct Order<'a> {
    /// The task.
    pub task: Task<'a>,
    /// The name of the configuration; it may be empty.
    pub config: &'a str,
    /// How many workers decide a moment, 1 to 16.
    pub workers: u32,
}

/// The number at an option.
fn number_at(name: &str, matches: &ArgMatches) -> Option<u32>
    ensures { result ≡ spec.number_at name.now (rows_of (found_of matches.now)) }
{
    matches.get_one::<u32>(name)
}

/// An exercise, by the numbers at its options.
fn exercise_by<'a>(matches: &ArgMatches<'a>) -> Option<Task<'a>>
    ensures { option_map spec.task_of result ≡ option_and_then
        (λ seed. option_map (Exercise seed)
        (spec.number_at (codes "moments") (rows_of (found_of matches.now))))
        (spec.number_at (codes "seed") (rows_of (found_of matches.now))) }
{
    let seed = number_at("seed", matches)?;
    let moments = number_at("moments", matches)?;
    Some(Task::Exercise { seed, moments })
}

/// A replay, by the number at its option.
fn replay_by<'a>(matches: &ArgMatches<'a>) -> Option<Task<'a>>
    ensures { option_map spec.task_of result ≡ option_map Replay
        (spec.number_at (codes "ahead") (rows_of (found_of matches.now))) }
{
    let ahead = number_at("ahead", matches)?;
    Some(Task::Replay { ahead })
}

/// A comparison, by the text at its option.
fn judge_by<'a>(matches: &ArgMatches<'a>) -> Option<Task<'a>>
    ensures { option_map spec.task_of result ≡ option_map Judge
        (first_of (codes "states") (rows_of (found_of matches.now))) }
{
    let states = matches.get_str("states")?;
    Some(Task::Judge { states })
}

/// The task of a subcommand, by its name and by the matches of its options.
fn task_by<'a>(name: &str, matches: &ArgMatches<'a>) -> Option<Task<'a>>
    ensures { option_map spec.task_of result ≡ spec.task_by name.now
        (rows_of (found_of matches.now)) }
{
    if name == "replay" {
        replay_by(matches)
    } else if name == "exercise" {
        exercise_by(matches)
    } else if name == "judge" {
        judge_by(matches)
    } else {
        None
    }
}

/// What a subcommand asks for, by its name and by the matches of its options.
#[tactic(auto, unfolding(crate::specs::Order::asked_by))]
pub(crate) fn order_by<'a>(name: &str, matches: &ArgMatches<'a>) -> Option<Order<'a>>
    ensures { option_map spec.meaning result ≡ spec.asked_by
        (name.now, rows_of (found_of matches.now)) }
{
    let task = task_by(name, matches)?;
    let config = matches.get_str("config")?;
    let workers = number_at("workers", matches)?;
    Some(Order {
        task,
        config,
        workers,
    })
}
