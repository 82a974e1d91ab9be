//! The command line that clap is given, each option and each subcommand a function of its own.

ghost use Rattle.std.specs.Prelude.{◌≡◌, IfOk, true, false, [], ◌∷◌, codes};
ghost use Rattle.clap.specs.Simple.{new_app, on_top};
ghost use Rattle.clap.specs.Words.{app_of, rule_of};
ghost use Rattle.clap.specs.declared.builder.command.Command.TheViews.{out-Command as fields_of};
ghost use Rattle.daa_words.specs.Command as spec;
ghost use Rattle.daa_words.specs.Inside.Command as inside;

use clap::{Arg, ArgAction, Command, value_parser};
use std::alloc::{AllocError, Global};

/// An option with one value, which may be any text.
fn option<'a>(alloc: Global, name: &'a str) -> Arg<'a>
    ensures rule { rule_of result ≡ record (spec.option name.entry.now) { required = false } }
    ensures local { result.global ≡ false }
{
    Arg::new(alloc, name).long(name).action(ArgAction::Set)
}

/// `--config FILE`.
fn config<'a>(alloc: Global) -> Arg<'a>
    ensures rule { rule_of result ≡ spec.config }
    ensures local { result.global ≡ false }
{
    option(alloc, "config").required(true)
}

/// `--workers N`.
fn workers<'a>(alloc: Global) -> Arg<'a>
    ensures rule { rule_of result ≡ spec.workers }
    ensures local { result.global ≡ false }
{
    option(alloc, "workers")
        .value_parser(value_parser!(u32).range(1..=16))
        .default_value("4")
}

/// `--ahead N`.
fn ahead<'a>(alloc: Global) -> Arg<'a>
    ensures rule { rule_of result ≡ inside.ahead }
    ensures local { result.global ≡ false }
{
    option(alloc, "ahead")
        .value_parser(value_parser!(u32).range(0..=1024))
        .default_value("0")
}

/// `--states FILE`.
fn states<'a>(alloc: Global) -> Arg<'a>
    ensures rule { rule_of result ≡ inside.states }
    ensures local { result.global ≡ false }
{
    option(alloc, "states").required(true)
}

/// `--seed N`.
fn seed<'a>(alloc: Global) -> Arg<'a>
    ensures rule { rule_of result ≡ inside.seed }
    ensures local { result.global ≡ false }
{
    option(alloc, "seed")
        .value_parser(value_parser!(u32))
        .required(true)
}

/// `--moments M`.
fn moments<'a>(alloc: Global) -> Arg<'a>
    ensures rule { rule_of result ≡ inside.moments }
    ensures local { result.global ≡ false }
{
    option(alloc, "moments")
        .value_parser(value_parser!(u32).range(1..=10000))
        .required(true)
}

/// `replay --config FILE [--workers N] [--ahead N]`.
fn replay<'a>(alloc: Global) -> Result<Command<'a>, AllocError>
    ensures { IfOk result (λ c.
        (app_of c ≡ inside.leaf "replay" (spec.config ∷ spec.workers ∷ inside.ahead ∷ []))
        × ((fields_of c).has_globals ≡ false)) }
{
    Command::new(alloc, "replay")
        .arg(config(alloc))?
        .arg(workers(alloc))?
        .arg(ahead(alloc))
}

/// `exercise --config FILE --seed N --moments M [--workers N]`.
fn exercise<'a>(alloc: Global) -> Result<Command<'a>, AllocError>
    ensures { IfOk result (λ c. (app_of c ≡ inside.leaf "exercise"
        (spec.config ∷ inside.seed ∷ inside.moments ∷ spec.workers ∷ []))
        × ((fields_of c).has_globals ≡ false)) }
{
    Command::new(alloc, "exercise")
        .arg(config(alloc))?
        .arg(seed(alloc))?
        .arg(moments(alloc))?
        .arg(workers(alloc))
}

/// `judge --config FILE --states FILE [--workers N]`.
fn judge<'a>(alloc: Global) -> Result<Command<'a>, AllocError>
    ensures { IfOk result (λ c.
        (app_of c ≡ inside.leaf "judge" (spec.config ∷ inside.states ∷ spec.workers ∷ []))
        × ((fields_of c).has_globals ≡ false)) }
{
    Command::new(alloc, "judge")
        .arg(config(alloc))?
        .arg(states(alloc))?
        .arg(workers(alloc))
}

/// The program's name, which a subcommand must follow.
fn base<'a>(alloc: Global) -> Command<'a>
    ensures app { app_of result
        ≡ on_top (λ s. record s { subcommand_required = true }) (new_app (codes "daidalus")) }
    ensures local { (fields_of result).has_globals ≡ false }
{
    Command::new(alloc, "daidalus").subcommand_required(true)
}

/// The command line that is taken: `daidalus replay --config FILE [--workers N] [--ahead N]`,
/// `daidalus exercise --config FILE --seed N --moments M [--workers N]` or
/// `daidalus judge --config FILE --states FILE [--workers N]`, and nothing else but clap's own
/// help.
///
/// A subcommand is required, and so is each option but `--workers` and `--ahead`. Each option has
/// one value: any text at `--config` and `--states`, a whole number from 1 to 16 at `--workers` (4
/// where it is not given), from 0 to 1024 at `--ahead` (0 where it is not given), from 0 to
/// 2^32 - 1 at `--seed` and from 1 to 10000 at `--moments`. The error says that memory ran out.
#[tactic(auto, unfolding(crate::specs::Command::daidalus))]
pub fn daidalus<'a>(alloc: Global) -> Result<Command<'a>, AllocError>
    ensures { IfOk result (λ c. app_of c ≡ spec.daidalus) }
{
    base(alloc)
        .subcommand(replay(alloc)?)?
        .subcommand(exercise(alloc)?)?
        .subcommand(judge(alloc)?)
}
