//! Accepts the numbers of a configuration, or says which fault they have.

ghost use Rattle.std.specs.Prelude.{◌≡◌, ◌-ℤ◌, pos, ◌%◌, ◌==◌, nat_abs};
ghost use Rattle.std.specs.Prelude.{true, false, Ok, Err, OnOk, IfOk, IfErr};
ghost use Rattle.std.specs.List.{list_all};
ghost use Rattle.daa_fixed.specs.Size.{IsFrom};
ghost use Rattle.daa_config.specs.ConfigOf.{rows_of, settings_of};
ghost use Rattle.daa_config.specs.Inside.Rows.{recovery_fits, level_fits};
ghost use Rattle.daa_config.specs.Level.{asks_one};
ghost use Rattle.daa_config.specs.Limits.{full_turn};
ghost use Rattle.daa_config.specs.Inside.Numbers.{levels_are_wrong, has_too_many};
ghost use Rattle.daa_config.specs.Rows as listed;

use crate::config::Config;
use crate::fault::ConfigFault;
use crate::level::{all_in_units, asks_for_one, asks_last, cylinder_in_units, names_nearest};
use crate::limits::{Bounds, CLIMBS, HEIGHTS, SPEEDS};
use crate::numbers::{
    Grid, LevelNumbers, Numbers, RecoveryNumbers, are_too_many, divides_full_turn, have_wrong_count,
};
use crate::rows::{all_fit, document_rows, grid_rows, level_rows, recovery_rows};

/// Whether the numbers at the top are in their ranges.
fn top_is_in_range(numbers: &Numbers, last_times: &i64) -> bool
    ensures { result
        ≡ list_all (λ row. row.fits) (listed.document_rows numbers.now last_times.now) }
{
    all_fit(&document_rows(numbers, last_times))
}

/// Whether the numbers of a kind whose values are within these bounds are in their ranges.
fn grid_is_in_range(values: &Bounds, grid: &Grid) -> bool
    requires { IsFrom (pos 0) (pos 100000) (values.now.high -ℤ values.now.low) }
    ensures { result ≡ list_all (λ row. row.fits) (listed.grid_rows values.now grid.now) }
{
    all_fit(&grid_rows(values, grid))
}

/// Whether the numbers of the recovery are in their ranges, where there are any.
fn recovery_is_in_range(recovery: &Option<RecoveryNumbers>) -> bool
    ensures { result ≡ recovery_fits recovery.now }
{
    match recovery {
        None => true,
        Some(numbers) => all_fit(&recovery_rows(numbers)),
    }
}

/// Whether the numbers of the level are in their ranges.
fn level_is_in_range(level: &LevelNumbers) -> bool
    ensures { result ≡ level_fits level.now }
{
    all_fit(&level_rows(level))
}

/// Whether the numbers of every level are in their ranges.
fn levels_are_in_range(levels: &[LevelNumbers]) -> bool
    ensures { result ≡ list_all level_fits levels.now }
{
    levels.iter().all(level_is_in_range)
}

/// Whether no level asks for two models.
fn levels_ask_for_one(levels: &[LevelNumbers]) -> bool
    ensures { result ≡ list_all asks_one levels.now }
{
    levels.iter().all(asks_for_one)
}

/// Whether every number is in its range.
#[tactic(auto, using(crate::proofs::RangeLemmas::all_rows))]
fn are_all_in_range(
    numbers: &Numbers,
    recovery: &Option<RecoveryNumbers>,
    last_times: &i64,
    levels: &[LevelNumbers],
) -> bool
    ensures { result ≡ list_all (λ row. row.fits) (rows_of (record {
      numbers = numbers.now;
      recovery = recovery.now;
      last_times = last_times.now;
      levels = levels.now;
    })) }
{
    top_is_in_range(numbers, last_times)
        && (grid_is_in_range(&SPEEDS, &numbers.gs)
            && (grid_is_in_range(&CLIMBS, &numbers.vs)
                && (grid_is_in_range(&HEIGHTS, &numbers.alt)
                    && (recovery_is_in_range(recovery) && levels_are_in_range(levels)))))
}

/// Whether the numbers are allowed in a configuration.
#[tactic(auto, unfolding(crate::specs::ConfigOf::settings_of, crate::specs::Inside::Numbers::levels_are_wrong, crate::specs::Inside::Numbers::has_too_many))]
pub(crate) fn test(
    numbers: &Numbers,
    recovery: &Option<RecoveryNumbers>,
    last_times: &i64,
    levels: &[LevelNumbers],
) -> Result<(), ConfigFault>
    ensures fit { OnOk result (list_all (λ row. row.fits) (rows_of (record {
      numbers = numbers.now;
      recovery = recovery.now;
      last_times = last_times.now;
      levels = levels.now;
    })) ≡ true) }
    ensures divides { OnOk result ((full_turn % nat_abs numbers.now.track_step == 0) ≡ true) }
    ensures one { OnOk result (list_all asks_one levels.now ≡ true) }
    ensures counted { OnOk result (levels_are_wrong numbers.now.resolve levels.now ≡ false) }
    ensures few { OnOk result (has_too_many numbers.now ≡ false) }
    ensures refused { IfErr result (λ fault. settings_of (record {
      numbers = numbers.now;
      recovery = recovery.now;
      last_times = last_times.now;
      levels = levels.now;
    }) ≡ Err fault) }
{
    if !(are_all_in_range(numbers, recovery, last_times, levels)
        && divides_full_turn(numbers.track_step))
    {
        return Err(ConfigFault::OutOfRange);
    }
    if !levels_ask_for_one(levels) {
        return Err(ConfigFault::OutOfRange);
    }
    if have_wrong_count(numbers, levels) {
        return Err(ConfigFault::Levels);
    }
    if are_too_many(numbers) {
        return Err(ConfigFault::TooMany);
    }
    Ok(())
}

impl Config {
    /// The configuration of these numbers, in the units of the text's keys, if they are allowed
    /// in one; else the first that applies of `OutOfRange`, `Levels` and `TooMany`. The first of
    /// the levels is level 1. It takes no memory.
    #[tactic(auto, unfolding(crate::specs::ConfigOf::settings_of, crate::specs::Inside::Numbers::levels_are_wrong, crate::specs::Inside::Numbers::has_too_many))]
    pub fn of(
        numbers: &Numbers,
        recovery: &Option<RecoveryNumbers>,
        last_times: &i64,
        levels: &[LevelNumbers],
    ) -> Result<Config, ConfigFault>
        ensures accepted { IfOk result (λ config. settings_of (record {
          numbers = numbers.now;
          recovery = recovery.now;
          last_times = last_times.now;
          levels = levels.now;
        }) ≡ Ok config) }
        ensures refused { IfErr result (λ fault. settings_of (record {
          numbers = numbers.now;
          recovery = recovery.now;
          last_times = last_times.now;
          levels = levels.now;
        }) ≡ Err fault) }
    {
        test(numbers, recovery, last_times, levels)?;
        let levels = all_in_units(levels);
        let nearest = names_nearest(recovery);
        let recovery = cylinder_in_units(recovery);
        let last_times = asks_last(last_times);
        Ok(Config::new(*numbers, recovery, nearest, last_times, levels))
    }
}
