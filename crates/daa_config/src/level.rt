//! Alert levels, in units.

ghost use Rattle.std.specs.Prelude.{◌≡◌, ◌≤◌, ◌*◌, ℕ, pos, nat_abs, true, length, map, option_map};
ghost use Rattle.std.specs.List.{list_all};
ghost use Rattle.daa_fixed.specs.Size.{IsFrom};
ghost use Rattle.daa_config.specs.Inside.Rows.{level_fits, recovery_fits};
ghost use Rattle.daa_config.specs.Level.{level_of, cylinder_of, model_of};
ghost use Rattle.daa_config.specs.Level.{is_set, asks_one, asks_nearest};

use crate::limits::MOST_LEVELS;
use crate::numbers::{LevelNumbers, RecoveryNumbers};
use arrayvec::ArrayVec;
use daa_fixed::{feet, mils};
use daa_taumod::{Model, Volume};

/// An alert level: its well-clear volume (1/36000 NM, 1/60 ft and seconds), its lookahead and its
/// alert time. `lookahead` is how many seconds each candidate is flown, `alert` how many seconds
/// of the present flight are tested: 1 to 180 each.
#[derive(Clone, Copy, Debug, PartialEq, Eq)]
pub struct Level {
    pub volume: Volume,
    pub lookahead: u32,
    pub alert: u32,
}

/// Whether a key that is 0 or 1 asks for what it stands for.
fn is_asked(number: i64) -> bool
    ensures { result ≡ is_set number }
{
    number != 0
}

/// Whether last times are asked for.
pub(crate) fn asks_last(last_times: &i64) -> bool
    ensures { result ≡ is_set last_times.now }
{
    is_asked(*last_times)
}

/// Whether at most one of the keys `tau`, `tcpa` and `tep` asks for its model.
pub(crate) fn asks_for_one(numbers: &LevelNumbers) -> bool
    ensures { result ≡ asks_one numbers.now }
{
    let (tau, tcpa, tep) = (
        is_asked(numbers.tau),
        is_asked(numbers.tcpa),
        is_asked(numbers.tep),
    );
    !(tau && (tcpa || tep)) && !(tcpa && tep)
}

/// The model that the keys `tau`, `tcpa` and `tep` ask for.
fn model_in(numbers: &LevelNumbers) -> Model
    ensures { result ≡ model_of numbers.now }
{
    if is_asked(numbers.tau) {
        Model::Tau
    } else if is_asked(numbers.tcpa) {
        Model::Tcpa
    } else if is_asked(numbers.tep) {
        Model::Tep
    } else {
        Model::Taumod
    }
}

/// Whether the recovery is asked to name the value nearest to the present one.
pub(crate) fn names_nearest(recovery: &Option<RecoveryNumbers>) -> bool
    ensures { result ≡ asks_nearest recovery.now }
{
    match recovery {
        None => false,
        Some(numbers) => is_asked(numbers.nearest),
    }
}

/// Thousandths of a nautical mile as units.
fn horizontal(number: i64) -> u32
    requires { IsFrom (pos 0) (pos 10000) number }
    ensures { result ≡ 36 * nat_abs number }
{
    mils(number as i32) as u32
}

/// Feet as units.
fn vertical(number: i64) -> u32
    requires { IsFrom (pos 0) (pos 10000) number }
    ensures { result ≡ 60 * nat_abs number }
{
    feet(number as i32) as u32
}

/// A number of seconds.
fn seconds(number: i64) -> u32
    requires { IsFrom (pos 0) (pos 10000) number }
    ensures { result ≡ nat_abs number }
{
    number as u32
}

/// The level of these numbers, which are in their ranges.
fn in_units(numbers: &LevelNumbers) -> Level
    requires { level_fits numbers.now ≡ true }
    ensures { result ≡ level_of numbers.now }
{
    Level {
        volume: Volume {
            dthr: horizontal(numbers.dthr),
            zthr: vertical(numbers.zthr),
            tthr: seconds(numbers.tthr),
            tcoa: seconds(numbers.tcoa),
            model: model_in(numbers),
        },
        lookahead: seconds(numbers.lookahead),
        alert: seconds(numbers.alert),
    }
}

/// The cylinder of these numbers, which are in their ranges, if there are any.
pub(crate) fn cylinder_in_units(recovery: &Option<RecoveryNumbers>) -> Option<Volume>
    requires { recovery_fits recovery.now ≡ true }
    ensures { result ≡ option_map cylinder_of recovery.now }
{
    match recovery {
        None => None,
        Some(numbers) => Some(in_cylinder(numbers)),
    }
}

/// The cylinder of these numbers.
fn in_cylinder(numbers: &RecoveryNumbers) -> Volume
    requires hdist { IsFrom (pos 0) (pos 10000) numbers.now.hdist }
    requires vdist { IsFrom (pos 0) (pos 10000) numbers.now.vdist }
    ensures { result ≡ cylinder_of numbers.now }
{
    Volume {
        dthr: horizontal(numbers.hdist),
        zthr: vertical(numbers.vdist),
        tthr: 0,
        tcoa: 0,
        model: Model::Taumod,
    }
}

/// The levels of these numbers, in order.
pub(crate) fn all_in_units(numbers: &[LevelNumbers]) -> ArrayVec<Level, MOST_LEVELS>
    requires fit { list_all level_fits numbers.now ≡ true }
    requires few { length numbers.now ≤ 4 }
    ensures { result.items ≡ map level_of numbers.now }
{
    let mut levels = ArrayVec::new();
    for one in numbers {
        levels.push(in_units(one));
    }
    levels
}
