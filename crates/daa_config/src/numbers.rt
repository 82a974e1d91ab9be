//! The numbers of a configuration as its text has them, and whether they are allowed.

ghost use Rattle.std.specs.Prelude.{◌≡◌, nat_abs, ◌%◌, ◌==◌};
ghost use Rattle.daa_config.specs.Inside.Stepped.{IsStepped};
ghost use Rattle.daa_config.specs.Limits.{full_turn};
ghost use Rattle.daa_config.specs.Numbers.{count_of};
ghost use Rattle.daa_config.specs.Inside.Numbers.{levels_are_wrong, has_too_many};

use crate::limits::{FULL_TURN, MOST_LEVELS, MOST_VALUES};
use arrayvec::ArrayVec;

/// The values `min`, `min + step` and so on up to `max` that a kind of candidate may go to, and by
/// how much a second may change the present value (of altitudes in ft/min). The layout is that of
/// C.
#[repr(C)]
#[derive(Clone, Copy, Debug, PartialEq, Eq)]
pub struct Grid {
    /// Ground speed 0 to 10000 (0.1 kt), vertical speed -10000 to 10000 (ft/min), altitude -2000 to
    /// 60000 (ft).
    pub min: i64,
    /// From `min` on, in the same range.
    pub max: i64,
    /// 1 up to the width of that range; it gives at most 512 values.
    pub step: i64,
    /// 1 to 10000.
    pub rate: i64,
}

/// The numbers that each configuration has, beside its levels: the level from which on levels close
/// a candidate, the turn rate in degrees per second, the step of tracks in degrees, and the grids
/// in 0.1 kt, ft/min and ft. The layout is that of C.
#[repr(C)]
#[derive(Clone, Copy, Debug, PartialEq, Eq)]
pub struct Numbers {
    /// 1 to the number of levels.
    pub resolve: i64,
    /// 1 to 30.
    pub turn_rate: i64,
    /// 1 to 90, a divisor of 360.
    pub track_step: i64,
    pub gs: Grid,
    pub vs: Grid,
    pub alt: Grid,
}

/// The numbers of a level as the text has them, in 0.001 NM, ft and seconds. The last three say
/// which model the volume goes by: one of them is 1, or none if the model is modified tau. The
/// layout is that of C.
#[repr(C)]
#[derive(Clone, Copy, Debug, Default, PartialEq, Eq)]
pub struct LevelNumbers {
    /// 1 to 10000.
    pub dthr: i64,
    /// 0 to 10000.
    pub zthr: i64,
    /// 0 to 120.
    pub tthr: i64,
    /// 0 to 120.
    pub tcoa: i64,
    /// 1 to 180.
    pub lookahead: i64,
    /// 1 to 180.
    pub alert: i64,
    /// 0 or 1: the time to the closest approach.
    pub tcpa: i64,
    /// 0 or 1: tau.
    pub tau: i64,
    /// 0 or 1: the time to the entry point.
    pub tep: i64,
}

/// The cylinder that a recovery stays out of, as the text has it, in 0.001 NM and ft; and which of
/// the values that recover soonest is named: at 1 the nearest to the present value, at 0 the least.
/// The layout is that of C.
#[repr(C)]
#[derive(Clone, Copy, Debug, PartialEq, Eq)]
pub struct RecoveryNumbers {
    /// 1 to 10000.
    pub hdist: i64,
    /// 0 to 10000.
    pub vdist: i64,
    /// 0 or 1.
    pub nearest: i64,
}

/// All numbers of a configuration as its text has them; the first of the levels is level 1.
#[derive(Debug, Drop)]
pub struct ConfigNumbers {
    pub numbers: Numbers,
    pub recovery: Option<RecoveryNumbers>,
    /// At 1 last times are asked for, at 0 none.
    pub last_times: i64,
    pub levels: ArrayVec<LevelNumbers, MOST_LEVELS>,
}

/// Whether the step divides a full turn.
pub(crate) fn divides_full_turn(step: i64) -> bool
    ensures { result ≡ (full_turn % nat_abs step == 0) }
{
    let step = step.unsigned_abs();
    step != 0 && FULL_TURN % step == 0
}

/// Whether there is no level, there are more than may be, or `resolve` is above their number.
#[tactic(auto, unfolding(crate::specs::Inside::Numbers::levels_are_wrong))]
pub(crate) fn have_wrong_count(numbers: &Numbers, levels: &[LevelNumbers]) -> bool
    ensures { result ≡ levels_are_wrong numbers.now.resolve levels.now }
{
    let count = levels.len();
    count == 0 || (count > MOST_LEVELS || numbers.resolve > count as i64)
}

/// How many values the grid has.
#[tactic(auto, unfolding(crate::specs::Numbers::count_of))]
pub(crate) fn count(grid: &Grid) -> u64
    requires { IsStepped grid.now }
    ensures { result ≡ count_of grid.now }
{
    grid.max.abs_diff(grid.min) / grid.step.unsigned_abs() + 1
}

/// Whether the ground speeds, the vertical speeds or the altitudes are more than may be.
#[tactic(auto, unfolding(crate::specs::Inside::Numbers::has_too_many))]
pub(crate) fn are_too_many(numbers: &Numbers) -> bool
    requires gs { IsStepped numbers.now.gs }
    requires vs { IsStepped numbers.now.vs }
    requires alt { IsStepped numbers.now.alt }
    ensures { result ≡ has_too_many numbers.now }
{
    count(&numbers.gs) > MOST_VALUES
        || (count(&numbers.vs) > MOST_VALUES || count(&numbers.alt) > MOST_VALUES)
}
