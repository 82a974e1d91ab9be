//! A configuration that was accepted, and its readers.

ghost use Rattle.std.specs.Prelude.{◌≡◌, ◌<◌, ◌+◌, ◌≤◌, length, slice_get, option_map};
ghost use Rattle.std.specs.Prelude.{Some, pos, ℕ, ℤ, ◌≤ℤ◌, ◌+ℤ◌, ◌*ℤ◌, All, Contains};
ghost use Rattle.daa_fixed.specs.Size.{IsFrom};
ghost use Rattle.daa_config.specs.Candidates.{grid_of};
ghost use Rattle.daa_config.specs.Settings.{Settings, IsAccepted};
ghost use Rattle.daa_config.specs.Inside.Counts.{AreCounts, AreOfAccepted, count_in};
ghost use Rattle.daa_config.specs.Inside.Stepped.{IsStepped};
ghost use Rattle.daa_config.specs.Numbers.{count_of};

use crate::candidate::Candidate;
use crate::kind::Kind;
use crate::level::Level;
use crate::limits::MOST_LEVELS;
use crate::numbers::{Grid, Numbers, count};
use arrayvec::ArrayVec;
use daa_taumod::Volume;
use std::marker::Model;

/// By how much a second may change the track (degrees, 1 to 30), the ground speed (0.1 kt, 1 to
/// 10000), the vertical speed (ft/min, 1 to 10000) and the altitude (ft/min, 1 to 10000, which is
/// units per second).
#[derive(Clone, Copy, Debug, PartialEq, Eq)]
pub struct Rates {
    pub turn: i32,
    pub gs: i32,
    pub vs: i32,
    pub alt: i32,
}

/// How many candidates each kind has.
#[derive(Clone, Copy, Debug)]
pub(crate) struct CandidateCounts {
    tracks: u32,
    speeds: u32,
    climbs: u32,
    heights: u32,
}

/// A configuration that was accepted. It owns no memory. To count the candidates of a kind takes a
/// division, so that they are counted once.
#[derive(Drop)]
pub struct Config {
    numbers: Numbers,
    counts: CandidateCounts,
    recovery: Option<Volume>,
    nearest: bool,
    last_times: bool,
    levels: ArrayVec<Level, MOST_LEVELS>,
}

/// A level of no size, which fills the unused places of a configuration's levels.
impl Default for Level {
    fn default() -> Level {
        Level {
            volume: Volume {
                dthr: 0,
                zthr: 0,
                tthr: 0,
                tcoa: 0,
                model: daa_taumod::Model::Taumod,
            },
            lookahead: 0,
            alert: 0,
        }
    }
}

impl Model for Config {
    ghost use Rattle.std.specs.Prelude.{◌≡◌};
    ghost use Rattle.daa_config.specs.Settings.{Settings, IsAccepted};
    ghost use Rattle.daa_config.specs.Inside.Counts.{AreCounts};

    ghost Value = { Settings };

    ghost view = { λ c. record {
      numbers = c.numbers;
      recovery = c.recovery;
      nearest = c.nearest;
      last_times = c.last_times;
      levels = c.levels.items;
    } };

    ghost invariant = { λ c. IsAccepted (record {
      numbers = c.numbers;
      recovery = c.recovery;
      nearest = c.nearest;
      last_times = c.last_times;
      levels = c.levels.items;
    }) × AreCounts c.numbers c.counts };
}

impl CandidateCounts {
    /// How many candidates a kind has.
    fn of(&self, kind: Kind) -> u32
        ensures { result ≡ count_in self.now kind }
    {
        match kind {
            Kind::Track => self.tracks,
            Kind::GroundSpeed => self.speeds,
            Kind::VerticalSpeed => self.climbs,
            Kind::Altitude => self.heights,
        }
    }
}

impl Config {
    ghost use Rattle.daa_config.specs.Settings.{IsAccepted, IsLevelAt, IsLevelInRange};
    ghost use Rattle.daa_config.specs.Settings.{rates_of, AreRatesInRange};
    ghost use Rattle.daa_config.specs.Settings.{IsCandidateInRange, IsInBounds, value_bounds};
    ghost use Rattle.daa_config.specs.Candidates.{grid_of, values_of, least_of, greatest_of};
    ghost use Rattle.daa_config.specs.Candidates.{candidate_to, candidates_of, start_of, IsCandidateOf};

    /// A configuration of these numbers.
    pub(crate) fn new(
        numbers: Numbers,
        recovery: Option<Volume>,
        nearest: bool,
        last_times: bool,
        levels: ArrayVec<Level, MOST_LEVELS>,
    ) -> Config
        requires { IsAccepted (record {
          numbers = numbers;
          recovery = recovery;
          nearest = nearest;
          last_times = last_times;
          levels = levels.items;
        }) }
        ensures { result ≡ record {
          numbers = numbers;
          recovery = recovery;
          nearest = nearest;
          last_times = last_times;
          levels = levels.items;
        } }
    {
        Config {
            numbers,
            counts: counts_of(&numbers),
            recovery,
            nearest,
            last_times,
            levels,
        }
    }

    /// The cylinder round each aircraft that a recovery stays out of, in units of 1/36000 NM and
    /// 1/60 ft: None exactly where the configuration asks for no recovery.
    pub fn recovery(&self) -> Option<&Volume>
        ensures value { option_map (λ v. v.now) result ≡ self.now.recovery }
        ensures accepted { IsAccepted self.now }
    {
        self.recovery.as_ref()
    }

    /// Which of the values that are clear again soonest a recovery names: at true the value nearest
    /// to the present one, at false the least.
    pub fn nearest(&self) -> bool
        ensures value { result ≡ self.now.nearest }
        ensures accepted { IsAccepted self.now }
    {
        self.nearest
    }

    /// Whether last times are asked for: where the present flight is not open, for how many seconds
    /// it may be kept until a manoeuvre of each kind comes too late.
    pub fn last_times(&self) -> bool
        ensures value { result ≡ self.now.last_times }
        ensures accepted { IsAccepted self.now }
    {
        self.last_times
    }

    /// How many levels there are, 1 to 4.
    pub fn levels(&self) -> u32
        ensures value { result ≡ length self.now.levels }
        ensures some { 1 ≤ result }
        ensures few { result ≤ 4 }
        ensures accepted { IsAccepted self.now }
    {
        self.levels.len() as u32
    }

    /// Level `l`, numbered from 1.
    pub fn level(&self, l: u32) -> &Level
        requires numbered { 1 ≤ l }
        requires there { l ≤ length self.now.levels }
        ensures value { IsLevelAt self.now l result.now }
        ensures in_range { IsLevelInRange result.now }
        ensures accepted { IsAccepted self.now }
    {
        &self.levels[(l - 1) as usize]
    }

    /// The level from which on up to the greatest a candidate must be clear to be open: 1 to the
    /// number of levels.
    pub fn resolve(&self) -> u32
        ensures value { pos result ≡ self.now.numbers.resolve }
        ensures numbered { 1 ≤ result }
        ensures there { result ≤ length self.now.levels }
        ensures accepted { IsAccepted self.now }
    {
        self.numbers.resolve as u32
    }

    /// Degrees of track that a second may change, 1 to 30.
    pub fn turn_rate(&self) -> i32
        ensures value { result ≡ self.now.numbers.turn_rate }
        ensures in_range { IsFrom (pos 1) (pos 30) result }
        ensures accepted { IsAccepted self.now }
    {
        self.numbers.turn_rate as i32
    }

    /// Ground speed, in 0.1 kt, that a second may change, 1 to 10000.
    pub fn gs_rate(&self) -> i32
        ensures value { result ≡ self.now.numbers.gs.rate }
        ensures in_range { IsFrom (pos 1) (pos 10000) result }
        ensures accepted { IsAccepted self.now }
    {
        self.numbers.gs.rate as i32
    }

    /// Vertical speed, in ft/min, that a second may change, 1 to 10000.
    pub fn vs_rate(&self) -> i32
        ensures value { result ≡ self.now.numbers.vs.rate }
        ensures in_range { IsFrom (pos 1) (pos 10000) result }
        ensures accepted { IsAccepted self.now }
    {
        self.numbers.vs.rate as i32
    }

    /// The vertical speed, in ft/min, at which a flight goes to an altitude, 1 to 10000.
    pub fn alt_rate(&self) -> i32
        ensures value { result ≡ self.now.numbers.alt.rate }
        ensures in_range { IsFrom (pos 1) (pos 10000) result }
        ensures accepted { IsAccepted self.now }
    {
        self.numbers.alt.rate as i32
    }

    /// The rates of the four kinds, each in its range.
    pub fn rates(&self) -> Rates
        ensures value { result ≡ rates_of self.now }
        ensures in_range { AreRatesInRange result }
        ensures accepted { IsAccepted self.now }
    {
        Rates {
            turn: self.turn_rate(),
            gs: self.gs_rate(),
            vs: self.vs_rate(),
            alt: self.alt_rate(),
        }
    }

    /// The grid of a kind.
    fn grid(&self, kind: Kind) -> Grid
        ensures value { result ≡ grid_of kind self.now }
        ensures accepted { IsAccepted self.now }
    {
        grid_of(&self.numbers, kind)
    }

    /// The counts of the kinds.
    fn counts(&self) -> CandidateCounts
        ensures value { AreCounts self.now.numbers result }
        ensures accepted { IsAccepted self.now }
    {
        self.counts
    }

    /// How many candidates the kind has, 1 to 512.
    pub fn count(&self, kind: Kind) -> u32
        ensures value { result ≡ length (values_of kind self.now) }
        ensures some { 1 ≤ result }
        ensures few { result ≤ 512 }
        ensures accepted { IsAccepted self.now }
    {
        self.counts().of(kind)
    }

    /// The value at an index of the kind's rising list, counted from 0, in the kind's unit.
    pub fn value(&self, kind: Kind, i: u32) -> i32
        requires { i < length (values_of kind self.now) }
        ensures value { slice_get (values_of kind self.now) i ≡ Some result }
        ensures within { IsFrom (least_of kind self.now) (greatest_of kind self.now) result }
        ensures in_range { IsInBounds (value_bounds kind) result }
        ensures accepted { IsAccepted self.now }
    {
        value_at(&self.grid(kind), i)
    }

    /// The least value of the kind, in its unit.
    #[tactic(auto, using(crate::proofs::GridLemmas::some_values))]
    pub fn least(&self, kind: Kind) -> i32
        ensures value { result ≡ least_of kind self.now }
        ensures listed { Contains (values_of kind self.now) result }
        ensures least { All (λ v. result ≤ℤ v) (values_of kind self.now) }
        ensures in_range { IsInBounds (value_bounds kind) result }
        ensures accepted { IsAccepted self.now }
    {
        self.value(kind, 0)
    }

    /// The greatest value of the kind, in its unit.
    pub fn greatest(&self, kind: Kind) -> i32
        ensures value { result ≡ greatest_of kind self.now }
        ensures listed { Contains (values_of kind self.now) result }
        ensures greatest { All (λ v. v ≤ℤ result) (values_of kind self.now) }
        ensures in_range { IsInBounds (value_bounds kind) result }
        ensures accepted { IsAccepted self.now }
    {
        self.value(kind, self.count(kind) - 1)
    }

    /// Where the kind's candidates begin in the whole list.
    #[tactic(auto, using(crate::proofs::CandidateLemmas::kind_within, crate::proofs::CandidateLemmas::kind_few), unfolding(crate::specs::Candidates::start_of))]
    pub fn start(&self, kind: Kind) -> u32
        ensures value { result ≡ start_of kind self.now }
        ensures within { result + length (values_of kind self.now) ≤ length
            (candidates_of self.now) }
        ensures few { result + length (values_of kind self.now) ≤ 1897 }
        ensures accepted { IsAccepted self.now }
    {
        let tracks = self.count(Kind::Track);
        match kind {
            Kind::Track => 1,
            Kind::GroundSpeed => 1 + tracks,
            Kind::VerticalSpeed => 1 + tracks + self.count(Kind::GroundSpeed),
            Kind::Altitude => {
                1 + tracks + self.count(Kind::GroundSpeed) + self.count(Kind::VerticalSpeed)
            }
        }
    }

    /// How many candidates the whole list has, at most 1897.
    #[tactic(auto, using(crate::proofs::CandidateLemmas::whole_ends), unfolding(crate::specs::Candidates::start_of))]
    pub fn total(&self) -> u32
        ensures value { result ≡ length (candidates_of self.now) }
        ensures some { 1 ≤ result }
        ensures few { result ≤ 1897 }
        ensures accepted { IsAccepted self.now }
    {
        self.start(Kind::Altitude) + self.count(Kind::Altitude)
    }

    /// The candidate at an index of the whole list: Hold at 0, then the candidates of track, ground
    /// speed, vertical speed and altitude.
    pub fn candidate(&self, index: u32) -> Candidate
        requires { index < length (candidates_of self.now) }
        ensures value { slice_get (candidates_of self.now) index ≡ Some result }
        ensures within { IsCandidateOf self.now result }
        ensures in_range { IsCandidateInRange result }
        ensures accepted { IsAccepted self.now }
    {
        if index < self.start(Kind::Track) {
            return Candidate::Hold;
        }
        if index < self.start(Kind::GroundSpeed) {
            return self.candidate_in(Kind::Track, index - self.start(Kind::Track));
        }
        if index < self.start(Kind::VerticalSpeed) {
            return self.candidate_in(Kind::GroundSpeed, index - self.start(Kind::GroundSpeed));
        }
        if index < self.start(Kind::Altitude) {
            return self.candidate_in(Kind::VerticalSpeed, index - self.start(Kind::VerticalSpeed));
        }
        self.candidate_in(Kind::Altitude, index - self.start(Kind::Altitude))
    }

    /// The candidate at an index of a kind's list, below `count`: the one that goes to the value
    /// that `value` has there.
    #[inline(always)]
    pub fn candidate_in(&self, kind: Kind, index: u32) -> Candidate
        requires { index < length (values_of kind self.now) }
        ensures value { slice_get (candidates_of self.now)
            (start_of kind self.now + index) ≡ Some result }
        ensures within { IsCandidateOf self.now result }
        ensures in_range { IsCandidateInRange result }
        ensures of { (z : ℤ) × (result ≡ candidate_to kind z) }
        ensures accepted { IsAccepted self.now }
    {
        let value = self.value(kind, index);
        match kind {
            Kind::Track => Candidate::Track(value),
            Kind::GroundSpeed => Candidate::GroundSpeed(value),
            Kind::VerticalSpeed => Candidate::VerticalSpeed(value),
            Kind::Altitude => Candidate::Altitude(value),
        }
    }
}

/// The grid of a kind, by a configuration's numbers.
#[tactic(auto, unfolding(crate::specs::Candidates::grid_of))]
fn grid_of(numbers: &Numbers, kind: Kind) -> Grid
    ensures { (settings : Settings) → settings.numbers ≡ numbers.now
        → result ≡ grid_of kind settings }
{
    match kind {
        Kind::Track => Grid {
            min: 0,
            max: 359,
            step: numbers.track_step,
            rate: numbers.turn_rate,
        },
        Kind::GroundSpeed => numbers.gs,
        Kind::VerticalSpeed => numbers.vs,
        Kind::Altitude => numbers.alt,
    }
}

/// Counts the candidates of a kind.
fn count_kind(numbers: &Numbers, kind: Kind) -> u32
    requires { AreOfAccepted numbers.now }
    ensures { (settings : Settings) → settings.numbers ≡ numbers.now
        → result ≡ count_of (grid_of kind settings) }
{
    count(&grid_of(numbers, kind)) as u32
}

/// Counts the candidates of each kind.
fn counts_of(numbers: &Numbers) -> CandidateCounts
    requires { AreOfAccepted numbers.now }
    ensures { AreCounts numbers.now result }
{
    CandidateCounts {
        tracks: count_kind(numbers, Kind::Track),
        speeds: count_kind(numbers, Kind::GroundSpeed),
        climbs: count_kind(numbers, Kind::VerticalSpeed),
        heights: count_kind(numbers, Kind::Altitude),
    }
}

/// The value of a grid at an index.
fn value_at(grid: &Grid, i: u32) -> i32
    requires grid { IsStepped grid.now }
    requires within { i < count_of grid.now }
    ensures { result ≡ grid.now.min +ℤ pos i *ℤ grid.now.step }
{
    (grid.min + i64::from(i) * grid.step) as i32
}
