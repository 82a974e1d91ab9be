//! Until when the present flight is clear: no manoeuvre that begins later can be open.

ghost use Rattle.std.specs.Prelude.{◌≤◌, MatchOption};
ghost use Rattle.daa_taumod.specs.Volume.{IsVolumeInRange};
ghost use Rattle.daa_config.specs.declared.candidate.Candidate.TheVariants.{Hold};
ghost use Rattle.daa_config.specs.Settings.{rates_of};
ghost use Rattle.daa_state.specs.InRange.{IsOwnInRange, IsPictureInRange, IsTrafficInRange};
ghost use Rattle.daa_legs.specs.Trunk.{AreLegsOf};
ghost use Rattle.daa_last.specs.Inside.Starts.{AreHeldClear, IsFirstHeld, AreStarts};
ghost use Rattle.daa_last.specs.Inside.Starts.{AreStartsBeside, AreStartsUnder};

use crate::aircraft::aircraft_at;
use daa_config::{Config, Level};
use daa_legs::{Trunk, relative};
use daa_meet::violates_on;
use daa_state::{Own, Picture, Traffic};
use daa_taumod::Volume;

/// How many delays from 0 on, at most `horizon`, are worth a try: the present flight, whose legs
/// are `held`, is clear up to each of them, and not up to any further one.
pub(crate) fn starts_of(config: &Config, picture: &Picture, held: &Trunk, horizon: u32) -> u32
    requires picture { IsPictureInRange picture.now }
    requires horizon { horizon ≤ 180 }
    requires held { AreLegsOf picture.now.own (rates_of config.now) Hold horizon held.now }
    ensures { AreStarts config.now picture.now horizon result }
{
    let mut starts = horizon;
    for place in 0..picture.traffic.len() as u32 {
        starts = starts_beside(
            config,
            &picture.own,
            held,
            aircraft_at(picture, place),
            starts,
        );
    }
    starts
}

/// How many delays, at most `most`, are worth a try beside one aircraft alone.
fn starts_beside(config: &Config, own: &Own, held: &Trunk, aircraft: &Traffic, most: u32) -> u32
    requires own { IsOwnInRange own.now }
    requires most { most ≤ 180 }
    requires held { AreLegsOf own.now (rates_of config.now) Hold most held.now }
    requires aircraft { IsTrafficInRange aircraft.now }
    ensures { AreStartsBeside config.now own.now aircraft.now most result }
{
    let mut starts = most;
    for l in config.resolve()..config.levels() + 1 {
        starts = starts_under(config, own, held, aircraft, config.level(l), starts);
    }
    starts
}

/// How many delays, at most `most`, are worth a try beside one aircraft at one level alone.
fn starts_under(
    config: &Config,
    own: &Own,
    held: &Trunk,
    aircraft: &Traffic,
    level: &Level,
    most: u32,
) -> u32
    requires own { IsOwnInRange own.now }
    requires most { most ≤ 180 }
    requires held { AreLegsOf own.now (rates_of config.now) Hold most held.now }
    requires aircraft { IsTrafficInRange aircraft.now }
    requires level { IsVolumeInRange level.now.volume }
    ensures { AreStartsUnder config.now own.now aircraft.now level.now most result }
{
    let upto = most.min(level.lookahead);
    match first_held(config, own, held, aircraft, &level.volume, upto) {
        Some(k) => k + 1,
        None => most,
    }
}

/// The first leg of the present flight before `upto` that violates the volume.
fn first_held(
    config: &Config,
    own: &Own,
    held: &Trunk,
    aircraft: &Traffic,
    volume: &Volume,
    upto: u32,
) -> Option<u32>
    requires own { IsOwnInRange own.now }
    requires upto { upto ≤ 180 }
    requires held { AreLegsOf own.now (rates_of config.now) Hold upto held.now }
    requires aircraft { IsTrafficInRange aircraft.now }
    requires volume { IsVolumeInRange volume.now }
    ensures { MatchOption result
        (AreHeldClear config.now own.now aircraft.now volume.now upto)
        (IsFirstHeld config.now own.now aircraft.now volume.now upto) }
{
    let _rates = config.rates();
    for k in 0..upto {
        if violates_on(&relative(held.leg(k), aircraft, k), volume, aircraft, k) {
            return Some(k);
        }
    }
    None
}
