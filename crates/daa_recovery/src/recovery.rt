//! The least time after which a candidate of a kind is clear.

ghost use Rattle.std.specs.Prelude.{◌≢◌, None};
ghost use Rattle.daa_state.specs.InRange.{IsPictureInRange};
ghost use Rattle.daa_recovery.specs.Recovery.{IsRecovery, IsSideRecovery};

use crate::outlook::Outlook;
use daa_config::{Config, Kind};
use daa_resolve::Side;
use daa_state::Picture;

/// After how many seconds, 1 to 179, a candidate of a kind is clear, and the value that it goes to:
/// degrees, 0.1 kt, ft/min or ft.
#[derive(Clone, Copy, Debug, PartialEq, Eq)]
pub struct Recovery {
    pub after: u32,
    pub value: i32,
}

/// The least number of seconds after which some candidate of the kind recovers, and one of the
/// values that recover then: the least, or with `nearest = 1` the nearest to the present value, and
/// of two equally near ones the one to the right or the greater. How near a track is goes by the
/// angle of the turn. `None` exactly if no candidate of the kind recovers. The configuration must
/// have a table of recovery.
pub fn least(config: &Config, picture: &Picture, kind: Kind) -> Option<Recovery>
    requires asked { config.now.recovery ≢ None }
    requires picture { IsPictureInRange picture.now }
    ensures { IsRecovery config.now picture.now kind result }
{
    match config.recovery() {
        Some(cylinder) => Outlook::of(config, picture, cylinder).least(kind, None),
        None => unreachable!(),
    }
}

/// The least number of seconds after which some candidate on a side of the present value recovers,
/// and of the values on that side that recover then one, chosen as by [`least`]. The sides are
/// those of the resolutions: right has the tracks 1 to 180 degrees to the right and left those 0 to
/// 179 degrees to the left; on the other kinds up has the values greater than the present one and
/// down the others. `None` exactly if no candidate on the side recovers. The configuration must
/// have a table of recovery.
pub fn least_on(config: &Config, picture: &Picture, kind: Kind, side: Side) -> Option<Recovery>
    requires asked { config.now.recovery ≢ None }
    requires picture { IsPictureInRange picture.now }
    ensures { IsSideRecovery side config.now picture.now kind result }
{
    match config.recovery() {
        Some(cylinder) => Outlook::of(config, picture, cylinder).least(kind, Some(side)),
        None => unreachable!(),
    }
}
