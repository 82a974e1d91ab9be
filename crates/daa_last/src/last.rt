//! The last time at which a manoeuvre of a kind may begin.

ghost use Rattle.daa_state.specs.InRange.{IsPictureInRange};
ghost use Rattle.daa_last.specs.Last.{IsLastTime};

use crate::search::is_some_open;
use crate::side::sides_of;
use crate::starts::starts_of;
use daa_config::{Candidate, Config, Kind};
use daa_legs::Trunk;
use daa_recovery::horizon_of;
use daa_state::Picture;

/// The last time of a kind: the greatest number of seconds for which the present flight may be kept
/// such that some candidate of the kind that begins then is open. It is open if no aircraft
/// violates a level from `resolve` up at any time of any leg before that level's lookahead. The
/// number is at most 179, and below the greatest lookahead of these levels. A later start may be
/// open where an earlier one is not. `None` exactly if no candidate of the kind is open at any such
/// number.
pub fn last_of(config: &Config, picture: &Picture, kind: Kind) -> Option<u32>
    requires { IsPictureInRange picture.now }
    ensures { IsLastTime config.now picture.now kind result }
{
    let horizon = horizon_of(config);
    let mut held = Trunk::new();
    held.fill(&picture.own, config, Candidate::Hold, horizon);
    let mut m = starts_of(config, picture, &held, horizon);
    let sides = sides_of(config, &picture.own, kind, horizon);
    while m > 0 {
        m -= 1;
        if is_some_open(config, picture, kind, &sides, held.leg(m), m, horizon) {
            return Some(m);
        }
    }
    None
}
