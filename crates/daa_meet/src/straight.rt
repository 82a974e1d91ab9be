//! Whether a stretch of a flight at one velocity violates a volume: its seconds are one leg.

ghost use Rattle.std.specs.Prelude.{◌↔◌, ◌+◌, ◌<◌, ◌≤◌, IsTrue};
ghost use Rattle.daa_taumod.specs.Volume.{IsVolumeInRange};
ghost use Rattle.daa_config.specs.declared.candidate.Candidate.{Candidate};
ghost use Rattle.daa_config.specs.Settings.{Settings, rates_of};
ghost use Rattle.daa_state.specs.declared.word.Own.{Own};
ghost use Rattle.daa_state.specs.InRange.{IsTrafficInRange};
ghost use Rattle.daa_legs.specs.Runs.{IsOwnRunInRange, IsRunOf, MeetsBetween};

use crate::leg::violates_on;
use daa_legs::{OwnRun, relative_run};
use daa_state::Traffic;
use daa_taumod::Volume;

/// Whether a run that begins with second `k` violates the volume around the aircraft at some time.
/// Where the run is one of a candidate's flight, it does so exactly if one of its legs does, each
/// one second with both ends included. It has at most 180 seconds.
pub fn meets_on_run(run: &OwnRun, aircraft: &Traffic, volume: &Volume, k: u32) -> bool
    requires run { IsOwnRunInRange run.now }
    requires short { run.now.secs ≤ 180 }
    requires aircraft { IsTrafficInRange aircraft.now }
    requires volume { IsVolumeInRange volume.now }
    requires k { k < 180 }
    ensures { (settings : Settings) (own : Own) (candidate : Candidate)
        → IsRunOf own (rates_of settings) candidate k run.now
        → IsTrue result
        ↔ MeetsBetween settings own candidate aircraft.now volume.now k (k + run.now.secs) }
{
    violates_on(&relative_run(run, aircraft, k), volume, aircraft, k)
}
