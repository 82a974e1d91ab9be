//! Which seconds of a kind's candidates may violate a level's volume. A change of track or ground
//! speed alone keeps the heights of the present flight, a change of height alone its way over
//! ground, so that one test of the present flight decides for all of them.

ghost use Rattle.std.specs.Prelude.{◌≡◌, ◌≤◌, ◌↔◌, ◌+◌, ◌*ℤ◌, ◌≤ℤ◌, ℕ, pos};
ghost use Rattle.daa_config.specs.declared.candidate.Candidate.{Candidate};
ghost use Rattle.daa_fixed.specs.Leg.{IsLegInRange};
ghost use Rattle.daa_fixed.specs.Time.{HoldsSometime};
ghost use Rattle.daa_taumod.specs.Volume.{IsVolumeInRange, Violates};
ghost use Rattle.daa_taumod.specs.declared.Volume.{Volume};
ghost use Rattle.daa_vwindow.specs.Window.{HasSmallNumbers};
ghost use Rattle.daa_config.specs.Settings.{IsLevelInRange, rates_of};
ghost use Rattle.daa_legs.specs.Violating.{ViolatesBy};
ghost use Rattle.daa_legs.specs.Meeting.{MeetsWithin};
ghost use Rattle.daa_legs.specs.OwnLeg.{own_leg};
ghost use Rattle.daa_legs.specs.Relative.{relative_for};
ghost use Rattle.daa_legs.specs.Inside.Shared.{in_plane};
ghost use Rattle.daa_scan.specs.Inside.Refusal.{window_of, AreSecondsInHeight, AreWindowsOf};

use crate::encounter::Encounter;
use daa_config::{Candidate, Kind, Level};
use daa_detect::is_hit;
use daa_fixed::{Flat, Leg, Point, Solid};
use daa_legs::{OwnRun, relative_run_from};
use daa_meet::are_exact;
use daa_taumod::Volume;
use daa_vwindow::window;

/// Seconds of a flight, as numbers of its legs: from `begin` on, before `end`.
#[derive(Clone, Copy, Debug)]
pub(crate) struct Seconds {
    pub(crate) begin: u32,
    pub(crate) end: u32,
}

/// The seconds of each kind: of tracks and ground speeds, and of vertical speeds and altitudes.
#[derive(Clone, Copy, Debug)]
pub(crate) struct Windows {
    pub(crate) turns: Seconds,
    pub(crate) climbs: Seconds,
}

impl Windows {
    /// The seconds of a kind.
    pub(crate) fn of(&self, kind: Kind) -> Seconds
        ensures { result ≡ window_of self.now kind }
    {
        match kind {
            Kind::Track => self.turns,
            Kind::GroundSpeed => self.turns,
            Kind::VerticalSpeed => self.climbs,
            Kind::Altitude => self.climbs,
        }
    }
}

/// The longest flight, and so the longest lookahead.
const LONGEST: u32 = 180;

/// No second.
const NONE: Seconds = Seconds {
    begin: LONGEST,
    end: LONGEST,
};

/// Each second.
const ALL: Seconds = Seconds {
    begin: 0,
    end: LONGEST,
};

/// So many seconds of the present flight as one leg, as the aircraft sees it.
pub(crate) fn present_run(encounter: &Encounter, secs: u32) -> Leg
    requires some { 1 ≤ secs }
    requires short { secs ≤ 180 }
    ensures value { result ≡ relative_for secs
        (own_leg encounter.now.own.now (rates_of encounter.now.config.now) Candidate.Hold 0)
        encounter.now.aircraft.now 0 }
    ensures in_range { IsLegInRange result }
    ensures seconds { (volume : Volume)
        → HoldsSometime result.secs (ViolatesBy encounter.now.aircraft.now 0 result volume)
        ↔ MeetsWithin encounter.now.config.now encounter.now.own.now Candidate.Hold
        encounter.now.aircraft.now volume secs }
{
    let run = OwnRun {
        place: encounter.hold.place,
        velocity: encounter.hold.velocity,
        secs,
    };
    relative_run_from(&run, encounter.aircraft, &encounter.place, 0)
}

/// The seconds in which the candidates of each kind may violate a level's volume, by the present
/// flight's seconds up to its lookahead as one leg. Where what is reported may err, each second is
/// among them.
pub(crate) fn windows_at(encounter: &Encounter, level: &Level, present: &Leg) -> Windows
    requires level { IsLevelInRange level.now }
    requires present { present.now ≡ relative_for level.now.lookahead
        (own_leg encounter.now.own.now (rates_of encounter.now.config.now) Candidate.Hold 0)
        encounter.now.aircraft.now 0 }
    requires in_range { IsLegInRange present.now }
    ensures { AreWindowsOf encounter.now.config.now encounter.now.own.now
        encounter.now.aircraft.now level.now result }
{
    if !are_exact(&encounter.aircraft.bounds) {
        return Windows {
            turns: ALL,
            climbs: ALL,
        };
    }
    Windows {
        turns: seconds_in_height(present, &level.volume),
        climbs: seconds_in_plane(present, &level.volume),
    }
}

/// The seconds of a straight flight, flown on as far as any level looks ahead, in which its heights
/// violate the vertical part of the volume.
fn seconds_in_height(present: &Leg, volume: &Volume) -> Seconds
    requires present { IsLegInRange present.now }
    requires volume { IsVolumeInRange volume.now }
    ensures { AreSecondsInHeight present.now volume.now result }
{
    let longest = Leg {
        place: present.place,
        velocity: present.velocity,
        secs: LONGEST,
    };
    match window(&longest, volume) {
        Some((begin, end)) => Seconds {
            begin: first_second(&begin),
            end: last_second(&end) + 1,
        },
        None => NONE,
    }
}

/// The first second that ends at the time or after it.
fn first_second(time: &Point) -> u32
    requires { HasSmallNumbers time.now }
    ensures { (k : ℕ) → time.now.num ≤ℤ (pos (k + 1) *ℤ time.now.den) → result ≤ k }
{
    (time.num as u32).saturating_sub(1) / time.den as u32
}

/// The last second that begins at the time or before it.
fn last_second(time: &Point) -> u32
    requires { HasSmallNumbers time.now }
    ensures last { (k : ℕ) → (pos k *ℤ time.now.den) ≤ℤ time.now.num → k ≤ result }
    ensures few { result ≤ 7200000 }
{
    time.num as u32 / time.den as u32
}

/// All seconds where the way of the leg over ground violates the horizontal part of the volume at
/// some time, else none.
fn seconds_in_plane(leg: &Leg, volume: &Volume) -> Seconds
    requires leg { IsLegInRange leg.now }
    requires volume { IsVolumeInRange volume.now }
    ensures begin { HoldsSometime leg.now.secs (Violates (in_plane leg.now) volume.now)
        → result.begin ≡ 0 }
    ensures end { result.end ≡ 180 }
{
    if is_hit(&way_alone(leg), volume) {
        ALL
    } else {
        NONE
    }
}

/// The leg as if both flew at one height.
fn way_alone(leg: &Leg) -> Leg
    requires { IsLegInRange leg.now }
    ensures value { result ≡ in_plane leg.now }
    ensures in_range { IsLegInRange result }
{
    Leg {
        place: Solid {
            flat: leg.place.flat,
            up: 0,
        },
        velocity: Solid {
            flat: leg.velocity.flat,
            up: 0,
        },
        secs: leg.secs,
    }
}
