//! Laws of the definitions, each the contract of a function that does nothing.

ghost use Rattle.std.specs.Prelude.{◌≡◌, ◌↔◌, ◌<◌, ◌≤◌, ℕ, pos, ◌+ℤ◌, ◌*ℤ◌, ◌≤ℤ◌, Some, slice_get};
ghost use Rattle.daa_fixed.specs.One.{HasOne};
ghost use Rattle.daa_config.specs.declared.candidate.Candidate.{Candidate};
ghost use Rattle.daa_config.specs.declared.config.Rates.{Rates};
ghost use Rattle.daa_config.specs.declared.kind.Kind.{Kind};
ghost use Rattle.daa_config.specs.Settings.{Settings, IsAccepted};
ghost use Rattle.daa_state.specs.declared.word.Own.{Own};
ghost use Rattle.daa_state.specs.declared.word.Picture.{Picture};
ghost use Rattle.daa_state.specs.declared.word.Traffic.{Traffic};
ghost use Rattle.daa_state.specs.InRange.{IsPictureInRange};
ghost use Rattle.daa_state.specs.Picture.{aircraft_of};
ghost use Rattle.daa_legs.specs.Meeting.{Meets};
ghost use Rattle.daa_legs.specs.OwnLeg.{own_leg, place_on};
ghost use Rattle.daa_last.specs.Delayed.{height_since, leg_delayed, place_delayed};
ghost use Rattle.daa_last.specs.Last.{IsOpenDelayed, IsLastTime};

/// A flight that is delayed by 0 seconds is the candidate's flight.
pub fn delayed_by_0_is_the_candidate()
    ensures { (own : Own) (rates : Rates) (candidate : Candidate) (k : ℕ) →
        leg_delayed own rates 0 candidate k ≡ own_leg own rates candidate k }
{}

/// Before it begins, a delayed flight is the present one; it begins where the present flight is
/// then, above the present altitude by the seconds times the vertical speed.
pub fn held_before_it_begins()
    ensures legs { (own : Own) (rates : Rates) (m : ℕ) (candidate : Candidate) (k : ℕ) → k < m →
        leg_delayed own rates m candidate k ≡ own_leg own rates Candidate.Hold k }
    ensures place { (own : Own) (rates : Rates) (m : ℕ) (candidate : Candidate) →
        place_delayed own rates m candidate m ≡ place_on own rates Candidate.Hold m }
    ensures height { (own : Own) (rates : Rates) (m : ℕ) →
        (place_on own rates Candidate.Hold m).up ≡ pos 60 *ℤ own.alt +ℤ pos m *ℤ own.vs }
{}

/// Delayed by 0 seconds a candidate is open exactly if it is open: it meets no aircraft of the
/// moment at a level from `resolve` up.
pub fn open_by_0_is_open()
    ensures { (settings : Settings) (picture : Picture) (candidate : Candidate)
        → IsOpenDelayed settings picture candidate 0
        ↔ ((place : ℕ) (aircraft : Traffic) (l : ℕ)
        → slice_get (aircraft_of picture) place ≡ Some aircraft
        → settings.numbers.resolve ≤ℤ pos l
        → ¬ Meets settings picture.own candidate aircraft l) }
{}

/// Under an accepted configuration exactly one answer is right for each kind: its last time, or
/// that there is none.
pub fn has_one_last_time()
    ensures { (settings : Settings) (picture : Picture) (kind : Kind) → IsAccepted settings
        → IsPictureInRange picture
        → HasOne (IsLastTime settings picture kind) }
{}

/// Worked examples: a climb of 3000 ft/min is kept for 2 seconds from 1000 feet, and the flight
/// that begins then goes back there at 1000 ft/min. It begins at 1100 feet, which is 66000 units,
/// sinks by 1000 units a second, arrives after 6 seconds, and stays.
pub fn worked_examples()
    ensures begins { (own : Own) (rates : Rates) → own.alt ≡ pos 1000 → own.vs ≡ pos 3000
        → rates.alt ≡ pos 1000 → height_since own rates 2 (pos 1000) 0 ≡ pos 66000 }
    ensures sinks { (own : Own) (rates : Rates) → own.alt ≡ pos 1000 → own.vs ≡ pos 3000
        → rates.alt ≡ pos 1000 → height_since own rates 2 (pos 1000) 3 ≡ pos 63000 }
    ensures arrives { (own : Own) (rates : Rates) → own.alt ≡ pos 1000 → own.vs ≡ pos 3000
        → rates.alt ≡ pos 1000 → height_since own rates 2 (pos 1000) 6 ≡ pos 60000 }
    ensures stays { (own : Own) (rates : Rates) → own.alt ≡ pos 1000 → own.vs ≡ pos 3000
        → rates.alt ≡ pos 1000 → height_since own rates 2 (pos 1000) 9 ≡ pos 60000 }
{}
