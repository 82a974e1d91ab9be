//! Laws of the definitions: that their closed forms are the flights that are meant, and legs that
//! are known.

ghost use Rattle.std.specs.Prelude.{◌≡◌, ◌+◌, ℕ, ℤ, pos, negsuc, ◌*ℤ◌, ◌≤ℤ◌, codes};
ghost use Rattle.daa_fixed.specs.Toward.{toward_of};
ghost use Rattle.daa_fixed.specs.Leg.{plus, times};
ghost use Rattle.daa_heading.specs.Heading.{velocity_of};
ghost use Rattle.daa_config.specs.declared.config.Rates.{Rates};
ghost use Rattle.daa_config.specs.declared.candidate.Candidate.{Candidate};
ghost use Rattle.daa_config.specs.Settings.{AreRatesInRange, IsCandidateInRange};
ghost use Rattle.daa_state.specs.Bounds.{exact};
ghost use Rattle.daa_state.specs.declared.word.Own.{Own};
ghost use Rattle.daa_state.specs.declared.word.Traffic.{Traffic};
ghost use Rattle.daa_state.specs.InRange.{IsOwnInRange};
ghost use Rattle.daa_legs.specs.Turn.{turned};
ghost use Rattle.daa_legs.specs.Motion.{track_on, ground_speed_on, vertical_speed_on, height_after, velocity_on};
ghost use Rattle.daa_legs.specs.OwnLeg.{own_place, place_on};
ghost use Rattle.daa_legs.specs.Relative.{reported_place, traffic_place, traffic_velocity};

/// A flight begins where the ownship is, on leg 0 with the present track and ground speed, and with
/// the present vertical speed where it goes to one. Hold keeps the present velocity on every leg.
pub fn flights_begin_as_now()
    ensures place { (own : Own) (rates : Rates) (candidate : Candidate)
        → place_on own rates candidate 0 ≡ own_place own }
    ensures track { (own : Own) (rates : Rates) (candidate : Candidate) → IsOwnInRange own
        → track_on own rates candidate 0 ≡ own.trk }
    ensures ground_speed { (own : Own) (rates : Rates) (candidate : Candidate)
        → ground_speed_on own rates candidate 0 ≡ own.gs }
    ensures vertical_speed { (own : Own) (rates : Rates) (w : ℤ)
        → vertical_speed_on own rates (Candidate.VerticalSpeed w) 0 ≡ own.vs }
    ensures hold { (own : Own) (rates : Rates) (k : ℕ) → velocity_on own rates Candidate.Hold k
        ≡ record { flat = velocity_of own.gs own.trk; up = own.vs } }
{}

/// Where one leg ends the next begins.
pub fn legs_join()
    ensures { (own : Own) (rates : Rates) (candidate : Candidate) (k : ℕ) →
        place_on own rates candidate (k + 1)
        ≡ plus (place_on own rates candidate k) (velocity_on own rates candidate k) }
{}

/// From leg to leg a speed moves toward the candidate's by at most its rate, and each leg to an
/// altitude moves the height toward it by at most the rate: neither passes it, and both stay once
/// they are there.
pub fn legs_move_by_the_rates()
    ensures ground_speed { (own : Own) (rates : Rates) (g : ℤ) (k : ℕ) → AreRatesInRange rates →
        ground_speed_on own rates (Candidate.GroundSpeed g) (k + 1)
        ≡ toward_of (ground_speed_on own rates (Candidate.GroundSpeed g) k) g rates.gs }
    ensures vertical_speed { (own : Own) (rates : Rates) (w : ℤ) (k : ℕ) → AreRatesInRange rates →
        vertical_speed_on own rates (Candidate.VerticalSpeed w) (k + 1)
        ≡ toward_of (vertical_speed_on own rates (Candidate.VerticalSpeed w) k) w rates.vs }
    ensures height { (own : Own) (rates : Rates) (a : ℤ) (k : ℕ) → AreRatesInRange rates →
        (place_on own rates (Candidate.Altitude a) (k + 1)).up
        ≡ toward_of (place_on own rates (Candidate.Altitude a) k).up (pos 60 *ℤ a) rates.alt }
{}

/// A turn arrives: once half a turn could have been flown, the track is that of the candidate, and
/// stays.
pub fn turns_arrive()
    ensures { (own : Own) (rates : Rates) (c : ℤ) (k : ℕ) → IsOwnInRange own
        → IsCandidateInRange (Candidate.Track c)
        → pos 180 ≤ℤ (pos k *ℤ rates.turn) → track_on own rates (Candidate.Track c) k ≡ c }
{}

/// Turns, and places of an aircraft, that are known.
pub fn worked_examples()
    ensures right_at_180 { turned (pos 0) (pos 180) (pos 3) ≡ pos 3 }
    ensures right_before { turned (pos 0) (pos 179) (pos 3) ≡ pos 3 }
    ensures left_past { turned (pos 0) (pos 181) (pos 3) ≡ pos 357 }
    ensures arrives { turned (pos 350) (pos 5) (pos 30) ≡ pos 5 }
    ensures left_through_north { turned (pos 5) (pos 350) (pos 10) ≡ pos 355 }
    ensures aged { traffic_place (record {
      id = codes "A";
      x = pos 660;
      y = negsuc 999;
      alt = pos 1000;
      vx = pos 0;
      vy = pos 3600;
      vs = pos 60;
      age = 10;
      bounds = exact;
    }) 5 ≡ record { flat = record { east = pos 23760; north = pos 18000 }; up = pos 60900 } }
{}

/// A report of age 0 is where its aircraft is now, and the aircraft flies on from there.
pub fn new_reports_stand()
    ensures { (aircraft : Traffic) (k : ℕ) → aircraft.age ≡ 0
        → traffic_place aircraft k ≡ plus (reported_place aircraft)
        (times (pos k) (traffic_velocity aircraft)) }
{}
