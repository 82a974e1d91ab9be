//! Laws of flights where reports may err.

ghost use Rattle.std.specs.Prelude.{ℕ, ℤ, pos, true, ◌≡◌, ◌≤◌, ◌<◌, ◌≤ℤ◌, ◌⊎◌, ◌↔◌};
ghost use Rattle.daa_fixed.specs.declared.Leg.{Leg};
ghost use Rattle.daa_fixed.specs.Time.{HoldsSometime, IsTime};
ghost use Rattle.daa_taumod.specs.declared.Volume.{Volume};
ghost use Rattle.daa_taumod.specs.Volume.{IsVolumeInRange, Violates};
ghost use Rattle.daa_config.specs.declared.candidate.Candidate.{Candidate};
ghost use Rattle.daa_config.specs.Settings.{Settings, IsAccepted, IsCandidateInRange};
ghost use Rattle.daa_state.specs.declared.word.Own.{Own};
ghost use Rattle.daa_state.specs.declared.word.Traffic.{Traffic};
ghost use Rattle.daa_state.specs.InRange.{IsOwnInRange, IsTrafficInRange};
ghost use Rattle.daa_legs.specs.Violating.{ViolatesBy};
ghost use Rattle.daa_legs.specs.Meeting.{relative_leg, ViolatesOn};
ghost use Rattle.daa_legs.specs.Runs.{MeetsBetween};
ghost use Rattle.daa_margin.specs.ErrorBounds.{IsWithinErrors};
ghost use Rattle.daa_state.specs.declared.word.PairBounds.{PairBounds};
ghost use Rattle.daa_meet.specs.InTruth.{ViolatesInTruth};
ghost use Rattle.daa_meet.specs.Wider.{AreBoundsNoWider, bounded};
ghost use Rattle.daa_legs.specs.Errors.{are_exact, errors_on};
ghost use Rattle.daa_meet.specs.Offset.{IsWithinBounds, Offset, true_leg};

/// Where both reports are exact, what is violated is what the reports say.
pub fn exact_reports_are_taken_as_the_truth()
    ensures { (settings : Settings) (own : Own) (candidate : Candidate) (aircraft : Traffic)
        (volume : Volume) (k : ℕ) → are_exact aircraft.bounds ≡ true →
        ViolatesOn settings own candidate aircraft volume k
        ↔ HoldsSometime 1 (Violates (relative_leg settings own candidate aircraft k) volume) }
{}

/// No true violation of any leg is missed: where some truth that is within what the reports may
/// err by violates the volume at a time of a leg that begins at second k, by any of the four
/// models, the aircraft violates it as it is decided. So a flight that is decided to be clear is
/// clear in truth.
pub fn no_true_violation_of_a_leg_is_missed()
    ensures { (aircraft : Traffic) (k : ℕ) (leg : Leg) (volume : Volume) (n d : ℤ) →
        pos 0 ≤ℤ n → pos 1 ≤ℤ d →
        ViolatesInTruth aircraft k leg volume n d →
        ViolatesBy aircraft k leg volume n d }
{}

/// No true violation is missed: where the truth violates the volume at some time of leg k, by any
/// of the four models, and is at that time within what the reports may err by, the flight may
/// violate the volume on leg k. Nothing is asked of the truth at other times.
pub fn no_true_violation_is_missed()
    ensures { (settings : Settings) (own : Own) (candidate : Candidate)
        (aircraft : Traffic) (volume : Volume) (k : ℕ) (truth : Leg) (n d : ℤ) → IsTime 1 n d →
        IsWithinErrors (errors_on aircraft.bounds aircraft.age k) truth
        (relative_leg settings own candidate aircraft k) n d →
        Violates truth volume n d →
        ViolatesOn settings own candidate aircraft volume k }
{}

/// What may not be met is clear for every truth: where the flight may violate the volume on no leg
/// from `first` on, before `upto`, no truth that is within what the reports may err by violates it
/// at any time of these legs.
pub fn what_may_not_meet_is_clear()
    ensures { (settings : Settings) (own : Own) (candidate : Candidate)
        (aircraft : Traffic) (volume : Volume) (first upto : ℕ) →
        ¬ MeetsBetween settings own candidate aircraft volume first upto →
        (k : ℕ) (truth : Leg) (n d : ℤ) → first ≤ k → k < upto → IsTime 1 n d →
        IsWithinErrors (errors_on aircraft.bounds aircraft.age k) truth
        (relative_leg settings own candidate aircraft k) n d →
        ¬ Violates truth volume n d }
{}

/// Errors that stay as they are from the reports on are within these bounds at each time: a place
/// that is off by at most the bound, and a velocity that is, of the ownship and of the aircraft.
pub fn constant_errors_are_within()
    ensures { (bounds : PairBounds) (own aircraft : Offset) (leg : Leg) (age k : ℕ) (n d : ℤ) →
        IsWithinBounds bounds.own own → IsWithinBounds bounds.aircraft aircraft →
        pos 0 ≤ℤ n → pos 1 ≤ℤ d →
        IsWithinErrors (errors_on bounds age k) (true_leg leg own aircraft age k) leg n d }
{}

/// With wider bounds no less may be met.
pub fn wider_bounds_meet_no_less()
    ensures on_a_leg { (wide : PairBounds) (settings : Settings) (own : Own)
        (candidate : Candidate) (aircraft : Traffic) (volume : Volume) (k : ℕ) →
        AreBoundsNoWider aircraft.bounds wide →
        ViolatesOn settings own candidate aircraft volume k →
        ViolatesOn settings own candidate (bounded wide aircraft) volume k }
    ensures between { (wide : PairBounds) (settings : Settings) (own : Own)
        (candidate : Candidate) (aircraft : Traffic) (volume : Volume) (first upto : ℕ) →
        AreBoundsNoWider aircraft.bounds wide →
        MeetsBetween settings own candidate aircraft volume first upto →
        MeetsBetween settings own candidate (bounded wide aircraft) volume first upto }
{}

/// Whether a flight may violate a volume on a leg, or on one of several, can be decided.
pub fn flights_are_decidable()
    ensures on_a_leg { (settings : Settings) (own : Own)
        (candidate : Candidate) (aircraft : Traffic) (volume : Volume) (k : ℕ) →
        IsAccepted settings → IsOwnInRange own → IsCandidateInRange candidate →
        IsTrafficInRange aircraft → IsVolumeInRange volume → k < 180 →
        ViolatesOn settings own candidate aircraft volume k
        ⊎ ¬ ViolatesOn settings own candidate aircraft volume k }
    ensures between { (settings : Settings) (own : Own)
        (candidate : Candidate) (aircraft : Traffic) (volume : Volume) (first upto : ℕ) →
        IsAccepted settings → IsOwnInRange own → IsCandidateInRange candidate →
        IsTrafficInRange aircraft → IsVolumeInRange volume →
        upto ≤ 180 →
        MeetsBetween settings own candidate aircraft volume first upto
        ⊎ ¬ MeetsBetween settings own candidate aircraft volume first upto }
{}

/// What the ownship minus an aircraft may err by at second 7, where the aircraft's report was five
/// seconds old at the moment: the ownship's errors have grown for 7 seconds, the aircraft's for 12.
pub fn worked_examples()
    ensures errors { errors_on (record {
      own = record { place = 1; height = 2; speed = 3; climb = 4 };
      aircraft = record { place = 10; height = 20; speed = 30; climb = 40 };
    }) 5 7 ≡ record { place = 777; speed = 33; height = 1828; climb = 44 } }
{}
