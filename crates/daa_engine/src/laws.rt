//! Laws of the definitions, each the contract of a function that does nothing.

ghost use Rattle.std.specs.Prelude.{◌≡◌, ◌<◌, ◌≤◌, ◌^◌, ◌↔◌, ℕ, List, length, false, None, Some};
ghost use Rattle.std.specs.Prelude.{slice_get};
ghost use Rattle.std.specs.List.{All};
ghost use Rattle.daa_bands.specs.Board.{HasLevelOn, IsBoardOf, mask_levels};
ghost use Rattle.daa_bands.specs.KindBands.{AreKindBands};
ghost use Rattle.daa_bands.specs.declared.band.Band.{Band};
ghost use Rattle.daa_config.specs.Candidates.{candidate_to, candidates_of};
ghost use Rattle.daa_config.specs.declared.candidate.Candidate.{Candidate};
ghost use Rattle.daa_config.specs.declared.candidate.Resolution.{Resolution};
ghost use Rattle.daa_config.specs.declared.kind.Kind.{Kind};
ghost use Rattle.daa_fixed.specs.Mask.{IsGreatestLevel};
ghost use Rattle.daa_fixed.specs.One.{HasOne};
ghost use Rattle.daa_config.specs.Settings.{Settings, IsAccepted};
ghost use Rattle.daa_state.specs.declared.word.Picture.{Picture};
ghost use Rattle.daa_state.specs.declared.word.Own.{Own};
ghost use Rattle.daa_state.specs.declared.word.Traffic.{Traffic};
ghost use Rattle.daa_state.specs.InRange.{IsPictureInRange};
ghost use Rattle.daa_legs.specs.Alerts.{IsAlertLevel, IsFirstLeg, IsNowLevel};
ghost use Rattle.daa_last.specs.Last.{IsLastTime, IsOpenDelayed};
ghost use Rattle.daa_recovery.specs.Recovery.{IsRecovery};
ghost use Rattle.daa_recovery.specs.declared.recovery.Recovery.{Recovery};
ghost use Rattle.daa_report.specs.Lines.{Text};
ghost use Rattle.daa_resolve.specs.Resolution.{IsResolution};
ghost use Rattle.daa_resolve.specs.declared.side.Side.{Side};
ghost use Rattle.daa_engine.specs.Clear.{flight_after, flight_of, named_by};
ghost use Rattle.daa_engine.specs.Clear.{HasOpenAfter, IsClearAheadAbove, IsClearAt, IsClearBefore};
ghost use Rattle.daa_engine.specs.Clear.{IsClearNowAbove, IsOpenInTruth, RecoversInTruth};
ghost use Rattle.daa_engine.specs.ClearText.{IsClearBand, IsClearText};
ghost use Rattle.daa_engine.specs.Covered.{CoveredAt};
ghost use Rattle.daa_engine.specs.Longest.{longest_moment};
ghost use Rattle.daa_engine.specs.MomentText.{IsMomentText};
ghost use Rattle.daa_engine.specs.PlainText.{IsPlainText, IsTextWithoutLastTimes};

/// Under a configuration that is accepted exactly one text is that of a picture in range. This
/// holds of the definitions alone, whatever a program does: no memory or sink is in it.
pub fn every_picture_has_one_text()
    ensures { (settings : Settings) (picture : Picture) → IsAccepted settings
        → IsPictureInRange picture
        → HasOne (IsMomentText settings picture) }
{}

/// Under a configuration that is accepted a picture has no two texts, in range or not.
pub fn has_one_text()
    ensures { (settings : Settings) (picture : Picture) (a b : Text) → IsAccepted settings
        → IsMomentText settings picture a
        → IsMomentText settings picture b → a ≡ b }
{}

/// A picture has at most one board: two boards of the covered candidates have the same levels.
/// So the workers' board is that of one thread.
pub fn has_one_board()
    ensures { (settings : Settings) (picture : Picture) (a b : List ℕ) (index l : ℕ)
        → IsBoardOf (CoveredAt settings picture) settings a
        → IsBoardOf (CoveredAt settings picture) settings b → 1 ≤ l
        → HasLevelOn a index l → HasLevelOn b index l }
{}

/// What a board shows is what aircraft do: if a board stands for what is covered, its bands, its
/// answers and its levels are the bands, the answers and the levels of what is covered.
pub fn boards_show_what_is_covered()
    ensures bands { (settings : Settings) (picture : Picture) (board : List ℕ) (kind : Kind)
        (bands : List Band)
        → IsAccepted settings
        → IsBoardOf (CoveredAt settings picture) settings board
        → AreKindBands (HasLevelOn board) mask_levels settings kind bands
        → AreKindBands (CoveredAt settings picture) (length settings.levels) settings kind bands }
    ensures resolutions { (settings : Settings) (picture : Picture) (board : List ℕ) (kind : Kind)
        (side : Side)
        (resolution : Resolution) → IsAccepted settings
        → IsBoardOf (CoveredAt settings picture) settings board
        → IsResolution (HasLevelOn board) settings picture.own kind side resolution
        → IsResolution (CoveredAt settings picture) settings picture.own kind side resolution }
    ensures levels { (settings : Settings) (picture : Picture) (board : List ℕ) (index level : ℕ)
        → IsAccepted settings
        → IsBoardOf (CoveredAt settings picture) settings board
        → index < length (candidates_of settings)
        → IsGreatestLevel (HasLevelOn board index) mask_levels level
        → IsGreatestLevel (CoveredAt settings picture index) (length settings.levels) level }
{}

/// Where a configuration asks neither for last times nor for a recovery, the text is the plain one,
/// `IsPlainText`, which says nothing of either.
pub fn texts_without_a_recovery_are_as_before()
    ensures { (settings : Settings) (picture : Picture) (text : Text)
        → settings.last_times ≡ false → settings.recovery ≡ None
        → IsMomentText settings picture text ↔ IsPlainText settings picture text }
{}

/// Where a configuration asks for no last times, the text is the one of `IsTextWithoutLastTimes`,
/// which says nothing of last times.
pub fn texts_without_last_times_are_as_before()
    ensures { (settings : Settings) (picture : Picture) (text : Text)
        → settings.last_times ≡ false
        → IsMomentText settings picture text ↔ IsTextWithoutLastTimes settings picture text }
{}

/// The text of a picture in range, whose time is a `u32`, has at most 130176 bytes: 64 for each of
/// 2034 lines. There can be four lines more, of last times: they fit, since other lines are shorter
/// than 64 bytes. So a sheet that has room for one byte more is never full.
pub fn texts_are_short()
    ensures { (settings : Settings) (picture : Picture) (text : Text) → IsAccepted settings
        → IsPictureInRange picture
        → picture.time < 2 ^ 32 → IsMomentText settings picture text
        → length text ≤ longest_moment }
{}

/// What is open is clear in truth: a candidate that is not covered at a level violates it within
/// the level's lookahead in no truth that is within what the reports may err by. So a candidate is
/// clear at each level above the one that is shown of it, and the value of a band at each level
/// above the band's; and the flight that an answer names is clear at the corrective level and at
/// each level above it. A truth is a place and a velocity in the whole units of a leg, at one time.
pub fn open_candidates_are_clear_in_truth()
    ensures candidates { (settings : Settings) (picture : Picture) (index l : ℕ)
        (candidate : Candidate)
        → slice_get (candidates_of settings) index ≡ Some candidate
        → ¬ CoveredAt settings picture index l
        → IsClearAt settings picture (flight_of settings picture.own candidate) 0 l }
    ensures levels { (settings : Settings) (picture : Picture) (index shown l : ℕ)
        (candidate : Candidate)
        → slice_get (candidates_of settings) index ≡ Some candidate
        → IsGreatestLevel (CoveredAt settings picture index) (length settings.levels) shown
        → shown < l
        → IsClearAt settings picture (flight_of settings picture.own candidate) 0 l }
    ensures bands { (settings : Settings) (picture : Picture) (kind : Kind) (bands : List Band)
        → IsAccepted settings
        → AreKindBands (CoveredAt settings picture) (length settings.levels) settings kind bands
        → All (IsClearBand settings picture kind) bands }
    ensures resolutions { (settings : Settings) (picture : Picture) (kind : Kind) (side : Side)
        (resolution : Resolution) (candidate : Candidate)
        → IsResolution (CoveredAt settings picture) settings picture.own kind side resolution
        → named_by kind resolution ≡ Some candidate
        → IsOpenInTruth settings picture (flight_of settings picture.own candidate) 0 }
{}

/// A delayed flight that is open is open in truth. So after the seconds of a last time some flight
/// of its kind is.
pub fn last_times_are_open_in_truth()
    ensures delayed { (settings : Settings) (picture : Picture) (candidate : Candidate) (m : ℕ)
        → IsOpenDelayed settings picture candidate m
        → IsOpenInTruth settings picture (flight_after settings picture.own m candidate) 0 }
    ensures last_times { (settings : Settings) (picture : Picture) (kind : Kind) (m : ℕ)
        → IsLastTime settings picture kind (Some m)
        → HasOpenAfter settings picture kind m }
{}

/// A recovery recovers in truth: from its second on the flight is open, and it stays out of the
/// cylinder from the beginning.
pub fn recoveries_recover_in_truth()
    ensures { (settings : Settings) (picture : Picture) (kind : Kind) (r : Recovery)
        → IsRecovery settings picture kind (Some r)
        → RecoversInTruth settings picture (candidate_to kind r.value) r.after }
{}

/// In truth an aircraft violates no level above its level now; and on the present flight it
/// violates no level above its alert within that level's alert time, and the alert's level not
/// before its first second.
pub fn alerts_miss_no_true_violation()
    ensures now { (settings : Settings) (own : Own) (aircraft : Traffic) (level : ℕ)
        → IsNowLevel settings own aircraft level
        → IsClearNowAbove settings own aircraft level }
    ensures alerts { (settings : Settings) (own : Own) (aircraft : Traffic) (level : ℕ)
        → IsAlertLevel settings own aircraft level
        → IsClearAheadAbove settings own aircraft level }
    ensures first { (settings : Settings) (own : Own) (aircraft : Traffic) (l k : ℕ)
        → IsFirstLeg settings own aircraft l k
        → IsClearBefore settings own aircraft l k }
{}

/// Under a configuration that is accepted, what the text of a moment says to be clear is clear in
/// truth: by its levels, its bands, its answers, its last times and its recoveries.
pub fn texts_say_what_is_clear_in_truth()
    ensures { (settings : Settings) (picture : Picture) (text : Text) → IsAccepted settings
        → IsMomentText settings picture text → IsClearText settings picture text }
{}
