//! The levels at which the candidates of a stretch of the whole list meet an aircraft. Level after
//! level is gone through, and at each level the kinds: what the candidates of a side share of their
//! flights is tested once.

ghost use Rattle.std.specs.Prelude.{◌≡◌, ◌-◌, ◌<◌, ◌≤◌, ◌^◌, ◌↔◌, ◌+◌, ◌⊎◌, ℕ, IsTrue, List, false, length, max, bit_or, slice_index, slice_index_or};
ghost use Rattle.daa_fixed.specs.Leg.{IsLegInRange};
ghost use Rattle.daa_fixed.specs.Mask.{HasLevel};
ghost use Rattle.daa_fixed.specs.Time.{HoldsSometime};
ghost use Rattle.daa_config.specs.Candidates.{start_of, values_of};
ghost use Rattle.daa_config.specs.Settings.{IsLevelAt};
ghost use Rattle.daa_config.specs.declared.candidate.Candidate.{Candidate};
ghost use Rattle.daa_config.specs.declared.level.Level.{Level};
ghost use Rattle.daa_legs.specs.declared.branch.Branch.{Branch};
ghost use Rattle.daa_legs.specs.Violating.{ViolatesBy};
ghost use Rattle.daa_state.specs.declared.word.Own.{Own};
ghost use Rattle.daa_state.specs.declared.word.Traffic.{Traffic};
ghost use Rattle.daa_scan.specs.Trunks.{is_needed};
ghost use Rattle.daa_scan.specs.Inside.Encounter.{AreKeptFor, IsNestedAt};
ghost use Rattle.daa_scan.specs.Inside.Rounds.{settings_in, own_in, aircraft_in, IsMet};
ghost use Rattle.daa_scan.specs.Inside.Sharing.{IsSure, IsTrailAt, IsTrailFor, IsLed, IsBranchBy};
ghost use Rattle.daa_scan.specs.Inside.Marking.{AreLeadsOf, AreTrailsOf, AreMasks, AreMarkedUpto, AddsNext, IsNumberOf, IsBranchIn, IsStretchAt, AreStretchesAt};

use crate::encounter::{Encounter, Round};
use crate::nesting::lies_within;
use crate::refusal::{Seconds, present_run, windows_at};
use crate::sharing::{meets_by_branch, sure_past, walk_ahead};
use crate::trail::Trail;
use crate::trunks::{Trunks, lead_to};
use daa_config::{Candidate, Config, Kind};
use daa_fixed::Leg;
use daa_legs::{Branch, Trunk};
use daa_meet::{are_exact, violates_on};

/// So many candidates are passed over by one look at their masks, where none of them is asked.
const TOGETHER: u32 = 16;

/// How far the flights that lead on both sides of a kind were walked.
#[derive(Clone, Copy, Debug)]
pub(crate) struct Trails {
    pub(crate) upper: Trail,
    pub(crate) lower: Trail,
}

/// The flights that lead on both sides of a kind.
#[derive(Clone, Copy)]
pub(crate) struct Leads<'a> {
    pub(crate) upper: &'a Trunk,
    pub(crate) lower: &'a Trunk,
}

/// Where the candidates of a kind are in the whole list, the number of the first and that after the
/// last; and so many legs of the flights that lead on its two sides violate nothing of the level
/// that was last gone through.
#[derive(Clone, Copy)]
pub(crate) struct Stretch {
    pub(crate) from: u32,
    pub(crate) upto: u32,
    pub(crate) upper: u32,
    pub(crate) lower: u32,
}

/// The stretch of each kind. To find one takes divisions, so that they are found once for all
/// levels.
#[derive(Clone, Copy)]
pub(crate) struct Stretches {
    pub(crate) tracks: Stretch,
    pub(crate) speeds: Stretch,
    pub(crate) climbs: Stretch,
    pub(crate) heights: Stretch,
}

/// Adds to the masks, which are those of the candidates from number `first` of the whole list on,
/// the levels at which each meets the aircraft. A level that is there already is not tested.
pub(crate) fn mark_levels(encounter: &Encounter, trunks: &Trunks, first: u32, masks: &mut [u8])
    requires trunks { AreKeptFor encounter.now.config.now encounter.now.own.now
        encounter.now.aircraft.now trunks.now }
    requires short { first + length masks.old < 2 ^ 32 }
    ensures masks { AreMasks encounter.now.config.now encounter.now.own.now
        encounter.now.aircraft.now first (length encounter.now.config.now.levels)
        masks.old masks.new }
    ensures length { length masks.new ≡ length masks.old }
{
    let mut stretches = stretches_of(encounter.config);
    for done in 0..encounter.config.levels() {
        mark_level(encounter, trunks, done + 1, &mut stretches, first, masks);
    }
}

/// Where the candidates of each kind are in the whole list, before any level.
fn stretches_of(config: &Config) -> Stretches
    ensures { (own : Own) (aircraft : Traffic) → AreStretchesAt config.now own aircraft 0 result }
{
    Stretches {
        tracks: stretch_of(config, Kind::Track),
        speeds: stretch_of(config, Kind::GroundSpeed),
        climbs: stretch_of(config, Kind::VerticalSpeed),
        heights: stretch_of(config, Kind::Altitude),
    }
}

/// Where the candidates of a kind are in the whole list, before any level.
fn stretch_of(config: &Config, kind: Kind) -> Stretch
    ensures { (own : Own) (aircraft : Traffic) → IsStretchAt config.now own aircraft kind 0 result }
{
    let from = config.start(kind);
    Stretch {
        from,
        upto: from + config.count(kind),
        upper: 0,
        lower: 0,
    }
}

/// Goes on to level `l`, where the levels before it were added.
fn mark_level(
    encounter: &Encounter,
    trunks: &Trunks,
    l: u32,
    stretches: &mut Stretches,
    first: u32,
    masks: &mut [u8],
)
    requires trunks { AreKeptFor encounter.now.config.now encounter.now.own.now
        encounter.now.aircraft.now trunks.now }
    requires l { (1 ≤ l) × (l ≤ length encounter.now.config.now.levels) }
    requires stretches { AreStretchesAt encounter.now.config.now encounter.now.own.now
        encounter.now.aircraft.now (l - 1) stretches.old }
    requires short { first + length masks.old < 2 ^ 32 }
    ensures masks { (before : List ℕ)
        → AreMasks encounter.now.config.now encounter.now.own.now encounter.now.aircraft.now
        first (l - 1) before masks.old
        → AreMasks encounter.now.config.now encounter.now.own.now encounter.now.aircraft.now
        first l before masks.new }
    ensures length { length masks.new ≡ length masks.old }
    ensures stretches { AreStretchesAt encounter.now.config.now encounter.now.own.now
        encounter.now.aircraft.now l stretches.new }
{
    let level = encounter.config.level(l);
    let present = present_run(encounter, level.lookahead);
    let round = Round {
        encounter: *encounter,
        trunks,
        l,
        level: *level,
        windows: windows_at(encounter, level, &present),
        nested: is_nested(encounter, l),
    };
    mark_present(&round, &present, first, masks);
    mark_kind(&round, Kind::Track, &mut stretches.tracks, first, masks);
    mark_kind(
        &round,
        Kind::GroundSpeed,
        &mut stretches.speeds,
        first,
        masks,
    );
    mark_kind(
        &round,
        Kind::VerticalSpeed,
        &mut stretches.climbs,
        first,
        masks,
    );
    mark_kind(&round, Kind::Altitude, &mut stretches.heights, first, masks);
}

/// Whether the reports are exact and level `l` lies within the one before it.
fn is_nested(encounter: &Encounter, l: u32) -> bool
    requires { (1 ≤ l) × (l ≤ length encounter.now.config.now.levels) }
    ensures { (level : Level) → IsLevelAt encounter.now.config.now l level → IsTrue result
        → IsNestedAt encounter.now.config.now encounter.now.aircraft.now l level }
{
    let config = encounter.config;
    if !are_exact(&encounter.aircraft.bounds) {
        return false;
    }
    l > 1 && lies_within(config.level(l), config.level(l - 1))
}

/// Adds the level to the mask of the present flight alone, the first of the whole list, whose
/// seconds up to the lookahead are one leg.
fn mark_present(round: &Round, present: &Leg, first: u32, masks: &mut [u8])
    requires in_range { IsLegInRange present.now }
    requires seconds { HoldsSometime present.now.secs
        (ViolatesBy (aircraft_in round.now) 0 present.now round.now.level.volume)
        ↔ IsMet round.now Candidate.Hold }
    ensures masks { (before : List ℕ)
        → AreMasks (settings_in round.now) (own_in round.now) (aircraft_in round.now)
        first (round.now.l - 1) before masks.old
        → AreMarkedUpto round.now first 1 before masks.new }
    ensures length { length masks.new ≡ length masks.old }
{
    if first == 0 && masks.len() > 0 {
        masks[0] = present_mask(round, present, masks[0]);
    }
}

/// The mask of the present flight with the level.
fn present_mask(round: &Round, present: &Leg, mask: u8) -> u8
    requires in_range { IsLegInRange present.now }
    requires seconds { HoldsSometime present.now.secs
        (ViolatesBy (aircraft_in round.now) 0 present.now round.now.level.volume)
        ↔ IsMet round.now Candidate.Hold }
    ensures { AddsNext round.now 0 mask result }
{
    let met = violates_on(present, &round.level.volume, round.encounter.aircraft, 0);
    with_level(mask, round.l, met)
}

/// Adds the level to the masks of the candidates of a kind, after those of the kinds before it.
/// Where the level lies within the one before, the flights that lead are walked on from where that
/// one let them be.
fn mark_kind(round: &Round, kind: Kind, stretch: &mut Stretch, first: u32, masks: &mut [u8])
    requires stretch { IsStretchAt (settings_in round.now) (own_in round.now)
        (aircraft_in round.now) kind (round.now.l - 1) stretch.old }
    requires short { first + length masks.old < 2 ^ 32 }
    ensures masks { (before : List ℕ)
        → AreMarkedUpto round.now first (start_of kind (settings_in round.now)) before masks.old
        → AreMarkedUpto round.now first (start_of kind (settings_in round.now)
        + length (values_of kind (settings_in round.now))) before masks.new }
    ensures length { length masks.new ≡ length masks.old }
    ensures stretch { IsStretchAt (settings_in round.now) (own_in round.now)
        (aircraft_in round.now) kind round.now.l stretch.new }
{
    begin_level(round, kind, stretch);
    if !round.trunks.has(kind) {
        return;
    }
    let seconds = round.windows.of(kind);
    if seconds.begin >= round.level.lookahead {
        return;
    }
    let from = stretch.from.max(first);
    let upto = stretch.upto.min(first + masks.len() as u32);
    if round.nested && !some_has_level(masks, first, from, upto, round.l - 1) {
        return;
    }
    let mut trails = Trails {
        upper: begun(seconds, stretch.upper, round.level.lookahead),
        lower: begun(seconds, stretch.lower, round.level.lookahead),
    };
    // lent once, since a write of a mask could change what lends it, for all the compiler knows
    let branches = round.trunks.branches();
    let leads = leads_of(round, kind);
    let mut at = from;
    while at < upto {
        let end = next_end(at, upto);
        if some_is_open(round, masks, at - first, end - first) {
            for index in at..end {
                let j = (index - first) as usize;
                let branch = &branches[index as usize];
                masks[j] = next_mask(round, kind, index, branch, &leads, &mut trails, masks[j]);
            }
        }
        at = end;
    }
    stretch.upper = trails.upper.walked;
    stretch.lower = trails.lower.walked;
}

/// The flights that lead on both sides of a kind, found once for all its candidates.
#[inline(always)]
fn leads_of<'a>(round: &'a Round, kind: Kind) -> Leads<'a>
    ensures { AreLeadsOf round.now kind result }
{
    Leads {
        upper: round.trunks.trunk(kind, true),
        lower: round.trunks.trunk(kind, false),
    }
}

/// Keeps what is clear of the level before if this level lies within it: what violates nothing of
/// that one violates nothing of this one. Else nothing is known yet.
fn begin_level(round: &Round, kind: Kind, stretch: &mut Stretch)
    requires { IsStretchAt (settings_in round.now) (own_in round.now) (aircraft_in round.now) kind
        (round.now.l - 1) stretch.old }
    ensures { IsStretchAt (settings_in round.now) (own_in round.now) (aircraft_in round.now) kind
        round.now.l stretch.new }
{
    if !round.nested {
        stretch.upper = 0;
        stretch.lower = 0;
    }
}

/// A trail of which the seconds before a kind's are walked, and the legs that are clear.
fn begun(seconds: Seconds, clear: u32, lookahead: u32) -> Trail
    ensures walked { result.walked ≡ max seconds.begin clear }
    ensures end { result.end ≡ seconds.end }
    ensures hit { result.hit ≡ false }
    ensures sure { IsSure lookahead result }
    ensures answer { result.answer ≡ 0 }
{
    let mut trail = Trail {
        walked: seconds.begin.max(clear),
        end: seconds.end,
        hit: false,
        past: u32::MAX,
        answer: 0,
    };
    trail.past = sure_past(&trail, lookahead);
    trail
}

/// The mask of the candidate at an index of the whole list, one of a kind that has this branch,
/// with the level.
#[inline(always)]
fn next_mask(
    round: &Round,
    kind: Kind,
    index: u32,
    branch: &Branch,
    leads: &Leads,
    trails: &mut Trails,
    mask: u8,
) -> u8
    requires index { IsNumberOf (settings_in round.now) kind index }
    requires branch { (d : Branch)
        → slice_index_or round.now.trunks.now.branches index d ≡ branch.now }
    requires needed { IsTrue (is_needed round.now.trunks.now.needs kind) }
    requires leads { AreLeadsOf round.now kind leads.now }
    requires trails { AreTrailsOf round.now kind trails.old }
    ensures mask { AddsNext round.now index mask result }
    ensures trails { AreTrailsOf round.now kind trails.new }
{
    // most candidates are answered here, so that it is asked before the mask is
    let trail = trail_on(trails, branch.upper);
    if is_after(branch.leaves, trail.past) {
        return mask | trail.answer;
    }
    if round.nested && !has_level(mask, round.l - 1) {
        return mask;
    }
    if has_level(mask, round.l) {
        return mask;
    }
    let met = meets_shared(round, kind, index, branch, leads, trails);
    with_level(mask, round.l, met)
}

/// The trail of a side.
#[inline(always)]
fn trail_on(trails: &Trails, upper: bool) -> &Trail
    ensures upper { IsTrue upper → result.now ≡ trails.now.upper }
    ensures lower { upper ≡ false → result.now ≡ trails.now.lower }
{
    if upper { &trails.upper } else { &trails.lower }
}

/// Whether a leg is after another.
#[inline(always)]
fn is_after(leg: u32, other: u32) -> bool
    ensures { IsTrue result → (other < leg) × (leg < 2 ^ 32) }
{
    leg > other
}

/// Whether some mask of those of the candidates from number `from` to before number `upto` of the
/// whole list has level `l`, where the first mask is that of candidate `first`.
fn some_has_level(masks: &[u8], first: u32, from: u32, upto: u32, l: u32) -> bool
    requires from { first ≤ from }
    requires upto { upto ≤ first + length masks.now }
    requires l { (1 ≤ l) × (l ≤ 8) }
    ensures { result ≡ false → (j : ℕ) → from ≤ first + j → first + j < upto
        → ¬ HasLevel (slice_index masks.now j) l }
{
    let mut all = 0;
    for index in from..upto {
        all |= masks[(index - first) as usize];
    }
    has_level(all, l)
}

/// The end of those candidates from `at` on that are passed over or gone through together.
#[inline(always)]
fn next_end(at: u32, upto: u32) -> u32
    requires { at < upto }
    ensures after { at < result }
    ensures within { result ≤ upto }
    ensures few { result ≤ at + 16 }
{
    if upto - at < TOGETHER {
        upto
    } else {
        at + TOGETHER
    }
}

/// Whether the level is to be tested for one of the masks from number `at` to before number `end`,
/// as far as one look tells: some mask has it not, and where it lies within the one before, some
/// mask has that one. Fewer than are looked at together are not looked at.
#[inline(always)]
fn some_is_open(round: &Round, masks: &[u8], at: u32, end: u32) -> bool
    requires order { at ≤ end }
    requires end { end ≤ length masks.now }
    requires together { end ≤ at + 16 }
    ensures { result ≡ false → (j : ℕ) → at ≤ j → j < end
        → HasLevel (slice_index masks.now j) round.now.l
        ⊎ (IsTrue round.now.nested × ¬ HasLevel (slice_index masks.now j) (round.now.l - 1)) }
{
    if end - at < TOGETHER {
        return true;
    }
    let mut some = 0;
    let mut all = 255;
    for i in 0..TOGETHER {
        // (a sum of 32 bits would keep the compiler from looking at all of them at once)
        let mask = masks[at as usize + i as usize];
        some |= mask;
        all &= mask;
    }
    if round.nested && !has_level(some, round.l - 1) {
        return false;
    }
    !has_level(all, round.l)
}

/// Whether a mask has level `l`.
fn has_level(mask: u8, l: u32) -> bool
    requires { (1 ≤ l) × (l ≤ 8) }
    ensures { IsTrue result ↔ HasLevel mask l }
{
    mask >> (l - 1) & 1 == 1
}

/// The mask, with level `l` where that one is met.
fn with_level(mask: u8, l: u32, met: bool) -> u8
    requires { (1 ≤ l) × (l ≤ 8) }
    ensures met { IsTrue met → result ≡ bit_or mask (2 ^ (l - 1)) }
    ensures not_met { met ≡ false → result ≡ mask }
{
    // (without a branch, as the mask's bits)
    mask | u8::from(met) << (l - 1)
}

/// Whether the candidate at an index of the whole list, one of a kind, that has this branch meets
/// the aircraft within the level's lookahead.
#[inline(always)]
fn meets_shared(
    round: &Round,
    kind: Kind,
    index: u32,
    branch: &Branch,
    leads: &Leads,
    trails: &mut Trails,
) -> bool
    ghost candidate: { Candidate }
    requires branch { IsBranchIn round.now kind candidate branch.now }
    requires needed { IsTrue (is_needed round.now.trunks.now.needs kind) }
    requires leads { AreLeadsOf round.now kind leads.now }
    requires trails { AreTrailsOf round.now kind trails.old }
    ensures met { IsTrue result ↔ IsMet round.now candidate }
    ensures trails { AreTrailsOf round.now kind trails.new }
{
    let lead = lead_to(round.encounter.own, kind, branch.upper);
    if branch.upper {
        meets_along(round, lead, leads.upper, branch, &mut trails.upper)
    } else {
        meets_along(round, lead, leads.lower, branch, &mut trails.lower)
    }
}

/// Whether the candidate that has this branch, which violates nothing from the trail's end on,
/// meets the aircraft within the level's lookahead. The trail is walked on as far as is needed.
#[inline(always)]
fn meets_along(
    round: &Round,
    lead: Candidate,
    trunk: &Trunk,
    branch: &Branch,
    trail: &mut Trail,
) -> bool
    ghost candidate: { Candidate }
    requires lead { IsLed round.now lead trunk.now }
    requires branch { IsBranchBy round.now lead candidate branch.now }
    requires trail { IsTrailFor round.now lead candidate trail.old }
    ensures met { IsTrue result ↔ IsMet round.now candidate }
    ensures trail { IsTrailAt round.now lead trail.new }
    ensures end { trail.new.end ≡ trail.old.end }
{
    let upto = branch.leaves.min(round.level.lookahead);
    walk_ahead(round, lead, trunk, trail, upto);
    meets_by_branch(round, lead, trunk, trail, branch)
}
