//! A configuration with a moment: what the scan answers of it.

ghost use Rattle.std.specs.Prelude.{◌≡◌, ◌<◌, ◌≤◌, ◌↔◌, ◌+◌, ◌^◌, ℕ, IsTrue, length, replicate, slice_get, slice_index, Contains, Some};
ghost use Rattle.daa_config.specs.Candidates.{candidates_of};
ghost use Rattle.daa_fixed.specs.Mask.{IsMaskOf};
ghost use Rattle.daa_config.specs.Settings.{IsAccepted, rates_of};
ghost use Rattle.daa_config.specs.declared.candidate.Candidate.{Candidate};
ghost use Rattle.daa_legs.specs.OwnLeg.{own_leg, IsOwnLegInRange};
ghost use Rattle.daa_state.specs.InRange.{IsPictureInRange};
ghost use Rattle.daa_state.specs.Picture.{aircraft_of};
ghost use Rattle.daa_scan.specs.Inside.Encounter.{IsEncounter};
ghost use Rattle.daa_scan.specs.Reach.{IsInReach, IsInReachAt};
ghost use Rattle.daa_scan.specs.Adding.{AddsLevels};
ghost use Rattle.daa_scan.specs.SceneState.{MeetsAt};
ghost use Rattle.daa_scan.specs.Trunks.{AreFlightsOf};
ghost use Rattle.daa_scan.specs.Units.{group_count, most_groups};
ghost use Rattle.daa_scan.specs.Packed.{places_in_reach, packed_word, entry_at};

use crate::encounter::Encounter;
use crate::marking::mark_levels;
use crate::needs::Needs;
use crate::reach::is_in_reach;
use crate::trunks::Trunks;
use arrayvec::ArrayVec;
use daa_config::packing::{GROUP, WIDTH};
use daa_config::{Candidate, Config, Kind};
use daa_legs::{Branch, OwnLeg, Trunk, present_leg, traffic_now};
use daa_schedule::Answers;
use daa_state::{MOST_AIRCRAFT, Own, Picture, Traffic};
use std::marker::Model;

/// How many candidates a word has.
const PLACES: usize = 12;

/// A configuration with a moment. Contracts see it as a `SceneState`.
#[derive(Drop)]
pub struct Scene<'a> {
    config: &'a Config,
    picture: &'a Picture,
    groups: u32,
    // the places of the aircraft in reach, in the moment's order
    places: ArrayVec<u32, MOST_AIRCRAFT>,
    trunks: Trunks<'a>,
    // the first leg of the present flight
    hold: OwnLeg,
}

impl<'a> Model for Scene<'a> {
    ghost use Rattle.daa_scan.specs.SceneState.{SceneState};
    ghost use Rattle.daa_scan.specs.Inside.Scene.{IsScene};

    ghost Value = { SceneState };

    ghost view = { λ s. record { settings = s.config.now; picture = s.picture.now } };

    ghost invariant = { λ s. IsScene (record {
      settings = s.config.now;
      picture = s.picture.now;
    }) s.groups s.places.items s.trunks s.hold };
}

impl<'a> Scene<'a> {
    /// The scene of a configuration and an ended moment, with the flights that are needed: those
    /// that lead on the sides of each kind and the candidates' branches.
    pub fn of(
        config: &'a Config,
        picture: &'a Picture,
        trunks: &'a [Trunk],
        branches: &'a [Branch],
        needs: Needs,
    ) -> Scene<'a>
        requires picture { IsPictureInRange picture.now }
        requires room { length trunks.now ≡ 8 }
        requires flights { AreFlightsOf config.now picture.now needs trunks.now branches.now }
        ensures { result ≡ record { settings = config.now; picture = picture.now } }
    {
        let hold = present_leg(&picture.own, config);
        Scene {
            config,
            picture,
            groups: groups_of(config),
            places: places_near(config, picture, &hold),
            trunks: Trunks::of(trunks, branches, needs),
            hold,
        }
    }

    /// The mask of the levels at which candidate `index` of the whole list meets aircraft
    /// `aircraft` of the moment: bit l - 1 is set exactly where the candidate's flight violates
    /// level l's volume round the aircraft at some time within the level's lookahead. Bits past the
    /// levels are 0.
    pub fn levels(&self, index: u32, aircraft: u32) -> u8
        requires index { index < length (candidates_of self.now.settings) }
        requires aircraft { aircraft < length (aircraft_of self.now.picture) }
        ensures { IsMaskOf (MeetsAt self.now index aircraft)
            (length self.now.settings.levels) result }
    {
        // ensures that the index is small
        let _total = self.config.total();
        let mut masks = [0u8; 1];
        self.levels_from(index, aircraft, &mut masks);
        masks[0]
    }

    /// The masks of the candidates from number `first` of the whole list on against an aircraft,
    /// each as `levels` gives it. The masks are 0 before. What stands past the list says nothing.
    pub fn levels_from(&self, first: u32, aircraft: u32, masks: &mut [u8])
        requires aircraft { aircraft < length (aircraft_of self.now.picture) }
        requires short { first + length masks.old < 2 ^ 32 }
        requires clear { masks.old ≡ replicate (length masks.old) 0 }
        ensures masks { (j : ℕ) → j < length masks.new
            → first + j < length (candidates_of self.now.settings)
            → IsMaskOf (MeetsAt self.now (first + j) aircraft) (length self.now.settings.levels)
            (slice_index masks.new j) }
        ensures length { length masks.new ≡ length masks.old }
    {
        self.add_from(first, aircraft, masks);
    }

    /// Adds to the masks of the candidates from the first of the whole list on the levels at which
    /// each meets an aircraft: bit l - 1 is then set exactly where it was, or where the candidate's
    /// flight violates level l's volume round the aircraft at some time within the level's
    /// lookahead. What is set already is not tested, so that all aircraft of a moment together cost
    /// less than each alone. Masks past the list stay as they were.
    pub fn add_levels(&self, aircraft: u32, masks: &mut [u8])
        requires aircraft { aircraft < length (aircraft_of self.now.picture) }
        requires short { length masks.old < 2 ^ 32 }
        ensures masks { (j : ℕ) → j < length masks.new
            → AddsLevels (MeetsAt self.now j aircraft) (length self.now.settings.levels)
            (slice_index masks.old j) (slice_index masks.new j) }
        ensures length { length masks.new ≡ length masks.old }
    {
        self.add_from(0, aircraft, masks);
    }

    /// Adds to the masks of the candidates from number `first` of the whole list on, as
    /// `add_levels` does to those from the first on.
    fn add_from(&self, first: u32, aircraft: u32, masks: &mut [u8])
        requires aircraft { aircraft < length (aircraft_of self.now.picture) }
        requires short { first + length masks.old < 2 ^ 32 }
        ensures masks { (j : ℕ) → j < length masks.new
            → AddsLevels (MeetsAt self.now (first + j) aircraft)
            (length self.now.settings.levels) (slice_index masks.old j) (slice_index masks.new j) }
        ensures length { length masks.new ≡ length masks.old }
    {
        if !self.in_reach(aircraft) {
            return;
        }
        let met = self.aircraft(aircraft);
        let encounter = Encounter {
            config: self.config,
            own: &self.picture.own,
            aircraft: met,
            hold: &self.hold,
            place: traffic_now(met),
        };
        mark_levels(&encounter, &self.trunks, first, masks);
    }

    /// Whether the aircraft is near enough to be met: by its place now, the greatest speeds at
    /// which it and a candidate can near each other, and some level's thresholds and lookahead. An
    /// aircraft that is not in reach is met by no candidate at any level within the level's
    /// lookahead.
    pub fn in_reach(&self, aircraft: u32) -> bool
        requires { aircraft < length (aircraft_of self.now.picture) }
        ensures exact { IsTrue result ↔ IsInReachAt self.now aircraft }
        ensures meets_in_reach { (index l : ℕ) → MeetsAt self.now index aircraft l → IsTrue result }
    {
        is_among(aircraft, self.places.as_slice())
    }

    /// How many groups of twelve the whole list of candidates has, 1 to 159; the last group may
    /// have fewer.
    pub fn groups(&self) -> u32
        ensures value { result ≡ group_count self.now.settings }
        ensures some { 1 ≤ result }
        ensures few { result ≤ most_groups }
    {
        self.groups
    }

    /// How many aircraft are in reach, at most 64.
    pub(crate) fn count_in_reach(&self) -> u32
        ensures listed { result ≡ length (places_in_reach self.now) }
        ensures few { result ≤ 64 }
    {
        self.places.len() as u32
    }

    /// The place, in the moment's list, of the aircraft whose index among those in reach is
    /// `index`.
    fn place_in_list(&self, index: u32) -> u32
        requires { index < length (places_in_reach self.now) }
        ensures value { result ≡ slice_index (places_in_reach self.now) index }
        ensures there { result < length (aircraft_of self.now.picture) }
    {
        self.places.as_slice()[index as usize]
    }

    /// The word of a group of candidates and an aircraft.
    fn word_of_group(&self, aircraft: u32, group: u32) -> u64
        requires aircraft { aircraft < length (aircraft_of self.now.picture) }
        requires group { group < most_groups }
        ensures { result ≡ packed_word self.now aircraft group }
    {
        let mut masks = [0u8; PLACES];
        self.levels_from(group * GROUP, aircraft, &mut masks);
        let mut word = 0;
        let mut j = GROUP;
        while j > 0 {
            j -= 1;
            word = (word << WIDTH) + self.entry(aircraft, group * GROUP + j, masks[j as usize]);
        }
        word
    }

    /// What a word says of the candidate at an index: a bit that says that it is there, and above
    /// it the levels at which it meets the aircraft, which are this mask; 0 where the index is past
    /// the list.
    fn entry(&self, aircraft: u32, index: u32, mask: u8) -> u64
        requires aircraft { aircraft < length (aircraft_of self.now.picture) }
        requires mask { index < length (candidates_of self.now.settings)
            → IsMaskOf (MeetsAt self.now index aircraft) (length self.now.settings.levels) mask }
        ensures value { result ≡ entry_at self.now aircraft index }
        ensures small { result < 32 }
    {
        if index < self.config.total() {
            1 + 2 * u64::from(mask)
        } else {
            0
        }
    }

    /// The aircraft at a place of the moment's list.
    fn aircraft(&self, place: u32) -> &Traffic
        requires { place < length (aircraft_of self.now.picture) }
        ensures { slice_get (aircraft_of self.now.picture) place ≡ Some result.now }
    {
        &self.picture.traffic[place as usize]
    }
}

impl<'a> Answers for Scene<'a> {
    ghost use Rattle.daa_scan.specs.Reach.{NoneIsMetOutOfReach};
    ghost use Rattle.daa_scan.specs.Units.{most_units, AreWordsOf, IsWordOfUnit};
    ghost use Rattle.daa_scan.specs.Packed.{words_of};
    ghost use Rattle.daa_scan.specs.Inside.Packed.{words_real};

    ghost answers = { words_of };

    /// One for each group of twelve candidates and each aircraft in reach; 0 where none is in
    /// reach, and at most 10176. The words say what each candidate meets of the aircraft in reach,
    /// and it meets no other.
    fn units(&self) -> u32
        ensures value { result ≡ length (words_of self.now) }
        ensures words { AreWordsOf self.now (words_of self.now) }
        ensures few { result ≤ most_units }
        ensures reach { NoneIsMetOutOfReach self.now }
    {
        self.groups * self.count_in_reach()
    }

    /// The word of a unit, which is group `unit % groups` of the aircraft with index
    /// `unit / groups` among those in reach, in input order: five bits for each of twelve
    /// candidates, the first the lowest. The lowest of the five says that the candidate exists,
    /// the others are the levels from 1 to 4 that it meets the aircraft at.
    fn word(&self, unit: u32) -> u64
        requires { unit < length (words_of self.now) }
        ensures value { result ≡ slice_index (words_of self.now) unit }
        ensures field { IsWordOfUnit self.now unit result }
    {
        let aircraft = self.place_in_list(unit / self.groups);
        self.word_of_group(aircraft, unit % self.groups)
    }

    ghost real = { words_real };
}

/// The places of the aircraft that are near enough to be met at all, in the moment's order, where
/// the present flight has this first leg.
fn places_near(config: &Config, picture: &Picture, hold: &OwnLeg) -> ArrayVec<u32, MOST_AIRCRAFT>
    requires picture { IsPictureInRange picture.now }
    requires hold { hold.now ≡ own_leg picture.now.own (rates_of config.now) Candidate.Hold 0 }
    requires in_range { IsOwnLegInRange hold.now }
    ensures { result.items ≡ places_in_reach
        (record { settings = config.now; picture = picture.now }) }
{
    let mut places = ArrayVec::new();
    for place in 0..picture.traffic.len() as u32 {
        if is_near(config, &picture.own, hold, &picture.traffic[place as usize]) {
            places.push(place);
        }
    }
    places
}

/// Whether an aircraft is near enough to be met at all, where the present flight has this first
/// leg.
fn is_near(config: &Config, own: &Own, hold: &OwnLeg, aircraft: &Traffic) -> bool
    requires { IsEncounter config.now own.now aircraft.now hold.now }
    ensures { IsTrue result ↔ IsInReach config.now own.now aircraft.now }
{
    is_in_reach(&Encounter {
        config,
        own,
        aircraft,
        hold,
        place: traffic_now(aircraft),
    })
}

/// Whether a place is one of these.
fn is_among(place: u32, places: &[u32]) -> bool
    ensures { IsTrue result ↔ Contains places.now place }
{
    places.contains(&place)
}

/// How many groups of twelve the candidates have; those that go to an altitude are the last of the
/// whole list.
#[tactic(auto, using(daa_config::proofs::CandidateLemmas::whole_ends))]
fn groups_of(config: &Config) -> u32
    ensures value { result ≡ group_count config.now }
    ensures accepted { IsAccepted config.now }
{
    (config.start(Kind::Altitude) + config.count(Kind::Altitude)).div_ceil(GROUP)
}
