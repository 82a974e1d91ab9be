//! Worked scenes: a configuration, an ownship and aircraft as their lines say them, and what the
//! scan answers.

ghost use Rattle.std.specs.Prelude.{◌≡◌, ◌≤◌, ◌<◌, IfSome, length};
ghost use Rattle.daa_config.specs.Candidates.{candidates_of};
ghost use Rattle.daa_state.specs.InRange.{IsPictureInRange};
ghost use Rattle.daa_state.specs.Picture.{aircraft_of};

mod flights;
mod reaching;
mod words;

use daa_config::{Config, read};
use daa_legs::{Branch, Trunk};
use daa_scan::{Scene, fill_flights};
use daa_schedule::Answers;
use daa_state::{Moments, Picture, read_line};
use std::alloc::{AllocError, Global};
use std::process::Abort;
use std::test::Fail;

/// A text of a configuration, and parts of it with their replacements.
#[derive(Drop)]
struct Settings {
    text: &'static str,
    edits: &'static [(&'static str, &'static str)],
}

/// The configuration of the settings.
fn config_of(rt: &(impl AllocGlobal + Abort), settings: &Settings) -> Result<Config, Fail> {
    let mut text = String::from_str(rt.alloc(), settings.text)?;
    for (old, new) in settings.edits {
        assert!(rt; text.contains(*old), "the text has no {old}");
        text = text.replacen(rt.alloc(), *old, *new, 1)?;
    }
    Ok(read(rt.alloc(), text.as_str().as_bytes())?)
}

/// The picture of the lines of a moment.
fn picture_in(lines: &[&str]) -> Option<Picture>
    ensures { IfSome result IsPictureInRange }
{
    let mut moments = Moments::new();
    for line in lines {
        let Ok(word) = read_line(line.as_bytes(), 2) else {
            return None;
        };
        match moments.take(word) {
            Ok(Some(picture)) => return Some(picture),
            Ok(None) => {}
            Err(_) => return None,
        }
    }
    None
}

/// How many branches are kept: one for each of the at most 1897 candidates.
const BRANCHES: usize = 1897;

/// Room for the branches of all candidates.
fn branches_for(config: &Config) -> [Branch; BRANCHES]
    ensures { length (candidates_of config.now) ≤ length result }
{
    // tells how many there are at most
    let _total = config.total();
    [Branch::new(); BRANCHES]
}

/// Room for the flights that lead on the sides of each kind.
fn eight() -> [Trunk; 8]
    ensures { length result ≡ 8 }
{
    [
        Trunk::new(),
        Trunk::new(),
        Trunk::new(),
        Trunk::new(),
        Trunk::new(),
        Trunk::new(),
        Trunk::new(),
        Trunk::new(),
    ]
}

/// The words of the units of a moment.
fn words_of(alloc: Global, config: &Config, picture: &Picture) -> Result<Vec<u64>, AllocError>
    requires { IsPictureInRange picture.now }
{
    let mut trunks = eight();
    let mut branches = branches_for(config);
    let needs = fill_flights(&mut trunks, &mut branches, config, picture);
    let scene = Scene::of(config, picture, &trunks, &branches, needs);
    let mut words = Vec::new(alloc);
    for unit in 0..scene.units() {
        words.push(scene.word(unit))?;
    }
    Ok(words)
}

/// The masks of all candidates against an aircraft, each asked for by itself.
fn masks_of(
    alloc: Global,
    config: &Config,
    picture: &Picture,
    place: u32,
) -> Result<Vec<u8>, AllocError>
    requires picture { IsPictureInRange picture.now }
    requires place { place < length (aircraft_of picture.now) }
{
    let mut trunks = eight();
    let mut branches = branches_for(config);
    let needs = fill_flights(&mut trunks, &mut branches, config, picture);
    let scene = Scene::of(config, picture, &trunks, &branches, needs);
    let mut masks = Vec::new(alloc);
    for index in 0..config.total() {
        masks.push(scene.levels(index, place))?;
    }
    Ok(masks)
}

/// How many aircraft of a moment are in reach.
fn count_in_reach(config: &Config, picture: &Picture) -> u32
    requires { IsPictureInRange picture.now }
{
    let mut trunks = eight();
    let mut branches = branches_for(config);
    let needs = fill_flights(&mut trunks, &mut branches, config, picture);
    let scene = Scene::of(config, picture, &trunks, &branches, needs);
    let mut count = 0u32;
    for place in 0..picture.traffic.len() {
        if scene.in_reach(place as u32) {
            count = count.saturating_add(1);
        }
    }
    count
}

/// Whether the first aircraft of a moment is in reach.
fn is_in_reach(config: &Config, picture: &Picture) -> bool
    requires picture { IsPictureInRange picture.now }
    requires some { 0 < length (aircraft_of picture.now) }
{
    let mut trunks = eight();
    let mut branches = branches_for(config);
    let needs = fill_flights(&mut trunks, &mut branches, config, picture);
    Scene::of(config, picture, &trunks, &branches, needs).in_reach(0)
}

fn may_be_shared<T: Send + Sync>() {}

/// The check refuses a type that may not be shared between threads.
fn scenes_may_be_shared() {
    may_be_shared::<Scene<'static>>();
}
