//! The moments of an exercise, counted by the workers side by side.

ghost use Rattle.std.specs.Prelude.{◌≡◌, ◌≤◌, ◌<◌, All, length};
ghost use Rattle.daa_exercise.specs.Inside.Counting.{AreCounted};
ghost use Rattle.daa_exercise.specs.Inside.Stints.{HasStints, IsStint};
ghost use Rattle.daa_exercise.specs.Outputs.{outputs_of};

use crate::clerk::{Clerk, FOR_ONE_TICKET, Stint};
use crate::counting::Counts;
use crate::sequence::Sequence;
use daa_config::Config;
use daa_engine::{Tickets, workers_for};
use daa_io::Gate;
use std::alloc::Global;
use std::thread;
use std::thread::Threads;

/// What a drawn moment weighs in the mean: it has four aircraft.
const WEIGHT: usize = 6;

/// So many clerks, each with room for so many parts, if there is memory for them.
fn some_clerks(alloc: Global, count: u32, parts: usize) -> Option<Vec<Clerk>> {
    let mut clerks = Vec::new(alloc);
    for number in 0..count {
        let clerk = Clerk::new(alloc, number, parts)?;
        clerks.push(clerk).ok()?;
    }
    Some(clerks)
}

/// The clerks by which so many moments are counted side by side: no more than pay. There are none
/// for one worker, for one moment, and without memory.
pub(crate) fn clerks_in(alloc: Global, config: &Config, workers: u32, moments: u32) -> Vec<Clerk> {
    if workers < 2 || moments < 2 {
        return Vec::new(alloc);
    }
    let weight = (moments as usize).saturating_mul(WEIGHT);
    let count = workers_for(config, weight, workers as usize) as u32;
    let parts = moments.div_ceil(FOR_ONE_TICKET) as usize;
    match some_clerks(alloc, count, parts) {
        Some(clerks) => clerks,
        None => Vec::new(alloc),
    }
}

/// The clerks count parts of so many moments, each on a thread of its own.
fn work_all<R: Threads + Sync, G: Gate>(
    rt: &R,
    config: &Config,
    clerks: &mut [Clerk],
    seed: u32,
    moments: u32,
    gate: &G,
)
    requires some { 1 ≤ length clerks.old }
    requires few { moments ≤ 10000 }
    ensures { All (HasStints config.now seed) clerks.new }
{
    let count = clerks.len();
    let tickets = Tickets::new();
    thread::for_each_mut(
        rt,
        clerks,
        count,
        &|_number: usize, clerk: &mut Clerk|
            requires { moments ≤ 10000 }
            ensures { HasStints config.entry.now seed clerk.exit.now }
        { clerk.work(config, seed, moments, &tickets, gate) },
    );
}

/// The part that ends at a time. If no clerk has one, it is counted: the moment before that time.
fn part_upto<G: Gate>(
    config: &Config,
    clerks: &mut [Clerk],
    seed: u32,
    time: u32,
    gate: &G,
) -> Stint
    requires some { 1 ≤ length clerks.old }
    requires early { 0 < time }
    requires few { time ≤ 10000 }
    requires parts { All (HasStints config.now seed) clerks.old }
    ensures part { IsStint config.now seed result }
    ensures upto { result.upto ≡ time }
    ensures parts { All (HasStints config.now seed) clerks.new }
    ensures same_size { length clerks.new ≡ length clerks.old }
{
    for place in 0..clerks.len() {
        if let Some(part) = clerks[place].part_upto(time) {
            return part;
        }
    }
    let mut sequence = Sequence::of(seed);
    clerks[0]
        .workspace
        .count(config, &mut sequence, time - 1, time, gate)
}

/// Adds the parts of the clerks up, from the last one on.
fn gather<G: Gate>(
    config: &Config,
    clerks: &mut [Clerk],
    seed: u32,
    moments: u32,
    gate: &G,
) -> Counts
    requires some { 1 ≤ length clerks.old }
    requires few { moments ≤ 10000 }
    requires parts { All (HasStints config.now seed) clerks.old }
    ensures { AreCounted config.now (outputs_of seed) 0 moments result }
{
    let mut counts = Counts::new();
    let mut left = moments;
    while 0 < left {
        let mut part = part_upto(config, clerks, seed, left, gate);
        part.counts.add_all(&counts);
        left = part.from;
        counts = part.counts;
    }
    counts
}

/// Counts the first moments of a seed by the clerks side by side.
pub(crate) fn count_beside<R: Threads + Sync, G: Gate>(
    rt: &R,
    config: &Config,
    clerks: &mut [Clerk],
    seed: u32,
    moments: u32,
    gate: &G,
) -> Counts
    requires some { 1 ≤ length clerks.old }
    requires few { moments ≤ 10000 }
    ensures { AreCounted config.now (outputs_of seed) 0 moments result }
{
    work_all(rt, config, clerks, seed, moments, gate);
    gather(config, clerks, seed, moments, gate)
}
