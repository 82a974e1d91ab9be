//! Fills a board by all workers together: each unit of work is answered by one of them with a
//! packed word.

ghost use Rattle.std.specs.Prelude.{◌≡◌, ◌<◌, ◌≤◌, OnErr, OnOk, length, replicate};
ghost use Rattle.daa_bands.specs.Board.{IsBoardOf, board_size};
ghost use Rattle.daa_scan.specs.Reach.{NoneIsMetOutOfReach};
ghost use Rattle.daa_scan.specs.Units.{most_groups, most_units, AreWordsOf};
ghost use Rattle.daa_state.specs.InRange.{IsPictureInRange};
ghost use Rattle.daa_engine.specs.Covered.{CoveredAt};
ghost use Rattle.daa_engine.specs.EngineState.{IsWorkerCount};
ghost use Rattle.daa_engine.specs.Inside.EngineState.{HasFlights, HasWords};
ghost use Rattle.daa_engine.specs.Inside.Merging.{IsMerged};

use daa_bands::Board;
use daa_config::Config;
use daa_io::Gate;
use daa_legs::{Branch, Trunk};
use daa_pool::answer_all;
use daa_scan::{Scene, fill_flights};
use daa_schedule::{Answers, NoMemory};
use daa_state::Picture;
use std::alloc::Global;
use std::thread::Threads;

/// The workers that decide a moment together, 1 to 16: the handle and the allocator with which they
/// are started, their number, and the gate that each passes before a unit of work.
#[derive(Drop)]
pub(crate) struct Crew<'a, R, G> {
    pub(crate) rt: &'a R,
    pub(crate) alloc: Global,
    pub(crate) workers: u32,
    pub(crate) gate: &'a G,
    ghost count: { IsWorkerCount workers },
}

/// Marks the levels at which each candidate is covered, and no others. The words are room for the
/// workers' answers, the trunks and the branches are room for what the workers share. If no
/// aircraft is in reach there is no unit, and no worker is needed. `NoMemory` says that there was
/// no memory for the workers; then the board is unchanged.
pub(crate) fn fill_together<R: Threads + Sync, G: Gate>(
    crew: &Crew<'_, R, G>,
    words: &mut Vec<u64>,
    trunks: &mut [Trunk],
    branches: &mut [Branch],
    config: &Config,
    picture: &Picture,
    board: &mut Board,
) -> Result<(), NoMemory>
    requires picture { IsPictureInRange picture.now }
    requires words { HasWords words.old.items }
    requires flights { HasFlights trunks.old branches.old }
    ensures words { HasWords words.new.items }
    ensures flights { HasFlights trunks.new branches.new }
    ensures board { OnOk result
        (IsBoardOf (CoveredAt config.now picture.now) config.now board.new) }
    ensures kept { OnErr result (board.new ≡ board.old) }
{
    // ensures that there are at most 1897 candidates
    let _total = config.total();
    let needs = fill_flights(trunks, branches, config, picture);
    let scene = Scene::of(config, picture, trunks, branches, needs);
    let units = scene.units() as usize;
    let words = &mut words.as_mut_slice()[..units];
    if units > 0 {
        answer_all(crew.rt, crew.alloc, &scene, crew.gate, crew.workers, words)?;
    }
    merge(board, &scene, words);
    Ok(())
}

/// Marks the levels at which each candidate is covered, and no others. The words are the answers of
/// the scene's units, in order.
fn merge(board: &mut Board, scene: &Scene, words: &[u64])
    requires few { length words.now ≤ most_units }
    requires words { AreWordsOf scene.now words.now }
    requires reach { NoneIsMetOutOfReach scene.now }
    ensures { IsBoardOf (CoveredAt scene.now.settings scene.now.picture)
        scene.now.settings board.new }
{
    board.clear();
    merge_words(board, words, scene.groups());
}

/// Adds the levels that the words say. Unit u is of group `u % groups`.
fn merge_words(board: &mut Board, words: &[u64], groups: u32)
    requires few { length words.now ≤ most_units }
    requires some { 1 ≤ groups }
    requires within { groups ≤ most_groups }
    requires clear { board.old ≡ replicate board_size 0 }
    ensures { IsMerged groups words.now (length words.now) board.new }
{
    for unit in 0..words.len() {
        board.merge_word(unit as u32 % groups, words[unit]);
    }
}
