//! How often each level came.

ghost use Rattle.std.specs.Prelude.{◌≡◌, ◌<◌, ◌≤◌, ◌+◌, ℕ, [], ◌∷◌, slice_index, take};
ghost use Rattle.daa_bands.specs.Board.{mask_levels};
ghost use Rattle.daa_exercise.specs.Inside.Counting.{CountsMore, HasRoomFor, HaveRoom, Joins};
ghost use Rattle.daa_exercise.specs.Levels.{counts_of};

use std::marker::Model;

/// Level 0, and one for each bit of a board's mask.
const LEVELS: usize = 9;

/// How often each level came, from 0 to 8.
#[derive(Drop)]
pub(crate) struct Tally {
    counts: [u32; LEVELS],
}

impl Model for Tally {
    ghost use Rattle.std.specs.Prelude.{List, ℕ};

    ghost Value = { List ℕ };

    ghost view = { λ t. t.counts };
}

impl Tally {
    /// No level came.
    #[tactic(auto, unfolding(crate::specs::Levels::counts_of))]
    pub(crate) fn new() -> Tally
        ensures { result ≡ counts_of mask_levels [] }
    {
        Tally {
            counts: [0; LEVELS],
        }
    }

    /// Counts a level once more.
    #[tactic(auto, unfolding(crate::specs::Levels::counts_of))]
    pub(crate) fn add(&mut self, level: u8)
        requires level { level ≤ mask_levels }
        requires room { HasRoomFor 1 self.old }
        ensures counted { CountsMore (level ∷ []) self.old self.new }
        ensures room { (n : ℕ) → HasRoomFor (n + 1) self.old → HasRoomFor n self.new }
    {
        self.counts[usize::from(level)] += 1;
    }

    /// Counts what another tally counted besides.
    pub(crate) fn add_all(&mut self, other: &Tally)
        requires { HaveRoom self.old other.now }
        ensures { Joins self.old other.now self.new }
    {
        add_counts(&mut self.counts, &other.counts);
    }

    /// The counts of the levels from 0 up to the top one.
    pub(crate) fn upto(&self, top: u32) -> &[u32]
        requires { top ≤ mask_levels }
        ensures { result.now ≡ take (top + 1) self.now }
    {
        &self.counts[..=top as usize]
    }
}

/// Adds counts to those of the same levels.
fn add_counts(counts: &mut [u32; LEVELS], others: &[u32; LEVELS])
    requires { HaveRoom counts.old others.now }
    ensures { (level : ℕ) → level < 9 → slice_index counts.new level
        ≡ slice_index counts.old level + slice_index others.now level }
{
    for level in 0..LEVELS {
        counts[level] += others[level];
    }
}
