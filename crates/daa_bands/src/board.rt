//! The levels at which each candidate of a moment is covered, as masks. What the workers found
//! comes in packed words, twelve candidates in each.

ghost use Rattle.std.specs.Prelude.{◌≡◌, ◌<◌, ◌≤◌, ◌+◌, ◌*◌, ◌≢◌, ℕ};
ghost use Rattle.std.specs.Prelude.{slice_index, bit_or, replicate};
ghost use Rattle.daa_fixed.specs.Mask.{HasLevel, IsGreatestLevel};
ghost use Rattle.daa_config.specs.Packing.{group_size, mask_in};
ghost use Rattle.daa_bands.specs.Board.{board_size, mask_levels, AddsMask, AddsWord};

use daa_config::packing::{GROUP, MASKS, WIDTH};
use std::marker::Model;

/// How many candidates a board has a mask for; a configuration has at most 1897.
pub const BOARD_MASKS: usize = 2048;

/// The masks of 2048 candidates, by their indices in the whole list: bit l - 1 of a mask means
/// level l. The layout is that of C.
#[repr(C)]
#[derive(Drop)]
pub struct Board {
    masks: [u8; BOARD_MASKS],
}

impl Model for Board {
    ghost use Rattle.std.specs.Prelude.{List, ℕ};

    ghost Value = { List ℕ };

    ghost view = { λ b. b.masks };

    ghost inverse = { λ masks. record { masks = masks } };
}

impl Board {
    /// A board on which no candidate has a level.
    pub fn new() -> Board
        ensures { result ≡ replicate board_size 0 }
    {
        Board {
            masks: [0; BOARD_MASKS],
        }
    }

    /// A board of these masks, by the candidates' indices, as [`Board::masks`] hands them out.
    pub fn of(masks: &[u8; BOARD_MASKS]) -> Board
        ensures { result ≡ masks.now }
    {
        Board { masks: *masks }
    }

    /// The masks, by the candidates' indices: bit l - 1 of a mask stands for level l.
    pub fn masks(&self) -> &[u8; BOARD_MASKS]
        ensures { result.now ≡ self.now }
    {
        &self.masks
    }

    /// Takes all levels of all candidates away.
    pub fn clear(&mut self)
        ensures { self.new ≡ replicate board_size 0 }
    {
        self.masks = [0; BOARD_MASKS];
    }

    /// Adds the levels of a mask to those of the candidate at an index, which is below 2048.
    pub fn mark(&mut self, index: u32, mask: u8)
        requires { index < board_size }
        ensures { AddsMask index mask self.old self.new }
    {
        self.masks[index as usize] |= mask;
    }

    /// Adds to the levels of the twelve candidates of a group what a packed word says of each of
    /// them. Their indices begin at 12 * group, and are below 2048.
    pub fn merge_word(&mut self, group: u32, word: u64)
        requires { group_size * group + group_size ≤ board_size }
        ensures { AddsWord group word self.old self.new }
    {
        for index in 0..GROUP {
            self.mark(GROUP * group + index, mask_at(word, index));
        }
    }

    /// The mask of the candidate at an index, which is below 2048.
    pub fn mask(&self, index: u32) -> u8
        requires { index < board_size }
        ensures { result ≡ slice_index self.now index }
    {
        self.masks[index as usize]
    }

    /// The shown level of the candidate at an index, which is below 2048: the greatest that its
    /// mask has, or 0.
    pub fn shown(&self, index: u32) -> u8
        requires { index < board_size }
        ensures { IsGreatestLevel (HasLevel (slice_index self.now index)) mask_levels result }
    {
        // (a bit below those of the levels, so that there is always one: where none may be there,
        // to look for the highest takes twice as many instructions)
        let bits = 2 * u32::from(self.mask(index)) + 1;
        (u32::BITS - 1 - bits.leading_zeros()) as u8
    }
}

/// The mask that a packed word has for the candidate at an index of the group.
fn mask_at(word: u64, index: u32) -> u8
    requires { index < group_size }
    ensures { result ≡ mask_in word index }
{
    ((word >> (WIDTH * index + 1)) % MASKS) as u8
}
