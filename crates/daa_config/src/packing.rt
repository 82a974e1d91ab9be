//! How the levels of a group of candidates are packed in a word of 64 bits.

/// How many candidates a group has.
pub const GROUP: u32 = 12;

/// How many bits a candidate has: one that says that it is there, and one for each level.
pub const WIDTH: u32 = 5;

/// How many masks of levels there are.
pub const MASKS: u64 = 16;
