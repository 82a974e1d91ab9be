//! The pool.

ghost use Rattle.std.specs.Prelude.{◌≡◌, ◌+◌, ◌<◌, ◌≤◌, ◌^◌};

use crate::rule::PoolRule;
use crate::view::View;
use atomic_table::Table;
use std::alloc::Global;

/// The ranges of the workers and the words of the units, in one table: first a word for each
/// worker, its range, and then a word for each unit, 0 until it is settled.
#[derive(Drop)]
pub struct Pool {
    pub(crate) table: Table<(), View, Size, PoolRule, Global>,
    pub(crate) workers: u32,
    ghost crew: { (table.shared.key.workers ≡ workers) × (0 < workers) × (workers ≤ 16) },
    ghost units: { (0 < table.shared.key.units) × (table.shared.key.units < 2 ^ 32) },
    ghost words: { table.shared.table_id.words ≡ workers + table.shared.key.units },
}

/// How many workers a pool has, and how many units.
#[derive(Clone, Copy)]
pub(crate) struct Size {
    pub(crate) workers: u32,
    pub(crate) units: u32,
}
