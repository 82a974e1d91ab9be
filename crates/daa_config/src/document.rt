//! The values at the keys of a document's tables.

ghost use Rattle.std.specs.Prelude.{◌≡◌, map, option_map, IfOk};
ghost use Rattle.std.specs.List.{filter_map};
ghost use Rattle.toml.specs.Data.{get_member, as_table};
ghost use Rattle.toml.specs.View.{table_view, view, array_view, items_view};
ghost use Rattle.daa_config.specs.Rows.{list_of};
ghost use Rattle.daa_config.specs.Document.{levels_in, number_in, grid_by, grid_in};
ghost use Rattle.daa_config.specs.Document.{level_by, recovery_by, numbers_by, table_in};
ghost use Rattle.daa_config.specs.Inside.Rows.{table_at as found_at, list_at as items_at};
ghost use Rattle.daa_config.specs.Inside.Rows.{number_at, grid_at as numbers_at};

use crate::numbers::{Grid, LevelNumbers, Numbers, RecoveryNumbers};
use std::alloc::{AllocError, Global};
use toml::value::Array;
use toml::{Table, Value};

/// The value at a key.
pub(crate) fn member_at<'a>(table: &'a Table, key: &str) -> Option<&'a Value>
    ensures { option_map (λ v. view v.now) result ≡ get_member key.now (table_view table.now) }
{
    table.get(key)
}

/// The table at a key, where there is one.
pub(crate) fn table_at<'a>(table: &'a Table, key: &str) -> Option<&'a Table>
    ensures { option_map (λ t. table_view t.now) result ≡ found_at (table_view table.now) key.now }
{
    match member_at(table, key) {
        Some(value) => value.as_table(),
        None => None,
    }
}

/// The list at a key, where there is one.
pub(crate) fn list_at<'a>(table: &'a Table, key: &str) -> Option<&'a Array>
    ensures { option_map (λ v. array_view v.now) result ≡ items_at (table_view table.now) key.now }
{
    match member_at(table, key) {
        Some(value) => value.as_array(),
        None => None,
    }
}

/// The whole number at a key, or 0 if there is none. The numbers count only where `keys.rt` finds
/// that no table differs from its rows: then only keys that may be left out are missing.
fn whole_at(table: &Table, key: &str) -> i64
    ensures { result ≡ number_at (table_view table.now) key.now }
{
    match member_at(table, key) {
        Some(value) => value.as_integer().unwrap_or(0),
        None => 0,
    }
}

/// The numbers of a kind's table.
pub(crate) fn grid_of(table: &Table) -> Grid
    ensures { result ≡ grid_by (number_in (table_view table.now)) }
{
    Grid {
        min: whole_at(table, "min"),
        max: whole_at(table, "max"),
        step: whole_at(table, "step"),
        rate: whole_at(table, "rate"),
    }
}

/// The numbers of the kind whose table stands at a key, each 0 where there is none.
fn grid_at(document: &Table, key: &str) -> Grid
    ensures { result ≡ numbers_at (table_view document.now) key.now }
{
    match table_at(document, key) {
        Some(table) => grid_of(table),
        None => Grid {
            min: 0,
            max: 0,
            step: 0,
            rate: 0,
        },
    }
}

/// The numbers of the recovery's table.
pub(crate) fn cylinder_of(table: &Table) -> RecoveryNumbers
    ensures { result ≡ recovery_by (number_in (table_view table.now)) }
{
    RecoveryNumbers {
        hdist: whole_at(table, "hdist"),
        vdist: whole_at(table, "vdist"),
        nearest: whole_at(table, "nearest"),
    }
}

/// The numbers of the recovery where the document has a table for it; a document without one asks
/// for none.
pub(crate) fn recovery_of(document: &Table) -> Option<RecoveryNumbers>
    ensures { result ≡ option_map (λ t. recovery_by (number_in t))
        (table_in (table_view document.now) "recovery") }
{
    match table_at(document, "recovery") {
        Some(table) => Some(cylinder_of(table)),
        None => None,
    }
}

/// The numbers of a level's table.
pub(crate) fn level_of(table: &Table) -> LevelNumbers
    ensures { result ≡ level_by (number_in (table_view table.now)) }
{
    LevelNumbers {
        dthr: whole_at(table, "dthr"),
        zthr: whole_at(table, "zthr"),
        tthr: whole_at(table, "tthr"),
        tcoa: whole_at(table, "tcoa"),
        lookahead: whole_at(table, "lookahead"),
        alert: whole_at(table, "alert"),
        tcpa: whole_at(table, "tcpa"),
        tau: whole_at(table, "tau"),
        tep: whole_at(table, "tep"),
    }
}

/// The numbers of each level among the items.
fn each_level_of(alloc: Global, items: &[Value]) -> Result<Vec<LevelNumbers>, AllocError>
    ensures { IfOk result (λ levels. levels.items ≡ map (λ t. level_by (number_in t))
        (filter_map as_table (list_of (items_view items.now)))) }
{
    let mut levels = Vec::new(alloc);
    for value in items {
        if let Some(table) = value.as_table() {
            levels.push(level_of(table))?;
        }
    }
    Ok(levels)
}

/// The numbers of the levels.
pub(crate) fn levels_of(alloc: Global, document: &Table) -> Result<Vec<LevelNumbers>, AllocError>
    ensures { IfOk result (λ levels. levels.items ≡ map (λ t. level_by (number_in t))
        (levels_in (table_view document.now))) }
{
    match list_at(document, "level") {
        Some(items) => each_level_of(alloc, items.as_slice()),
        None => Ok(Vec::new(alloc)),
    }
}

/// Whether the document asks for last times, as a number: 0 where the key is left out.
pub(crate) fn last_times_of(document: &Table) -> i64
    ensures { result ≡ number_in (table_view document.now) "last_times" }
{
    whole_at(document, "last_times")
}

/// The numbers of the document, without its levels, its recovery and `last_times`.
pub(crate) fn numbers_of(document: &Table) -> Numbers
    ensures { result ≡ numbers_by (number_in (table_view document.now))
        (grid_in (table_view document.now)) }
{
    Numbers {
        resolve: whole_at(document, "resolve"),
        turn_rate: whole_at(document, "turn_rate"),
        track_step: whole_at(document, "track_step"),
        gs: grid_at(document, "gs"),
        vs: grid_at(document, "vs"),
        alt: grid_at(document, "alt"),
    }
}
