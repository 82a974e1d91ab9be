//! Whether the tables of a document differ from their rows.

ghost use Rattle.std.specs.Prelude.{◌≡◌, ◌-ℤ◌, pos, map, not, false};
ghost use Rattle.std.specs.List.{list_any};
ghost use Rattle.std.specs.Option.{option_map_or};
ghost use Rattle.std.specs.Str.{bytes_eq};
ghost use Rattle.toml.specs.Data.{get_member};
ghost use Rattle.toml.specs.View.{table_view, items_view};
ghost use Rattle.daa_fixed.specs.Size.{IsFrom};
ghost use Rattle.daa_config.specs.Rows.{has_other_key, lacks_key, holds_other, list_of};
ghost use Rattle.daa_config.specs.Rows as listed;
ghost use Rattle.daa_config.specs.Document.{number_in, grid_in, numbers_by, grid_by, recovery_by};
ghost use Rattle.daa_config.specs.Document.{level_by, table_in, levels_in, any_table};
ghost use Rattle.daa_config.specs.Inside.Rows.{row_by, differs_by, table_at as found_at, any_item};

use crate::document::{
    cylinder_of, grid_of, last_times_of, level_of, list_at, member_at, numbers_of, table_at,
};
use crate::limits::{Bounds, CLIMBS, HEIGHTS, SPEEDS};
use crate::rows::{Row, document_rows, grid_rows, level_rows, recovery_rows};
use toml::{Table, Value};

/// How a table can differ from its rows.
#[derive(Clone, Copy)]
pub enum Difference {
    UnknownKey,
    MissingKey,
    NotNumber,
}

/// Whether a row has the key.
#[tactic(auto, using(crate::proofs::KeyLemmas::any_found))]
fn is_listed(rows: &[Row], key: &str) -> bool
    ensures { result ≡ list_any (λ row. bytes_eq row.key key.now) (map row_by rows.now) }
{
    for row in rows {
        if row.key == key {
            return true;
        }
    }
    false
}

/// Whether the table has a key that no row has.
fn has_unknown_key(rows: &[Row], table: &Table) -> bool
    ensures { result ≡ has_other_key (map row_by rows.now) (table_view table.now) }
{
    for key in table.keys() {
        if !is_listed(rows, key.as_str()) {
            return true;
        }
    }
    false
}

/// Whether the table lacks a key that it must have.
#[tactic(auto, using(crate::proofs::KeyLemmas::any_found))]
fn lacks_needed_key(rows: &[Row], table: &Table) -> bool
    ensures { result ≡ lacks_key (map row_by rows.now) (table_view table.now) }
{
    for row in rows {
        if row.needed && member_at(table, row.key).is_none() {
            return true;
        }
    }
    false
}

/// Whether something stands at the row's key that may not stand there.
fn is_other(row: &Row, table: &Table) -> bool
    ensures { result ≡ option_map_or (λ d. not ((row_by row.now).holds d))
        (get_member (row_by row.now).key (table_view table.now)) false }
{
    match member_at(table, row.key) {
        Some(value) => !row.holds(value),
        None => false,
    }
}

/// Whether some key of the table holds something that may not stand there.
#[tactic(auto, using(crate::proofs::KeyLemmas::any_found))]
fn holds_other_value(rows: &[Row], table: &Table) -> bool
    ensures { result ≡ holds_other (map row_by rows.now) (table_view table.now) }
{
    for row in rows {
        if is_other(row, table) {
            return true;
        }
    }
    false
}

/// Whether the table differs from its rows.
fn differs(difference: Difference, rows: &[Row], table: &Table) -> bool
    ensures { result ≡ differs_by difference (map row_by rows.now) (table_view table.now) }
{
    match difference {
        Difference::UnknownKey => has_unknown_key(rows, table),
        Difference::MissingKey => lacks_needed_key(rows, table),
        Difference::NotNumber => holds_other_value(rows, table),
    }
}

/// Whether the document itself differs from its rows.
fn top_differs(difference: Difference, document: &Table) -> bool
    ensures { result ≡ differs_by difference (listed.document_rows
        (numbers_by (number_in (table_view document.now)) (grid_in (table_view document.now)))
        (number_in (table_view document.now) "last_times")) (table_view document.now) }
{
    let rows = document_rows(&numbers_of(document), &last_times_of(document));
    differs(difference, &rows, document)
}

/// Whether there is a table of a kind at the key, and it differs from its rows.
fn grid_differs(difference: Difference, values: &Bounds, document: &Table, key: &str) -> bool
    requires { IsFrom (pos 0) (pos 100000) (values.now.high -ℤ values.now.low) }
    ensures { result ≡ option_map_or
        (λ t. differs_by difference (listed.grid_rows values.now (grid_by (number_in t))) t)
        (found_at (table_view document.now) key.now) false }
{
    match table_at(document, key) {
        Some(table) => differs(difference, &grid_rows(values, &grid_of(table)), table),
        None => false,
    }
}

/// Whether there is a table of a recovery, and it differs from its rows.
fn recovery_differs(difference: Difference, document: &Table) -> bool
    ensures { result ≡ option_map_or
        (λ t. differs_by difference (listed.recovery_rows (recovery_by (number_in t))) t)
        (table_in (table_view document.now) "recovery") false }
{
    match table_at(document, "recovery") {
        Some(table) => differs(difference, &recovery_rows(&cylinder_of(table)), table),
        None => false,
    }
}

/// Whether a table among the items is a level's and differs from its rows.
fn any_differs(difference: Difference, items: &[Value]) -> bool
    ensures { result ≡ any_item (differs_by difference) (list_of (items_view items.now)) }
{
    for value in items {
        if let Some(table) = value.as_table() {
            if differs(difference, &level_rows(&level_of(table)), table) {
                return true;
            }
        }
    }
    false
}

/// Whether a level's table differs from its rows.
fn levels_differ(difference: Difference, document: &Table) -> bool
    ensures { result ≡ list_any
        (λ t. differs_by difference (listed.level_rows (level_by (number_in t))) t)
        (levels_in (table_view document.now)) }
{
    match list_at(document, "level") {
        Some(items) => any_differs(difference, items.as_slice()),
        None => false,
    }
}

/// Whether the document, or one of its tables, differs from its rows.
#[tactic(auto, unfolding(crate::specs::Document::any_table))]
pub(crate) fn any_table_differs(difference: Difference, document: &Table) -> bool
    ensures { result ≡ any_table (differs_by difference) (table_view document.now) }
{
    top_differs(difference, document)
        || (grid_differs(difference, &SPEEDS, document, "gs")
            || (grid_differs(difference, &CLIMBS, document, "vs")
                || (grid_differs(difference, &HEIGHTS, document, "alt")
                    || (recovery_differs(difference, document)
                        || levels_differ(difference, document)))))
}
