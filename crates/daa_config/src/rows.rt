//! The tables of a configuration: a row for each key says what is asked of it by
//! itself.

ghost use Rattle.std.specs.Prelude.{◌≡◌, ◌-ℤ◌, pos, map, true, false, is_some};
ghost use Rattle.std.specs.List.{list_all};
ghost use Rattle.toml.specs.Data.{as_table};
ghost use Rattle.toml.specs.View.{view, items_view};
ghost use Rattle.daa_fixed.specs.Size.{IsFrom};
ghost use Rattle.daa_config.specs.declared.rows.Entry.TheVariants.{Number, Table as OfTable};
ghost use Rattle.daa_config.specs.Inside.Rows.{row_by};
ghost use Rattle.daa_config.specs.Rows as listed;

use crate::limits::Bounds;
use crate::numbers::{Grid, LevelNumbers, Numbers, RecoveryNumbers};
use toml::Value;

/// What stands at a key: a whole number from the least to the greatest, here this one; a table; or
/// a list of tables.
#[derive(Clone, Copy)]
pub enum Entry {
    Number {
        least: i64,
        greatest: i64,
        here: i64,
    },
    Table,
    Tables,
}

/// A key of a table, whether it must be there, and what stands at it.
#[derive(Clone, Copy)]
pub struct Row {
    pub key: &'static str,
    pub needed: bool,
    pub place: Entry,
}

impl Row {
    /// Whether the number is in its range.
    fn fits(&self) -> bool
        ensures { result ≡ (row_by self.now).fits }
    {
        match self.place {
            Entry::Number {
                least,
                greatest,
                here,
            } => least <= here && here <= greatest,
            _ => true,
        }
    }

    /// Whether the value may stand at the key.
    pub(crate) fn holds(&self, value: &Value) -> bool
        ensures { result ≡ (row_by self.now).holds (view value.now) }
    {
        match self.place {
            Entry::Number { .. } => value.as_integer().is_some(),
            Entry::Table => value.as_table().is_some(),
            Entry::Tables => are_tables(value),
        }
    }
}

/// Whether the value is a list of tables.
fn are_tables(value: &Value) -> bool
    ensures { result ≡ listed.are_tables (view value.now) }
{
    match value.as_array() {
        Some(items) => all_are_tables(items.as_slice()),
        None => false,
    }
}

/// Whether each of the items is a table.
fn all_are_tables(items: &[Value]) -> bool
    ensures { result ≡ list_all (λ one. is_some (as_table one)) (listed.list_of
        (items_view items.now)) }
{
    for item in items {
        if item.as_table().is_none() {
            return false;
        }
    }
    true
}

/// Whether each number is in its range.
pub(crate) fn all_fit(rows: &[Row]) -> bool
    ensures { result ≡ list_all (λ row. row.fits) (map row_by rows.now) }
{
    for row in rows {
        if !row.fits() {
            return false;
        }
    }
    true
}

/// A whole number that must be there, from the least to the greatest.
fn number(key: &'static str, least: i64, greatest: i64, here: i64) -> Row
    ensures { result ≡ record {
      key = key.entry;
      needed = true;
      place = Number least greatest here;
    } }
{
    Row {
        key,
        needed: true,
        place: Entry::Number {
            least,
            greatest,
            here,
        },
    }
}

/// A whole number from 0 to the greatest that may be left out.
fn optional(key: &'static str, greatest: i64, here: i64) -> Row
    ensures { result ≡ record {
      key = key.entry;
      needed = false;
      place = Number (pos 0) greatest here;
    } }
{
    Row {
        needed: false,
        ..number(key, 0, greatest, here)
    }
}

/// A table that must be there, which has rows of its own.
fn table(key: &'static str) -> Row
    ensures { result ≡ record { key = key.entry; needed = true; place = OfTable } }
{
    Row {
        key,
        needed: true,
        place: Entry::Table,
    }
}

/// The rows of the document.
pub(crate) fn document_rows(n: &Numbers, last_times: &i64) -> [Row; 9]
    ensures { map row_by result ≡ listed.document_rows n.now last_times.now }
{
    [
        number("resolve", 1, 4, n.resolve),
        number("turn_rate", 1, 30, n.turn_rate),
        number("track_step", 1, 90, n.track_step),
        table("gs"),
        table("vs"),
        table("alt"),
        Row {
            place: Entry::Tables,
            ..table("level")
        },
        Row {
            needed: false,
            ..table("recovery")
        },
        optional("last_times", 1, *last_times),
    ]
}

/// How far it is from the first to the second.
fn width(values: &Bounds) -> i64
    requires { IsFrom (pos 0) (pos 100000) (values.now.high -ℤ values.now.low) }
    ensures { result ≡ values.now.high -ℤ values.now.low }
{
    values.high - values.low
}

/// The rows of the table of a kind whose values are within these bounds.
pub(crate) fn grid_rows(values: &Bounds, g: &Grid) -> [Row; 4]
    requires { IsFrom (pos 0) (pos 100000) (values.now.high -ℤ values.now.low) }
    ensures { map row_by result ≡ listed.grid_rows values.now g.now }
{
    [
        number("min", values.low, values.high, g.min),
        number("max", g.min, values.high, g.max),
        number("step", 1, width(values), g.step),
        number("rate", 1, 10000, g.rate),
    ]
}

/// The rows of a level's table.
pub(crate) fn level_rows(l: &LevelNumbers) -> [Row; 9]
    ensures { map row_by result ≡ listed.level_rows l.now }
{
    [
        number("dthr", 1, 10000, l.dthr),
        number("zthr", 0, 10000, l.zthr),
        number("tthr", 0, 120, l.tthr),
        number("tcoa", 0, 120, l.tcoa),
        number("lookahead", 1, 180, l.lookahead),
        number("alert", 1, 180, l.alert),
        optional("tcpa", 1, l.tcpa),
        optional("tau", 1, l.tau),
        optional("tep", 1, l.tep),
    ]
}

/// The rows of the table of a recovery's cylinder.
pub(crate) fn recovery_rows(r: &RecoveryNumbers) -> [Row; 3]
    ensures { map row_by result ≡ listed.recovery_rows r.now }
{
    [
        number("hdist", 1, 10000, r.hdist),
        number("vdist", 0, 10000, r.vdist),
        optional("nearest", 1, r.nearest),
    ]
}
