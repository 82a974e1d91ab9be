//! Reads a configuration's text.

ghost use Rattle.std.specs.Prelude.{◌≡◌, ◌≢◌, ◌≤◌, length, Ok, Err, IsOk, IfOk, IfErr};
ghost use Rattle.toml.specs.View.{table_view};
ghost use Rattle.daa_config.specs.declared.fault.ConfigFault.TheVariants.{NoMemory};
ghost use Rattle.daa_config.specs.Written.{written_by};
ghost use Rattle.daa_config.specs.Inside.Written.{written_from};
ghost use Rattle.daa_config.specs.ConfigOf.{config_of, config_in, settings_of};

use crate::accepting::test;
use crate::config::Config;
use crate::document::{last_times_of, levels_of, numbers_of, recovery_of};
use crate::fault::ConfigFault;
use crate::keys::{Difference, any_table_differs};
use crate::limits::{LONGEST_TEXT, MOST_LEVELS};
use crate::numbers::{ConfigNumbers, LevelNumbers, Numbers, RecoveryNumbers};
use arrayvec::ArrayVec;
use std::alloc::Global;
use toml::Table;

/// The numbers of a document, whatever they are.
#[derive(Debug, Drop)]
struct DocumentNumbers {
    numbers: Numbers,
    recovery: Option<RecoveryNumbers>,
    last_times: i64,
    levels: Vec<LevelNumbers>,
}

/// The text as a document.
#[tactic(auto, unfolding(crate::specs::ConfigOf::config_of), using(crate::proofs::TextLemmas::text_read, crate::proofs::TextLemmas::text_refused))]
fn parse(alloc: Global, text: &[u8]) -> Result<Table, ConfigFault>
    ensures parsed { IfOk result (λ document. config_of text.now
        ≡ config_in (table_view document)) }
    ensures refused { IfErr result (λ fault. fault ≢ NoMemory → config_of text.now ≡ Err fault) }
{
    if text.len() > LONGEST_TEXT {
        return Err(ConfigFault::TooLong);
    }
    match toml::de::table_from_slice(alloc, text) {
        Ok(table) => Ok(table),
        Err(error) if error.is_memory() => Err(ConfigFault::NoMemory),
        Err(_) => Err(ConfigFault::NotToml),
    }
}

/// The numbers of a document, where no table of it differs from its rows.
#[tactic(auto, unfolding(crate::specs::ConfigOf::config_in))]
fn find(alloc: Global, document: &Table) -> Result<DocumentNumbers, ConfigFault>
    ensures found { IfOk result (λ found. config_in (table_view document.now)
        ≡ settings_of (written_from found)) }
    ensures refused { IfErr result (λ fault. fault ≢ NoMemory
        → config_in (table_view document.now) ≡ Err fault) }
{
    if any_table_differs(Difference::UnknownKey, document) {
        return Err(ConfigFault::UnknownKey);
    }
    if any_table_differs(Difference::MissingKey, document) {
        return Err(ConfigFault::MissingKey);
    }
    if any_table_differs(Difference::NotNumber, document) {
        return Err(ConfigFault::NotNumber);
    }
    Ok(DocumentNumbers {
        numbers: numbers_of(document),
        recovery: recovery_of(document),
        last_times: last_times_of(document),
        levels: levels_of(alloc, document)?,
    })
}

/// The levels, of which there are at most four.
fn list_levels(levels: &[LevelNumbers]) -> ArrayVec<LevelNumbers, MOST_LEVELS>
    requires { length levels.now ≤ 4 }
    ensures { result.items ≡ levels.now }
{
    let mut all = ArrayVec::new();
    for one in levels {
        all.push(*one);
    }
    all
}

/// The numbers, if they are allowed in a configuration.
#[tactic(auto, unfolding(crate::specs::ConfigOf::settings_of, crate::specs::Inside::Numbers::levels_are_wrong, crate::specs::Inside::Numbers::has_too_many))]
fn accept(found: &DocumentNumbers) -> Result<ConfigNumbers, ConfigFault>
    ensures same { IfOk result (λ numbers. written_by numbers ≡ written_from found.now) }
    ensures accepted { IfOk result (λ numbers. IsOk (settings_of (written_by numbers))) }
    ensures refused { IfErr result (λ fault. settings_of (written_from found.now) ≡ Err fault) }
{
    let levels = found.levels.as_slice();
    test(&found.numbers, &found.recovery, &found.last_times, levels)?;
    Ok(ConfigNumbers {
        numbers: found.numbers,
        recovery: found.recovery,
        last_times: found.last_times,
        levels: list_levels(levels),
    })
}

/// The numbers of the configuration that the text is, which are accepted; or, of all faults in the
/// text, the one with the smallest number. Unless memory runs out, the text is accepted or refused
/// exactly as the definition says. `NoMemory` says nothing of the text.
pub fn read_numbers(alloc: Global, text: &[u8]) -> Result<ConfigNumbers, ConfigFault>
    ensures same { IfOk result (λ numbers. config_of text.now ≡ settings_of (written_by numbers)) }
    ensures accepted { IfOk result (λ numbers. IsOk (settings_of (written_by numbers))) }
    ensures refused { IfErr result (λ fault. fault ≢ NoMemory → config_of text.now ≡ Err fault) }
{
    let document = parse(alloc, text)?;
    let found = find(alloc, &document)?;
    accept(&found)
}

/// The configuration of the text or, of all faults in the text, the one with the smallest number.
/// Unless memory runs out, the text is accepted or refused exactly as the definition says.
/// `NoMemory` says nothing of the text. It is read as a TOML document; docs/FORMATS.md has the
/// table of keys, units and ranges.
pub fn read(alloc: Global, text: &[u8]) -> Result<Config, ConfigFault>
    ensures accepted { IfOk result (λ config. config_of text.now ≡ Ok config) }
    ensures refused { IfErr result (λ fault. fault ≢ NoMemory → config_of text.now ≡ Err fault) }
{
    let found = read_numbers(alloc, text)?;
    let levels = found.levels.as_slice();
    Config::of(&found.numbers, &found.recovery, &found.last_times, levels)
}
