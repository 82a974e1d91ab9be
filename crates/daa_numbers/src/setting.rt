//! A configuration as C has it.

ghost use Rattle.std.specs.Prelude.{◌≡◌, ◌≢◌, ◌≤◌, pos, drop, Ok, Err, IfOk, IfErr};
ghost use Rattle.daa_config.specs.ConfigOf.{config_of};
ghost use Rattle.daa_config.specs.Written;
ghost use Rattle.daa_numbers.specs.Codes.{answer_of};
ghost use Rattle.daa_numbers.specs.Numbers.{written_by, recovery_by, settings_by, IsReadAs};

use crate::codes::fault_code;
use daa_config::{
    Config, ConfigFault, ConfigNumbers, LevelNumbers, Numbers, RecoveryNumbers, read_numbers,
};
use std::alloc::Global;

/// The numbers of a configuration, under the names of the keys and in their units. The cylinder
/// counts if `recovery` is not 0, and of the levels the first `count`.
#[repr(C)]
#[derive(Clone, Copy)]
pub struct DaaConfig {
    pub numbers: Numbers,
    pub recovery: u64,
    pub cylinder: RecoveryNumbers,
    pub last_times: i64,
    pub count: u64,
    pub levels: [LevelNumbers; 4],
}

/// The numbers of the recovery, if the configuration asks for one.
fn asked_recovery(config: &DaaConfig) -> Option<RecoveryNumbers>
    ensures { result ≡ recovery_by config.now.recovery config.now.cylinder }
{
    if config.recovery == 0 {
        None
    } else {
        Some(config.cylinder)
    }
}

/// The configuration of these numbers, or its fault.
pub(crate) fn accept(config: &DaaConfig) -> Result<Config, ConfigFault>
    ensures accepted { IfOk result (λ settings. settings_by config.now ≡ Ok settings) }
    ensures refused { IfErr result (λ fault. settings_by config.now ≡ Err fault) }
{
    if config.count > 4 {
        return Err(ConfigFault::Levels);
    }
    let levels = &config.levels[..config.count as usize];
    let recovery = asked_recovery(config);
    Config::of(&config.numbers, &recovery, &config.last_times, levels)
}

/// Fills in the numbers of the recovery, where one is asked for.
fn ask(recovery: Option<RecoveryNumbers>, config: &mut DaaConfig)
    ensures asked { recovery_by config.new.recovery config.new.cylinder ≡ recovery }
    ensures kept { config.new.recovery ≡ 0 → config.new.cylinder ≡ config.old.cylinder }
    ensures others { config.new ≡ record config.old {
      recovery = config.new.recovery;
      cylinder = config.new.cylinder;
    } }
{
    match recovery {
        None => config.recovery = 0,
        Some(cylinder) => {
            config.recovery = 1;
            config.cylinder = cylinder;
        }
    }
}

/// Fills in the numbers of a configuration.
fn fill(numbers: &ConfigNumbers, config: &mut DaaConfig)
    ensures same { written_by config.new ≡ Written.written_by numbers.now }
    ensures few { config.new.count ≤ 4 }
    ensures past_kept { drop config.new.count config.new.levels
        ≡ drop config.new.count config.old.levels }
    ensures cylinder_kept { config.new.recovery ≡ 0
        → config.new.cylinder ≡ config.old.cylinder }
{
    let levels = numbers.levels.as_slice();
    config.numbers = numbers.numbers;
    config.last_times = numbers.last_times;
    config.count = levels.len() as u64;
    config.levels[..levels.len()].copy_from_slice(levels);
    ask(numbers.recovery, config);
}

/// Fills in the numbers of a configuration's text and returns 0, or answers its fault, 1 to 8, or
/// 20 if memory ran out. The places after the last level stay as they were, and so does the
/// cylinder if no recovery is asked for.
pub fn read(alloc: Global, text: &[u8], config: &mut DaaConfig) -> i32
    ensures read { result ≡ pos 0 → IsReadAs text.now config.new }
    ensures kept { result ≢ pos 0 → config.new ≡ config.old }
    ensures past_kept { drop config.new.count config.new.levels
        ≡ drop config.new.count config.old.levels }
    ensures cylinder_kept { config.new.recovery ≡ 0
        → config.new.cylinder ≡ config.old.cylinder }
    ensures refused { result ≢ pos 0 → result ≢ pos 20 → answer_of (config_of text.now) ≡ result }
{
    match read_numbers(alloc, text) {
        Ok(numbers) => {
            fill(&numbers, config);
            0
        }
        Err(fault) => fault_code(fault),
    }
}

/// Returns 0 if a configuration is accepted, else its fault, 6 to 8.
pub fn check(config: &DaaConfig) -> i32
    ensures { result ≡ answer_of (settings_by config.now) }
{
    match accept(config) {
        Ok(_) => 0,
        Err(fault) => fault_code(fault),
    }
}
