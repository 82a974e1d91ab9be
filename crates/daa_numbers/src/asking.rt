//! What several calls begin with: a configuration that is accepted, and states that are taken.

ghost use Rattle.std.specs.Prelude.{◌≡◌, IfOk, IfErr};
ghost use Rattle.daa_numbers.specs.Codes.{kind_number};
ghost use Rattle.daa_numbers.specs.Inside.Asked.{IsAsked, IsAskedOfOwn};
ghost use Rattle.daa_numbers.specs.Inside.Codes.{IsRefused, IsRefusedOfKind};
ghost use Rattle.daa_numbers.specs.Refusal.{refusal_of, refusal_of_own};

use crate::codes::{BAD_KIND, fault_code, kind_in};
use crate::refusal::code;
use crate::setting::{DaaConfig, accept};
use crate::states::{DaaTraffic, picture, test_own};
use daa_config::{Config, Kind};
use daa_state::{Own, Picture};

/// The configuration and the picture of these numbers, or the code of what is wrong with them.
pub(crate) fn config_and_picture(
    config: &DaaConfig,
    time: u32,
    own: &Own,
    traffic: &[DaaTraffic],
) -> Result<(Config, Picture), i32>
    ensures asked { IfOk result
        (λ found. IsAsked config.now time own.now traffic.now found.0 found.1) }
    ensures refused { IfErr result (IsRefused (refusal_of config.now own.now traffic.now)) }
{
    let config = match accept(config) {
        Ok(config) => config,
        Err(fault) => return Err(fault_code(fault)),
    };
    match picture(time, own, traffic) {
        Ok(picture) => Ok((config, picture)),
        Err(refusal) => Err(code(refusal)),
    }
}

/// The configuration, the picture and the kind of these numbers, or the code of what is wrong with
/// them.
pub(crate) fn config_picture_and_kind(
    config: &DaaConfig,
    own: &Own,
    traffic: &[DaaTraffic],
    kind: &i32,
) -> Result<(Config, Picture, Kind), i32>
    ensures asked { IfOk result
        (λ found. IsAsked config.now 0 own.now traffic.now found.0 found.1) }
    ensures kind { IfOk result (λ found. kind_number found.2 ≡ kind.now) }
    ensures refused { IfErr result
        (IsRefusedOfKind (refusal_of config.now own.now traffic.now) kind.now) }
{
    let (config, picture) = match config_and_picture(config, 0, own, traffic) {
        Ok(found) => found,
        Err(code) => return Err(code),
    };
    match kind_in(*kind) {
        Some(kind) => Ok((config, picture, kind)),
        None => Err(BAD_KIND),
    }
}

/// The configuration of these numbers, if the ownship is in range too; else the code of what is
/// wrong with the configuration or, where it is accepted, with the ownship.
pub(crate) fn config_for(config: &DaaConfig, own: &Own) -> Result<Config, i32>
    ensures asked { IfOk result (IsAskedOfOwn config.now own.now) }
    ensures refused { IfErr result (IsRefused (refusal_of_own config.now own.now)) }
{
    let config = match accept(config) {
        Ok(config) => config,
        Err(fault) => return Err(fault_code(fault)),
    };
    match test_own(own) {
        Ok(()) => Ok(config),
        Err(refusal) => Err(code(refusal)),
    }
}
