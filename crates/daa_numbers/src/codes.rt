//! The numbers of kinds, sides and faults in C.

ghost use Rattle.std.specs.Prelude.{◌≡◌, ◌≢◌, pos, IfSome, IfNone};
ghost use Rattle.daa_numbers.specs.Codes.{code_of, IsNoKind, IsNoSide, kind_number, side_number};
ghost use Rattle.daa_numbers.specs.Inside.Codes.{IsOfStates};

use daa_config::{ConfigFault, Kind};
use daa_resolve::Side;

/// The line ended the moment.
pub(crate) const MOMENT_ENDED: i32 = -1;
/// The caller's buffer is too short.
pub(crate) const SHORT: i32 = 19;
/// There is no memory.
const NO_MEMORY: i32 = 20;
/// The number is none of a kind.
pub(crate) const BAD_KIND: i32 = 23;
/// The number is none of a side.
pub(crate) const BAD_SIDE: i32 = 24;
/// The configuration has no candidate at the index.
pub(crate) const BAD_INDEX: i32 = 25;
/// The configuration does not ask for it.
pub(crate) const NOT_ASKED: i32 = 26;
/// The board is none that was decided under the configuration.
pub(crate) const BAD_BOARD: i32 = 27;
/// The board is of another ownship.
pub(crate) const OTHER_OWN: i32 = 28;
/// The board is of another time.
pub(crate) const OTHER_TIME: i32 = 29;
/// The board has not the sum of its masks.
pub(crate) const DAMAGED_BOARD: i32 = 30;
/// The report is older than may be.
pub(crate) const TOO_OLD: i32 = 31;
/// The report is of a time more than a second ahead.
pub(crate) const AHEAD: i32 = 32;
/// The levels are none of the configuration.
pub(crate) const BAD_LEVEL: i32 = 34;
/// No flight of the kind goes to the value.
pub(crate) const BAD_VALUE: i32 = 36;

/// The code of a configuration's fault: 1 to 8, or that there is no memory.
pub(crate) fn fault_code(fault: ConfigFault) -> i32
    ensures value { result ≡ code_of fault }
    ensures some { result ≢ pos 0 }
    ensures others { IsOfStates result }
{
    match fault {
        ConfigFault::TooLong => 1,
        ConfigFault::NotToml => 2,
        ConfigFault::UnknownKey => 3,
        ConfigFault::MissingKey => 4,
        ConfigFault::NotNumber => 5,
        ConfigFault::OutOfRange => 6,
        ConfigFault::Levels => 7,
        ConfigFault::TooMany => 8,
        ConfigFault::NoMemory => NO_MEMORY,
    }
}

/// The kind of a number.
pub(crate) fn kind_in(number: i32) -> Option<Kind>
    ensures some { IfSome result (λ kind. kind_number kind ≡ number) }
    ensures none { IfNone result (IsNoKind number) }
{
    match number {
        1 => Some(Kind::Track),
        2 => Some(Kind::GroundSpeed),
        3 => Some(Kind::VerticalSpeed),
        4 => Some(Kind::Altitude),
        _ => None,
    }
}

/// The side of a number.
pub(crate) fn side_in(number: i32) -> Option<Side>
    ensures some { IfSome result (λ side. side_number side ≡ number) }
    ensures none { IfNone result (IsNoSide number) }
{
    match number {
        0 => Some(Side::Lower),
        1 => Some(Side::Upper),
        _ => None,
    }
}
