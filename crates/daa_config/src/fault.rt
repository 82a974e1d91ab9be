//! Why a configuration is refused.

ghost use Rattle.std.specs.Prelude.{◌≡◌};
ghost use Rattle.daa_config.specs.declared.fault.ConfigFault.TheVariants.{NoMemory};

use std::alloc::{AllocError, AllocFailed};
use thiserror::Error;

/// Why a configuration is refused. If several faults apply, the one with the smallest number is
/// reported, wherever in the text it is. `NoMemory` says nothing of the text.
#[derive(Clone, Copy, Debug, PartialEq, Eq, Error)]
pub enum ConfigFault {
    /// The text has more than 65536 bytes.
    #[error("fault 1: the text is longer than 65536 bytes")]
    TooLong,
    /// The text is not UTF-8, or no document of TOML.
    #[error("fault 2: the text is no TOML document")]
    NotToml,
    /// A table has a key that is not listed.
    #[error("fault 3: a key is unknown")]
    UnknownKey,
    /// A table lacks a key that it must have.
    #[error("fault 4: a key is missing")]
    MissingKey,
    /// A number's place holds no whole number, `gs`, `vs`, `alt` or `recovery` is no table, or
    /// `level` is no list of tables.
    #[error("fault 5: a value is no whole number, or no table")]
    NotNumber,
    /// A number is outside its range, `min` is above `max`, `track_step` does not divide 360, or
    /// two of the keys `tau`, `tcpa` and `tep` of a level are 1.
    #[error("fault 6: a number is out of its range")]
    OutOfRange,
    /// There is no level, there are more than four, or `resolve` is above their number.
    #[error("fault 7: there is no level, there are too many, or `resolve` is above them")]
    Levels,
    /// A kind has more than 512 candidates.
    #[error("fault 8: a kind has too many candidates")]
    TooMany,
    /// Memory ran out.
    #[error("memory ran out")]
    NoMemory,
}

impl ConfigFault {
    ghost use Rattle.daa_config.specs.Fault.{code_of};

    /// The number of the fault, 1 to 8; none for `NoMemory`.
    pub fn code(self) -> Option<u8>
        ensures { result ≡ code_of self }
    {
        match self {
            ConfigFault::TooLong => Some(1),
            ConfigFault::NotToml => Some(2),
            ConfigFault::UnknownKey => Some(3),
            ConfigFault::MissingKey => Some(4),
            ConfigFault::NotNumber => Some(5),
            ConfigFault::OutOfRange => Some(6),
            ConfigFault::Levels => Some(7),
            ConfigFault::TooMany => Some(8),
            ConfigFault::NoMemory => None,
        }
    }
}

impl From<AllocError> for ConfigFault {
    ghost from_gives = { λ _ e. e ≡ NoMemory };

    fn from(_error: AllocError) -> ConfigFault {
        ConfigFault::NoMemory
    }
}

impl<T: Drop> From<AllocFailed<T>> for ConfigFault {
    ghost from_gives = { λ _ e. e ≡ NoMemory };

    fn from(_error: AllocFailed<T>) -> ConfigFault {
        ConfigFault::NoMemory
    }
}
