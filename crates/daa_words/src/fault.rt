//! Why words give no order.

ghost use Rattle.std.specs.Prelude.{◌≡◌};
ghost use Rattle.daa_words.specs.declared.fault.WordsFault.TheVariants.{NoMemory};

use std::alloc::AllocError;
use thiserror::Error;

/// Why words give no order.
#[derive(Clone, Copy, Debug, PartialEq, Eq, Error)]
pub enum WordsFault {
    /// The command line does not take the words; a request for help or for a version is such a
    /// case.
    #[error("the command line does not take the words")]
    NotTaken,
    /// Memory ran out. It says nothing of the words.
    #[error("there was no memory for the command line")]
    NoMemory,
}

impl From<AllocError> for WordsFault {
    ghost from_gives = { λ _ e. e ≡ NoMemory };

    fn from(_error: AllocError) -> WordsFault {
        WordsFault::NoMemory
    }
}
