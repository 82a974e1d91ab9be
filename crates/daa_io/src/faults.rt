//! What an object outside returns if it fails, and the counter that goes with it.

ghost use Rattle.std.specs.Prelude.{◌≡◌};
ghost use Rattle.daa_io.specs.Faults.{one_more};

use thiserror::Error;

/// A call to the outside failed. It is returned only if that object's fault counter rose.
#[derive(Clone, Copy, Debug, PartialEq, Eq, Error)]
#[error("a call to the outside failed")]
pub struct Failed;

/// The counter after one more, which stops at the greatest number.
pub(crate) fn count_up(count: u64) -> u64
    ensures { result ≡ one_more count }
{
    count.saturating_add(1)
}
