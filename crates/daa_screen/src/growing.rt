//! The shared value: what its ends know of it, and how the next value replaces the one shown.

use crate::latest::Latest;
use atomic_table::{Join, Split};
use crossbeam_utils::rule::{Outcome, Protocol};
use left_right::Absorb;
use left_right::reader::Reader;
use left_right::writer::Writer;
use std::alloc::AllocError;

/// What is shown only grows: it goes on from all that any end of the shared value has seen. An end
/// knows what it has seen, if it has seen anything.
pub struct OnlyGrows;

impl Protocol<Latest, Option<Latest>> for OnlyGrows {
    ghost use Rattle.std.specs.Prelude.{None};
    ghost use Rattle.daa_screen.specs.Inside.Growing.{IsGrowing};

    ghost holds = { IsGrowing };

    ghost first = { None };
}

/// The feed publishes, and has seen what it shows.
pub(crate) struct Publish;

impl Outcome<Latest, Option<Latest>> for Publish {
    ghost use Rattle.std.specs.Prelude.{◌≡◌, Some};

    ghost then = { λ before old new after. after ≡ Some new };
}

/// A screen looks.
pub(crate) struct Look;

impl Outcome<Latest, Option<Latest>> for Look {
    ghost use Rattle.daa_screen.specs.Inside.Growing.{Looks};

    ghost then = { λ before old new after. Looks before new after };
}

/// A screen learns what the feed has seen.
pub(crate) struct Tell;

impl Split<Option<Latest>> for Tell {
    ghost left = { λ seen. seen };

    ghost right = { λ seen. seen };
}

impl Join<Option<Latest>> for Tell {
    ghost use Rattle.std.specs.Prelude.{None};

    ghost both = { λ old seen. seen };

    ghost spent = { None };
}

/// The next value replaces the one shown.
impl Absorb<Latest> for Latest {
    type State = Latest;

    ghost state = { λ shown. shown };

    ghost applied = { λ shown next. next };

    ghost never_fails = { Unit {0} };

    fn absorb_first(&mut self, operation: &Latest, _other: &Latest) -> Result<(), AllocError> {
        *self = operation.again();
        Ok(())
    }

    fn absorb_second(&mut self, operation: Latest, _other: &Latest) -> Result<(), Latest> {
        *self = operation;
        Ok(())
    }
}

pub(crate) type LatestWriter = Writer<Latest, Latest, Option<Latest>, OnlyGrows>;

pub(crate) type LatestReader = Reader<Latest, Option<Latest>, OnlyGrows>;
