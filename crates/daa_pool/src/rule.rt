//! The rule of the table, and what each kind of step shows.

ghost use Rattle.std.specs.Prelude.{ℕ, List, []};
ghost use Rattle.daa_pool.specs.Inside.View.{left_behind, next_seat, gathered, spent};
ghost use Rattle.daa_pool.specs.Inside.Steps.{begins, looks_home, claims, looks_away};
ghost use Rattle.daa_pool.specs.Inside.Steps.{steals, keeps, settles, ends, reads};

use crate::pool::Size;
use crate::view::View;
use atomic_table::{Join, Play, Split, TableRule};
use std::marker::{Brand, PhantomData};

/// The rule of the table: its words and the views of its seats show a core that is whole.
pub(crate) struct PoolRule;

impl TableRule<(), View, Size> for PoolRule {
    ghost use Rattle.daa_pool.specs.Inside.Rule.{Holds};
    ghost use Rattle.daa_pool.specs.Inside.View.{blank};

    ghost holds = { Holds };

    ghost first = { λ size. blank };
}

/// What the first seat is given. Each call of a program picks it.
pub(crate) trait Briefing {
    /// The number of workers.
    ghost workers: { ℕ };

    /// The answers, in order of units.
    ghost answers: { List ℕ };
}

impl Briefing for Brand {
    ghost workers = { 0 };

    ghost answers = { [] };
}

pub(crate) struct Begin<J> {
    marker: PhantomData<J>,
}

impl<J: Briefing> Play<(), View> for Begin<J> {
    ghost then = { λ step before found after. begins J.workers J.answers step before found after };
}

pub(crate) struct LookHome;

impl Play<(), View> for LookHome {
    ghost then = { looks_home };
}

pub(crate) struct Claim;

impl Play<(), View> for Claim {
    ghost then = { claims };
}

pub(crate) struct LookAway;

impl Play<(), View> for LookAway {
    ghost then = { looks_away };
}

pub(crate) struct Steal;

impl Play<(), View> for Steal {
    ghost then = { steals };
}

pub(crate) struct Keep;

impl Play<(), View> for Keep {
    ghost then = { keeps };
}

pub(crate) struct Settle;

impl Play<(), View> for Settle {
    ghost then = { settles };
}

pub(crate) struct End;

impl Play<(), View> for End {
    ghost then = { ends };
}

pub(crate) struct Read;

impl Play<(), View> for Read {
    ghost then = { reads };
}

pub(crate) struct SplitSeat;

impl Split<View> for SplitSeat {
    ghost left = { left_behind };

    ghost right = { next_seat };
}

pub(crate) struct JoinSeat;

impl Join<View> for JoinSeat {
    ghost both = { gathered };

    ghost spent = { spent };
}
