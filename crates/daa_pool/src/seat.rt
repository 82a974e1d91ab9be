//! A seat, and a piece of work.

ghost use Rattle.std.specs.Prelude.{◌≡◌, true, []};

use crate::view::View;
use std::marker::Model;

/// One worker's right to step on the words of the pool. What a seat knows of the pool is its view.
#[derive(Drop)]
pub struct Seat {
    pub(crate) seat: atomic_table::Seat<(), View>,
    pub(crate) number: u32,
    pub(crate) over: bool,
    ghost numbered: { seat.me.0.number ≡ number },
    ghost marked: { seat.me.0.over ≡ over },
    ghost live: { seat.me.0.live ≡ true },
    ghost bare: { seat.me.1 ≡ [] },
}

/// One unit, which the seat that claimed it has in its hand. Contracts see it as the unit's number.
#[derive(Drop)]
pub struct Piece {
    pub(crate) unit: u32,
}

impl Model for Piece {
    ghost use Rattle.std.specs.Prelude.{ℕ};

    ghost Value = { ℕ };

    ghost view = { λ piece. piece.unit };
}

/// The unit of a piece.
pub fn unit(piece: &Piece) -> u32
    ensures { result ≡ piece.now }
{
    piece.unit
}
