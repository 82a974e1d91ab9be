//! Settling units, and working until nothing is left.

ghost use Rattle.std.specs.Prelude.{◌≡◌, ◌≤◌, length, slice_index};
ghost use Rattle.daa_pool.specs.View.{settled};
ghost use Rattle.daa_pool.specs.Seat.{view, IsSeatOf, IsSameSeat, HasPiece, IsReady, IsDone};
ghost use Rattle.daa_pool.specs.Work.{SettlesMore, GivesUp};

use crate::pool::Pool;
use crate::seat::{Piece, Seat, unit};
use daa_io::Gate;
use daa_schedule::Answers;

impl Pool {
    /// Puts the answer of a unit on the board. The seat holds the unit's piece, and the word is the
    /// answer.
    pub fn settle(&self, seat: &mut Seat, piece: Piece, word: u64)
        requires pool { IsSeatOf self.now seat.old }
        requires piece { HasPiece (view seat.old) piece }
        requires word { word ≡ slice_index (view seat.old).answers piece }
        ensures pool { IsSeatOf self.now seat.new }
        ensures settled { view seat.new ≡ settled (view seat.old) word }
        ensures few { length (view seat.new).settled ≤ length (view seat.old).answers }
    {
        self.put(seat, piece.unit, word);
    }

    /// Whether the seat is over. A call for other programs: `work` needs no such question, and
    /// `daidalus` does not make it.
    pub fn is_over(&self, seat: &Seat) -> bool
        requires { IsSeatOf self.now seat.now }
        ensures { result ≡ (view seat.now).over }
    {
        seat.over
    }

    /// Claims, passes the gate, answers and settles until a claim finds nothing; then the seat is
    /// over. The answers must be the ones that the pool was opened for.
    pub fn work<A: Answers, G: Gate>(&self, seat: &mut Seat, answers: &A, gate: &G)
        requires ready { IsReady self.now seat.old (A.answers answers.now) }
        ensures done { IsDone self.now seat.new }
        ensures same_seat { IsSameSeat (view seat.old) (view seat.new) }
        ensures settles { SettlesMore (view seat.old) (view seat.new) }
        ensures gives_up { GivesUp (view seat.old) (view seat.new) }
    {
        while let Some(piece) = self.claim(seat) {
            let unit = unit(&piece);
            gate.pass(seat.number, unit);
            let word = answers.word(unit);
            self.settle(seat, piece, word);
        }
    }
}
