//! The atomic steps, each on one word by one seat. Each that succeeds in changing a range or a
//! unit's word, and the one that ends a worker, is one step of the core; the others change nothing.

ghost use Rattle.std.specs.Prelude.{◌≡◌, ◌≢◌, ℕ, ◌<◌, ◌≤◌, ◌^◌, false, length, slice_index};
ghost use Rattle.daa_range.specs.Range.{range_len};
ghost use Rattle.daa_range.specs.Word.{packed, unpacked, IsInOrder};
ghost use Rattle.daa_schedule.specs.CoreState.{once_below};
ghost use Rattle.daa_pool.specs.View.{settled, times};
ghost use Rattle.daa_pool.specs.Inside.View.{HasNumber, HasPart, looked, looked_home};
ghost use Rattle.daa_pool.specs.Inside.View.{claimed, stolen, kept, ended};
ghost use Rattle.daa_pool.specs.Inside.Steps.{IsHome};
ghost use Rattle.daa_pool.specs.History.{IsOneHistory};
ghost use Rattle.daa_pool.specs.Seat.{view, workers_of, IsSeatOf, IsFree, HasPiece, IsDone};

use crate::pool::Pool;
use crate::rule::{Claim, End, Keep, LookAway, LookHome, Read, Settle, Steal};
use crate::seat::Seat;
use daa_range::{Range, pack};

impl Pool {
    /// Looks at the own range.
    pub(crate) fn look_home(&self, seat: &mut Seat) -> u64
        requires pool { IsSeatOf self.now seat.old }
        requires going { (view seat.old).over ≡ false }
        ensures pool { IsSeatOf self.now seat.new }
        ensures view { view seat.new ≡ looked_home (view seat.old) result }
        ensures found { IsHome (view seat.old) result }
    {
        self.table
            .shared
            .load::<LookHome>(&mut seat.seat, seat.number as usize)
    }

    /// Exchanges the own range, if it is still as it was last seen, for all but its first unit.
    /// Returns what it found: the first unit is claimed exactly if that is the range last seen.
    pub(crate) fn try_claim(&self, seat: &mut Seat, own: Range) -> u64
        requires pool { IsSeatOf self.now seat.old }
        requires free { IsFree (view seat.old) }
        requires own { (own ≡ (view seat.old).bound) × (0 < range_len own) }
        ensures pool { IsSeatOf self.now seat.new }
        ensures claimed { result ≡ packed own → (view seat.new ≡ claimed (view seat.old))
            × (own.first < length (view seat.old).answers) }
        ensures missed { result ≢ packed own → (view seat.new ≡ looked_home (view seat.old) result)
            × IsHome (view seat.old) result }
    {
        self.table.shared.compare_exchange::<Claim>(
            &mut seat.seat,
            seat.number as usize,
            pack(own),
            pack(own.rest()),
        )
    }

    /// Looks at another range.
    pub(crate) fn look_away(&self, seat: &mut Seat, other: u32) -> u64
        requires pool { IsSeatOf self.now seat.old }
        requires going { (view seat.old).over ≡ false }
        requires other { other < workers_of self.now }
        ensures pool { IsSeatOf self.now seat.new }
        ensures view { view seat.new ≡ looked (view seat.old) other result }
        ensures found { IsInOrder result }
    {
        self.table
            .shared
            .load::<LookAway>(&mut seat.seat, other as usize)
    }

    /// Exchanges another range, if it is still as it was last seen, for its lower half. Returns
    /// what it found: the upper half is stolen exactly if that is the range last seen.
    pub(crate) fn try_steal(&self, seat: &mut Seat, other: u32, range: Range) -> u64
        requires pool { IsSeatOf self.now seat.old }
        requires free { IsFree (view seat.old) × (range_len (view seat.old).bound ≡ 0) }
        requires other { (other < workers_of self.now) × (other ≢ (view seat.old).number) }
        requires range { (2 ≤ range_len range) × (range.upto < 2 ^ 32) }
        ensures pool { IsSeatOf self.now seat.new }
        ensures stolen { result ≡ packed range
            → (view seat.new ≡ stolen (view seat.old) other range)
            × (range.upto ≤ length (view seat.old).answers) }
        ensures missed { result ≢ packed range
            → view seat.new ≡ looked (view seat.old) other result }
    {
        self.table.shared.compare_exchange::<Steal>(
            &mut seat.seat,
            other as usize,
            pack(range),
            pack(range.lower_half()),
        )
    }

    /// Stores all but the first unit of the hand into the own range, which is empty.
    pub(crate) fn keep(&self, seat: &mut Seat, hand: Range)
        requires pool { IsSeatOf self.now seat.old }
        requires hand { ((view seat.old).hand ≡ hand) × (2 ≤ range_len hand)
            × (hand.upto < 2 ^ 32) }
        requires going { ((view seat.old).over ≡ false) × (range_len (view seat.old).bound ≡ 0) }
        ensures pool { IsSeatOf self.now seat.new }
        ensures view { view seat.new ≡ kept (view seat.old) }
    {
        self.table
            .shared
            .store::<Keep>(&mut seat.seat, seat.number as usize, pack(hand.rest()))
    }

    /// Stores an answer into its unit's word, which is 0.
    pub(crate) fn put(&self, seat: &mut Seat, unit: u32, word: u64)
        requires pool { IsSeatOf self.now seat.old }
        requires piece { HasPiece (view seat.old) unit }
        requires word { word ≡ slice_index (view seat.old).answers unit }
        ensures pool { IsSeatOf self.now seat.new }
        ensures view { view seat.new ≡ settled (view seat.old) word }
        ensures few { length (view seat.new).settled ≤ length (view seat.old).answers }
    {
        let index = self.workers as usize + unit as usize;
        self.table
            .shared
            .store::<Settle>(&mut seat.seat, index, word)
    }

    /// Looks at the own range, which is empty, and marks the seat over.
    pub(crate) fn end(&self, seat: &mut Seat) -> u64
        requires pool { IsSeatOf self.now seat.old }
        requires free { IsFree (view seat.old) × (range_len (view seat.old).bound ≡ 0) }
        ensures pool { IsSeatOf self.now seat.new }
        ensures view { view seat.new ≡ ended (view seat.old) result }
        ensures empty { range_len (unpacked result) ≡ 0 }
        ensures few { length (view seat.new).settled ≤ length (view seat.old).answers }
    {
        let found = self
            .table
            .shared
            .load::<End>(&mut seat.seat, seat.number as usize);
        seat.over = true;
        found
    }

    /// Reads a unit's word, once all workers have ended.
    pub(crate) fn read(&self, seat: &mut Seat, unit: usize) -> u64
        requires done { IsDone self.now seat.old }
        requires all { (number : ℕ) → number < workers_of self.now
            → HasNumber (view seat.old) number }
        requires unit { unit < length (view seat.old).answers }
        ensures done { IsDone self.now seat.new }
        ensures view { view seat.new ≡ view seat.old }
        ensures word { result ≡ slice_index (view seat.old).answers unit }
        ensures once { (u : ℕ)
            → times u (view seat.old).settled ≡ once_below u (length (view seat.old).answers) }
        ensures history { IsOneHistory (view seat.old).answers (view seat.old).workers
            (HasPart (view seat.old)) }
    {
        let index = self.workers as usize + unit;
        self.table.shared.load::<Read>(&mut seat.seat, index)
    }
}
